//! What the items of a query demand, put together so that no test is made twice.
ghost use Rattle.std.specs.Prelude.{◌≡◌, ◌&&◌, ◌++◌, not, ℕ, List, IfOk, OnOk, true};
ghost use Rattle.std.specs.Cmp.Lexicographic.{slice_cmp};
ghost use Rattle.std.specs.List.{list_any};
ghost use Rattle.std.specs.Ordering.{nat_cmp};
ghost use Rattle.portal_base.specs.Ordered.{IsAscending};
ghost use Rattle.search_index.specs.Demands.{Means, meets};
ghost use Rattle.search_index.specs.Items.{passes_all, selects};

use crate::item::{Item, Test, pass_all};
use crate::term_set::has_any;
use packages::laws::a_set_has_its_texts;
use packages::tags::sort_and_dedup;
use portal_base::copy::TryClone;
use portal_base::text::Text;
use std::alloc::{AllocError, Global};

/// The demands of a query.
#[derive(Drop)]
pub struct Demands {
    /// The terms of a dataset pass each.
    tests: Vec<Test>,
    /// None is a term of a dataset.
    excluded_terms: Vec<Text>,
    /// The terms of a dataset don't pass all tests of any of these.
    excluded: Vec<Vec<Test>>,
}

/// Adds tests to a list.
fn push_all(tests: &mut Vec<Test>, more: Vec<Test>) -> Result<(), AllocError>
    ensures { OnOk result (tests.new.items ≡ tests.old.items ++ more.items) }
{
    for test in more {
        tests.push(test)?;
    }
    Ok(())
}

/// Puts tests in order and drops repeats.
fn sort_tests(tests: &mut Vec<Test>)
    ensures { (terms : List (List ℕ)) → passes_all terms tests.new.items ≡ passes_all terms tests.old.items }
{
    tests.sort_unstable();
    tests.dedup();
}

/// Puts lists of tests in order and drops repeats.
fn sort_excluded(excluded: &mut Vec<Vec<Test>>)
    ensures { (terms : List (List ℕ)) → list_any (λ tests. passes_all terms tests.items) excluded.new.items
        ≡ list_any (λ tests. passes_all terms tests.items) excluded.old.items }
{
    excluded.sort_unstable();
    excluded.dedup();
}

/// Whether the terms pass all tests of one of these lists. They ascend.
fn pass_any(terms: &[Text], lists: &[Vec<Test>]) -> bool
    requires { IsAscending (slice_cmp nat_cmp) terms.now }
    ensures { result ≡ list_any (λ tests. passes_all terms.now tests.items) lists.now }
{
    lists.iter().any(|tests| pass_all(terms, tests.as_slice()))
}

impl Demands {
    /// No demands.
    fn new(alloc: Global) -> Demands
        ensures { (terms : List (List ℕ)) → meets result terms ≡ true }
    {
        Demands {
            tests: Vec::new(alloc),
            excluded_terms: Vec::new(alloc),
            excluded: Vec::new(alloc),
        }
    }

    /// Adds tests that terms have to pass.
    fn require(&mut self, tests: Vec<Test>) -> Result<(), AllocError>
        ensures { OnOk result ((terms : List (List ℕ)) →
            meets self.new terms ≡ (passes_all terms tests.items && meets self.old terms)) }
    {
        push_all(&mut self.tests, tests)
    }

    /// Adds tests that terms must not all pass.
    fn exclude(&mut self, alloc: Global, tests: Vec<Test>) -> Result<(), AllocError>
        ensures { OnOk result ((terms : List (List ℕ)) →
            meets self.new terms ≡ (not (passes_all terms tests.items) && meets self.old terms)) }
    {
        if let [test] = tests.as_slice() {
            if let Test::Term(term) = test {
                self.excluded_terms.push(term.try_clone(alloc)?)?;
                return Ok(());
            }
        }
        self.excluded.push(tests)?;
        Ok(())
    }

    /// Adds what an item demands.
    fn add(&mut self, alloc: Global, item: Item) -> Result<(), AllocError>
        ensures { OnOk result ((terms : List (List ℕ)) →
            meets self.new terms ≡ (selects terms item && meets self.old terms)) }
    {
        let tests = item.tests.into_vec();
        if item.is_excluding {
            self.exclude(alloc, tests)
        } else {
            self.require(tests)
        }
    }

    /// What all these items demand.
    pub(crate) fn of(alloc: Global, items: Vec<Item>) -> Result<Demands, AllocError>
        ensures means { IfOk result (λ demands. Means demands items.items) }
        ensures order { IfOk result (λ demands. IsAscending (slice_cmp nat_cmp) demands.excluded_terms.items) }
    {
        let mut demands = Demands::new(alloc);
        for item in items {
            demands.add(alloc, item)?;
        }
        demands.sort();
        Ok(demands)
    }

    /// Puts the demands in order and drops repeats.
    fn sort(&mut self)
        ensures same { (terms : List (List ℕ)) → meets self.new terms ≡ meets self.old terms }
        ensures order { IsAscending (slice_cmp nat_cmp) self.new.excluded_terms.items }
    {
        a_set_has_its_texts();
        sort_tests(&mut self.tests);
        sort_and_dedup(&mut self.excluded_terms);
        sort_excluded(&mut self.excluded);
    }

    /// Whether ascending terms meet the demands. Each of the terms is looked up among the excluded ones.
    pub(crate) fn are_met(&self, terms: &[Text]) -> bool
        requires terms { IsAscending (slice_cmp nat_cmp) terms.now }
        requires excluded { IsAscending (slice_cmp nat_cmp) self.now.excluded_terms.items }
        ensures { result ≡ meets self.now terms.now }
    {
        if !pass_all(terms, self.tests.as_slice()) {
            return false;
        }
        if has_any(self.excluded_terms.as_slice(), terms) {
            return false;
        }
        !pass_any(terms, self.excluded.as_slice())
    }
}
