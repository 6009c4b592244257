//! The index: the terms of each dataset of a shelf.
//!
//! `prepare` alone takes memory. `commit` and `remove` change the index as the shelf changes.
ghost use Rattle.std.specs.Prelude.{◌≡◌, ◌<◌, ◌≤◌, ◌^◌, ℕ, List, [], length, IfNone, IfOk, IfSome, OnOk, Some, ◌++◌};
ghost use Rattle.std.specs.Cmp.Lexicographic.{slice_cmp};
ghost use Rattle.std.specs.Ordering.{nat_cmp};
ghost use Rattle.portal_base.specs.Ordered.{IsAscending, upserted};
ghost use Rattle.packages.specs.Shelf as shelves;
ghost use Rattle.packages.specs.Shelf.{IsValidShelf, ShelfState, package_at, with_package};
ghost use Rattle.packages.specs.declared.package.Package.{Package};
ghost use Rattle.search_index.specs.declared.item.Item.{Item};
ghost use Rattle.search_index.specs.Demands.{Means, meets};
ghost use Rattle.search_index.specs.Index.{StandsFor, entries_from, numbers_found, numbers_selected, with_terms, without_number};
ghost use Rattle.search_index.specs.Index.{entry_cmp, entry_of, selected_at};
ghost use Rattle.search_index.specs.Terms.{terms_of};

use crate::query::SearchQuery;
use crate::terms::terms_of;
use packages::laws::a_set_has_its_texts;
use packages::package::Package;
use packages::shelf::Shelf;
use portal_base::seq::Seq;
use portal_base::steps::Steps;
use portal_base::text::Text;
use std::alloc::{AllocError, Global};
use std::marker::Model;
use std::sync::ledger::Ledger;

/// The terms of one dataset. In contracts they are a list without repeats, ordered by bytes.
#[derive(Drop)]
pub(crate) struct Terms {
    terms: Vec<Text>,
}

impl Model for Terms {
    ghost use Rattle.std.specs.Prelude.{ℕ, List};
    ghost use Rattle.std.specs.Cmp.Lexicographic.{slice_cmp};
    ghost use Rattle.std.specs.Ordering.{nat_cmp};
    ghost use Rattle.portal_base.specs.Ordered.{IsAscending};

    ghost Value = { List (List ℕ) };

    ghost view = { λ t. t.terms.items };

    ghost invariant = { λ t. IsAscending (slice_cmp nat_cmp) t.terms.items };
}

impl Terms {
    fn of(alloc: Global, dataset: &Package) -> Result<Terms, AllocError>
        ensures { IfOk result (λ terms. terms ≡ terms_of dataset.now) }
    {
        a_set_has_its_texts();
        let terms = terms_of(alloc, dataset)?;
        Ok(Terms { terms })
    }

    fn are_selected(&self, query: &SearchQuery) -> bool
        ensures { result ≡ meets query.now self.now }
    {
        query.selects(self.terms.as_slice())
    }
}

/// The terms of a dataset that an index has room for.
#[derive(Drop)]
pub struct PreparedTerms {
    pub(crate) number: u32,
    pub(crate) terms: Terms,
}

/// The terms of datasets by number. In contracts its value is the list of the numbers with their terms, ordered by number,
/// and how far there is room for more.
#[derive(Drop)]
pub struct Index {
    alloc: Global,
    /// The terms at each number, if a dataset has it.
    rows: Vec<Option<Terms>>,
}

impl Model for Index {
    ghost use Rattle.std.specs.Prelude.{◌≤◌, ◌^◌, length};
    ghost use Rattle.search_index.specs.Index.{IndexState, entries_from};

    ghost Value = { IndexState };

    ghost view = { λ index. record { entries = entries_from 0 index.rows.items; room = length index.rows.items } };

    ghost invariant = { λ index. length index.rows.items ≤ 2 ^ 32 };
}

/// Adds empty rows up to the number. If memory is out, some may have been added.
#[tactic(auto, using(crate::proofs::EntryLemmas::empty_row_added))]
fn lengthen(rows: &mut Vec<Option<Terms>>, number: u32) -> Result<(), AllocError>
    requires { length rows.old.items ≤ 2 ^ 32 }
    ensures room { OnOk result (number < length rows.new.items) }
    ensures grows { length rows.old.items ≤ length rows.new.items }
    ensures bound { length rows.new.items ≤ 2 ^ 32 }
    ensures same { entries_from 0 rows.new.items ≡ entries_from 0 rows.old.items }
{
    while rows.len() <= number as usize {
        rows.push(None)?;
    }
    Ok(())
}

/// Adds the number, if the terms at it are selected.
fn push_selected(
    found: &mut Vec<u32>,
    number: u32,
    row: &Option<Terms>,
    query: &SearchQuery,
) -> Result<(), AllocError>
    ensures { OnOk result (found.new.items ≡ found.old.items ++ selected_at query.now number row.now) }
{
    match row {
        Some(terms) if terms.are_selected(query) => {
            found.push(number)?;
            Ok(())
        }
        _ => Ok(()),
    }
}

/// The numbers of the rows whose terms are selected, ascending.
fn numbers_selected(
    alloc: Global,
    rows: &[Option<Terms>],
    query: &SearchQuery,
) -> Result<Seq<u32>, AllocError>
    requires { length rows.now ≤ 2 ^ 32 }
    ensures { IfOk result (λ found. found ≡ numbers_selected query.now 0 rows.now) }
{
    let mut found = Vec::new(alloc);
    for (number, row) in rows.iter().enumerate() {
        push_selected(&mut found, number as u32, row, query)?;
    }
    Ok(Seq::from(found))
}

impl Index {
    /// An index without numbers. It takes no memory.
    pub fn new(alloc: Global) -> Index
        ensures { result.entries ≡ [] }
    {
        Index {
            alloc,
            rows: Vec::new(alloc),
        }
    }

    /// The index of a shelf: the terms of each of its datasets.
    pub fn of(alloc: Global, shelf: &Shelf) -> Result<Index, AllocError>
        requires { IsValidShelf shelf.now }
        ensures { IfOk result (λ index. StandsFor index shelf.now) }
    {
        let mut index = Index::new(alloc);
        let numbers = shelf.numbers(alloc)?;
        for number in numbers.as_slice() {
            index.enter(shelf, *number)?;
        }
        Ok(index)
    }

    /// Enters the terms of the shelf's dataset at a number.
    fn enter(&mut self, shelf: &Shelf, number: u32) -> Result<(), AllocError>
        ensures { (dataset : Package) → package_at number shelf.now ≡ Some dataset → OnOk result
            (self.new.entries ≡ upserted entry_cmp (entry_of (number, dataset)) self.old.entries) }
    {
        if let Some(dataset) = shelf.package_at(number) {
            let terms = self.prepare(number, dataset)?;
            self.commit(terms);
        }
        Ok(())
    }

    /// Makes room for the number, and returns the terms of the dataset. If memory is out, the entries stay.
    pub fn prepare(&mut self, number: u32, package: &Package) -> Result<PreparedTerms, AllocError>
        ensures number { IfOk result (λ prepared. prepared.number ≡ number) }
        ensures terms { IfOk result (λ prepared. prepared.terms ≡ terms_of «package».now) }
        ensures room { IfOk result (λ prepared. prepared.number < self.new.room) }
        ensures grows { self.old.room ≤ self.new.room }
        ensures same { self.new.entries ≡ self.old.entries }
    {
        let terms = Terms::of(self.alloc, package)?;
        lengthen(&mut self.rows, number)?;
        Ok(PreparedTerms { number, terms })
    }

    /// Enters the terms at their number, in place of those there. It takes no memory and can't fail.
    pub fn commit(&mut self, terms: PreparedTerms)
        requires { terms.number < self.old.room }
        ensures entered { self.new ≡ with_terms terms.number terms.terms self.old }
        ensures stands { (shelf : ShelfState) (dataset : Package) → terms.terms ≡ terms_of dataset →
            StandsFor self.old shelf → StandsFor self.new (with_package terms.number dataset shelf) }
    {
        let PreparedTerms { number, terms } = terms;
        self.set(number, Some(terms));
    }

    /// Removes the terms at the number. It takes no memory and can't fail.
    pub fn remove(&mut self, number: u32)
        ensures removed { self.new ≡ without_number number self.old }
        ensures stands { (shelf : ShelfState) → StandsFor self.old shelf →
            StandsFor self.new (shelves.without_number number shelf) }
    {
        if (number as usize) < self.rows.len() {
            self.set(number, None);
        }
    }

    /// Sets the terms at a number, or clears them.
    fn set(&mut self, number: u32, row: Option<Terms>)
        requires { number < self.old.room }
        ensures entered { IfSome row (λ terms. self.new ≡ with_terms number terms self.old) }
        ensures cleared { IfNone row (self.new ≡ without_number number self.old) }
    {
        self.rows[number as usize] = row;
    }

    /// The numbers of the shelf's datasets that match the query, ascending. It looks at no dataset.
    pub fn find<L: Ledger>(
        &self,
        query: &SearchQuery,
        shelf: &Shelf,
        steps: &mut Steps<L>,
    ) -> Result<Seq<u32>, AllocError>
        requires { StandsFor self.now shelf.now }
        ensures found { (items : List Item) → Means query.now items →
            IfOk result (λ found. found ≡ numbers_found items shelf.now) }
        ensures steps { steps.new ≡ steps.old }
    {
        numbers_selected(self.alloc, self.rows.as_slice(), query)
    }
}
