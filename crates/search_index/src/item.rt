//! The items of a query.
ghost use Rattle.std.specs.Prelude.{◌≡◌};
ghost use Rattle.std.specs.Cmp.Lexicographic.{slice_cmp};
ghost use Rattle.std.specs.Ordering.{nat_cmp};
ghost use Rattle.portal_base.specs.Ordered.{IsAscending};
ghost use Rattle.search_index.specs.Items.{passes, passes_all};

use crate::term_set::{has_prefix, has_term};
use portal_base::seq::Seq;
use portal_base::text::Text;

/// A test of a dataset's terms.
#[derive(Drop, PartialEq, Eq, PartialOrd, Ord)]
pub enum Test {
    /// Whether one of them is this one.
    Term(Text),
    /// Whether one of them begins with this.
    Prefix(Text),
}

impl Test {
    /// Whether the terms pass. They ascend.
    fn passes(&self, terms: &[Text]) -> bool
        requires { IsAscending (slice_cmp nat_cmp) terms.now }
        ensures { result ≡ passes terms.now self.now }
    {
        match self {
            Test::Term(term) => has_term(terms, term),
            Test::Prefix(prefix) => has_prefix(terms, prefix),
        }
    }
}

/// Whether the terms pass all tests. They ascend.
pub(crate) fn pass_all(terms: &[Text], tests: &[Test]) -> bool
    requires { IsAscending (slice_cmp nat_cmp) terms.now }
    ensures { result ≡ passes_all terms.now tests.now }
{
    tests.iter().all(|test| test.passes(terms))
}

/// What a query asks of a dataset's terms: to pass all of these tests, or, if it excludes, not to pass all of them.
#[derive(Drop)]
pub struct Item {
    pub is_excluding: bool,
    pub tests: Seq<Test>,
}
