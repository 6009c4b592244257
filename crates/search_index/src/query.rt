//! A query, which selects datasets.
ghost use Rattle.std.specs.Prelude.{◌≡◌, ◌++◌, IfOk};
ghost use Rattle.std.specs.Cmp.Lexicographic.{slice_cmp};
ghost use Rattle.std.specs.Ordering.{nat_cmp};
ghost use Rattle.portal_base.specs.Ordered.{IsAscending};
ghost use Rattle.search_index.specs.Demands.{Means, meets};
ghost use Rattle.search_index.specs.Reading.{items_of};

use crate::demands::Demands;
use crate::reading::push_items;
use portal_base::text::Text;
use std::alloc::{AllocError, Global};
use std::marker::Model;

/// A query that was read. In contracts its value is what its items demand.
#[derive(Drop)]
pub struct SearchQuery {
    demands: Demands,
}

impl Model for SearchQuery {
    ghost use Rattle.std.specs.Cmp.Lexicographic.{slice_cmp};
    ghost use Rattle.std.specs.Ordering.{nat_cmp};
    ghost use Rattle.portal_base.specs.Ordered.{IsAscending};
    ghost use Rattle.search_index.specs.declared.demands.Demands.{Demands};

    ghost Value = { Demands };

    ghost view = { λ query. query.demands };

    ghost invariant = { λ query. IsAscending (slice_cmp nat_cmp) query.demands.excluded_terms.items };
}

impl SearchQuery {
    /// Reads the two texts of a query. Each has items, and a dataset matches if all items of both select it. Each text can be
    /// read.
    pub fn read(alloc: Global, q: &str, fq: &str) -> Result<SearchQuery, AllocError>
        ensures { IfOk result (λ query. Means query (items_of q.now ++ items_of fq.now)) }
    {
        let mut items = Vec::new(alloc);
        push_items(alloc, &mut items, q)?;
        push_items(alloc, &mut items, fq)?;
        let demands = Demands::of(alloc, items)?;
        Ok(SearchQuery { demands })
    }

    /// Whether it selects these terms, which ascend.
    pub(crate) fn selects(&self, terms: &[Text]) -> bool
        requires { IsAscending (slice_cmp nat_cmp) terms.now }
        ensures { result ≡ meets self.now terms.now }
    {
        self.demands.are_met(terms)
    }
}
