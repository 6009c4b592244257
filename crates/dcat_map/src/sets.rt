//! Sets of terms and of triples, as their ascending lists.
ghost use Rattle.std.specs.Prelude.{◌≡◌};
ghost use Rattle.dcat_map.specs.Sets.{ascending_set};
ghost use Rattle.dcat_map.specs.Terms.{term_cmp, triple_cmp};

use crate::terms::{compare_terms, compare_triples};
use ntriples::{Borrowed, Term, Triple};

/// Sorts the terms, and leaves each once.
pub(crate) fn make_term_set(terms: &mut Vec<Borrowed<'_, Term>>)
    ensures { terms.new.items ≡ ascending_set term_cmp terms.old.items }
{
    terms.sort_unstable_by(|first, second| compare_terms(first.get(), second.get()));
    terms.dedup_by(|first, second| compare_terms(first.get(), second.get()).is_eq());
}

/// Sorts the triples, and leaves each once.
pub(crate) fn make_triple_set(triples: &mut Vec<Borrowed<'_, Triple>>)
    ensures { triples.new.items ≡ ascending_set triple_cmp triples.old.items }
{
    triples.sort_unstable_by(|first, second| compare_triples(first.get(), second.get()));
    triples.dedup_by(|first, second| compare_triples(first.get(), second.get()).is_eq());
}
