//! Look-ups in an ascending list of terms. Each takes steps in proportion to the logarithm of the list's length.
ghost use Rattle.std.specs.Prelude.{◌≡◌, true, false};
ghost use Rattle.std.specs.Cmp.Lexicographic.{slice_cmp};
ghost use Rattle.std.specs.List.{list_any};
ghost use Rattle.std.specs.List.Sorted.{IsPartitionPoint};
ghost use Rattle.std.specs.Ordering.{is_lt, nat_cmp};
ghost use Rattle.portal_base.specs.Ordered.{IsAscending};
ghost use Rattle.search_index.specs.Items.{has_prefix, has_term};

use portal_base::text::Text;

/// The index of the first term that isn't before this one, or the count of all terms.
fn first_from(terms: &[Text], term: &Text) -> usize
    requires { IsAscending (slice_cmp nat_cmp) terms.now }
    ensures { IsPartitionPoint (λ other. is_lt (slice_cmp nat_cmp other term.now) ≡ true)
        (λ other. is_lt (slice_cmp nat_cmp other term.now) ≡ false) terms.now result }
{
    terms.partition_point(|other| other.cmp(term).is_lt())
}

/// Whether this is one of the terms.
pub(crate) fn has_term(terms: &[Text], term: &Text) -> bool
    requires { IsAscending (slice_cmp nat_cmp) terms.now }
    ensures { result ≡ has_term terms.now term.now }
{
    match terms.get(first_from(terms, term)) {
        Some(other) => other == term,
        None => false,
    }
}

/// Whether one of the terms begins with the prefix.
pub(crate) fn has_prefix(terms: &[Text], prefix: &Text) -> bool
    requires { IsAscending (slice_cmp nat_cmp) terms.now }
    ensures { result ≡ has_prefix terms.now prefix.now }
{
    match terms.get(first_from(terms, prefix)) {
        Some(term) => term.as_bytes().starts_with(prefix.as_bytes()),
        None => false,
    }
}

/// Whether one of the others is one of the terms.
pub(crate) fn has_any(terms: &[Text], others: &[Text]) -> bool
    requires { IsAscending (slice_cmp nat_cmp) terms.now }
    ensures { result ≡ list_any (has_term terms.now) others.now }
{
    others.iter().any(|other| has_term(terms, other))
}
