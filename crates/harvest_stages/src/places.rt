//! Lists in order, and places in them.
ghost use Rattle.std.specs.Prelude.{◌≡◌, ◌↔◌, ◌<◌, IfSome, IsTrue, is_some, length, option_map, position};
ghost use Rattle.std.specs.List.Sorted.{IsPermutation, IsSortedBy};
ghost use Rattle.std.specs.Ordering.{is_eq, is_lt};
ghost use Rattle.portal_base.specs.Ordered.{IsAscending, are_apart, ascending};
ghost use Rattle.harvest_sources.specs.Sources.{source_cmp, source_named, states};

use harvest_sources::SourceJobs;
use portal_base::ordered::{Key, Ordered, find_in_order};
use portal_base::text::Text;

/// The items in their order, unless two are equal in it.
pub(crate) fn in_order<T: Ordered + Drop>(items: Vec<T>) -> Option<Vec<T>>
    ensures exactly { is_some result ≡ are_apart T.order items.items }
    ensures items { IfSome result (λ sorted. sorted.items ≡ ascending T.order items.items) }
    ensures ascending { IfSome result (λ sorted. IsAscending T.order sorted.items) }
{
    let items = sorted(items);
    if ascends(items.as_slice()) {
        Some(items)
    } else {
        None
    }
}

/// The items in their order. Equal ones are in any order.
fn sorted<T: Ordered>(mut items: Vec<T>) -> Vec<T>
    ensures permutation { IsPermutation items.items result.items }
    ensures sorted { IsSortedBy (λ x y. is_lt (T.order x y)) result.items }
{
    items.sort_unstable_by(|first, second| first.compare(second));
    items
}

/// Whether each item is below the next one.
fn ascends<T: Ordered>(items: &[T]) -> bool
    ensures { IsTrue result ↔ IsAscending T.order items.now }
{
    items.is_sorted_by(|item, next| item.compare(next).is_lt())
}

/// The place of the item with the key, by a binary search.
pub(crate) fn place_of<T: Ordered, K: Key<T>>(items: &[T], key: &K) -> Option<usize>
    requires { IsAscending T.order items.now }
    ensures place { result ≡ position (λ item. is_eq (K.at key.now item)) items.now }
    ensures within { IfSome result (λ place. place < length items.now) }
{
    items.binary_search_by(|item| key.compare_item(item)).ok()
}

/// The source of that name.
pub(crate) fn find_source<'a>(sources: &'a [SourceJobs], name: &Text) -> Option<&'a SourceJobs>
    requires { IsAscending source_cmp (states sources.now) }
    ensures { option_map (λ s. s.now.state) result ≡ source_named (states sources.now) name.now }
{
    find_in_order(sources, name)
}
