//! The first items in an order. They are found by a selection, so that the other items need not be sorted.
ghost use Rattle.std.specs.Prelude.{◌≡◌, ◌<◌, IsTrue, length, take};
ghost use Rattle.std.specs.List.Sorted.{IsPermutation, IsSorted};
ghost use Rattle.portal_base.specs.Ordered.{are_apart, ascending};

use std::cmp::Ordering;

/// An order of items.
pub trait Order<T> {
    ghost use Rattle.std.specs.declared.cmp.Ordering.{Ordering};
    ghost use Rattle.std.specs.Cmp.{IsTotalOrder};

    /// How the first of two items stands to the second.
    ghost cmp: { Self → T → T → Ordering };

    /// Compares two items.
    fn compare(&self, one: &T, other: &T) -> Ordering
        ensures { result ≡ cmp self.now one.now other.now };

    ghost total: { (order : Self) → IsTotalOrder (cmp order) };
}

// Sorts items. It takes no memory.
fn put_in_order<T, O: Order<T>>(items: &mut [T], order: &O)
    ensures permutation { IsPermutation items.old items.new }
    ensures sorted { IsSorted (O.cmp order.now) items.new }
{
    items.sort_unstable_by(
        |one: &T, other: &T| -> Ordering
            ensures { result ≡ O.cmp order.entry.now one.now other.now }
        { order.compare(one, other) },
    );
}

// Moves this many of the first items in the order to the front, and sorts these alone. It takes no memory.
fn select_first<'s, T, O: Order<T>>(items: &'s mut [T], order: &O, count: usize) -> &'s [T]
    requires apart { IsTrue (are_apart (O.cmp order.now) items.old) }
    requires more { count < length items.old }
    ensures { result.now ≡ take count (ascending (O.cmp order.now) items.old) }
{
    let (front, _, _) = items.select_nth_unstable_by(
        count,
        |one: &T, other: &T| -> Ordering
            ensures { result ≡ O.cmp order.entry.now one.now other.now }
        { order.compare(one, other) },
    );
    put_in_order(front, order);
    front
}

/// This many of the first items in the order, or all items if there are fewer. No two of the items are equal in the order.
/// The items are moved within the slice, and no memory is taken.
pub fn first_in_order<'s, T, O: Order<T>>(items: &'s mut [T], order: &O, count: usize) -> &'s [T]
    requires { IsTrue (are_apart (O.cmp order.now) items.old) }
    ensures { result.now ≡ take count (ascending (O.cmp order.now) items.old) }
{
    if count < items.len() {
        select_first(items, order, count)
    } else {
        put_in_order(items, order);
        items
    }
}
