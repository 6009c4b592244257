//! Lists that ascend by a key of their items, without repeated keys.
//!
//! `reserve` prepares a change and alone takes memory; `put` or `replace_or_put` makes the change. `find_in_order`,
//! `replace_or_put` and `drop_at` want a list that ascends, and find an item by a binary search. The others scan the
//! list from its start, so they also work on lists that are not in order.
ghost use Rattle.std.specs.Prelude.{◌≡◌, ◌<◌, ◌≤◌, IsTrue, IfErr, IfSome, OnOk, OnErr, MatchResult, None, length};
ghost use Rattle.std.specs.Prelude.{position, vec_len, vec_capacity, slice_get, slice_set, insert};
ghost use Rattle.std.specs.List.{list_any, prefix_len};
ghost use Rattle.std.specs.Option.{option_copied};
ghost use Rattle.std.specs.Ordering.{is_lt, is_eq};
ghost use Rattle.std.specs.declared.cmp.Ordering.{Ordering};
ghost use Rattle.portal_base.specs.Ordered.{IsAscending, inserted, ascending, are_apart, found, removed};
ghost use Rattle.portal_base.specs.Ordered.{dropped, upserted};

use std::alloc::{AllocError, AllocFailed};
use std::cmp::Ordering;
use std::mem;

/// An item of an ordered list, compared by a key of its own.
pub trait Ordered {
    ghost use Rattle.std.specs.Cmp.{IsTotalOrder};

    /// The order by the key. Two items with the same key are equal in it, whatever else they hold.
    ghost order: { Self → Self → Ordering };

    fn compare(&self, other: &Self) -> Ordering
        ensures { result ≡ order self.now other.now };

    ghost total: { IsTotalOrder order };
}

/// A key by which items are looked up.
pub trait Key<T: Ordered> {
    ghost use Rattle.portal_base.specs.Ordered.{IsKey, IsMonotone};

    /// The order of an item relative to the key.
    ghost at: { Self → T → Ordering };

    fn compare_item(&self, item: &T) -> Ordering
        ensures { result ≡ at self.now item.now };

    ghost is_key: { (key : Self) → IsKey T.order (at key) };

    ghost is_monotone: { (key : Self) → IsMonotone T.order (at key) };
}

/// The number of leading items that are less than this one.
pub fn insertion_index<T: Ordered>(items: &[T], item: &T) -> usize
    ensures index { result ≡ prefix_len (λ other. is_lt (T.order other item.now)) items.now }
    ensures within { result ≤ length items.now }
{
    items
        .iter()
        .take_while(|other| other.compare(item).is_lt())
        .count()
}

/// The first item with the key.
pub fn find<'a, T: Ordered, K: Key<T>>(items: &'a [T], key: &K) -> Option<&'a T>
    ensures { option_copied result ≡ found (K.at key.now) items.now }
{
    items.iter().find(|item| key.compare_item(item).is_eq())
}

/// The item with the key, of a list that ascends. It is found by a binary search.
pub fn find_in_order<'a, T: Ordered, K: Key<T>>(items: &'a [T], key: &K) -> Option<&'a T>
    requires { IsAscending T.order items.now }
    ensures { option_copied result ≡ found (K.at key.now) items.now }
{
    items.get(index_in_order(items, key)?)
}

/// The index of the item with the key, by a binary search.
fn index_in_order<T: Ordered, K: Key<T>>(items: &[T], key: &K) -> Option<usize>
    requires { IsAscending T.order items.now }
    ensures index { result ≡ position (λ item. is_eq (K.at key.now item)) items.now }
    ensures within { IfSome result (λ index. index < length items.now) }
{
    items.binary_search_by(|item| key.compare_item(item)).ok()
}

/// Whether no two items have equal keys. For a list that ascends it is one walk.
pub fn are_apart<T: Ordered>(items: &[T]) -> bool
    ensures { result ≡ are_apart T.order items.now }
{
    ascends(items) || has_no_equal_pair(items)
}

/// Whether each item is less than the next one.
fn ascends<T: Ordered>(items: &[T]) -> bool
    ensures { IsTrue result → IsAscending T.order items.now }
{
    items.is_sorted_by(|item, next| item.compare(next).is_lt())
}

/// Whether no two items have equal keys, in a list in any order.
fn has_no_equal_pair<T: Ordered>(items: &[T]) -> bool
    ensures { result ≡ are_apart T.order items.now }
{
    let mut rest = items;
    while let Some((first, others)) = rest.split_first() {
        if has_equal_key(others, first) {
            return false;
        }
        rest = others;
    }
    true
}

/// Whether one of the items has the same key as this one.
fn has_equal_key<T: Ordered>(items: &[T], item: &T) -> bool
    ensures { result ≡ list_any (λ other. is_eq (T.order other item.now)) items.now }
{
    items.iter().any(|other| other.compare(item).is_eq())
}

/// Makes room for one more item. If memory runs out nothing changes.
pub fn reserve<T>(items: &mut Vec<T>) -> Result<(), AllocError>
    ensures room { OnOk result (vec_len items.new < vec_capacity items.new) }
    ensures same { items.new.items ≡ items.old.items }
{
    items.reserve(1)
}

/// Inserts an item after the lesser ones. The list must have room. It takes no memory and cannot fail.
pub fn put<T: Ordered>(items: &mut Vec<T>, item: T)
    requires { vec_len items.old < vec_capacity items.old }
    ensures { items.new.items ≡ inserted T.order item items.old.items }
{
    let index = insertion_index(items.as_slice(), &item);
    items.insert(index, item).unwrap();
}

/// Inserts an item after the lesser ones. If memory runs out the item is returned, and nothing changes.
pub fn insert<T: Ordered>(items: &mut Vec<T>, item: T) -> Result<(), AllocFailed<T>>
    ensures ok { OnOk result (items.new.items ≡ inserted T.order item items.old.items) }
    ensures err { IfErr result (λ refused. refused.value ≡ item) }
    ensures unchanged { OnErr result (items.new.items ≡ items.old.items) }
{
    let index = insertion_index(items.as_slice(), &item);
    items.insert(index, item)
}

/// Replaces the item with the same key and returns it, or inserts the item if there is none; then the list must have
/// room. It takes no memory and cannot fail.
pub fn replace_or_put<T: Ordered>(items: &mut Vec<T>, item: T) -> Option<T>
    requires ascending { IsAscending T.order items.old.items }
    requires room { found (λ other. T.order other item) items.old.items ≡ None →
        vec_len items.old < vec_capacity items.old }
    ensures replaced { result ≡ found (λ other. T.order other item) items.old.items }
    ensures items { items.new.items ≡ upserted T.order item items.old.items }
    ensures ascending { IsAscending T.order items.new.items }
{
    match find_index(items.as_slice(), &item) {
        Ok(there) => Some(mem::replace(&mut items[there], item)),
        Err(free) => {
            items.insert(free, item).unwrap();
            None
        }
    }
}

/// The index of the item with the same key, or the index at which to insert this one.
fn find_index<T: Ordered>(items: &[T], item: &T) -> Result<usize, usize>
    requires { IsAscending T.order items.now }
    ensures within { MatchResult result (λ index. index < length items.now) (λ index. index ≤ length items.now) }
    ensures found { MatchResult result
        (λ index. found (λ other. T.order other item.now) items.now ≡ slice_get items.now index)
        (λ _. found (λ other. T.order other item.now) items.now ≡ None) }
    ensures upserted { MatchResult result
        (λ index. upserted T.order item.now items.now ≡ slice_set items.now index item.now)
        (λ index. upserted T.order item.now items.now ≡ insert items.now index item.now) }
{
    items.binary_search_by(|other| other.compare(item))
}

/// Removes and returns the only item with the key, if there is one. It takes no memory.
pub fn drop_at<T: Ordered, K: Key<T>>(items: &mut Vec<T>, key: &K) -> Option<T>
    requires { IsAscending T.order items.old.items }
    ensures item { result ≡ found (K.at key.now) items.old.items }
    ensures rest { items.new.items ≡ dropped (K.at key.now) items.old.items }
    ensures ascending { IsAscending T.order items.new.items }
{
    let index = index_in_order(items.as_slice(), key)?;
    Some(items.remove(index))
}

/// Removes and returns the first item with the key, if there is one. It takes no memory.
pub fn remove<T: Ordered, K: Key<T>>(items: &mut Vec<T>, key: &K) -> Option<T>
    ensures item { result ≡ found (K.at key.now) items.old.items }
    ensures rest { items.new.items ≡ removed (K.at key.now) items.old.items }
{
    let index = index_of_key(items.as_slice(), key)?;
    Some(items.remove(index))
}

/// The index of the first item with the key.
fn index_of_key<T: Ordered, K: Key<T>>(items: &[T], key: &K) -> Option<usize>
    ensures index { result ≡ position (λ item. is_eq (K.at key.now item)) items.now }
    ensures within { IfSome result (λ index. index < length items.now) }
{
    items.iter().position(|item| key.compare_item(item).is_eq())
}

/// Sorts items whose keys are all different. It takes no memory.
pub fn sort<T: Ordered>(items: &mut Vec<T>)
    requires { IsTrue (are_apart T.order items.old.items) }
    ensures { items.new.items ≡ ascending T.order items.old.items }
{
    items.sort_unstable_by(|first, second| first.compare(second));
}
