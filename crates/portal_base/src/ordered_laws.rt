//! Laws of ordered lists. Each law is the contract of a function with an empty body.
ghost use Rattle.std.specs.Prelude.{◌≡◌, Bool, false, List, Some, None, filter, if◌then◌else◌};
ghost use Rattle.std.specs.declared.cmp.Ordering.TheVariants.{Equal};
ghost use Rattle.std.specs.Ordering.{is_eq};
ghost use Rattle.portal_base.specs.Ordered.{IsAscending, inserted, found, removed, dropped, upserted};

use crate::ordered::{Key, Ordered};

/// An item inserted under a new key is found at it, and the list still ascends. Look-ups of other keys do not change.
pub fn what_is_inserted_is_found<T: Ordered, K: Key<T>>()
    ensures found { (key : K) (item : T) (items : List T) → K.at key item ≡ Equal → found (K.at key) items ≡ None →
        found (K.at key) (inserted T.order item items) ≡ Some item }
    ensures others { (key : K) (item : T) (items : List T) → is_eq (K.at key item) ≡ false →
        found (K.at key) (inserted T.order item items) ≡ found (K.at key) items }
    ensures ascends { (key : K) (item : T) (items : List T) → K.at key item ≡ Equal → found (K.at key) items ≡ None →
        IsAscending T.order items → IsAscending T.order (inserted T.order item items) }
{}

/// After a removal nothing is found at the key, and the list still ascends. Look-ups of other keys do not change.
pub fn what_is_removed_is_not_found<T: Ordered, K: Key<T>>()
    ensures found { (key : K) (items : List T) → IsAscending T.order items →
        found (K.at key) (removed (K.at key) items) ≡ None }
    ensures others { (key other : K) (items : List T) →
        ((item : T) → K.at key item ≡ Equal → is_eq (K.at other item) ≡ false) →
        found (K.at other) (removed (K.at key) items) ≡ found (K.at other) items }
    ensures ascends { (key : K) (items : List T) → IsAscending T.order items →
        IsAscending T.order (removed (K.at key) items) }
{}

/// A removal undoes an insertion, and an insertion undoes a removal.
pub fn insertion_and_removal_undo_each_other<T: Ordered, K: Key<T>>()
    ensures inserted { (key : K) (item : T) (items : List T) → K.at key item ≡ Equal →
        found (K.at key) items ≡ None → removed (K.at key) (inserted T.order item items) ≡ items }
    ensures removed { (key : K) (item : T) (items : List T) → IsAscending T.order items →
        found (K.at key) items ≡ Some item → inserted T.order item (removed (K.at key) items) ≡ items }
{}

/// An upserted item is found at its key, and the list still ascends. Look-ups of other keys do not change.
pub fn what_is_upserted_is_found<T: Ordered, K: Key<T>>()
    ensures found { (key : K) (item : T) (items : List T) → K.at key item ≡ Equal →
        found (K.at key) (upserted T.order item items) ≡ Some item }
    ensures others { (key : K) (item : T) (items : List T) → is_eq (K.at key item) ≡ false →
        found (K.at key) (upserted T.order item items) ≡ found (K.at key) items }
    ensures ascends { (item : T) (items : List T) → IsAscending T.order items →
        IsAscending T.order (upserted T.order item items) }
{}

/// After the items at a key are dropped nothing is found at it, and the list still ascends. Look-ups of keys that no
/// dropped item has do not change. In an ascending list only the first item at the key is dropped.
pub fn what_is_dropped_is_not_found<T: Ordered, K: Key<T>>()
    ensures found { (key : K) (items : List T) → found (K.at key) (dropped (K.at key) items) ≡ None }
    ensures others { (key other : K) (items : List T) →
        ((item : T) → K.at key item ≡ Equal → is_eq (K.at other item) ≡ false) →
        found (K.at other) (dropped (K.at key) items) ≡ found (K.at other) items }
    ensures ascends { (key : K) (items : List T) → IsAscending T.order items →
        IsAscending T.order (dropped (K.at key) items) }
    ensures one { (key : K) (items : List T) → IsAscending T.order items →
        dropped (K.at key) items ≡ removed (K.at key) items }
{}

/// To filter a changed list is to change the filtered list in the same way. If the filter drops the upserted item, the
/// filtered list loses the item with its key.
pub fn what_is_kept_changes_alike<T: Ordered, K: Key<T>>()
    ensures upserted { (keeps : T → Bool) (item : T) (items : List T) → IsAscending T.order items →
        filter keeps (upserted T.order item items) ≡
        (if keeps item then upserted T.order item (filter keeps items)
        else dropped (λ other. T.order other item) (filter keeps items)) }
    ensures dropped { (keeps : T → Bool) (key : K) (items : List T) →
        filter keeps (dropped (K.at key) items) ≡ dropped (K.at key) (filter keeps items) }
{}
