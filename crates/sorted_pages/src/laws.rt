//! Laws of the definitions: functions with an empty body, whose contracts are the laws.
ghost use Rattle.std.specs.Prelude.{◌≡◌, ◌↔◌, ℕ, IsPermutation, IsTrue, List, drop, take};
ghost use Rattle.std.specs.Cmp.{IsTotalOrder};
ghost use Rattle.std.specs.declared.cmp.Ordering.{Ordering};
ghost use Rattle.portal_base.specs.Ordered.{are_apart, ascending};
ghost use Rattle.sorted_pages.specs.declared.direction.Direction.{Direction};
ghost use Rattle.sorted_pages.specs.Direction.{IsDirected, directed};
ghost use Rattle.sorted_pages.specs.Page.{IsPart};

/// Items of which no two are equal in an order are put in order alike, however they stand before.
pub fn rearranged_items_are_ordered_alike<T>()
    ensures { (cmp : T → T → Ordering) (items rearranged : List T) → IsTotalOrder cmp → IsTrue (are_apart cmp items) →
        IsPermutation items rearranged → ascending cmp items ≡ ascending cmp rearranged }
{}

/// A text names what its grammar says, in the direction that it says.
pub fn directions_are_read_as_the_grammar_says()
    ensures { (text name : List ℕ) (direction : Direction) →
        (directed text ≡ record { name = name; direction = direction }) ↔ IsDirected text name direction }
{}

/// The items within the bounds of a page are exactly those that `IsPart` says.
pub fn a_page_is_a_part_of_the_items<T>()
    ensures { (offset limit : ℕ) (items part : List T) →
        (take limit (drop offset items) ≡ part) ↔ IsPart offset limit items part }
{}
