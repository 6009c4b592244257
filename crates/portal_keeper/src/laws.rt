//! Laws of the changes of rows. Each function has an empty body, and its contract is the law.
ghost use Rattle.std.specs.Prelude.{◌≡◌, ℕ, List, ◌++◌, unwrap_or};
ghost use Rattle.portal_keeper.specs.declared.change.Change.{Change};
ghost use Rattle.portal_keeper.specs.declared.row.KeptRow.{KeptRow};
ghost use Rattle.portal_keeper.specs.declared.row.RowKind.{RowKind};
ghost use Rattle.portal_keeper.specs.Rows.{AreInOrder, body_at};
ghost use Rattle.portal_keeper.specs.Changed.{rows_after, said_last};

/// The body at a kind and a key is what the last of the changes that names them says, or else the body that was there
/// before.
pub fn the_last_change_of_a_key_decides()
    ensures { (changes : List Change) (rows : List KeptRow) (kind : RowKind) (key : List ℕ) →
        body_at (rows_after changes rows) kind key
        ≡ unwrap_or (said_last changes kind key) (body_at rows kind key) }
{}

/// Changes keep the rows in order, so that no pair of kind and key repeats.
pub fn changed_rows_are_in_order()
    ensures { (changes : List Change) (rows : List KeptRow) → AreInOrder rows → AreInOrder (rows_after changes rows) }
{}

/// Changes in two lists, made one after the other, are the changes of the one list that has both.
pub fn changes_follow_one_another()
    ensures { (changes more : List Change) (rows : List KeptRow) →
        rows_after (changes ++ more) rows ≡ rows_after more (rows_after changes rows) }
{}

/// Rows in order are the same rows if they have the same body at each kind and key.
pub fn rows_are_known_by_their_bodies()
    ensures { (rows others : List KeptRow) → AreInOrder rows → AreInOrder others →
        ((kind : RowKind) (key : List ℕ) → body_at rows kind key ≡ body_at others kind key) → rows ≡ others }
{}
