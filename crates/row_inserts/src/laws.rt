//! Laws of the pieces that records are split into: functions with an empty body, whose contracts are the laws.
ghost use Rattle.std.specs.Prelude.{◌≡◌, ◌↔◌, ℕ, List, []};
ghost use Rattle.portal_base.specs.declared.json_value.Json.{Json};
ghost use Rattle.row_inserts.specs.Inserts.{pieces_after};
ghost use Rattle.row_inserts.specs.Laws.{AreCut};

/// Records are split as late as possible, and in no other way.
pub fn records_are_cut_as_late_as_can_be()
    ensures { (resource : List ℕ) (records : List Json) (pieces : List (List Json)) →
        ((pieces_after resource [] records ≡ pieces) ↔ AreCut resource records pieces) }
{}
