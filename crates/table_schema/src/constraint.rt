//! The constraints of a field (Table Schema v1, "Constraints"), and the first of them that a cell breaks.
ghost use Rattle.std.specs.Prelude.{◌≡◌, length, option_map};
ghost use Rattle.std.specs.Option.{option_copied};
ghost use Rattle.table_schema.specs.Constraint.{length_of, is_at_least, is_at_most, keeps_length, keeps_range};
ghost use Rattle.table_schema.specs.Constraint.{keeps_enum, constraint_fault};
ghost use Rattle.table_schema.specs.Order.{rank_of};

use crate::allowed::AllowedCells;
use crate::cell::{Cell, CellFault};

/// The constraints of a field. They apply to cells other than `Null`, except for `required`, which only `Null` breaks.
#[derive(Drop)]
pub struct Constraints {
    pub required: bool,
    /// Whether no two rows may have equal cells other than `Null`.
    pub unique: bool,
    /// The minimum length of a text in characters.
    pub min_length: Option<i128>,
    /// The maximum length of a text in characters.
    pub max_length: Option<i128>,
    pub minimum: Option<Cell>,
    pub maximum: Option<Cell>,
    /// The cells that `enum` allows. The list is empty if there is no `enum`.
    pub allowed: AllowedCells,
}

impl Constraints {
    /// The first constraint that a cell other than `Null` breaks, or none if it breaks none.
    #[tactic(auto, unfolding(crate::specs::Constraint::constraint_fault))]
    pub fn fault_of(&self, cell: &Cell) -> Option<CellFault>
        ensures { result ≡ constraint_fault self.now cell.now }
    {
        if !self.keeps_length(cell) {
            Some(CellFault::Length)
        } else if !self.keeps_range(cell) {
            Some(CellFault::Range)
        } else if !self.keeps_enum(cell) {
            Some(CellFault::NotInEnum)
        } else {
            None
        }
    }

    fn keeps_length(&self, cell: &Cell) -> bool
        ensures { result ≡ keeps_length self.now cell.now }
    {
        if self.min_length.is_none() && self.max_length.is_none() {
            return true;
        }
        let length = length_of(cell) as i128;
        is_at_least(self.min_length, length) && is_at_most(self.max_length, length)
    }

    fn keeps_range(&self, cell: &Cell) -> bool
        ensures { result ≡ keeps_range self.now cell.now }
    {
        let rank = cell.rank();
        is_at_least(bound_of(&self.minimum), rank) && is_at_most(bound_of(&self.maximum), rank)
    }

    fn keeps_enum(&self, cell: &Cell) -> bool
        ensures { result ≡ keeps_enum self.now cell.now }
    {
        self.allowed.as_slice().is_empty() || self.allowed.has(cell)
    }
}

fn bound_of(bound: &Option<Cell>) -> Option<i128>
    ensures { result ≡ option_map rank_of bound.now }
{
    match bound {
        Some(cell) => Some(cell.rank()),
        None => None,
    }
}

fn is_at_least(bound: Option<i128>, value: i128) -> bool
    ensures { result ≡ is_at_least bound value }
{
    match bound {
        Some(low) => low <= value,
        None => true,
    }
}

fn is_at_most(bound: Option<i128>, value: i128) -> bool
    ensures { result ≡ is_at_most bound value }
{
    match bound {
        Some(high) => value <= high,
        None => true,
    }
}

// The length of a text in characters, and 0 for cells that aren't texts.
fn length_of(cell: &Cell) -> usize
    ensures { result ≡ length_of cell.now }
{
    match cell {
        Cell::Text(text) => text.as_str().chars().count(),
        _ => 0,
    }
}
