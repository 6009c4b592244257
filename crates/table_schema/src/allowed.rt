//! The cells that a constraint `enum` allows (Table Schema v1, "Constraints").
ghost use Rattle.std.specs.Prelude.{◌≡◌, [], IfOk, length, slice_index_or};
ghost use Rattle.std.specs.List.{list_any};
ghost use Rattle.table_schema.specs.Index.{AreBelow, IsIndex};
ghost use Rattle.table_schema.specs.Order.{exact_cmp, same_cell};
ghost use Rattle.table_schema.specs.declared.cell.Cell.TheVariants.{Null};

use crate::cell::Cell;
use crate::index::indices_below;
use portal_base::seq::Seq;
use std::alloc::{AllocError, Global};
use std::cmp::Ordering;
use std::marker::Model;

/// A list of cells that are found by halving. A contract sees it as the list in its own order.
#[derive(Drop)]
pub struct AllowedCells {
    cells: Seq<Cell>,
    /// The indices of the cells, in an order in which the cells ascend.
    indices: Vec<usize>,
}

impl Model for AllowedCells {
    ghost use Rattle.std.specs.Prelude.{List};
    ghost use Rattle.table_schema.specs.declared.cell.Cell.{Cell};
    ghost use Rattle.table_schema.specs.declared.cell.Cell.TheVariants.{Null};
    ghost use Rattle.table_schema.specs.Index.{IsIndex};
    ghost use Rattle.table_schema.specs.Order.{exact_cmp};

    ghost Value = { List Cell };

    ghost view = { λ allowed. allowed.cells };

    ghost invariant = { λ allowed. IsIndex exact_cmp Null allowed.cells allowed.indices.items };
}

impl AllowedCells {
    /// The empty list. It takes no memory.
    pub(crate) fn new(alloc: Global) -> AllowedCells
        ensures { result ≡ [] }
    {
        AllowedCells {
            cells: Seq::new(alloc),
            indices: Vec::new(alloc),
        }
    }

    /// A list of these cells.
    pub(crate) fn of_cells(alloc: Global, cells: Seq<Cell>) -> Result<AllowedCells, AllocError>
        ensures { IfOk result (λ allowed. allowed ≡ cells) }
    {
        let mut indices = indices_below(alloc, cells.len())?;
        sort_indices(cells.as_slice(), indices.as_mut_slice());
        Ok(AllowedCells { cells, indices })
    }

    /// Whether the list has the cell.
    pub fn has(&self, cell: &Cell) -> bool
        ensures { result ≡ list_any (λ a. same_cell a cell.now) self.now }
    {
        let cells = self.cells.as_slice();
        self.indices
            .as_slice()
            .binary_search_by(|index| order_at(cells, *index, cell))
            .is_ok()
    }

    /// The cells in their own order.
    pub fn as_slice(&self) -> &[Cell]
        ensures { result.now ≡ self.now }
    {
        self.cells.as_slice()
    }
}

// Sorts the indices so that the cells ascend.
fn sort_indices(cells: &[Cell], indices: &mut [usize])
    requires { AreBelow (length cells.now) indices.old }
    ensures { IsIndex exact_cmp Null cells.now indices.new }
{
    indices.sort_unstable_by(|one, other| order_of(cells, *one, *other));
}

// Compares the cells at two indices. Past the end it is `Null`.
fn order_of(cells: &[Cell], one: usize, other: usize) -> Ordering
    ensures { result ≡ exact_cmp (slice_index_or cells.now one Null) (slice_index_or cells.now other Null) }
{
    match cells.get(other) {
        Some(cell) => order_at(cells, one, cell),
        None => order_at(cells, one, &Cell::Null),
    }
}

// Compares the cell at the index with another cell. Past the end it is `Null`.
fn order_at(cells: &[Cell], index: usize, cell: &Cell) -> Ordering
    ensures { result ≡ exact_cmp (slice_index_or cells.now index Null) cell.now }
{
    match cells.get(index) {
        Some(found) => found.order_exactly(cell),
        None => Cell::Null.order_exactly(cell),
    }
}
