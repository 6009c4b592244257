//! Cells of a row by column, and copies of them. A column is the index of a field in the schema, from 0.
ghost use Rattle.std.specs.Prelude.{◌≡◌, IfOk};
ghost use Rattle.table_schema.specs.Order.{same_cell};
ghost use Rattle.datastore_table.specs.Cells.{cell_at, cells_at, has_null, has_null_at, is_null, same_cells};

use portal_base::copy::TryClone;
use portal_base::seq::Seq;
use std::alloc::{AllocError, Global};
use table_schema::Cell;

/// A copy of a cell.
pub(crate) fn copy_of(alloc: Global, cell: &Cell) -> Result<Cell, AllocError>
    ensures { IfOk result (λ copy. copy ≡ cell.now) }
{
    Ok(match cell {
        Cell::Null => Cell::Null,
        Cell::Text(text) => Cell::Text(text.try_clone(alloc)?),
        Cell::Int(number) => Cell::Int(*number),
        Cell::Number(billionths) => Cell::Number(*billionths),
        Cell::Truth(truth) => Cell::Truth(*truth),
        Cell::Date(day) => Cell::Date(*day),
        Cell::Time(second) => Cell::Time(*second),
        Cell::Stamp(moment) => Cell::Stamp(*moment),
        Cell::Year(year) => Cell::Year(*year),
        Cell::YearMonth(year, month) => Cell::YearMonth(*year, *month),
    })
}

/// A copy of the cell in this column.
pub(crate) fn copy_at(alloc: Global, cells: &[Cell], column: usize) -> Result<Cell, AllocError>
    ensures { IfOk result (λ copy. copy ≡ cell_at cells.now column) }
{
    match cells.get(column) {
        Some(cell) => copy_of(alloc, cell),
        None => Ok(Cell::Null),
    }
}

/// Copies of the cells in these columns.
pub(crate) fn copies_at(
    alloc: Global,
    cells: &[Cell],
    columns: &[u32],
) -> Result<Seq<Cell>, AllocError>
    ensures { IfOk result (λ copies. copies ≡ cells_at columns.now cells.now) }
{
    let mut copies = Vec::with_capacity(alloc, columns.len())?;
    for column in columns {
        copies.push(copy_at(alloc, cells, *column as usize)?)?;
    }
    Ok(Seq::from(copies))
}

pub(crate) fn is_null(cell: &Cell) -> bool
    ensures { result ≡ is_null cell.now }
{
    matches!(cell, Cell::Null)
}

pub(crate) fn has_null(cells: &[Cell]) -> bool
    ensures { result ≡ has_null cells.now }
{
    cells.iter().any(is_null)
}

// Whether the cell in this column is absent or Null.
pub(crate) fn is_null_at(cells: &[Cell], column: usize) -> bool
    ensures { result ≡ is_null (cell_at cells.now column) }
{
    match cells.get(column) {
        Some(cell) => is_null(cell),
        None => true,
    }
}

/// Whether a cell in one of these columns is Null.
pub(crate) fn has_null_at(cells: &[Cell], columns: &[u32]) -> bool
    ensures { result ≡ has_null_at columns.now cells.now }
{
    columns
        .iter()
        .any(|column| is_null_at(cells, *column as usize))
}

// Whether the cell in this column is equal to the other.
#[tactic(auto, using(crate::proofs::CellLemmas::same_as_null))]
pub(crate) fn is_same_at(cells: &[Cell], column: usize, other: &Cell) -> bool
    ensures { result ≡ same_cell (cell_at cells.now column) other.now }
{
    match cells.get(column) {
        Some(cell) => cell.is_same(other),
        None => is_null(other),
    }
}

/// Whether the cells in these columns are equal to the others.
pub(crate) fn are_same_at(cells: &[Cell], columns: &[u32], others: &[Cell]) -> bool
    ensures { result ≡ same_cells (cells_at columns.now cells.now) others.now }
{
    if columns.len() != others.len() {
        return false;
    }
    for at in 0..columns.len() {
        if !is_same_at(cells, columns[at] as usize, &others[at]) {
            return false;
        }
    }
    true
}

/// Whether two lists of cells are equal, cell by cell.
pub(crate) fn are_same(cells: &[Cell], others: &[Cell]) -> bool
    ensures { result ≡ same_cells cells.now others.now }
{
    if cells.len() != others.len() {
        return false;
    }
    for at in 0..cells.len() {
        if !cells[at].is_same(&others[at]) {
            return false;
        }
    }
    true
}

/// Whether the cells in `columns` are equal to those of `others` in the columns `elsewhere`.
pub(crate) fn are_same_between(
    cells: &[Cell],
    columns: &[u32],
    others: &[Cell],
    elsewhere: &[u32],
) -> bool
    ensures { result ≡ same_cells (cells_at columns.now cells.now) (cells_at elsewhere.now others.now) }
{
    if columns.len() != elsewhere.len() {
        return false;
    }
    for at in 0..columns.len() {
        if !is_same_between(cells, columns[at], others, elsewhere[at]) {
            return false;
        }
    }
    true
}

#[tactic(auto, using(crate::proofs::CellLemmas::null_as_same))]
pub(crate) fn is_same_between(cells: &[Cell], column: u32, others: &[Cell], elsewhere: u32) -> bool
    ensures { result ≡ same_cell (cell_at cells.now column) (cell_at others.now elsewhere) }
{
    match others.get(elsewhere as usize) {
        Some(other) => is_same_at(cells, column as usize, other),
        None => is_null_at(cells, column as usize),
    }
}
