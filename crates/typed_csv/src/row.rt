//! Reads records as rows of cells.
ghost use Rattle.std.specs.Prelude.{◌≡◌, ◌≢◌, ◌<◌, ℕ, List, length, All, IfOk, Ok, Err, true};
ghost use Rattle.csv.specs.Records.{fields_of};
ghost use Rattle.table_schema.specs.Printed.{IsValue};
ghost use Rattle.typed_csv.specs.Faults.{Gives};
ghost use Rattle.typed_csv.specs.Records.{is_text, text_in};
ghost use Rattle.typed_csv.specs.Rows.{and_then, cell_or_bad, cells_reading, first_of, rank_of, row_reading};

use crate::fault::LoadFault;
use crate::header::{Layout, text_at};
use csv::StringRecord;
use portal_base::copy::TryClone;
use portal_base::seq::Seq;
use portal_base::text::Text;
use std::alloc::{AllocError, Global};
use table_schema::{Cell, CellError, CellFault, Field};

/// A text that isn't a valid cell.
#[derive(Drop)]
pub(crate) struct BadCell {
    /// Its rank in the order in which the cells of a row are tried.
    rank: usize,
    /// The name of its field.
    name: Text,
    fault: CellFault,
}

/// Reads a record whose fields are UTF-8 as the row with this number, counted from 1. `Width` takes no memory.
pub(crate) fn row_of(
    alloc: Global,
    fields: &[Field],
    layout: &Layout,
    number: u64,
    row: &StringRecord,
) -> Result<Seq<Cell>, LoadFault>
    requires { is_text (fields_of row.now) ≡ true }
    ensures read { Gives (λ cells. cells) result (row_reading fields.now layout.now number (fields_of row.now)) }
    ensures value { IfOk result (λ cells. All IsValue cells) }
    ensures width { length (fields_of row.now) ≢ layout.now.width → result ≡ Err (LoadFault.Width number) }
{
    if row.len() != layout.width {
        return Err(LoadFault::Width(number));
    }
    match cells_of(alloc, fields, layout, row)? {
        Ok(cells) => Ok(cells),
        Err(bad) => Err(LoadFault::Cell(number, bad.name, bad.fault)),
    }
}

// The cells of a record in the schema's order, or the bad one that is tried first.
fn cells_of(
    alloc: Global,
    fields: &[Field],
    layout: &Layout,
    row: &StringRecord,
) -> Result<Result<Seq<Cell>, BadCell>, AllocError>
    ensures read { IfOk result
        (λ read. read ≡ cells_reading layout.now.width (fields_of row.now) fields.now layout.now.columns) }
    ensures value { IfOk result (λ read. IfOk read (λ cells. All IsValue cells)) }
{
    let mut read = Ok(Seq::from(Vec::with_capacity(alloc, fields.len())?));
    for (field, column) in fields.iter().zip(layout.columns.as_slice()) {
        let rank = rank_of(layout.width, *column);
        let cell = cell_of(alloc, field, rank, text_in(row, *column))?;
        read = joined(read, cell)?;
    }
    Ok(read)
}

// Reads a text as a cell of the field.
fn cell_of(
    alloc: Global,
    field: &Field,
    rank: usize,
    text: &str,
) -> Result<Result<Cell, BadCell>, AllocError>
    ensures read { IfOk result (λ read. read ≡ cell_or_bad field.now rank text.now) }
    ensures value { IfOk result (λ read. IfOk read IsValue) }
{
    match field.read_cell(alloc, text) {
        Ok(cell) => Ok(Ok(cell)),
        Err(CellError::Fault(fault)) => {
            let name = field.name().try_clone(alloc)?;
            Ok(Err(BadCell { rank, name, fault }))
        }
        Err(CellError::OutOfMemory) => Err(AllocError),
    }
}

// Appends a cell, or keeps the bad cell that is tried first.
fn joined(
    read: Result<Seq<Cell>, BadCell>,
    cell: Result<Cell, BadCell>,
) -> Result<Result<Seq<Cell>, BadCell>, AllocError>
    ensures { IfOk result (λ all. all ≡ and_then read cell) }
{
    match (read, cell) {
        (Ok(mut cells), Ok(cell)) => match cells.push(cell) {
            Ok(()) => Ok(Ok(cells)),
            Err(_) => Err(AllocError),
        },
        (Ok(_), Err(bad)) => Ok(Err(bad)),
        (Err(bad), Ok(_)) => Ok(Err(bad)),
        (Err(bad), Err(later)) => Ok(Err(first_of(bad, later))),
    }
}

// The bad cell that is tried first.
fn first_of(bad: BadCell, later: BadCell) -> BadCell
    ensures { result ≡ first_of bad later }
{
    if later.rank < bad.rank { later } else { bad }
}

// The text in the column, or the empty text if the field has no column.
fn text_in(row: &StringRecord, column: Option<usize>) -> &str
    ensures { result.now ≡ text_in (fields_of row.now) column }
{
    match column {
        Some(column) => text_at(row, column),
        None => "",
    }
}

// The rank at which the cell of a field is tried: its column, or after all columns if it has none.
fn rank_of(width: usize, column: Option<usize>) -> usize
    ensures { result ≡ rank_of width column }
{
    column.unwrap_or(width)
}
