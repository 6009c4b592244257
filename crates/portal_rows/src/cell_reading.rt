//! Cells that are read from the rows of a table's rows.
ghost use Rattle.std.specs.Prelude.{◌≡◌, ◌≢◌, ◌↔◌, All, IfOk, IfSome, IsTrue, List, MatchOption, Some, length};
ghost use Rattle.std.specs.Result.{result_ok};
ghost use Rattle.datastore_table.specs.Meets.{are_accepted};
ghost use Rattle.portal_base.specs.Json.{json_text};
ghost use Rattle.table_schema.specs.Printed.{IsValue};
ghost use Rattle.table_schema.specs.Reading.{record_reading};
ghost use Rattle.table_schema.specs.declared.cell.Cell.{Cell};
ghost use Rattle.portal_rows.specs.Readings.{cells_of_value, cells_reading};
ghost use Rattle.portal_rows.specs.TableRows.{IsCellsBody, cells_value};

use crate::body::{is_text_of, value_of_body};
use crate::tables::cells_json;
use portal_base::json_value::Json;
use portal_base::kinds::list_in;
use portal_base::seq::Seq;
use portal_base::text::Text;
use std::alloc::{AllocError, Global};
use table_schema::{Cell, CellError, Field, Schema};

/// Reads the body of the row of a table's row. The result is some cells exactly if the body is their text and the fields
/// of the schema accept them.
pub fn read_cells(
    alloc: Global,
    schema: &Schema,
    body: &Text,
) -> Result<Option<Seq<Cell>>, AllocError>
    ensures { IfOk result (λ found. (cells : List Cell) →
        (found ≡ Some cells) ↔ IsCellsBody schema.now cells body.now) }
{
    match cells_of_body(alloc, schema.fields().as_slice(), body)? {
        Some(cells) => cells_if_written(alloc, body, cells),
        None => Ok(None),
    }
}

/// The cells that the body says, if it says some. Another text may say them too.
fn cells_of_body(
    alloc: Global,
    fields: &[Field],
    body: &Text,
) -> Result<Option<Seq<Cell>>, AllocError>
    ensures sound { IfOk result (λ found. IfSome found (λ cells. IsTrue (are_accepted fields.now cells))) }
    ensures values { IfOk result (λ found. IfSome found (All IsValue)) }
    ensures complete { IfOk result (λ found. (cells : List Cell) → IsTrue (are_accepted fields.now cells) →
        body.now ≡ json_text (cells_value cells) → found ≡ Some cells) }
{
    match value_of_body(alloc, body)? {
        Some(value) => cells_in(alloc, fields, &value),
        None => Ok(None),
    }
}

/// The cells, if the body is their text.
fn cells_if_written(
    alloc: Global,
    body: &Text,
    cells: Seq<Cell>,
) -> Result<Option<Seq<Cell>>, AllocError>
    requires { All IsValue cells }
    ensures { IfOk result (λ found. MatchOption found
        (body.now ≢ json_text (cells_value cells))
        (λ same. (same ≡ cells) × (body.now ≡ json_text (cells_value cells)))) }
{
    let value = cells_json(alloc, cells.as_slice())?;
    if is_text_of(alloc, body, &value)? {
        Ok(Some(cells))
    } else {
        Ok(None)
    }
}

/// The cells as which the fields read the values of a list, one value for each field.
fn cells_in(alloc: Global, fields: &[Field], value: &Json) -> Result<Option<Seq<Cell>>, AllocError>
    ensures { IfOk result (λ cells. cells ≡ cells_of_value fields.now value.now) }
{
    match list_in(value) {
        Some(values) => cells_of(alloc, fields, values.as_slice()),
        None => Ok(None),
    }
}

fn cells_of(
    alloc: Global,
    fields: &[Field],
    values: &[Json],
) -> Result<Option<Seq<Cell>>, AllocError>
    ensures { IfOk result (λ cells. cells ≡ cells_reading fields.now values.now) }
{
    if fields.len() != values.len() {
        return Ok(None);
    }
    let mut cells = Vec::with_capacity(alloc, fields.len())?;
    for column in 0..fields.len() {
        let Some(cell) = cell_of(alloc, &fields[column], &values[column])? else {
            return Ok(None);
        };
        cells.push(cell)?;
    }
    Ok(Some(Seq::from(cells)))
}

/// The cell as which the field reads the value.
fn cell_of(alloc: Global, field: &Field, value: &Json) -> Result<Option<Cell>, AllocError>
    ensures { IfOk result (λ cell. cell ≡ result_ok (record_reading field.now value.now)) }
{
    match field.of_json(alloc, value) {
        Ok(cell) => Ok(Some(cell)),
        Err(CellError::Fault(_)) => Ok(None),
        Err(CellError::OutOfMemory) => Err(AllocError),
    }
}
