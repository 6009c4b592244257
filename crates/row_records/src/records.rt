//! Writes rows as records.
ghost use Rattle.std.specs.Prelude.{◌≡◌, All, IfOk, map};
ghost use Rattle.table_schema.specs.Printed.{IsValue};
ghost use Rattle.row_records.specs.Records.{member_at, record_of};

use crate::columns::Column;
use portal_base::copy::TryClone;
use portal_base::json_value::Json;
use portal_base::seq::Seq;
use portal_base::text::Text;
use std::alloc::{AllocError, Global};
use table_schema::{Cell, cell_json};

/// The record of a row: the name of each column with the JSON value of its cell. The value is null if the row has no
/// such cell.
pub fn record_json(alloc: Global, columns: &[Column], cells: &[Cell]) -> Result<Json, AllocError>
    requires { All IsValue cells.now }
    ensures { IfOk result (λ made. made ≡ record_of columns.now cells.now) }
{
    Ok(Json::Map(Seq::from(members_of(alloc, columns, cells)?)))
}

// The name of each column with the value of its cell.
fn members_of(
    alloc: Global,
    columns: &[Column],
    cells: &[Cell],
) -> Result<Vec<(Text, Json)>, AllocError>
    requires { All IsValue cells.now }
    ensures { IfOk result (λ members. members.items ≡ map (member_at cells.now) columns.now) }
{
    let mut members = Vec::with_capacity(alloc, columns.len())?;
    for column in columns {
        members.push(member_of(alloc, column, cells)?)?;
    }
    Ok(members)
}

// The name of a column with the value of its cell, which is null if the row has no such cell.
fn member_of(alloc: Global, column: &Column, cells: &[Cell]) -> Result<(Text, Json), AllocError>
    requires { All IsValue cells.now }
    ensures { IfOk result (λ member. member ≡ member_at cells.now column.now) }
{
    let value = match cells.get(column.index) {
        Some(cell) => cell_json(alloc, cell)?,
        None => Json::Null,
    };
    let name = column.name.try_clone(alloc)?;
    Ok((name, value))
}
