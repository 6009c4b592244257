//! The rows of tables: one that describes the table, and one for each of its own rows.
ghost use Rattle.std.specs.Prelude.{◌≡◌, ◌++◌, All, IfOk, OnOk, map};
ghost use Rattle.table_schema.specs.Printed.{IsValue};
ghost use Rattle.portal_rows.specs.TableRows.{number_value, head_value, table_row, row_key, cells_value, cells_row};
ghost use Rattle.portal_rows.specs.TableRows.{rows_of_table};

use crate::body::json_row;
use datastore_table::{Row, Table};
use portal_base::copy::TryClone;
use portal_base::dictionary::Value;
use portal_base::json_value::Json;
use portal_base::seq::Seq;
use portal_base::text::Text;
use portal_keeper::row::{KeptRow, RowKind};
use std::alloc::{AllocError, Global};
use table_schema::{Cell, Schema, cell_json};

/// What the row of a table says.
#[derive(Drop)]
pub struct TableHead {
    pub schema: Schema,
    /// The `_id` of the next row.
    pub next_id: u64,
    /// For each foreign key, the number of the resource whose table it refers to. The number is 0 for the table itself.
    pub targets: Seq<u32>,
}

/// All rows of the table of the resource with this id: the row of the table, and then those of its rows, in their order.
pub fn rows_of_table(
    alloc: Global,
    resource: &Text,
    table: &Table,
    targets: &[u32],
) -> Result<Seq<KeptRow>, AllocError>
    ensures { IfOk result (λ rows. rows ≡ rows_of_table resource.now table.now targets.now) }
{
    let head = table_row(alloc, resource, table.schema(), table.next_id(), targets)?;
    let mut rows = Vec::new(alloc);
    rows.push(head)?;
    push_cells_rows(alloc, &mut rows, resource, table.rows())?;
    Ok(Seq::from(rows))
}

/// Adds the rows of these rows of a table.
fn push_cells_rows(
    alloc: Global,
    kept: &mut Vec<KeptRow>,
    resource: &Text,
    rows: &[Row],
) -> Result<(), AllocError>
    requires { All (λ row. All IsValue row.cells) rows.now }
    ensures { OnOk result (kept.new.items ≡ kept.old.items ++ map (cells_row resource.now) rows.now) }
{
    for row in rows {
        kept.push(cells_row(alloc, resource, row)?)?;
    }
    Ok(())
}

/// The row of the table of the resource with this id. It says what a `TableHead` has.
pub fn table_row(
    alloc: Global,
    resource: &Text,
    schema: &Schema,
    next_id: u64,
    targets: &[u32],
) -> Result<KeptRow, AllocError>
    ensures { IfOk result (λ row. row ≡ table_row resource.now (record {
      schema = schema.now;
      next_id = next_id;
      targets = targets.now;
    })) }
{
    let value = head_json(alloc, schema, next_id, targets)?;
    let resource = resource.try_clone(alloc)?;
    json_row(alloc, RowKind::Table, resource, &value)
}

/// The row of a row of the table of the resource with this id.
pub fn cells_row(alloc: Global, resource: &Text, row: &Row) -> Result<KeptRow, AllocError>
    requires { All IsValue row.now.cells }
    ensures { IfOk result (λ kept. kept ≡ cells_row resource.now row.now) }
{
    let value = cells_json(alloc, row.cells.as_slice())?;
    let key = row_key(alloc, resource, row.id)?;
    json_row(alloc, RowKind::Row, key, &value)
}

/// The key of the row of the row with this `_id`, of the table of that resource.
pub fn row_key(alloc: Global, resource: &Text, id: u64) -> Result<Text, AllocError>
    ensures { IfOk result (λ key. key ≡ row_key resource.now id) }
{
    let resource = resource.as_str();
    let key = format!(in alloc; "{resource}/{id:020}")?;
    Ok(Text::from(key))
}

/// The body of a table's row.
pub(crate) fn head_json(
    alloc: Global,
    schema: &Schema,
    next_id: u64,
    targets: &[u32],
) -> Result<Json, AllocError>
    ensures { IfOk result (λ value. value ≡ head_value (record {
      schema = schema.now;
      next_id = next_id;
      targets = targets.now;
    })) }
{
    let descriptor = schema.to_json(alloc)?;
    let targets = target_values(alloc, targets)?;
    Json::dictionary(
        alloc,
        [
            ("next_id", Value::Json(Json::Whole(i128::from(next_id)))),
            ("schema", Value::Json(descriptor)),
            ("targets", Value::List(targets)),
        ],
    )
}

fn target_values(alloc: Global, targets: &[u32]) -> Result<Seq<Json>, AllocError>
    ensures { IfOk result (λ values. values ≡ map number_value targets.now) }
{
    let mut values = Vec::with_capacity(alloc, targets.len())?;
    for target in targets {
        values.push(Json::Whole(i128::from(*target)))?;
    }
    Ok(Seq::from(values))
}

/// The body of the row of these cells.
pub(crate) fn cells_json(alloc: Global, cells: &[Cell]) -> Result<Json, AllocError>
    requires { All IsValue cells.now }
    ensures { IfOk result (λ value. value ≡ cells_value cells.now) }
{
    let mut values = Vec::with_capacity(alloc, cells.len())?;
    for cell in cells {
        values.push(cell_json(alloc, cell)?)?;
    }
    Ok(Json::List(Seq::from(values)))
}
