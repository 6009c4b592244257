//! Tables that are restored.
use crate::read::{entry_of, id_of, items_in, items_of, schema_of};
use crate::table_text::push_table;
use cases::{Buffer, Case, invalid};
use datastore_table::Table;
use portal_base::json_value::Json;
use portal_base::seq::Seq;
use std::alloc::Global;
use std::io;
use table_schema::Cell;

/// The cell of a number in billionths.
fn number_cell(number: i128) -> Option<Cell> {
    Some(Cell::Number(number.checked_mul(1_000_000_000)?))
}

fn int_cell(number: i128) -> Option<Cell> {
    Some(Cell::Int(i64::try_from(number).ok()?))
}

fn time_cell(second: i128) -> Option<Cell> {
    Some(Cell::Time(u32::try_from(second).ok()?))
}

/// The cell of that type and value.
fn typed_cell(kind: &str, value: Json) -> Option<Cell> {
    match (kind, value) {
        ("text", Json::Text(text)) => Some(Cell::Text(text)),
        ("truth", Json::Truth(truth)) => Some(Cell::Truth(truth)),
        ("number", Json::Whole(number)) => number_cell(number),
        ("int", Json::Whole(number)) => int_cell(number),
        ("time", Json::Whole(second)) => time_cell(second),
        _ => None,
    }
}

/// The cell of a dictionary of one member, whose key is the cell's type; of another value the Null.
fn cell_of(value: Json) -> io::Result<Cell> {
    if !matches!(value, Json::Map(_)) {
        return Ok(Cell::Null);
    }
    let (kind, value) = entry_of(value)?;
    typed_cell(kind.as_str(), value).ok_or(invalid())
}

/// The `_id` of a row, its first item, and its cells.
fn row_of(alloc: Global, value: Json) -> io::Result<(u64, Seq<Cell>)> {
    let mut id = None;
    let mut cells = Vec::new(alloc);
    for item in items_of(value)?.into_vec() {
        match id {
            None => id = Some(id_of(&item)?),
            Some(_) => cells.push(cell_of(item)?)?,
        }
    }
    match id {
        Some(id) => Ok((id, Seq::from(cells))),
        None => Err(invalid()),
    }
}

fn rows_in(alloc: Global, text: &str) -> io::Result<Seq<(u64, Seq<Cell>)>> {
    let mut rows = Vec::new(alloc);
    for row in items_in(alloc, text)?.into_vec() {
        rows.push(row_of(alloc, row)?)?;
    }
    Ok(Seq::from(rows))
}

/// The table of these rows and this next `_id`, where they are those of a table.
fn restore(alloc: Global, descriptor: &str, rows: &str, next_id: u64) -> io::Result<Option<Table>> {
    let rows = rows_in(alloc, rows)?;
    let schema = schema_of(alloc, descriptor.as_bytes())?;
    Ok(Table::restore(alloc, schema, rows, next_id)?)
}

/// A descriptor, rows, each with its `_id` before its cells, and the next `_id`: the table, or `none`.
pub fn table(alloc: Global, case: &Case, answer: &mut Buffer) -> io::Result<()> {
    let (descriptor, rows) = case.two_texts()?;
    match restore(alloc, descriptor, rows, case.parsed(2)?)? {
        Some(table) => push_table(alloc, answer, &table),
        None => answer.push("none"),
    }
    Ok(())
}
