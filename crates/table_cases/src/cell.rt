//! The cells that texts and values are read as in a field, and their order.
ghost use Rattle.std.specs.Prelude.{IfOk};
ghost use Rattle.table_schema.specs.Printed.{IsValue};

use crate::descriptor::schema_of_field;
use crate::read::json_of;
use crate::table_text::push_json;
use cases::{Buffer, Case, invalid};
use std::alloc::Global;
use std::cmp::Ordering;
use std::io;
use table_schema::{Cell, CellError, Field, Schema, SchemaFault, cell_json};

/// Writes the JSON text of the cell, or the error's text.
fn push_cell(alloc: Global, answer: &mut Buffer, read: Result<Cell, CellError>)
    requires { IfOk read IsValue }
{
    match read {
        Ok(cell) => match cell_json(alloc, &cell) {
            Ok(value) => push_json(alloc, answer, &value),
            Err(_) => answer.run_out(),
        },
        Err(error) => answer.push_value(&error),
    }
}

/// The first field of the schema; `InvalidData` where it has none.
pub fn first_field(schema: &Schema) -> io::Result<&Field> {
    match schema.fields().as_slice().first() {
        Some(field) => Ok(field),
        None => Err(invalid()),
    }
}

/// Writes the cell that the text is read as in the schema's first field, or the fault.
fn push_read(
    alloc: Global,
    answer: &mut Buffer,
    schema: Result<Schema, SchemaFault>,
    text: &str,
) -> io::Result<()> {
    match schema {
        Ok(schema) => {
            let read = first_field(&schema)?.read_cell(alloc, text);
            push_cell(alloc, answer, read);
        }
        Err(fault) => answer.push_value(&fault),
    }
    Ok(())
}

/// A field, and a text: the cell that it is read as, or the fault.
pub fn read(alloc: Global, case: &Case, answer: &mut Buffer) -> io::Result<()> {
    let (field, text) = case.two_texts()?;
    push_read(alloc, answer, schema_of_field(alloc, field), text)
}

/// A descriptor, and a text: the cell that it is read as in the first field, or the fault.
pub fn read_in_schema(alloc: Global, case: &Case, answer: &mut Buffer) -> io::Result<()> {
    let schema = Schema::read(alloc, case.bytes(0));
    push_read(alloc, answer, schema, case.text(1)?)
}

/// A field, and a JSON value: the cell that it is read as, or the fault.
pub fn of_value(alloc: Global, case: &Case, answer: &mut Buffer) -> io::Result<()> {
    let (field, value) = case.two_texts()?;
    let value = json_of(alloc, value)?;
    match schema_of_field(alloc, field) {
        Ok(schema) => {
            let read = first_field(&schema)?.of_json(alloc, &value);
            push_cell(alloc, answer, read);
        }
        Err(fault) => answer.push_value(&fault),
    }
    Ok(())
}

/// The cell that the text is read as; `InvalidData` where it is none.
fn cell_of(alloc: Global, field: &Field, text: &str) -> io::Result<Cell> {
    match field.read_cell(alloc, text) {
        Ok(cell) => Ok(cell),
        Err(_) => Err(invalid()),
    }
}

/// The words for the order of one cell and another.
fn words_of(order: Ordering, is_same: bool) -> &'static str {
    match (order, is_same) {
        (Ordering::Less, false) => "before",
        (Ordering::Equal, true) => "equal",
        (Ordering::Greater, false) => "behind",
        _ => "neither",
    }
}

/// A field, and two texts: the order of their cells.
pub fn ordered(alloc: Global, case: &Case, answer: &mut Buffer) -> io::Result<()> {
    let (field, one, other) = case.three_texts()?;
    let Ok(schema) = schema_of_field(alloc, field) else {
        return Err(invalid());
    };
    let field = first_field(&schema)?;
    let one = cell_of(alloc, field, one)?;
    let other = cell_of(alloc, field, other)?;
    answer.push(words_of(one.order(&other), one.is_same(&other)));
    Ok(())
}
