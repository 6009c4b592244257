//! Reads the records of a batch by the table's schema.
ghost use Rattle.std.specs.Prelude.{◌≡◌, IfOk, IfErr, Ok, None, fold, option_copied};
ghost use Rattle.table_schema.specs.Reading.{IsFault};
ghost use Rattle.datastore_table.specs.Results.{Answers};
ghost use Rattle.datastore_table.specs.Record.{cells_reading, entries_of, field_reading, is_earlier, is_field_name};
ghost use Rattle.datastore_table.specs.Record.{is_known, key_cell};
ghost use Rattle.datastore_table.specs.Record.{key_of, kept_at, least_unknown, or_cell_fault, unknown_in};
ghost use Rattle.datastore_table.specs.Record.{value_or_null};
ghost use Rattle.portal_base.specs.declared.json_value.Json.{out-Json};
ghost use Rattle.portal_base.specs.Json.{member_of};

use crate::cells::copy_of;
use crate::fault::TableFault;
use portal_base::copy::TryClone;
use portal_base::json_value::Json;
use portal_base::seq::Seq;
use portal_base::text::Text;
use std::alloc::{AllocError, Global};
use table_schema::{Cell, CellError, Field, Schema};

/// Reads the cells of the record with this number, in the schema's order. A field that the record lacks keeps its cell
/// of `kept`. If `kept` has none, the field reads Null.
pub(crate) fn cells_of(
    alloc: Global,
    number: u64,
    fields: &[Field],
    kept: Option<&Seq<Cell>>,
    given: &Json,
) -> Result<Seq<Cell>, TableFault>
    ensures { Answers result (cells_reading number fields.now (option_copied kept.entry) given.now) }
{
    let mut cells = Vec::with_capacity(alloc, fields.len())?;
    for (column, field) in fields.iter().enumerate() {
        let cell = cell_of(alloc, number, field, kept_at(kept, column), given)?;
        if cells.push(cell).is_err() {
            return Err(TableFault::OutOfMemory);
        }
    }
    Ok(Seq::from(cells))
}

fn kept_at(kept: Option<&Seq<Cell>>, column: usize) -> Option<&Cell>
    ensures { option_copied result ≡ kept_at (option_copied kept.entry) column }
{
    match kept {
        Some(cells) => cells.as_slice().get(column),
        None => None,
    }
}

// Reads the cell of one field, or returns the fault of the record.
fn cell_of(
    alloc: Global,
    number: u64,
    field: &Field,
    kept: Option<&Cell>,
    given: &Json,
) -> Result<Cell, TableFault>
    ensures { Answers result (or_cell_fault number field.now
        (field_reading field.now (option_copied kept.entry) (member_of field.now.name given.now))) }
{
    match read_or_kept(alloc, field, kept, given.get(field.name().as_str())) {
        Ok(cell) => Ok(cell),
        Err(CellError::Fault(fault)) => {
            let name = field.name().try_clone(alloc)?;
            Err(TableFault::Cell(number, name, fault))
        }
        Err(CellError::OutOfMemory) => Err(TableFault::OutOfMemory),
    }
}

// Reads the value if there is one. Otherwise the result is the kept cell, or what the field reads for Null.
fn read_or_kept(
    alloc: Global,
    field: &Field,
    kept: Option<&Cell>,
    value: Option<&Json>,
) -> Result<Cell, CellError>
    ensures cell { IfOk result (λ cell.
        field_reading field.now (option_copied kept.entry) (option_copied value.entry) ≡ Ok cell) }
    ensures fault { IfErr result (IsFault
        (field_reading field.now (option_copied kept.entry) (option_copied value.entry))) }
{
    match (value, kept) {
        (Some(value), _) => field.of_json(alloc, value),
        (None, Some(cell)) => Ok(copy_of(alloc, cell)?),
        (None, None) => field.of_json(alloc, &Json::Null),
    }
}

/// The record's primary key. A cell is Null if the record lacks its field or has an invalid value there.
pub(crate) fn key_of(alloc: Global, schema: &Schema, given: &Json) -> Result<Seq<Cell>, AllocError>
    ensures { IfOk result (λ key. key ≡ key_of schema.now given.now) }
{
    let fields = schema.fields().as_slice();
    let mut cells = Vec::with_capacity(alloc, schema.key().len())?;
    for column in schema.key().as_slice() {
        cells.push(key_cell(alloc, fields, *column, given)?)?;
    }
    Ok(Seq::from(cells))
}

fn key_cell(alloc: Global, fields: &[Field], column: u32, given: &Json) -> Result<Cell, AllocError>
    ensures { IfOk result (λ cell. cell ≡ key_cell fields.now given.now column) }
{
    match fields.get(column as usize) {
        Some(field) => value_or_null(alloc, field, given.get(field.name().as_str())),
        None => Ok(Cell::Null),
    }
}

fn value_or_null(alloc: Global, field: &Field, value: Option<&Json>) -> Result<Cell, AllocError>
    ensures { IfOk result (λ cell. cell ≡ value_or_null field.now (option_copied value.entry)) }
{
    let Some(value) = value else {
        return Ok(Cell::Null);
    };
    match field.of_json(alloc, value) {
        Ok(cell) => Ok(cell),
        Err(CellError::Fault(_)) => Ok(Cell::Null),
        Err(CellError::OutOfMemory) => Err(AllocError),
    }
}

/// Finds the least name in the record, in the order of bytes, that is neither a field's name nor `_id`.
pub(crate) fn unknown_in<'a>(fields: &[Field], given: &'a Json) -> Option<&'a Text>
    ensures { option_copied result ≡ unknown_in fields.now given.now }
{
    match given {
        Json::Map(entries) => unknown_among(fields, entries.as_slice()),
        _ => None,
    }
}

fn unknown_among<'a>(fields: &[Field], entries: &'a [(Text, Json)]) -> Option<&'a Text>
    ensures { option_copied result ≡ fold (least_unknown fields.now) None entries.now }
{
    let mut least = None;
    for entry in entries {
        if !is_known(fields, &entry.0) && is_earlier(&entry.0, least) {
            least = Some(&entry.0);
        }
    }
    least
}

fn is_known(fields: &[Field], name: &Text) -> bool
    ensures { result ≡ is_known fields.now name.now }
{
    name.as_str() == "_id" || is_field_name(fields, name)
}

fn is_field_name(fields: &[Field], name: &Text) -> bool
    ensures { result ≡ is_field_name fields.now name.now }
{
    fields.iter().any(|field| field.name() == name)
}

fn is_earlier(name: &Text, least: Option<&Text>) -> bool
    ensures { result ≡ is_earlier name.now (option_copied least.entry) }
{
    match least {
        Some(least) => name.cmp(least).is_lt(),
        None => true,
    }
}
