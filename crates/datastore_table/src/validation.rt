//! Validates one record against the current rows.
ghost use Rattle.std.specs.Prelude.{◌≡◌, true, IfOk, Some, option_copied, slice_get};
ghost use Rattle.datastore_table.specs.Put.{checked, id_of, kept_cells, key_fault, missing_fault, validated_against};
ghost use Rattle.datastore_table.specs.Put.{validated_record};
ghost use Rattle.datastore_table.specs.Put.{unique_fault, unknown_fault};
ghost use Rattle.datastore_table.specs.Record.{unknown_in};
ghost use Rattle.datastore_table.specs.Results.{Answers, in_turn};
ghost use Rattle.datastore_table.specs.Rows.{is_taken, rows_after};
ghost use Rattle.datastore_table.specs.Cells.{cell_at, has_null_at};
ghost use Rattle.datastore_table.specs.Index.{IsSearchable};

use crate::cells::has_null_at;
use crate::fault::TableFault;
use crate::method::Method;
use crate::reading::{cells_of, key_of, unknown_in};
use crate::row::Row;
use crate::rows::{CurrentRows, current_row_with, is_taken};
use portal_base::copy::TryClone;
use portal_base::json_value::Json;
use portal_base::seq::Seq;
use std::alloc::{AllocError, Global};
use table_schema::{Cell, Field, Schema};

/// Validates a record. The result is the `_id` of the current row that has the record's key, if there is one, and the
/// record's cells. The error is the record's first fault, or out of memory.
pub(crate) fn validated_record(
    alloc: Global,
    method: Method,
    schema: &Schema,
    number: u64,
    given: &Json,
    current: &CurrentRows,
) -> Result<(Option<u64>, Seq<Cell>), TableFault>
    requires searchable { IsSearchable schema.now current.now.rows current.now.index.now }
    requires written { IsSearchable schema.now current.now.written current.now.written_index.now }
    ensures { Answers result (validated_record method schema.now number given.now
        (rows_after current.now.written current.now.rows)) }
{
    let key = key_of(alloc, schema, given)?;
    let row = current_row_with(current, schema.key().as_slice(), key.as_slice());
    validated_against(alloc, method, schema, number, given, row, current)
}

// Validates a record whose key this row has.
fn validated_against(
    alloc: Global,
    method: Method,
    schema: &Schema,
    number: u64,
    given: &Json,
    row: Option<&Row>,
    current: &CurrentRows,
) -> Result<(Option<u64>, Seq<Cell>), TableFault>
    requires searchable { IsSearchable schema.now current.now.rows current.now.index.now }
    requires written { IsSearchable schema.now current.now.written current.now.written_index.now }
    ensures { Answers result (validated_against method schema.now number given.now (option_copied row.entry)
        (rows_after current.now.written current.now.rows)) }
{
    let fields = schema.fields().as_slice();
    let cells = cells_of(alloc, number, fields, kept_cells(method, row), given)?;
    check_names(alloc, fields, number, given)?;
    check_key(schema, number, cells.as_slice())?;
    check_method(method, number, row)?;
    let id = id_of(row);
    check_unique(alloc, schema, number, id, cells.as_slice(), current)?;
    Ok((id, cells))
}

// The cells that the fields keep which the record lacks.
fn kept_cells(method: Method, row: Option<&Row>) -> Option<&Seq<Cell>>
    ensures { option_copied result ≡ kept_cells method (option_copied row.entry) }
{
    match (method, row) {
        (Method::Insert, _) | (_, None) => None,
        (_, Some(row)) => Some(&row.cells),
    }
}

fn id_of(row: Option<&Row>) -> Option<u64>
    ensures { result ≡ id_of (option_copied row.entry) }
{
    match row {
        Some(row) => Some(row.id),
        None => None,
    }
}

fn check_names(alloc: Global, fields: &[Field], number: u64, given: &Json) -> Result<(), TableFault>
    ensures { Answers result (unknown_fault number (unknown_in fields.now given.now)) }
{
    match unknown_in(fields, given) {
        Some(name) => {
            let name = name.try_clone(alloc)?;
            Err(TableFault::UnknownField(number, name))
        }
        None => Ok(()),
    }
}

fn check_key(schema: &Schema, number: u64, cells: &[Cell]) -> Result<(), TableFault>
    ensures { result ≡ missing_fault number (has_null_at schema.now.key cells.now) }
{
    if has_null_at(cells, schema.key().as_slice()) {
        Err(TableFault::KeyMissing(number))
    } else {
        Ok(())
    }
}

fn check_method(method: Method, number: u64, row: Option<&Row>) -> Result<(), TableFault>
    ensures { result ≡ key_fault method number (option_copied row.entry) }
{
    match (method, row) {
        (Method::Insert, Some(_)) => Err(TableFault::KeyTaken(number)),
        (Method::Update, None) => Err(TableFault::NoSuchKey(number)),
        _ => Ok(()),
    }
}

// Checks that no other row has the cell of a unique field.
fn check_unique(
    alloc: Global,
    schema: &Schema,
    number: u64,
    except: Option<u64>,
    cells: &[Cell],
    current: &CurrentRows,
) -> Result<(), TableFault>
    requires searchable { IsSearchable schema.now current.now.rows current.now.index.now }
    requires written { IsSearchable schema.now current.now.written current.now.written_index.now }
    ensures { Answers result (in_turn (unique_fault number except cells.now
        (rows_after current.now.written current.now.rows)) 0 schema.now.fields tt) }
{
    let fields = schema.fields().as_slice();
    for (column, field) in fields.iter().enumerate() {
        check_field(alloc, schema, field, number, except, column, cells, current)?;
    }
    Ok(())
}

fn check_field(
    alloc: Global,
    schema: &Schema,
    field: &Field,
    number: u64,
    except: Option<u64>,
    column: usize,
    cells: &[Cell],
    current: &CurrentRows,
) -> Result<(), TableFault>
    requires searchable { IsSearchable schema.now current.now.rows current.now.index.now }
    requires written { IsSearchable schema.now current.now.written current.now.written_index.now }
    requires at { slice_get schema.now.fields column ≡ Some field.now }
    ensures { Answers result (unique_fault number except cells.now
        (rows_after current.now.written current.now.rows) column field.now tt) }
{
    if !field.constraints().unique || !is_taken_at(schema, field, current, except, column, cells)? {
        return Ok(());
    }
    let name = field.name().try_clone(alloc)?;
    Err(TableFault::Unique(number, name))
}

// Whether another row has the cell of this unique field. A column past the range of `u32` is out of memory, since there
// is no memory for that many fields.
#[tactic(auto, using(crate::proofs::LookupLemmas::alone_unique))]
fn is_taken_at(
    schema: &Schema,
    field: &Field,
    current: &CurrentRows,
    except: Option<u64>,
    column: usize,
    cells: &[Cell],
) -> Result<bool, AllocError>
    requires searchable { IsSearchable schema.now current.now.rows current.now.index.now }
    requires written { IsSearchable schema.now current.now.written current.now.written_index.now }
    requires at { slice_get schema.now.fields column ≡ Some field.now }
    requires unique { field.now.constraints.unique ≡ true }
    ensures { IfOk result (λ taken. taken ≡ is_taken except column (cell_at cells.now column)
        (rows_after current.now.written current.now.rows)) }
{
    match u32::try_from(column) {
        Ok(column) => Ok(is_taken(current, except, column, cells)),
        Err(_) => Err(AllocError),
    }
}
