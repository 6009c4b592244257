//! The columns of a table's rows: `_id` and the fields.
ghost use Rattle.std.specs.Prelude.{◌≡◌, ◌∷◌, ℕ, All, IfOk, Ok, OnOk, length, map, nat_eq, not, option_copied, option_map};
ghost use Rattle.std.specs.HashSet.{contains};
ghost use Rattle.table_schema.specs.Printed.{IsValue, cell_value};
ghost use Rattle.datastore_query.specs.Column.{all_columns, column_cell, column_kind, column_name, column_of};
ghost use Rattle.datastore_query.specs.Column.{column_reading, columns_reading, id_cell, named_columns, no_field_error};
ghost use Rattle.datastore_query.specs.Column.{projected};
ghost use Rattle.datastore_query.specs.Repeats.{column_number, columns_once, with_number};

use crate::field_names::FieldNames;
use datastore_table::Row;
use portal_base::copy::TryClone;
use portal_base::json_value::Json;
use portal_base::seq::Seq;
use portal_base::text::Text;
use std::alloc::{AllocError, Global};
use std::collections::HashSet;
use table_schema::{Cell, Field, Kind, cell_json};

/// The name of the column of `_id`s.
const ID: &str = "_id";

/// A column of a table's rows.
#[derive(Clone, Copy, Drop)]
pub(crate) enum Column {
    /// The column of the `_id`s.
    Id,
    /// The column of the field at this index in the schema, from 0.
    Field(usize),
}

/// Finds the column with this name.
pub(crate) fn column_of(fields: &FieldNames, name: &str) -> Option<Column>
    ensures { result ≡ column_of fields.now name.now }
{
    if name == ID {
        return Some(Column::Id);
    }
    match fields.index_of(name) {
        Some(index) => Some(Column::Field(index)),
        None => None,
    }
}

/// The error for a name that no column has.
pub(crate) fn no_field_error(alloc: Global, name: &str) -> Result<Text, AllocError>
    ensures { IfOk result (λ text. text ≡ no_field_error name.now) }
{
    Ok(Text::from(format!(in alloc; "No field {name}")?))
}

/// The type of its cells.
pub(crate) fn kind_of(fields: &FieldNames, column: Column) -> Kind
    ensures { result ≡ column_kind fields.now column }
{
    match column {
        Column::Id => Kind::Integer,
        Column::Field(index) => match fields.as_slice().get(index) {
            Some(field) => field.form().kind(),
            None => Kind::Text,
        },
    }
}

fn name_of(alloc: Global, fields: &[Field], column: Column) -> Result<Text, AllocError>
    ensures { IfOk result (λ name. name ≡ column_name fields.now column) }
{
    match column {
        Column::Id => Ok(Text::from_static(ID)),
        Column::Field(index) => match fields.get(index) {
            Some(field) => field.name().try_clone(alloc),
            None => Ok(Text::new(alloc)),
        },
    }
}

/// The names of these columns.
pub(crate) fn names_of(
    alloc: Global,
    fields: &[Field],
    columns: &[Column],
) -> Result<Seq<Text>, AllocError>
    ensures { IfOk result (λ names. names ≡ map (column_name fields.now) columns.now) }
{
    let mut names = Vec::with_capacity(alloc, columns.len())?;
    for column in columns {
        names.push(name_of(alloc, fields, *column)?)?;
    }
    Ok(Seq::from(names))
}

// The column of the `_id`s, and after it the columns of all fields.
#[tactic(auto, using(crate::proofs::RowLemmas::field_columns_from_next))]
fn all_columns(alloc: Global, fields: &[Field]) -> Result<Seq<Column>, AllocError>
    ensures { IfOk result (λ columns. columns ≡ all_columns fields.now) }
{
    let mut columns = Vec::new(alloc);
    columns.push(Column::Id)?;
    for index in 0..fields.len() {
        columns.push(Column::Field(index))?;
    }
    Ok(Seq::from(columns))
}

// The columns with these names, or the error for the first name that no column has.
fn named_columns(
    alloc: Global,
    fields: &FieldNames,
    names: &[Text],
) -> Result<Result<Seq<Column>, Text>, AllocError>
    ensures { IfOk result (λ columns. columns ≡ named_columns fields.now names.now) }
{
    let mut columns = Vec::with_capacity(alloc, names.len())?;
    for name in names {
        match column_of(fields, name.as_str()) {
            Some(column) => columns.push(column)?,
            None => return Ok(Err(no_field_error(alloc, name.as_str())?)),
        }
    }
    Ok(Ok(Seq::from(columns)))
}

/// The columns that a query returns, or the error for the first name that no column has. Without names these are all
/// columns.
pub(crate) fn columns_of(
    alloc: Global,
    fields: &FieldNames,
    names: &Option<Seq<Text>>,
) -> Result<Result<Seq<Column>, Text>, AllocError>
    ensures { IfOk result (λ columns. columns ≡ columns_reading fields.now names.now) }
{
    match names {
        None => Ok(Ok(all_columns(alloc, fields.as_slice())?)),
        Some(names) => named_columns(alloc, fields, names.as_slice()),
    }
}

/// An `_id` as a cell: an integer, or its digits as a text if it exceeds `i64`.
pub(crate) fn id_cell(alloc: Global, id: u64) -> Result<Cell, AllocError>
    ensures { IfOk result (λ cell. cell ≡ id_cell id) }
{
    match i64::try_from(id) {
        Ok(id) => Ok(Cell::Int(id)),
        Err(_) => Ok(Cell::Text(Text::from(format!(in alloc; "{id}")?))),
    }
}

/// The JSON value of the cell of a row in a column.
pub(crate) fn value_in(alloc: Global, row: &Row, column: Column) -> Result<Json, AllocError>
    requires { All IsValue row.now.cells }
    ensures { IfOk result (λ value. value ≡ cell_value (column_cell column row.now)) }
{
    match column {
        Column::Id => cell_json(alloc, &id_cell(alloc, row.id)?),
        Column::Field(index) => match row.cells.as_slice().get(index) {
            Some(cell) => cell_json(alloc, cell),
            None => Ok(Json::Null),
        },
    }
}

// The cell of a row in a column.
fn cell_of(alloc: Global, row: &Row, column: Column) -> Result<Cell, AllocError>
    ensures { IfOk result (λ cell. cell ≡ column_cell column row.now) }
{
    match column {
        Column::Id => id_cell(alloc, row.id),
        Column::Field(index) => match row.cells.as_slice().get(index) {
            Some(cell) => cell.try_clone(alloc),
            None => Ok(Cell::Null),
        },
    }
}

/// The cells of a row in these columns.
pub(crate) fn projected(
    alloc: Global,
    columns: &[Column],
    row: &Row,
) -> Result<Seq<Cell>, AllocError>
    ensures { IfOk result (λ cells. cells ≡ projected columns.now row.now) }
{
    let mut cells = Vec::with_capacity(alloc, columns.len())?;
    for column in columns {
        cells.push(cell_of(alloc, row, *column)?)?;
    }
    Ok(Seq::from(cells))
}

// ---- repeated columns

// A number for each column.
fn column_number(column: Column) -> u128
    ensures { result ≡ column_number column }
{
    match column {
        Column::Id => 0,
        Column::Field(index) => index as u128 + 1,
    }
}

/// Adds a column to the columns seen before, each by its number. Returns whether the column is new.
pub(crate) fn add_column(seen: &mut HashSet<u128>, column: Column) -> Result<bool, AllocError>
    ensures new { IfOk result (λ new. new ≡ not (contains nat_eq seen.old (column_number column))) }
    ensures seen { OnOk result ((n : ℕ) → contains nat_eq seen.new n
        ≡ with_number (column_number column) (contains nat_eq seen.old) n) }
{
    Ok(seen.insert(column_number(column))?)
}

/// The first of each group of columns that are one.
pub(crate) fn columns_once(alloc: Global, columns: &[Column]) -> Result<Vec<Column>, AllocError>
    ensures { IfOk result (λ once. once.items ≡ columns_once columns.now) }
{
    let mut once = Vec::new(alloc);
    let mut seen = HashSet::new(alloc);
    for column in columns {
        if add_column(&mut seen, *column)? {
            once.push(*column)?;
        }
    }
    Ok(once)
}
