//! Reads the header: it names the column that each field is read from.
ghost use Rattle.std.specs.Prelude.{◌≡◌, ◌<◌, ◌+◌, ◌^◌, ℕ, List, take, length, Some, Err};
ghost use Rattle.csv.specs.Records.{fields_of};
ghost use Rattle.typed_csv.specs.Faults.{Gives, IsRefused};
ghost use Rattle.typed_csv.specs.Header.{is_field_name, is_valid_column, bad_column, column_of, header_layout};
ghost use Rattle.table_schema.specs.Truth.{is_among};
ghost use Rattle.typed_csv.specs.Records.{text_at};

use crate::fault::LoadFault;
use csv::StringRecord;
use portal_base::seq::Seq;
use portal_base::text::Text;
use std::alloc::Global;
use table_schema::Field;

/// The columns of a file.
#[derive(Drop)]
pub(crate) struct Layout {
    /// The count of columns.
    pub(crate) width: usize,
    /// For each field of the schema, the column that it is read from, counted from 0, or none if it has no column.
    pub(crate) columns: Seq<Option<usize>>,
}

/// The field of a record at an index, or the empty text if there is none.
pub(crate) fn text_at(row: &StringRecord, index: usize) -> &str
    ensures { result.now ≡ text_at (fields_of row.now) index }
{
    match row.get(index) {
        Some(text) => text,
        None => "",
    }
}

/// Reads the layout from the names of the columns. Returns `Header` if a column has an invalid name, which takes no
/// memory.
pub(crate) fn layout_of(
    alloc: Global,
    fields: &[Field],
    names: &StringRecord,
) -> Result<Layout, LoadFault>
    ensures layout { Gives (λ layout. layout) result (header_layout fields.now (fields_of names.now)) }
    ensures invalid { (column : ℕ) → bad_column fields.now (fields_of names.now) ≡ Some column
        → column + 1 < 2 ^ 32 → result ≡ Err (LoadFault.Header (column + 1)) }
{
    if let Some(column) = bad_column(fields, names) {
        return Err(header_fault(column));
    }
    let mut columns = Vec::with_capacity(alloc, fields.len())?;
    for field in fields {
        if columns.push(column_of(names, field.name())).is_err() {
            return Err(LoadFault::OutOfMemory);
        }
    }
    Ok(Layout {
        width: names.len(),
        columns: Seq::from(columns),
    })
}

// The error of a column, counted from 0. Only if its number from 1 doesn't fit a `u32`, the error is `OutOfMemory`.
fn header_fault(column: usize) -> LoadFault
    ensures fault { IsRefused {Y = Layout} result (Err (LoadFault.Header (column + 1))) }
    ensures number { column + 1 < 2 ^ 32 → result ≡ LoadFault.Header (column + 1) }
{
    match u32::try_from(column as u128 + 1) {
        Ok(number) => LoadFault::Header(number),
        Err(_) => LoadFault::OutOfMemory,
    }
}

// The first column with an invalid name, counted from 0.
#[tactic(auto, using(crate::proofs::HeaderLemmas::bad_columns))]
fn bad_column(fields: &[Field], names: &StringRecord) -> Option<usize>
    ensures { result ≡ bad_column fields.now (fields_of names.now) }
{
    for column in 0..names.len() {
        if !is_valid_column(fields, names, column) {
            return Some(column);
        }
    }
    None
}

// Whether the name of the column is valid: it is empty, or it is the name of a field and of no earlier column.
fn is_valid_column(fields: &[Field], names: &StringRecord, column: usize) -> bool
    requires { column < length (fields_of names.now) }
    ensures { result ≡ is_valid_column fields.now (take column (fields_of names.now))
        (text_at (fields_of names.now) column) }
{
    let name = text_at(names, column);
    name.is_empty() || (is_field_name(fields, name) && !is_earlier(names, column, name))
}

fn is_field_name(fields: &[Field], name: &str) -> bool
    ensures { result ≡ is_field_name fields.now name.now }
{
    fields.iter().any(|field| field.name().as_str() == name)
}

// Whether an earlier column has the name.
#[tactic(auto, using(crate::proofs::HeaderLemmas::earlier))]
fn is_earlier(names: &StringRecord, column: usize, name: &str) -> bool
    requires { column < length (fields_of names.now) }
    ensures { result ≡ is_among (take column (fields_of names.now)) name.now }
{
    for earlier in 0..column {
        if text_at(names, earlier) == name {
            return true;
        }
    }
    false
}

// The first column with this name, counted from 0.
#[tactic(auto, using(crate::proofs::HeaderLemmas::columns))]
fn column_of(names: &StringRecord, name: &Text) -> Option<usize>
    ensures { result ≡ column_of (fields_of names.now) name.now }
{
    for column in 0..names.len() {
        if text_at(names, column) == name.as_str() {
            return Some(column);
        }
    }
    None
}
