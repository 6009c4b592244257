//! Filters as the JSON object of a query has them: a column, and values of which a row has one there.
ghost use Rattle.std.specs.Prelude.{◌≡◌, ◌∷◌, [], IfOk, IsTrue, None, Ok, filter, map, option_copied, true};
ghost use Rattle.std.specs.Cmp.Lexicographic.{slice_cmp};
ghost use Rattle.std.specs.List.{filter_map, list_all, list_any, reduce};
ghost use Rattle.std.specs.Option.{option_map_or};
ghost use Rattle.std.specs.Ordering.{is_lt, nat_cmp};
ghost use Rattle.portal_base.specs.Kinds.{all_of};
ghost use Rattle.datastore_table.specs.Cells.{cell_at};
ghost use Rattle.table_schema.specs.Order.{same_cell};
ghost use Rattle.datastore_query.specs.Filter.{entry_reading, filter_cell, filter_values, filters_in, filters_reading};
ghost use Rattle.datastore_query.specs.Filter.{entries_of, has_value, is_id, is_unknown, is_unreadable, least};
ghost use Rattle.datastore_query.specs.Filter.{passes_filter, passes_filters, type_error, unknown_keys};
ghost use Rattle.datastore_query.specs.Filter.{unreadable_keys};

use crate::column::{Column, column_of, kind_of, no_field_error};
use crate::field_names::FieldNames;
use datastore_table::Row;
use portal_base::copy::TryClone;
use portal_base::json_value::Json;
use portal_base::seq::Seq;
use portal_base::text::Text;
use std::alloc::{AllocError, Global};
use table_schema::{Cell, Kind, value_of};

/// A filter. A row passes it if it has one of these values in the column.
#[derive(Drop)]
pub(crate) struct Filter {
    pub column: Column,
    pub values: Seq<Cell>,
}

// The cell of one value, by the type alone, without the field's format and constraints. JSON's null is Null.
fn filter_cell(alloc: Global, kind: Kind, value: &Json) -> Result<Option<Cell>, AllocError>
    ensures { IfOk result (λ cell. cell ≡ filter_cell kind value.now) }
{
    match value {
        Json::Null => Ok(Some(Cell::Null)),
        _ => value_of(alloc, kind, value),
    }
}

// The cells of the values, if each value has one.
fn filter_cells(alloc: Global, kind: Kind, values: &[Json]) -> Result<Option<Seq<Cell>>, AllocError>
    ensures { IfOk result (λ cells. cells ≡ all_of (filter_cell kind) values.now) }
{
    let mut cells = Vec::with_capacity(alloc, values.len())?;
    for value in values {
        match filter_cell(alloc, kind, value)? {
            Some(cell) => cells.push(cell)?,
            None => return Ok(None),
        }
    }
    Ok(Some(Seq::from(cells)))
}

fn one_cell(alloc: Global, cell: Cell) -> Result<Seq<Cell>, AllocError>
    ensures { IfOk result (λ cells. cells ≡ cell ∷ []) }
{
    let mut cells = Vec::new(alloc);
    cells.push(cell)?;
    Ok(Seq::from(cells))
}

// The cells of one value, or of a list of values.
fn filter_values(alloc: Global, kind: Kind, value: &Json) -> Result<Option<Seq<Cell>>, AllocError>
    ensures { IfOk result (λ cells. cells ≡ filter_values kind value.now) }
{
    if let Json::List(values) = value {
        return filter_cells(alloc, kind, values.as_slice());
    }
    match filter_cell(alloc, kind, value)? {
        Some(cell) => Ok(Some(one_cell(alloc, cell)?)),
        None => Ok(None),
    }
}

// The filter of an entry, if its column exists and its values have the column's type.
fn entry_filter(
    alloc: Global,
    fields: &FieldNames,
    entry: &(Text, Json),
) -> Result<Option<Filter>, AllocError>
    ensures { IfOk result (λ filter. filter ≡ entry_reading fields.now entry.now) }
{
    let Some(column) = column_of(fields, entry.0.as_str()) else {
        return Ok(None);
    };
    match filter_values(alloc, kind_of(fields, column), &entry.1)? {
        Some(values) => Ok(Some(Filter { column, values })),
        None => Ok(None),
    }
}

fn is_earlier(name: &Text, least: Option<&Text>) -> bool
    ensures { result ≡ option_map_or (λ key. is_lt (slice_cmp nat_cmp name.now key)) (option_copied least.entry) true }
{
    match least {
        Some(least) => name.cmp(least).is_lt(),
        None => true,
    }
}

fn is_unknown(fields: &FieldNames, entry: &(Text, Json)) -> bool
    ensures { result ≡ is_unknown fields.now entry.now }
{
    column_of(fields, entry.0.as_str()).is_none()
}

// The least key, in the order of bytes, that names no column.
#[tactic(auto, using(crate::proofs::LeastLemmas::least_more))]
fn least_unknown<'a>(fields: &FieldNames, entries: &'a [(Text, Json)]) -> Option<&'a Text>
    ensures { option_copied result ≡ least (unknown_keys fields.now entries.now) }
{
    let mut least = None;
    for entry in entries {
        if is_unknown(fields, entry) && is_earlier(&entry.0, least) {
            least = Some(&entry.0);
        }
    }
    least
}

fn is_unreadable(
    alloc: Global,
    fields: &FieldNames,
    entry: &(Text, Json),
) -> Result<bool, AllocError>
    ensures { IfOk result (λ unreadable. unreadable ≡ is_unreadable fields.now entry.now) }
{
    Ok(entry_filter(alloc, fields, entry)?.is_none())
}

fn copy_of(alloc: Global, name: Option<&Text>) -> Result<Option<Text>, AllocError>
    ensures { IfOk result (λ copy. copy ≡ option_copied name.entry) }
{
    match name {
        Some(name) => Ok(Some(name.try_clone(alloc)?)),
        None => Ok(None),
    }
}

// The least key, in the order of bytes, whose filter can't be read.
#[tactic(auto, using(crate::proofs::LeastLemmas::least_more))]
fn least_unreadable(
    alloc: Global,
    fields: &FieldNames,
    entries: &[(Text, Json)],
) -> Result<Option<Text>, AllocError>
    ensures { IfOk result (λ key. key ≡ least (unreadable_keys fields.now entries.now)) }
{
    let mut least = None;
    for entry in entries {
        if is_unreadable(alloc, fields, entry)? && is_earlier(&entry.0, least) {
            least = Some(&entry.0);
        }
    }
    copy_of(alloc, least)
}

// The filters that can be read.
fn filters_in(
    alloc: Global,
    fields: &FieldNames,
    entries: &[(Text, Json)],
) -> Result<Seq<Filter>, AllocError>
    ensures { IfOk result (λ filters. filters ≡ filters_in fields.now entries.now) }
{
    let mut filters = Vec::with_capacity(alloc, entries.len())?;
    for entry in entries {
        if let Some(filter) = entry_filter(alloc, fields, entry)? {
            filters.push(filter)?;
        }
    }
    Ok(Seq::from(filters))
}

fn type_error(alloc: Global, name: &str) -> Result<Text, AllocError>
    ensures { IfOk result (λ text. text ≡ type_error name.now) }
{
    Ok(Text::from(format!(in alloc; "{name}: not of type")?))
}

fn entries_of(filters: &Json) -> &[(Text, Json)]
    ensures { result.now ≡ entries_of filters.now }
{
    match filters {
        Json::Map(entries) => entries.as_slice(),
        _ => &[],
    }
}

/// Reads the filters of a JSON object. The error is that of the least key, in the order of bytes, that names no column.
/// If each key names one, it is that of the least key whose value doesn't have the column's type.
pub(crate) fn filters_of(
    alloc: Global,
    fields: &FieldNames,
    filters: &Json,
) -> Result<Result<Seq<Filter>, Text>, AllocError>
    ensures { IfOk result (λ read. read ≡ filters_reading fields.now filters.now) }
{
    let entries = entries_of(filters);
    if let Some(name) = least_unknown(fields, entries) {
        return Ok(Err(no_field_error(alloc, name.as_str())?));
    }
    match least_unreadable(alloc, fields, entries)? {
        Some(name) => Ok(Err(type_error(alloc, name.as_str())?)),
        None => Ok(Ok(filters_in(alloc, fields, entries)?)),
    }
}
