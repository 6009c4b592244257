//! Reads the fields of a descriptor (Table Schema v1, "Field descriptors").
ghost use Rattle.std.specs.Prelude.{◌≡◌, ◌≢◌, ◌+◌, ◌≤◌, ◌⊎◌, [], map, length, true, IfOk, Ok, Err, codes};
ghost use Rattle.std.specs.List.{list_all, list_any};
ghost use Rattle.std.specs.Str.{bytes_eq};
ghost use Rattle.table_schema.specs.Values.{is_map, Gives};
ghost use Rattle.table_schema.specs.Truth.{is_among};
ghost use Rattle.table_schema.specs.Descriptor.{field_items, name_reading, new_name, supported, unsupported_types};
ghost use Rattle.table_schema.specs.Descriptor.{kind_reading, kind_named, format_reading, pattern_reading};
ghost use Rattle.table_schema.specs.Descriptor.{has_pattern, column_of, column_reading, columns_reading};
ghost use Rattle.table_schema.specs.Descriptor.{NamesUnsupported};

use crate::constraint::Constraints;
use crate::fault::SchemaFault;
use crate::form::{Form, Kind};
use crate::options::{constraints_of, form_of};
use crate::values::is_map;
use lexical_forms::is_field_name;
use portal_base::json_value::Json;
use portal_base::kinds::{list_in, present, text_in};
use portal_base::seq::Seq;
use portal_base::text::Text;
use std::alloc::{AllocError, Global};

/// The maximum count of fields in a descriptor.
const MAX_FIELDS: usize = 500;

/// A field as its descriptor gives it.
#[derive(Drop)]
pub struct Column {
    pub name: Text,
    pub form: Form,
    pub constraints: Constraints,
}

/// The list `fields` of a descriptor, which must have 1 to 500 dictionaries.
///
/// The errors are `NotJson` and `NoFields`.
pub(crate) fn field_items(value: &Json) -> Result<&Seq<Json>, SchemaFault>
    ensures items { Gives (λ items. items.now) result (field_items value.now) }
    ensures memory { result ≢ Err SchemaFault.OutOfMemory }
{
    if !is_map(value) {
        return Err(SchemaFault::NotJson);
    }
    let Some(fields) = present(value, "fields") else {
        return Err(SchemaFault::NoFields);
    };
    let Some(items) = list_in(fields) else {
        return Err(SchemaFault::NoFields);
    };
    let listed = items.as_slice();
    if listed.is_empty() || listed.len() > MAX_FIELDS || !are_maps(listed) {
        return Err(SchemaFault::NoFields);
    }
    Ok(items)
}

fn are_maps(items: &[Json]) -> bool
    ensures { result ≡ list_all is_map items.now }
{
    items.iter().all(is_map)
}

/// Reads the fields in order. Returns the first error.
pub(crate) fn columns_of(alloc: Global, items: &[Json]) -> Result<Vec<Column>, SchemaFault>
    requires { length items.now ≤ 500 }
    ensures { Gives (λ columns. columns.items) result (columns_reading 1 [] items.now) }
{
    let mut columns = Vec::new(alloc);
    for (index, item) in items.iter().enumerate() {
        let column = column_of(alloc, index as u32 + 1, columns.as_slice(), item)?;
        if columns.push(column).is_err() {
            return Err(SchemaFault::OutOfMemory);
        }
    }
    Ok(columns)
}

// Reads the field with this number, counted from 1. `before` has the fields before it.
fn column_of(
    alloc: Global,
    number: u32,
    before: &[Column],
    item: &Json,
) -> Result<Column, SchemaFault>
    ensures { Gives (λ x. x) result (column_reading number (map (λ c. c.name) before.now) item.now) }
{
    let name = name_of(number, item)?;
    if is_taken(before, name) {
        return Err(SchemaFault::RepeatedName(number));
    }
    let kind = kind_of(alloc, number, item)?;
    validate_format(alloc, item)?;
    validate_pattern(alloc, item)?;
    match column_with_options(alloc, name, kind, item)? {
        Some(column) => Ok(column),
        None => Err(SchemaFault::BadConstraint(number)),
    }
}

// The field of this name and type, if its options and constraints are valid.
fn column_with_options(
    alloc: Global,
    name: &Text,
    kind: Kind,
    item: &Json,
) -> Result<Option<Column>, AllocError>
    ensures { IfOk result (λ column. column ≡ column_of name.now kind item.now) }
{
    let Some(form) = form_of(alloc, kind, item)? else {
        return Ok(None);
    };
    let Some(constraints) = constraints_of(alloc, kind, item)? else {
        return Ok(None);
    };
    let name = Text::from_str(alloc, name.as_str())?;
    Ok(Some(Column {
        name,
        form,
        constraints,
    }))
}

fn name_of(number: u32, item: &Json) -> Result<&Text, SchemaFault>
    ensures name { Gives (λ name. name.now) result (name_reading number item.now) }
    ensures memory { result ≢ Err SchemaFault.OutOfMemory }
{
    let Some(value) = present(item, "name") else {
        return Err(SchemaFault::BadName(number));
    };
    match text_in(value) {
        Some(name) if is_field_name(name.as_str()) => Ok(name),
        _ => Err(SchemaFault::BadName(number)),
    }
}

fn is_taken(columns: &[Column], name: &Text) -> bool
    ensures { result ≡ list_any (λ c. bytes_eq c.name name.now) columns.now }
{
    columns
        .iter()
        .any(|column| column.name.as_str() == name.as_str())
}

fn kind_of(alloc: Global, number: u32, item: &Json) -> Result<Kind, SchemaFault>
    ensures kind { Gives (λ x. x) result (kind_reading number item.now) }
    ensures memory { result ≡ Err SchemaFault.OutOfMemory → NamesUnsupported (kind_reading number item.now) }
{
    let Some(value) = present(item, "type") else {
        return Ok(Kind::Text);
    };
    let Some(name) = text_in(value) else {
        return Err(SchemaFault::UnknownKind(number));
    };
    match kind_named(name.as_str()) {
        Some(kind) => Ok(kind),
        None if is_unsupported(name.as_str()) => Err(unsupported(alloc, name.as_str())),
        None => Err(SchemaFault::UnknownKind(number)),
    }
}

fn kind_named(name: &str) -> Option<Kind>
    ensures { result ≡ supported name.now }
{
    match name {
        "string" | "any" => Some(Kind::Text),
        "integer" => Some(Kind::Integer),
        "number" => Some(Kind::Number),
        "boolean" => Some(Kind::Boolean),
        "date" => Some(Kind::Date),
        "time" => Some(Kind::Time),
        "datetime" => Some(Kind::Datetime),
        "year" => Some(Kind::Year),
        "yearmonth" => Some(Kind::YearMonth),
        _ => None,
    }
}

// Whether the name is that of a type of Table Schema v1 that isn't supported.
fn is_unsupported(name: &str) -> bool
    ensures { result ≡ is_among unsupported_types name.now }
{
    matches!(
        name,
        "object" | "array" | "duration" | "geopoint" | "geojson"
    )
}

// The error that names the unsupported type, format or constraint.
fn unsupported(alloc: Global, name: &str) -> SchemaFault
    ensures { (result ≡ SchemaFault.OutOfMemory) ⊎ (result ≡ SchemaFault.Unsupported name.now) }
{
    match Text::from_str(alloc, name) {
        Ok(name) => SchemaFault::Unsupported(name),
        Err(_) => SchemaFault::OutOfMemory,
    }
}

fn validate_format(alloc: Global, item: &Json) -> Result<(), SchemaFault>
    ensures format { Gives (λ _. true) result (format_reading item.now) }
    ensures memory { result ≡ Err SchemaFault.OutOfMemory → NamesUnsupported (format_reading item.now) }
{
    let Some(value) = present(item, "format") else {
        return Ok(());
    };
    match text_in(value) {
        Some(format) if format.as_str() == "default" => Ok(()),
        Some(format) => Err(unsupported(alloc, format.as_str())),
        None => Err(unsupported(alloc, "format")),
    }
}

fn validate_pattern(alloc: Global, item: &Json) -> Result<(), SchemaFault>
    ensures pattern { Gives (λ _. true) result (pattern_reading item.now) }
    ensures memory { result ≡ Err SchemaFault.OutOfMemory → NamesUnsupported (pattern_reading item.now) }
{
    if has_pattern(item) {
        Err(unsupported(alloc, "pattern"))
    } else {
        Ok(())
    }
}

fn has_pattern(item: &Json) -> bool
    ensures { result ≡ has_pattern item.now }
{
    match present(item, "constraints") {
        Some(constraints) => present(constraints, "pattern").is_some(),
        None => false,
    }
}
