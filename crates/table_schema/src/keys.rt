//! Reads a descriptor's missing values, primary key and foreign keys (Table Schema v1, "Other properties").
ghost use Rattle.std.specs.Prelude.{◌≡◌, ◌≤◌, ◌==◌, length, IfOk, slice_get};
ghost use Rattle.std.specs.Option.{option_copied};
ghost use Rattle.std.specs.List.{list_any};
ghost use Rattle.table_schema.specs.Values.{all_of};
ghost use Rattle.table_schema.specs.Keys.{missing_in, index_of, indices_of, indices_in, key_in, same_kind, refers};
ghost use Rattle.table_schema.specs.Keys.{refers_to_key, reference_in, resource_in, target_in, foreign_key_of};
ghost use Rattle.table_schema.specs.Keys.{foreign_key_in, foreign_keys_in};

use crate::column::Column;
use crate::foreign::Foreign;
use crate::form::Kind;
use crate::listed::ListedTexts;
use crate::values::{is_map, listed_in, names_in};
use portal_base::json_value::Json;
use portal_base::kinds::{list_in, present, text_in};
use portal_base::seq::Seq;
use portal_base::text::Text;
use std::alloc::{AllocError, Global};

/// The texts that are missing values, or none if `missingValues` is invalid.
pub(crate) fn missing_of(alloc: Global, value: &Json) -> Result<Option<ListedTexts>, AllocError>
    ensures { IfOk result (λ missing. missing ≡ missing_in value.now) }
{
    if let Some(value) = present(value, "missingValues") {
        return listed_in(alloc, value);
    }
    let mut missing = Vec::new(alloc);
    missing.push(Text::new(alloc))?;
    Ok(Some(ListedTexts::of_texts(alloc, Seq::from(missing))?))
}

/// The indices of the primary key's fields, or none if `primaryKey` is invalid.
pub(crate) fn key_of(
    alloc: Global,
    columns: &[Column],
    value: &Json,
) -> Result<Option<Seq<u32>>, AllocError>
    requires { length columns.now ≤ 500 }
    ensures { IfOk result (λ key. key ≡ key_in columns.now value.now) }
{
    match present(value, "primaryKey") {
        Some(value) => indices_in(alloc, columns, value),
        None => Ok(Some(Seq::new(alloc))),
    }
}

// The indices of the fields that a text or a list of texts names, or none if it names an unknown field or one twice.
fn indices_in(
    alloc: Global,
    columns: &[Column],
    value: &Json,
) -> Result<Option<Seq<u32>>, AllocError>
    requires { length columns.now ≤ 500 }
    ensures { IfOk result (λ indices. indices ≡ indices_in columns.now value.now) }
{
    match names_in(alloc, value)? {
        Some(names) => indices_of(alloc, columns, names.as_slice()),
        None => Ok(None),
    }
}

fn indices_of(
    alloc: Global,
    columns: &[Column],
    names: &[Text],
) -> Result<Option<Seq<u32>>, AllocError>
    requires { length columns.now ≤ 500 }
    ensures { IfOk result (λ indices. indices ≡ indices_of columns.now names.now) }
{
    let mut indices = Vec::new(alloc);
    for name in names {
        let Some(index) = index_of(columns, name) else {
            return Ok(None);
        };
        if has_index(indices.as_slice(), index) {
            return Ok(None);
        }
        indices.push(index)?;
    }
    Ok(Some(Seq::from(indices)))
}

fn index_of(columns: &[Column], name: &Text) -> Option<u32>
    requires { length columns.now ≤ 500 }
    ensures { result ≡ index_of columns.now name.now }
{
    for (index, column) in columns.iter().enumerate() {
        if column.name.as_str() == name.as_str() {
            return Some(index as u32);
        }
    }
    None
}

/// Whether the index is in the list.
pub(crate) fn has_index(indices: &[u32], index: u32) -> bool
    ensures { result ≡ list_any (λ p. p == index) indices.now }
{
    indices.iter().any(|other| *other == index)
}

/// The foreign keys, or none if `foreignKeys` is invalid.
pub(crate) fn foreign_keys_of(
    alloc: Global,
    columns: &[Column],
    key: &[u32],
    value: &Json,
) -> Result<Option<Seq<Foreign>>, AllocError>
    requires { length columns.now ≤ 500 }
    ensures { IfOk result (λ foreign_keys. foreign_keys ≡ foreign_keys_in columns.now key.now value.now) }
{
    let Some(value) = present(value, "foreignKeys") else {
        return Ok(Some(Seq::new(alloc)));
    };
    match list_in(value) {
        Some(items) => foreign_keys_in(alloc, columns, key, items.as_slice()),
        None => Ok(None),
    }
}

fn foreign_keys_in(
    alloc: Global,
    columns: &[Column],
    key: &[u32],
    items: &[Json],
) -> Result<Option<Seq<Foreign>>, AllocError>
    requires { length columns.now ≤ 500 }
    ensures { IfOk result (λ foreign_keys. foreign_keys ≡ all_of (foreign_key_in columns.now key.now) items.now) }
{
    let mut foreign_keys = Vec::new(alloc);
    for item in items {
        let Some(foreign) = foreign_key_in(alloc, columns, key, item)? else {
            return Ok(None);
        };
        foreign_keys.push(foreign)?;
    }
    Ok(Some(Seq::from(foreign_keys)))
}

// Reads one foreign key.
fn foreign_key_in(
    alloc: Global,
    columns: &[Column],
    key: &[u32],
    item: &Json,
) -> Result<Option<Foreign>, AllocError>
    requires { length columns.now ≤ 500 }
    ensures { IfOk result (λ foreign. foreign ≡ foreign_key_in columns.now key.now item.now) }
{
    let Some(fields) = present(item, "fields") else {
        return Ok(None);
    };
    let Some(indices) = indices_in(alloc, columns, fields)? else {
        return Ok(None);
    };
    let Some(reference) = reference_in(item) else {
        return Ok(None);
    };
    let Some(resource) = resource_in(alloc, reference)? else {
        return Ok(None);
    };
    let Some(target) = target_in(alloc, reference)? else {
        return Ok(None);
    };
    Ok(foreign_key_of(columns, key, indices, resource, target))
}

// The dictionary `reference`.
fn reference_in(item: &Json) -> Option<&Json>
    ensures { option_copied result ≡ reference_in item.now }
{
    let reference = present(item, "reference")?;
    if is_map(reference) {
        Some(reference)
    } else {
        None
    }
}

// The resource of a reference. It is the empty text if none is given.
fn resource_in(alloc: Global, reference: &Json) -> Result<Option<Text>, AllocError>
    ensures { IfOk result (λ resource. resource ≡ resource_in reference.now) }
{
    let Some(value) = present(reference, "resource") else {
        return Ok(Some(Text::new(alloc)));
    };
    match text_in(value) {
        Some(resource) => Ok(Some(Text::from_str(alloc, resource.as_str())?)),
        None => Ok(None),
    }
}

// The names of the fields that the key refers to.
fn target_in(alloc: Global, reference: &Json) -> Result<Option<Seq<Text>>, AllocError>
    ensures { IfOk result (λ target. target ≡ target_in reference.now) }
{
    match present(reference, "fields") {
        Some(value) => names_in(alloc, value),
        None => Ok(None),
    }
}

// The foreign key of these parts, if there is a target for each field, and if a key to the same table refers to its
// primary key.
fn foreign_key_of(
    columns: &[Column],
    key: &[u32],
    fields: Seq<u32>,
    resource: Text,
    target: Seq<Text>,
) -> Option<Foreign>
    ensures { result ≡ foreign_key_of columns.now key.now fields resource target }
{
    if fields.len() != target.len() {
        return None;
    }
    if resource.is_empty() && !refers_to_key(columns, fields.as_slice(), key, target.as_slice()) {
        return None;
    }
    Some(Foreign {
        fields,
        resource,
        target,
    })
}

// Whether the target is the whole primary key in order, with the same types.
fn refers_to_key(columns: &[Column], fields: &[u32], key: &[u32], target: &[Text]) -> bool
    ensures { result ≡ refers_to_key columns.now fields.now key.now target.now }
{
    if fields.len() != key.len() || key.len() != target.len() {
        return false;
    }
    for index in 0..key.len() {
        let field = column_at(columns, fields[index]);
        let column = column_at(columns, key[index]);
        if !refers(field, column, &target[index]) {
            return false;
        }
    }
    true
}

fn column_at(columns: &[Column], index: u32) -> Option<&Column>
    ensures { option_copied result ≡ slice_get columns.now index }
{
    columns.get(index as usize)
}

// Whether a field can refer to `target` in the same table: `target` has this name and the same type.
fn refers(field: Option<&Column>, target: Option<&Column>, name: &Text) -> bool
    ensures { result ≡ refers (option_copied field.entry) (option_copied target.entry) name.now }
{
    match (field, target) {
        (Some(field), Some(target)) => {
            target.name.as_str() == name.as_str()
                && is_same_kind(field.form.kind(), target.form.kind())
        }
        _ => false,
    }
}

fn is_same_kind(one: Kind, other: Kind) -> bool
    ensures { result ≡ same_kind one other }
{
    one == other
}
