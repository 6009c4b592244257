//! Reads the text of a sort.
ghost use Rattle.std.specs.Prelude.{◌≡◌, IfOk, None, flat_map, is_none, map, option_copied, option_to_list};
ghost use Rattle.std.specs.List.{list_any};
ghost use Rattle.datastore_query.specs.Sort.{first_unknown, is_unreadable, sort_of, sort_reading, sorts_in};
ghost use Rattle.datastore_query.specs.Sort.{unknown_name};
ghost use Rattle.datastore_query.specs.SortText.{is_unclosed, part_reading, parts_of};
ghost use Rattle.datastore_query.specs.Repeats.{deciding};

use crate::column::{Column, add_column, column_of, no_field_error};
use crate::field_names::FieldNames;
use crate::sort_text::{is_unclosed, name_of, split_at_comma};
use portal_base::seq::Seq;
use portal_base::text::Text;
use sorted_pages::direction::{Direction, directed};
use std::alloc::{AllocError, Global};
use std::collections::HashSet;

/// One column that rows are sorted by, and the direction.
#[derive(Clone, Copy, Drop)]
pub(crate) struct Sort {
    pub column: Column,
    pub direction: Direction,
}

/// The name of a column that rows are sorted by, and the direction.
#[derive(Drop)]
pub(crate) struct SortName {
    pub name: Text,
    pub direction: Direction,
}

// The name and the direction of a part, unless the part is empty or leaves a double quote open.
fn part_of(alloc: Global, part: &str) -> Result<Option<SortName>, AllocError>
    ensures { IfOk result (λ read. read ≡ part_reading part.now) }
{
    let trimmed = part.trim();
    if trimmed.is_empty() || is_unclosed(part.as_bytes()) {
        return Ok(None);
    }
    let (text, direction) = directed(trimmed);
    let name = Text::from_str(alloc, name_of(text))?;
    Ok(Some(SortName { name, direction }))
}

// Reads each part of a text. A part that can't be read is `None`.
#[tactic(auto, using(crate::proofs::PartLemmas::parts_from_last, crate::proofs::PartLemmas::parts_of_some))]
fn parts_of(alloc: Global, text: &str) -> Result<Vec<Option<SortName>>, AllocError>
    ensures { IfOk result (λ parts. parts.items ≡ map part_reading (parts_of text.now)) }
{
    let mut parts = Vec::new(alloc);
    if text.is_empty() {
        return Ok(parts);
    }
    let mut rest = text;
    while let Some((part, after)) = split_at_comma(rest) {
        parts.push(part_of(alloc, part)?)?;
        rest = after;
    }
    parts.push(part_of(alloc, rest)?)?;
    Ok(parts)
}

fn unknown_name<'a>(fields: &FieldNames, part: &'a Option<SortName>) -> Option<&'a Text>
    ensures { option_copied result ≡ unknown_name fields.now part.now }
{
    match part {
        Some(part) if column_of(fields, part.name.as_str()).is_none() => Some(&part.name),
        _ => None,
    }
}

// The first name that no column has.
fn first_unknown<'a>(fields: &FieldNames, parts: &'a [Option<SortName>]) -> Option<&'a Text>
    ensures { option_copied result ≡ first_unknown fields.now parts.now }
{
    for part in parts {
        if let Some(name) = unknown_name(fields, part) {
            return Some(name);
        }
    }
    None
}

fn is_unreadable(parts: &[Option<SortName>]) -> bool
    ensures { result ≡ is_unreadable parts.now }
{
    parts.iter().any(Option::is_none)
}

fn sort_of(fields: &FieldNames, part: &Option<SortName>) -> Option<Sort>
    ensures { result ≡ sort_of fields.now part.now }
{
    match part {
        Some(part) => match column_of(fields, part.name.as_str()) {
            Some(column) => Some(Sort {
                column,
                direction: part.direction,
            }),
            None => None,
        },
        None => None,
    }
}

fn sorts_in(
    alloc: Global,
    fields: &FieldNames,
    parts: &[Option<SortName>],
) -> Result<Seq<Sort>, AllocError>
    ensures { IfOk result (λ sorts. sorts ≡ sorts_in fields.now parts.now) }
{
    let mut sorts = Vec::with_capacity(alloc, parts.len())?;
    for part in parts {
        if let Some(sort) = sort_of(fields, part) {
            sorts.push(sort)?;
        }
    }
    Ok(Seq::from(sorts))
}

/// Reads the columns that rows are sorted by. The error is that of the first name that no column has. If each name has
/// a column, it is that of a part that can't be read.
pub(crate) fn sorts_of(
    alloc: Global,
    fields: &FieldNames,
    text: &str,
) -> Result<Result<Seq<Sort>, Text>, AllocError>
    ensures { IfOk result (λ read. read ≡ sort_reading fields.now text.now) }
{
    let parts = parts_of(alloc, text)?;
    if let Some(name) = first_unknown(fields, parts.as_slice()) {
        return Ok(Err(no_field_error(alloc, name.as_str())?));
    }
    if is_unreadable(parts.as_slice()) {
        return Ok(Err(Text::from_static("Sort is not readable")));
    }
    Ok(Ok(sorts_in(alloc, fields, parts.as_slice())?))
}

/// The first sort of each column, which alone decide the order of rows.
pub(crate) fn deciding(alloc: Global, sorts: &[Sort]) -> Result<Vec<Sort>, AllocError>
    ensures { IfOk result (λ first. first.items ≡ deciding sorts.now) }
{
    let mut first = Vec::new(alloc);
    let mut seen = HashSet::new(alloc);
    for sort in sorts {
        if add_column(&mut seen, sort.column)? {
            first.push(*sort)?;
        }
    }
    Ok(first)
}
