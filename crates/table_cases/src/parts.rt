//! The parts of queries, of a column of a case.
ghost use Rattle.std.specs.Prelude.{IfOk, IsTrue};
ghost use Rattle.table_schema.specs.Values.{is_map};

use crate::read::{id_of, json_of};
use cases::invalid;
use datastore_query::Parts;
use portal_base::copy::TryClone;
use portal_base::json_value::Json;
use portal_base::seq::Seq;
use portal_base::text::Text;
use std::alloc::Global;
use std::io;

fn text_at(alloc: Global, value: &Json, key: &str) -> io::Result<Text> {
    match value.get(key) {
        Some(Json::Text(text)) => Ok(text.try_clone(alloc)?),
        Some(_) => Err(invalid()),
        None => Ok(Text::new(alloc)),
    }
}

fn number_at(value: &Json, key: &str, default: u64) -> io::Result<u64> {
    match value.get(key) {
        Some(number) => id_of(number),
        None => Ok(default),
    }
}

fn names_of(alloc: Global, items: &[Json]) -> io::Result<Seq<Text>> {
    let mut names = Vec::new(alloc);
    for item in items {
        let Json::Text(text) = item else {
            return Err(invalid());
        };
        names.push(text.try_clone(alloc)?)?;
    }
    Ok(Seq::from(names))
}

fn fields_of(alloc: Global, value: &Json) -> io::Result<Option<Seq<Text>>> {
    match value.get("fields") {
        Some(Json::List(items)) => Ok(Some(names_of(alloc, items.as_slice())?)),
        Some(_) => Err(invalid()),
        None => Ok(None),
    }
}

/// The filters, which are none where the key is absent.
fn filters_of(alloc: Global, value: Json) -> io::Result<Json>
    ensures { IfOk result (λ filters. IsTrue (is_map filters)) }
{
    match value.take("filters") {
        Some(Json::Map(entries)) => Ok(Json::Map(entries)),
        Some(_) => Err(invalid()),
        None => Ok(Json::Map(Seq::new(alloc))),
    }
}

/// The texts: what is searched for, and the sort.
fn texts_of(alloc: Global, value: &Json) -> io::Result<(Text, Text)> {
    Ok((text_at(alloc, value, "q")?, text_at(alloc, value, "sort")?))
}

/// The limit and the offset.
fn bounds_of(value: &Json) -> io::Result<(u64, u64)> {
    Ok((
        number_at(value, "limit", 100)?,
        number_at(value, "offset", 0)?,
    ))
}

/// The parts with these filters.
fn parts_with(alloc: Global, filters: Json, value: &Json) -> io::Result<Parts>
    requires { IsTrue (is_map filters) }
    ensures { IfOk result (λ parts. IsTrue (is_map parts.filters)) }
{
    let (limit, offset) = bounds_of(value)?;
    let (q, sort) = texts_of(alloc, value)?;
    Ok(Parts {
        filters,
        q,
        distinct: matches!(value.get("distinct"), Some(Json::Truth(true))),
        fields: fields_of(alloc, value)?,
        sort,
        limit,
        offset,
    })
}

/// The parts of a query, of a dictionary of those that aren't the default.
pub fn parts_of(alloc: Global, text: &str) -> io::Result<Parts>
    ensures { IfOk result (λ parts. IsTrue (is_map parts.filters)) }
{
    let filters = filters_of(alloc, json_of(alloc, text)?)?;
    parts_with(alloc, filters, &json_of(alloc, text)?)
}
