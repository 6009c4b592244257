//! Tables and records of the columns of a case.
ghost use Rattle.std.specs.Prelude.{◌≡◌, IfOk, IsTrue};
ghost use Rattle.std.specs.List.{list_all};
ghost use Rattle.table_schema.specs.Values.{is_map};

use cases::invalid;
use datastore_table::Table;
use portal_base::json_value::Json;
use portal_base::seq::Seq;
use portal_base::text::Text;
use std::alloc::Global;
use std::io::{self, ErrorKind};
use table_schema::Schema;

/// The JSON value of a text.
pub fn json_of(alloc: Global, text: &str) -> io::Result<Json> {
    match Json::read(alloc, text.as_bytes()) {
        Ok(value) => Ok(value),
        Err(_) => Err(invalid()),
    }
}

/// The items of a list.
pub fn items_of(value: Json) -> io::Result<Seq<Json>> {
    match value {
        Json::List(items) => Ok(items),
        _ => Err(invalid()),
    }
}

/// The items of a list in JSON.
pub fn items_in(alloc: Global, text: &str) -> io::Result<Seq<Json>> {
    items_of(json_of(alloc, text)?)
}

/// The first entry of a dictionary.
pub fn entry_of(value: Json) -> io::Result<(Text, Json)> {
    let Json::Map(entries) = value else {
        return Err(invalid());
    };
    match entries.into_vec().into_iter().next() {
        Some(entry) => Ok(entry),
        None => Err(invalid()),
    }
}

/// The dictionaries of a list.
pub fn records_of(value: Json) -> io::Result<Seq<Json>>
    ensures { IfOk result (λ records. IsTrue (list_all is_map records)) }
{
    let items = items_of(value)?;
    if are_records(items.as_slice()) {
        Ok(items)
    } else {
        Err(invalid())
    }
}

fn are_records(items: &[Json]) -> bool
    ensures { result ≡ list_all is_map items.now }
{
    items.iter().all(is_record)
}

fn is_record(item: &Json) -> bool
    ensures { result ≡ is_map item.now }
{
    matches!(item, Json::Map(_))
}

/// The dictionaries of a list in JSON.
pub fn records_in(alloc: Global, text: &str) -> io::Result<Seq<Json>>
    ensures { IfOk result (λ records. IsTrue (list_all is_map records)) }
{
    records_of(json_of(alloc, text)?)
}

/// Whole numbers from 0.
pub fn ids_of(alloc: Global, value: &Json) -> io::Result<Seq<u64>> {
    let Json::List(items) = value else {
        return Err(invalid());
    };
    let mut ids = Vec::new(alloc);
    for item in items.as_slice() {
        ids.push(id_of(item)?)?;
    }
    Ok(Seq::from(ids))
}

/// A whole number from 0.
pub fn id_of(value: &Json) -> io::Result<u64> {
    let Json::Whole(number) = value else {
        return Err(invalid());
    };
    match u64::try_from(*number) {
        Ok(id) => Ok(id),
        Err(_) => Err(invalid()),
    }
}

/// The schema of the descriptor; `InvalidData` where it is none.
pub fn schema_of(alloc: Global, descriptor: &[u8]) -> io::Result<Schema> {
    match Schema::read(alloc, descriptor) {
        Ok(schema) => Ok(schema),
        Err(_) => Err(invalid()),
    }
}

/// A table of this descriptor without rows.
pub fn table_of(alloc: Global, descriptor: &str) -> io::Result<Table> {
    match Table::create(alloc, schema_of(alloc, descriptor.as_bytes())?) {
        Ok(table) => Ok(table),
        Err(_) => Err(io::Error::from(ErrorKind::OutOfMemory)),
    }
}
