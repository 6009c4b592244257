//! A table of many rows of three fields, batches of 500 records for it, and queries of it: a filter by one value, and a
//! page of rows that are sorted by their texts.
ghost use Rattle.std.specs.Prelude.{IfOk, IsTrue};
ghost use Rattle.table_schema.specs.Values.{is_map};

use crate::batch::put;
use crate::read::{records_of, table_of};
use cases::{Buffer, Case, invalid};
use datastore_query::{Page, Parts, Query};
use datastore_table::{Method, Table};
use portal_base::json_value::Json;
use portal_base::seq::Seq;
use portal_base::text::Text;
use std::alloc::{AllocError, Global};
use std::io;

const DESCRIPTOR: &str =
    "{\"fields\":[{\"name\":\"id\",\"type\":\"integer\"},{\"name\":\"place\"},{\"name\":\"value\",\
    \"type\":\"integer\"}],\"primaryKey\":\"id\"}";

/// How many records a batch has.
const BATCH: u64 = 500;

/// How far apart the keys of the batches of known keys are.
const STRIDE: u64 = 7919;

/// Among how many of the first rows they are, so that they are the same ones in each larger table.
const KNOWN: u64 = 100_000;

/// The value of the filter, which one row in a thousand has.
const VALUE: i128 = 7;

/// How many rows a page has, and how many come before it.
const LIMIT: u64 = 100;

const OFFSET: u64 = 1000;

/// The record of a key.
fn record(alloc: Global, key: u64) -> Result<Json, AllocError> {
    let place = Text::from(format!(in alloc; "Station {key}")?);
    let members = vec![in alloc;
        (Text::from_static("id"), Json::Whole(i128::from(key))),
        (Text::from_static("place"), Json::Text(place)),
        (
            Text::from_static("value"),
            Json::Whole(i128::from(key % 1000))
        ),
    ]?;
    Ok(Json::Map(Seq::from(members)))
}

/// The key at an index of all batches: the index, or one of the keys that are known, where their number is given.
fn key_at(index: u64, known: Option<u64>) -> u64 {
    match known {
        Some(count) if count > 0 => index.wrapping_mul(STRIDE) % count,
        _ => index,
    }
}

/// The records of the batch with this index.
fn batch_at(alloc: Global, index: u64, known: Option<u64>) -> Result<Seq<Json>, AllocError> {
    let mut records = Vec::with_capacity(alloc, BATCH as usize)?;
    let first = index.wrapping_mul(BATCH);
    for offset in 0..BATCH {
        records.push(record(alloc, key_at(first.wrapping_add(offset), known))?)?;
    }
    Ok(Seq::from(records))
}

/// Puts the batch with this index into the table.
fn put_batch(
    alloc: Global,
    table: &mut Table,
    method: Method,
    index: u64,
    known: Option<u64>,
) -> io::Result<()> {
    let records = records_of(Json::List(batch_at(alloc, index, known)?))?;
    match put(table, method, &records) {
        Ok(()) => Ok(()),
        Err(_) => Err(invalid()),
    }
}

/// Inserts that many rows, and upserts that many batches of known keys.
fn fill(alloc: Global, table: &mut Table, rows: u64, batches: u64) -> io::Result<()> {
    for index in 0..rows / BATCH {
        put_batch(alloc, table, Method::Insert, index, None)?;
    }
    let known = Some(table.len().min(KNOWN));
    for index in 0..batches {
        put_batch(alloc, table, Method::Upsert, index, known)?;
    }
    Ok(())
}

/// No filter.
fn no_filter(alloc: Global) -> Json
    ensures { IsTrue (is_map result) }
{
    Json::Map(Seq::new(alloc))
}

/// The filter of the value.
fn value_filter(alloc: Global) -> Result<Json, AllocError>
    ensures { IfOk result (λ filters. IsTrue (is_map filters)) }
{
    let members = vec![in alloc; (Text::from_static("value"), Json::Whole(VALUE))]?;
    Ok(Json::Map(Seq::from(members)))
}

/// The page of these filters and this sort.
fn page_of(alloc: Global, table: &Table, filters: Json, sort: &'static str) -> io::Result<Page>
    requires { IsTrue (is_map filters) }
{
    let parts = Parts {
        filters,
        q: Text::new(alloc),
        distinct: false,
        fields: None,
        sort: Text::from_static(sort),
        limit: LIMIT,
        offset: OFFSET,
    };
    match Query::read(alloc, table, &parts) {
        Ok(query) => Ok(query.run(alloc, table)?),
        Err(_) => Err(invalid()),
    }
}

/// How many rows the filter finds in all, where it is asked for that many times.
fn count_filtered(alloc: Global, table: &Table, times: u64) -> io::Result<u64> {
    let mut rows: u64 = 0;
    for _ in 0..times {
        let page = page_of(alloc, table, value_filter(alloc)?, "")?;
        rows = rows.wrapping_add(page.total);
    }
    Ok(rows)
}

/// How many rows the sorted pages have in all, where that many are asked for.
fn count_sorted(alloc: Global, table: &Table, times: u64) -> io::Result<u64> {
    let mut rows: u64 = 0;
    for _ in 0..times {
        let page = page_of(alloc, table, no_filter(alloc), "place desc")?;
        rows = rows.wrapping_add(page.rows.len() as u64);
    }
    Ok(rows)
}

/// How many rows the table has after these many rows and batches of known keys were put into it, how many these many
/// filters find, and how many these many sorted pages have.
fn counts_of(alloc: Global, table: &mut Table, numbers: [u64; 4]) -> io::Result<[u64; 3]> {
    let [rows, batches, filters, pages] = numbers;
    fill(alloc, table, rows, batches)?;
    let filtered = count_filtered(alloc, table, filters)?;
    let sorted = count_sorted(alloc, table, pages)?;
    Ok([table.len(), filtered, sorted])
}

/// The same of an empty table, in words.
pub fn counts_text(alloc: Global, numbers: [u64; 4]) -> io::Result<Buffer> {
    let mut table = table_of(alloc, DESCRIPTOR)?;
    let counts = counts_of(alloc, &mut table, numbers)?;
    let mut text = Buffer::new(alloc);
    for count in counts {
        text.divide(" ");
        text.push_value(&count);
    }
    Ok(text)
}

/// Numbers of rows, batches, filters and pages: how many rows there are, how many the filters find, and how many the
/// sorted pages have.
pub fn counts(alloc: Global, case: &Case, answer: &mut Buffer) -> io::Result<()> {
    let mut numbers = [0; 4];
    for index in 0..4 {
        numbers[index] = case.parsed(index)?;
    }
    answer.push_buffer(&counts_text(alloc, numbers)?);
    Ok(())
}
