//! The admission of a batch: the faults that depend on the whole batch, before any of its records is read.
ghost use Rattle.std.specs.Prelude.{◌≡◌, ◌+◌, ◌&&◌, not, length, nat_lt, IfOk, OnOk};
ghost use Rattle.datastore_table.specs.Index.{IsKeyed};
ghost use Rattle.datastore_table.specs.Put.{admitted, grown_length, has_key, is_new_key, most_rows, needs_key};
ghost use Rattle.datastore_table.specs.Put.{new_keys, with_key};
ghost use Rattle.datastore_table.specs.Results.{Answers};

use crate::cells::has_null;
use crate::fault::TableFault;
use crate::key_set::KeySet;
use crate::method::Method;
use crate::reading::key_of;
use crate::row::Row;
use crate::rows::row_with;
use digest_index::DigestIndex;
use portal_base::json_value::Json;
use portal_base::seq::Seq;
use std::alloc::{AllocError, Global};
use table_schema::{Cell, Schema};

/// The limit of rows in a table.
const MOST_ROWS: usize = 1_000_000;

/// Checks that the method has the key it needs and that the table would not exceed its limit of rows.
pub(crate) fn admit(
    alloc: Global,
    method: Method,
    records: &[Json],
    schema: &Schema,
    rows: &[Row],
    index: &DigestIndex<u64>,
) -> Result<(), TableFault>
    requires { IsKeyed schema.now.key rows.now index.now }
    ensures { Answers result (admitted method records.now schema.now rows.now) }
{
    if needs_key(method) && schema.key().is_empty() {
        return Err(TableFault::NoKey);
    }
    let added = added_rows(alloc, method, records, schema, rows, index)?;
    if is_full(rows.len(), added) {
        Err(TableFault::Full)
    } else {
        Ok(())
    }
}

fn needs_key(method: Method) -> bool
    ensures { result ≡ needs_key method }
{
    match method {
        Method::Insert => false,
        Method::Upsert | Method::Update => true,
    }
}

// Whether the rows and the added rows together exceed the limit.
fn is_full(rows: usize, added: usize) -> bool
    ensures { result ≡ nat_lt most_rows (rows + added) }
{
    rows > MOST_ROWS || added > MOST_ROWS - rows
}

// The count of rows that the batch adds.
fn added_rows(
    alloc: Global,
    method: Method,
    records: &[Json],
    schema: &Schema,
    rows: &[Row],
    index: &DigestIndex<u64>,
) -> Result<usize, AllocError>
    requires { IsKeyed schema.now.key rows.now index.now }
    ensures { IfOk result (λ added. length rows.now + added ≡ grown_length method schema.now rows.now records.now) }
{
    match method {
        Method::Insert => Ok(records.len()),
        Method::Upsert => Ok(new_keys(alloc, schema, rows, index, records)?.len()),
        Method::Update => Ok(0),
    }
}

// The distinct keys of the records that have no Null and that no row has.
fn new_keys(
    alloc: Global,
    schema: &Schema,
    rows: &[Row],
    index: &DigestIndex<u64>,
    records: &[Json],
) -> Result<KeySet, AllocError>
    requires { IsKeyed schema.now.key rows.now index.now }
    ensures { IfOk result (λ keys. keys ≡ new_keys schema.now rows.now records.now) }
{
    let mut keys = KeySet::new(alloc);
    for given in records {
        let key = key_of(alloc, schema, given)?;
        add_key(&mut keys, schema, rows, index, key)?;
    }
    Ok(keys)
}

// Adds the key, if it is new and not yet in the list.
fn add_key(
    keys: &mut KeySet,
    schema: &Schema,
    rows: &[Row],
    index: &DigestIndex<u64>,
    key: Seq<Cell>,
) -> Result<(), AllocError>
    requires { IsKeyed schema.now.key rows.now index.now }
    ensures { OnOk result (keys.new ≡ with_key schema.now rows.now keys.old key) }
{
    if is_addable(keys, schema, rows, index, key.as_slice()) {
        keys.add(key)
    } else {
        Ok(())
    }
}

fn is_addable(
    keys: &KeySet,
    schema: &Schema,
    rows: &[Row],
    index: &DigestIndex<u64>,
    key: &[Cell],
) -> bool
    requires { IsKeyed schema.now.key rows.now index.now }
    ensures { result ≡ (is_new_key schema.now rows.now key.now && not (has_key keys.now key.now)) }
{
    is_new_key(schema, rows, index, key) && !keys.has(key)
}

fn is_new_key(schema: &Schema, rows: &[Row], index: &DigestIndex<u64>, key: &[Cell]) -> bool
    requires { IsKeyed schema.now.key rows.now index.now }
    ensures { result ≡ is_new_key schema.now rows.now key.now }
{
    !(has_null(key) || row_with(rows, index, schema.key().as_slice(), key).is_some())
}
