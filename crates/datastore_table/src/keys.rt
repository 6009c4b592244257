//! The keys of deleted rows, and which of them a row refers to. A key is a row with only the cells of its key.
//!
//! An index leads to each key by the digest of its cells, so a look-up compares few keys. A row without a key has no
//! cells, and no entry.
ghost use Rattle.std.specs.Prelude.{◌≡◌, ◌≤◌, ℕ, false, find, length, IfOk, [], Some};
ghost use Rattle.std.specs.List.{list_any};
ghost use Rattle.std.specs.Ordering.{nat_cmp};
ghost use Rattle.lexical_forms.specs.Digits.{is_empty};
ghost use Rattle.portal_base.specs.Ordered.{IsAscending};
ghost use Rattle.portal_base.proofs.Unique.{IsIn};
ghost use Rattle.datastore_table.specs.declared.row.Row.{Row};
ghost use Rattle.datastore_table.specs.Keys.{is_key_at, is_key_of, is_key_under, only_key};
ghost use Rattle.datastore_table.specs.Keys.{AreFound, EntersKey, IsLedToKey};
ghost use Rattle.datastore_table.specs.Put.{id_of};
ghost use Rattle.datastore_table.specs.Rows.{earlier, row_cmp};

use crate::cells::are_same_at;
use crate::lookup_key::{cells_digest, digest_at};
use crate::row::Row;
use crate::rows::row_at;
use digest_index::{DigestIndex, Further};
use std::alloc::{AllocError, Global};
use table_schema::Cell;

/// Creates the index of these keys.
pub(crate) fn index_of_keys(alloc: Global, keys: &[Row]) -> Result<DigestIndex<u64>, AllocError>
    requires { IsAscending row_cmp keys.now }
    ensures { IfOk result (λ index. AreFound keys.now index) }
{
    let mut index = DigestIndex::new(alloc);
    index.reserve(keys.len())?;
    enter_keys(&mut index, keys);
    Ok(index)
}

// Enters all keys into the index, which has room for them.
fn enter_keys(index: &mut DigestIndex<u64>, keys: &[Row])
    requires { length keys.now ≤ index.old.room }
    ensures { (key : Row) → IsIn key keys.now → IsLedToKey index.new key }
{
    for key in keys {
        enter_key(index, key);
    }
}

// Enters a key, unless it has no cells.
fn enter_key(index: &mut DigestIndex<u64>, key: &Row)
    requires { 1 ≤ index.old.room }
    ensures { EntersKey index.old index.new key.now }
{
    let cells = key.cells.as_slice();
    if !cells.is_empty() {
        index.enter(cells_digest(cells), key.id);
    }
}

/// The least `_id` of a key that has the cells of a row in these columns. There is a column.
pub(crate) fn first_id(
    keys: &[Row],
    index: &DigestIndex<u64>,
    cells: &[Cell],
    columns: &[u32],
) -> Option<u64>
    requires found { AreFound keys.now index.now }
    requires some { is_empty columns.now ≡ false }
    ensures { result ≡ id_of (find (is_key_of columns.now cells.now) keys.now) }
{
    let digest = digest_at(&[], cells, columns);
    lesser(
        key_under(keys, index.first(digest), cells, columns),
        first_further(keys, index.further(digest), cells, columns),
    )
}

// The `_id`, if there is one and its key has the cells.
fn key_under(keys: &[Row], id: Option<u64>, cells: &[Cell], columns: &[u32]) -> Option<u64>
    requires { IsAscending row_cmp keys.now }
    ensures { result ≡ id_of (find (is_key_under columns.now cells.now id) keys.now) }
{
    match id {
        Some(id) => key_at(keys, id, cells, columns),
        None => None,
    }
}

// The least of the further `_id`s whose key has the cells.
fn first_further(
    keys: &[Row],
    further: &[Further<u64>],
    cells: &[Cell],
    columns: &[u32],
) -> Option<u64>
    requires { IsAscending row_cmp keys.now }
    ensures { result ≡ id_of (find
        (λ key. list_any (λ e. is_key_at columns.now cells.now e.number key) further.now) keys.now) }
{
    let mut first = None;
    for entry in further {
        first = lesser(first, key_at(keys, entry.number, cells, columns));
    }
    first
}

// The `_id`, if its key has the cells.
fn key_at(keys: &[Row], id: u64, cells: &[Cell], columns: &[u32]) -> Option<u64>
    requires { IsAscending row_cmp keys.now }
    ensures { result ≡ id_of (find (is_key_at columns.now cells.now id) keys.now) }
{
    match row_at(keys, id) {
        Some(key) => id_if_key(key, cells, columns),
        None => None,
    }
}

// The key's `_id`, if it has the cells.
fn id_if_key(key: &Row, cells: &[Cell], columns: &[u32]) -> Option<u64>
    ensures { result ≡ id_of (only_key columns.now cells.now (Some key.now)) }
{
    if are_same_at(cells, columns, key.cells.as_slice()) {
        Some(key.id)
    } else {
        None
    }
}

/// The lesser of the two `_id`s.
pub(crate) fn lesser(one: Option<u64>, other: Option<u64>) -> Option<u64>
    ensures { result ≡ earlier nat_cmp one other }
{
    match (one, other) {
        (Some(a), Some(b)) => { if b.cmp(&a).is_lt() { Some(b) } else { Some(a) } }
        (Some(a), None) => Some(a),
        (None, other) => other,
    }
}
