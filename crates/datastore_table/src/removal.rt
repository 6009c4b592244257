//! Prepared removals.
ghost use Rattle.std.specs.Prelude.{◌≡◌, ◌&&◌, not, IfOk, find};
ghost use Rattle.std.specs.List.{list_any};
ghost use Rattle.datastore_table.specs.Batch.{cut_rows, is_among, referred_checked, refers_to, removed_keys};
ghost use Rattle.datastore_table.specs.Batch.{self_references_restricted, self_reference_restricted};
ghost use Rattle.datastore_table.specs.Keys.{AreFound};
ghost use Rattle.datastore_table.specs.Put.{id_of};
ghost use Rattle.datastore_table.specs.References.{refers};

use crate::cells::copies_at;
use crate::fault::TableFault;
use crate::ids::Ids;
use crate::keys::{first_id, lesser};
use crate::references::refers;
use crate::row::Row;
use digest_index::DigestIndex;
use std::alloc::{AllocError, Global};
use std::marker::Model;
use table_schema::Foreign;

/// A removal that was prepared on a table: the rows to delete.
#[derive(Drop)]
pub struct Removal {
    pub(crate) ids: Ids,
    /// The rows to delete, each with only the cells of its key.
    pub(crate) keys: Vec<Row>,
    /// It leads to each of the keys.
    pub(crate) index: DigestIndex<u64>,
}

impl Model for Removal {
    ghost use Rattle.datastore_table.specs.Batch.{RemovalValue};
    ghost use Rattle.datastore_table.specs.Keys.{AreFound};

    ghost Value = { RemovalValue };

    ghost view = { λ r. record { ids = r.ids; keys = r.keys.items } };

    ghost invariant = { λ r. AreFound r.keys.items r.index };
}

impl Removal {
    /// The `_id`s of the rows to delete, as they were given. The table may lack rows of some of them.
    pub fn ids(&self) -> &[u64]
        ensures { result.now ≡ self.now.ids }
    {
        self.ids.as_slice()
    }
}

/// Deletes the rows with these `_id`s. It takes no memory.
pub(crate) fn delete(rows: &mut Vec<Row>, ids: &Ids)
    ensures { rows.new.items ≡ cut_rows ids.now rows.old.items }
{
    rows.retain(|row| !ids.has(row.id));
}

/// The rows with these `_id`s, each with only the cells of its key.
pub(crate) fn removed_keys(
    alloc: Global,
    key: &[u32],
    ids: &Ids,
    rows: &[Row],
) -> Result<Vec<Row>, AllocError>
    ensures { IfOk result (λ keys. keys.items ≡ removed_keys key.now ids.now rows.now) }
{
    let mut keys = Vec::new(alloc);
    for row in rows {
        if ids.has(row.id) {
            let cells = copies_at(alloc, row.cells.as_slice(), key)?;
            keys.push(Row { id: row.id, cells })?;
        }
    }
    Ok(keys)
}

/// Checks that no remaining row refers by these columns to one of the keys. The remaining rows are those with none of
/// these `_id`s.
pub(crate) fn check_referred_from(
    columns: &[u32],
    keys: &[Row],
    index: &DigestIndex<u64>,
    rows: &[Row],
    ids: &Ids,
) -> Result<(), TableFault>
    requires { AreFound keys.now index.now }
    ensures { result ≡ referred_checked columns.now keys.now (cut_rows ids.now rows.now) }
{
    match first_referred(columns, keys, index, rows, ids) {
        Some(id) => Err(TableFault::Referred(id)),
        None => Ok(()),
    }
}

// The least `_id` of a key that a remaining row refers to.
fn first_referred(
    columns: &[u32],
    keys: &[Row],
    index: &DigestIndex<u64>,
    rows: &[Row],
    ids: &Ids,
) -> Option<u64>
    requires { AreFound keys.now index.now }
    ensures { result
        ≡ id_of (find (λ key. list_any (refers_to columns.now key) (cut_rows ids.now rows.now)) keys.now) }
{
    let mut first = None;
    for row in rows {
        first = lesser(first, referred_id(columns, keys, index, row, ids));
    }
    first
}

// The least `_id` of a key that this row refers to, if the row remains.
fn referred_id(
    columns: &[u32],
    keys: &[Row],
    index: &DigestIndex<u64>,
    row: &Row,
    ids: &Ids,
) -> Option<u64>
    requires { AreFound keys.now index.now }
    ensures { result
        ≡ id_of (find (λ key. not (is_among ids.now row.now.id) && refers_to columns.now key row.now) keys.now) }
{
    if does_refer(columns, row, ids) {
        first_id(keys, index, row.cells.as_slice(), columns)
    } else {
        None
    }
}

// Whether the row remains and refers to a row by these columns.
fn does_refer(columns: &[u32], row: &Row, ids: &Ids) -> bool
    ensures { result ≡ (not (is_among ids.now row.now.id) && refers columns.now row.now) }
{
    !ids.has(row.id) && refers(row, columns)
}

/// Checks that no remaining row refers by a self reference to one of the keys. A self reference is a foreign key to the
/// table itself.
pub(crate) fn restrict_self_references(
    foreigns: &[Foreign],
    keys: &[Row],
    index: &DigestIndex<u64>,
    rows: &[Row],
    ids: &Ids,
) -> Result<(), TableFault>
    requires { AreFound keys.now index.now }
    ensures { result ≡ self_references_restricted foreigns.now keys.now (cut_rows ids.now rows.now) }
{
    for foreign in foreigns {
        restrict_self_reference(foreign, keys, index, rows, ids)?;
    }
    Ok(())
}

fn restrict_self_reference(
    foreign: &Foreign,
    keys: &[Row],
    index: &DigestIndex<u64>,
    rows: &[Row],
    ids: &Ids,
) -> Result<(), TableFault>
    requires { AreFound keys.now index.now }
    ensures { result ≡ self_reference_restricted keys.now (cut_rows ids.now rows.now) 0 foreign.now tt }
{
    if foreign.resource.is_empty() {
        check_referred_from(foreign.fields.as_slice(), keys, index, rows, ids)
    } else {
        Ok(())
    }
}
