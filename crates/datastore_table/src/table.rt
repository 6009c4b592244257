//! The table: its rows, prepared changes, and the commits that make them.
ghost use Rattle.std.specs.Prelude.{◌≡◌, ◌⊎◌, ◌<◌, ◌≤◌, [], length, is_some, option_copied, option_map, IfOk, IfErr};
ghost use Rattle.std.specs.Prelude.{IfSome, OnErr, IsTrue, All};
ghost use Rattle.std.specs.Prelude.{Ok, Err};
ghost use Rattle.std.specs.List.{list_all};
ghost use Rattle.portal_base.specs.Ordered.{IsAscending};
ghost use Rattle.table_schema.specs.Printed.{IsValue};
ghost use Rattle.table_schema.specs.Values.{is_map};
ghost use Rattle.datastore_table.specs.declared.fault.TableFault.TheVariants.{OutOfMemory};
ghost use Rattle.datastore_table.specs.Batch.{delete_checked, cut_rows, IsReady, removed_keys, worked_on};
ghost use Rattle.datastore_table.specs.Index.{IsKeyed, IsStoreOf};
ghost use Rattle.datastore_table.specs.Keys.{AreFound};
ghost use Rattle.datastore_table.specs.Meets.{IsTable, is_restorable, rows_of};
ghost use Rattle.datastore_table.specs.Put.{put_records};
ghost use Rattle.datastore_table.specs.Rows.{row_at, row_cmp, row_with, rows_after};
ghost use Rattle.datastore_table.specs.Table.{IsSameTable};

use crate::admission::admit;
use crate::batch::Batch;
use crate::fault::TableFault;
use crate::ids::Ids;
use crate::keys::index_of_keys;
use crate::meets::{are_related, do_all_meet, is_numbered};
use crate::method::Method;
use crate::references::check_self_references;
use crate::removal::{Removal, removed_keys, restrict_self_references};
use crate::row::{Row, rows_of};
use crate::rows::{CurrentRows, row_at, row_with};
use crate::rows_by_id::RowsById;
use crate::store::RowStore;
use crate::work::{Work, put_all};
use digest_index::DigestIndex;
use portal_base::json_value::Json;
use portal_base::seq::Seq;
use std::alloc::{AllocError, Global};
use std::marker::Model;
use std::sync::Arc;
use table_schema::{Cell, Schema};

/// A table: a schema, and rows in ascending order of their `_id`. A contract sees the schema, the list of rows, the
/// next `_id`, and the count of further rows for which memory is ready.
#[derive(Drop)]
pub struct Table {
    alloc: Global,
    schema: Arc<Schema>,
    store: RowStore,
    next_id: u64,
}

impl Model for Table {
    ghost use Rattle.std.specs.Arc.{arc_value};
    ghost use Rattle.datastore_table.specs.Index.{IsStoreOf};
    ghost use Rattle.datastore_table.specs.Table.{TableValue};

    ghost Value = { TableValue };

    ghost view = { λ t. record {
      schema = arc_value t.schema;
      rows = t.store.rows.items;
      next_id = t.next_id;
      room = t.store.ready;
    } };

    ghost invariant = { λ t. IsStoreOf (arc_value t.schema) t.store t.next_id };
}

impl Table {
    /// Creates a table of this schema without rows. The first row gets the `_id` 1.
    pub fn create(alloc: Global, schema: Schema) -> Result<Table, TableFault>
        ensures schema { IfOk result (λ table. table.schema ≡ schema) }
        ensures empty { IfOk result (λ table. table.rows ≡ []) }
        ensures next_id { IfOk result (λ table. table.next_id ≡ 1) }
        ensures fault { IfErr result (λ fault. fault ≡ OutOfMemory) }
    {
        let store = RowStore::of_rows(alloc, &schema, Vec::new(alloc))?;
        let Ok(schema) = Arc::new(alloc, schema) else {
            return Err(TableFault::OutOfMemory);
        };
        Ok(Table {
            alloc,
            schema,
            store,
            next_id: 1,
        })
    }

    /// Creates a table of these rows. The result is `None` unless the rows meet the schema, their `_id`s ascend, each
    /// `_id` is at least 1 and below `next_id`, and `next_id` is at least 1.
    pub fn restore(
        alloc: Global,
        schema: Schema,
        rows: Seq<(u64, Seq<Cell>)>,
        next_id: u64,
    ) -> Result<Option<Table>, AllocError>
        ensures exactly { IfOk result (λ made. is_some made ≡ is_restorable schema (rows_of rows) next_id) }
        ensures schema { IfOk result (λ made. IfSome made (λ table. table.schema ≡ schema)) }
        ensures rows { IfOk result (λ made. IfSome made (λ table. table.rows ≡ rows_of rows)) }
        ensures next_id { IfOk result (λ made. IfSome made (λ table. table.next_id ≡ next_id)) }
    {
        let made = restored(alloc, &schema, rows_of(alloc, rows)?, next_id)?;
        let Some(store) = made else {
            return Ok(None);
        };
        let Ok(schema) = Arc::new(alloc, schema) else {
            return Err(AllocError);
        };
        Ok(Some(Table {
            alloc,
            schema,
            store,
            next_id,
        }))
    }

    pub fn schema(&self) -> &Schema
        ensures { result.now ≡ self.now.schema }
    {
        &self.schema
    }

    /// The count of its rows.
    pub fn len(&self) -> u64
        ensures { result ≡ length self.now.rows }
    {
        self.store.rows.len() as u64
    }

    pub fn next_id(&self) -> u64
        ensures { result ≡ self.now.next_id }
    {
        self.next_id
    }

    /// The rows in ascending order of their `_id`.
    pub fn rows(&self) -> &[Row]
        ensures rows { result.now ≡ self.now.rows }
        ensures ascending { IsAscending row_cmp result.now }
        ensures values { All (λ row. All IsValue row.cells) result.now }
    {
        self.store.rows.as_slice()
    }

    /// Each table is valid: its rows meet its schema, their `_id`s ascend, and `next_id` is above them. This is a law;
    /// the call does nothing.
    pub fn rows_meet_schema(&self)
        ensures { IsTable self.now.schema self.now.rows self.now.next_id }
    {
        let _ = &self.store;
    }

    /// The cells of the row with this `_id`.
    pub fn get(&self, id: u64) -> Option<&Seq<Cell>>
        ensures cells { option_copied result ≡ option_map (λ row. row.cells) (row_at id self.now.rows) }
        ensures values { IfSome result (λ cells. All IsValue cells.now) }
    {
        match row_at(self.store.rows.as_slice(), id) {
            Some(row) => Some(&row.cells),
            None => None,
        }
    }

    /// Whether a row has this primary key. The answer is false if the schema has no primary key or if a cell of the key
    /// is Null.
    pub fn holds_key(&self, key: &Seq<Cell>) -> bool
        ensures { result ≡ is_some (row_with self.now.schema.key key.now self.now.rows) }
    {
        row_with(
            self.store.rows.as_slice(),
            &self.store.index,
            self.schema.key().as_slice(),
            key.as_slice(),
        )
        .is_some()
    }

    /// Prepares a batch of records, which are JSON objects, and takes all the memory that its commit needs. The rows
    /// stay as they are until `commit`. An error is the first fault of the batch, or out of memory.
    pub fn prepare(&mut self, method: Method, rows: &Seq<Json>) -> Result<Batch, TableFault>
        requires { IsTrue (list_all is_map rows.now) }
        ensures same { IsSameTable self.old self.new }
        ensures refused { OnErr result (self.new ≡ self.old) }
        ensures schema { IfOk result (λ batch. batch.schema ≡ self.old.schema) }
        ensures batch { IfOk result (λ batch.
            put_records method rows.now self.old ≡ Ok (worked_on self.old.rows batch.work)) }
        ensures ready { IfOk result (λ batch. IsReady batch self.new) }
        ensures fault { IfErr result (λ fault. (fault ≡ OutOfMemory)
            ⊎ (put_records method rows.now self.old ≡ Err fault)) }
    {
        let work = self.worked(method, rows.as_slice())?;
        let schema = Arc::try_clone(&self.schema)?;
        self.store.reserve(work.changed().len())?;
        Ok(Batch { schema, work })
    }

    /// Commits a batch that was prepared on this table and is still valid for it. It takes no memory and can't fail.
    pub fn commit(&mut self, batch: Batch)
        requires { IsReady batch self.old }
        ensures rows { self.new.rows ≡ rows_after batch.work.changed self.old.rows }
        ensures next_id { self.new.next_id ≡ batch.work.next_id }
        ensures schema { self.new.schema ≡ self.old.schema }
    {
        let next_id = batch.work.next_id();
        self.store.put_all(batch.work.into_changed());
        self.next_id = next_id;
    }

    /// Prepares to delete the rows with these `_id`s, and ignores an `_id` that no row has. It never changes the table.
    /// The error is out of memory, or `Referred` by the first self reference that breaks. `Referred` has the least
    /// `_id` of a deleted row that a remaining row refers to.
    pub fn prepare_delete(&mut self, ids: &Seq<u64>) -> Result<Removal, TableFault>
        ensures same { self.new ≡ self.old }
        ensures ids { IfOk result (λ removal. removal.ids ≡ ids.now) }
        ensures keys { IfOk result (λ removal.
            removal.keys ≡ removed_keys self.old.schema.key ids.now self.old.rows) }
        ensures held { IfOk result (λ removal. delete_checked ids.now self.old ≡ Ok tt) }
        ensures ready { IfOk result (λ removal. delete_checked removal.ids self.new ≡ Ok tt) }
        ensures fault { IfErr result (λ fault. (fault ≡ OutOfMemory) ⊎ (delete_checked ids.now self.old ≡ Err fault)) }
    {
        let ids = Ids::copy_of(self.alloc, ids.as_slice())?;
        let keys = self.removed_keys(&ids)?;
        let index = index_of_keys(self.alloc, keys.as_slice())?;
        self.check_delete(keys.as_slice(), &index, &ids)?;
        Ok(Removal { ids, keys, index })
    }

    /// Deletes the rows of a removal that was prepared on this table and is still valid for it. It takes no memory and
    /// can't fail.
    pub fn commit_delete(&mut self, removal: Removal)
        requires { delete_checked removal.ids self.old ≡ Ok tt }
        ensures rows { self.new.rows ≡ cut_rows removal.ids self.old.rows }
        ensures next_id { self.new.next_id ≡ self.old.next_id }
        ensures schema { self.new.schema ≡ self.old.schema }
    {
        self.store.delete(&removal.ids);
    }

    /// The allocator that it takes its memory from.
    pub(crate) fn alloc(&self) -> Global {
        self.alloc
    }

    /// The index of its rows.
    pub(crate) fn index(&self) -> &DigestIndex<u64>
        ensures { IsKeyed self.now.schema.key self.now.rows result.now }
    {
        &self.store.index
    }

    // The rows with these `_id`s, each with only the cells of its key.
    fn removed_keys(&self, ids: &Ids) -> Result<Vec<Row>, AllocError>
        ensures keys { IfOk result (λ keys. keys.items ≡ removed_keys self.now.schema.key ids.now self.now.rows) }
        ensures ascending { IfOk result (λ keys. IsAscending row_cmp keys.items) }
    {
        let key = self.schema.key().as_slice();
        removed_keys(self.alloc, key, ids, self.store.rows.as_slice())
    }

    // Checks that no remaining row refers by a self reference to a row with one of these `_id`s.
    fn check_delete(
        &self,
        keys: &[Row],
        index: &DigestIndex<u64>,
        ids: &Ids,
    ) -> Result<(), TableFault>
        requires found { AreFound keys.now index.now }
        requires keys { keys.now ≡ removed_keys self.now.schema.key ids.now self.now.rows }
        ensures { result ≡ delete_checked ids.now self.now }
    {
        let foreigns = self.schema.foreign().as_slice();
        restrict_self_references(foreigns, keys, index, self.store.rows.as_slice(), ids)
    }

    // What a batch writes, or the fault that refuses it.
    fn worked(&self, method: Method, records: &[Json]) -> Result<Work, TableFault>
        ensures work { IfOk result (λ work.
            put_records method records.now self.now ≡ Ok (worked_on self.now.rows work)) }
        ensures fault { IfErr result (λ fault. (fault ≡ OutOfMemory)
            ⊎ (put_records method records.now self.now ≡ Err fault)) }
    {
        let rows = self.store.rows.as_slice();
        let index = &self.store.index;
        admit(self.alloc, method, records, &self.schema, rows, index)?;
        let draft = put_all(
            self.alloc,
            method,
            &self.schema,
            records,
            rows,
            index,
            self.next_id,
        )?;
        let current = CurrentRows {
            rows: RowsById::of_slice(rows),
            index,
            written: RowsById::of_written(&draft.rows),
            written_index: &draft.index,
        };
        check_self_references(&self.schema, &current, draft.written.as_slice())?;
        Ok(Work::of_draft(self.alloc, draft)?)
    }
}

// A store of these rows, if they are the rows of a valid table.
fn restored(
    alloc: Global,
    schema: &Schema,
    rows: Vec<Row>,
    next_id: u64,
) -> Result<Option<RowStore>, AllocError>
    ensures exactly { IfOk result (λ made. is_some made ≡ is_restorable schema.now rows.items next_id) }
    ensures rows { IfOk result (λ made. IfSome made (λ store. store.rows.items ≡ rows.items)) }
    ensures store { IfOk result (λ made. IfSome made (λ store. IsStoreOf schema.now store next_id)) }
{
    if !is_numbered(rows.as_slice(), next_id) || !do_all_meet(schema, rows.as_slice()) {
        return Ok(None);
    }
    let store = RowStore::of_rows(alloc, schema, rows)?;
    if !are_related(schema, store.rows.as_slice(), &store.index) {
        return Ok(None);
    }
    Ok(Some(store))
}
