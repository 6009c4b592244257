//! The draft of a batch: what its records have written so far.
//!
//! A record is validated against the rows of the table and those of the draft, which are found by an index as the
//! table's are. So a batch of many records takes no longer than as many batches of one.
ghost use Rattle.std.specs.Prelude.{◌≡◌, [], List, IfOk, IfErr, OnOk};
ghost use Rattle.portal_base.specs.Ordered.{IsAscending, upserted};
ghost use Rattle.datastore_table.specs.declared.fault.TableFault.TheVariants.{OutOfMemory};
ghost use Rattle.datastore_table.specs.declared.row.Row.{Row};
ghost use Rattle.datastore_table.specs.Batch.{worked_on};
ghost use Rattle.datastore_table.specs.Draft.{drafted, IsDraft};
ghost use Rattle.datastore_table.specs.Index.{column_lists_of, IsIndexed};
ghost use Rattle.datastore_table.specs.Put.{next_after, row_id, with_cells};
ghost use Rattle.datastore_table.specs.Rows.{row_cmp};

use crate::fault::TableFault;
use crate::row::Row;
use crate::rows_by_id::RowsById;
use crate::store::{column_lists_of, enter_row, leave_id};
use crate::written_rows::WrittenRows;
use digest_index::DigestIndex;
use portal_base::seq::Seq;
use std::alloc::{AllocError, Global};
use table_schema::{Cell, Schema};

/// The rows that the records of a batch have written so far.
#[derive(Drop)]
pub(crate) struct Draft {
    /// The written rows as they are now.
    pub rows: WrittenRows,
    /// It leads to each of the written rows.
    pub index: DigestIndex<u64>,
    /// The lists of columns that the index covers.
    pub column_lists: Vec<Seq<u32>>,
    /// The `_id` of the next new row.
    pub next_id: u64,
    /// The `_id` of the row that each record wrote, in the records' order.
    pub written: Vec<u64>,
}

impl Draft {
    /// Nothing written yet.
    pub fn new(alloc: Global, schema: &Schema, next_id: u64) -> Result<Draft, AllocError>
        ensures changed { IfOk result (λ draft. draft.rows ≡ []) }
        ensures next_id { IfOk result (λ draft. draft.next_id ≡ next_id) }
        ensures written { IfOk result (λ draft. draft.written.items ≡ []) }
        ensures draft { IfOk result IsDraft }
        ensures column_lists { IfOk result (λ draft. draft.column_lists.items ≡ column_lists_of schema.now) }
    {
        let column_lists = column_lists_of(alloc, schema)?;
        Ok(Draft {
            rows: WrittenRows::new(alloc),
            index: DigestIndex::new(alloc),
            column_lists,
            next_id,
            written: Vec::new(alloc),
        })
    }

    /// Writes the cells to the row with this `_id`, or to a new row.
    pub fn write(&mut self, id: Option<u64>, cells: Seq<Cell>) -> Result<(), TableFault>
        requires { IsDraft self.old }
        ensures ok { OnOk result ((rows : List Row) → IsAscending row_cmp rows →
            worked_on rows (drafted self.new) ≡ with_cells id cells (worked_on rows (drafted self.old))) }
        ensures draft { OnOk result (IsDraft self.new) }
        ensures column_lists { OnOk result (self.new.column_lists.items ≡ self.old.column_lists.items) }
        ensures err { IfErr result (λ fault. fault ≡ OutOfMemory) }
    {
        let next_id = next_after(id, self.next_id)?;
        let id = row_id(id, self.next_id);
        if self.written.push(id).is_err() {
            return Err(TableFault::OutOfMemory);
        }
        self.put(Row { id, cells })?;
        self.next_id = next_id;
        Ok(())
    }

    // Writes a row: it replaces the row with its `_id` or is a new row.
    fn put(&mut self, row: Row) -> Result<(), AllocError>
        requires ascending { IsAscending row_cmp self.old.rows }
        requires indexed { IsIndexed self.old.column_lists.items self.old.rows self.old.index }
        ensures rows { OnOk result (self.new.rows ≡ upserted row_cmp row self.old.rows) }
        ensures indexed { OnOk result (IsIndexed self.new.column_lists.items self.new.rows self.new.index) }
        ensures column_lists { OnOk result (self.new.column_lists.items ≡ self.old.column_lists.items) }
        ensures written { OnOk result (self.new.written.items ≡ self.old.written.items) }
    {
        let column_lists = self.column_lists.as_slice();
        self.index.reserve(column_lists.len())?;
        leave_id(
            &mut self.index,
            column_lists,
            &RowsById::of_written(&self.rows),
            row.id,
        );
        enter_row(&mut self.index, column_lists, &row);
        self.rows.put(row)?;
        Ok(())
    }
}

// The `_id` of the row, or the next one for a new row.
fn row_id(id: Option<u64>, next_id: u64) -> u64
    ensures { result ≡ row_id id next_id }
{
    match id {
        Some(id) => id,
        None => next_id,
    }
}

// A new row uses up an `_id`. If no `_id` is left, the call is out of memory.
fn next_after(id: Option<u64>, next_id: u64) -> Result<u64, AllocError>
    ensures { IfOk result (λ next. next ≡ next_after id next_id) }
{
    match id {
        Some(_) => Ok(next_id),
        None => match next_id.checked_add(1) {
            Some(next_id) => Ok(next_id),
            None => Err(AllocError),
        },
    }
}
