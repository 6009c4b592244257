//! Applies the records of a batch one after another, and collects what they write.
ghost use Rattle.std.specs.Prelude.{◌≡◌, ◌⊎◌, ◌+◌, IfOk, IfErr, OnOk, Ok, Err};
ghost use Rattle.portal_base.specs.Ordered.{IsAscending};
ghost use Rattle.datastore_table.specs.declared.fault.TableFault.TheVariants.{OutOfMemory};
ghost use Rattle.datastore_table.specs.Batch.{worked_on, AreThoseOf};
ghost use Rattle.datastore_table.specs.Draft.{drafted, IsDraft};
ghost use Rattle.datastore_table.specs.Index.{IsSearchable};
ghost use Rattle.datastore_table.specs.Put.{begun, put_from, put_record};
ghost use Rattle.datastore_table.specs.Rows.{row_cmp};

use crate::draft::Draft;
use crate::fault::TableFault;
use crate::method::Method;
use crate::row::Row;
use crate::rows::CurrentRows;
use crate::rows_by_id::RowsById;
use crate::validation::validated_record;
use digest_index::DigestIndex;
use portal_base::json_value::Json;
use std::alloc::{AllocError, Global};
use std::marker::Model;
use table_schema::Schema;

/// The rows that a batch writes.
#[derive(Drop)]
pub struct Work {
    /// The written rows after the batch, in ascending order of their `_id`.
    changed: Vec<Row>,
    next_id: u64,
    /// The `_id` of the row that each record wrote, in the records' order.
    written: Vec<u64>,
}

impl Model for Work {
    ghost use Rattle.portal_base.specs.Ordered.{IsAscending};
    ghost use Rattle.datastore_table.specs.Batch.{AreThoseOf, Written};
    ghost use Rattle.datastore_table.specs.Rows.{row_cmp};

    ghost Value = { Written };

    ghost view = { λ w. record { changed = w.changed.items; next_id = w.next_id; written = w.written.items } };

    ghost invariant = { λ w. IsAscending row_cmp w.changed.items × AreThoseOf w.written.items w.changed.items };
}

impl Work {
    /// The rows of a draft.
    pub(crate) fn of_draft(alloc: Global, draft: Draft) -> Result<Work, AllocError>
        requires { IsDraft draft }
        ensures { IfOk result (λ work. work ≡ drafted draft) }
    {
        Ok(Work {
            changed: draft.rows.into_vec(alloc)?,
            next_id: draft.next_id,
            written: draft.written,
        })
    }

    pub(crate) fn changed(&self) -> &[Row]
        ensures value { result.now ≡ self.now.changed }
        ensures ascending { IsAscending row_cmp result.now }
        ensures those { AreThoseOf self.now.written result.now }
    {
        self.changed.as_slice()
    }

    pub(crate) fn written(&self) -> &[u64]
        ensures { result.now ≡ self.now.written }
    {
        self.written.as_slice()
    }

    pub(crate) fn next_id(&self) -> u64
        ensures { result ≡ self.now.next_id }
    {
        self.next_id
    }

    pub(crate) fn into_changed(self) -> Vec<Row>
        ensures value { result.items ≡ self.changed }
        ensures ascending { IsAscending row_cmp result.items }
    {
        self.changed
    }
}

// Applies the record with this number to the rows.
fn put_record(
    alloc: Global,
    method: Method,
    schema: &Schema,
    number: u64,
    given: &Json,
    rows: &[Row],
    index: &DigestIndex<u64>,
    draft: &mut Draft,
) -> Result<(), TableFault>
    requires rows { IsSearchable schema.now rows.now index.now }
    requires found { IsSearchable schema.now draft.old.rows draft.old.index }
    requires draft { IsDraft draft.old }
    ensures ok { OnOk result (put_record method schema.now number given.now (worked_on rows.now (drafted draft.old))
        ≡ Ok (worked_on rows.now (drafted draft.new))) }
    ensures draft { OnOk result (IsDraft draft.new) }
    ensures column_lists { OnOk result (draft.new.column_lists.items ≡ draft.old.column_lists.items) }
    ensures err { IfErr result (λ fault. (fault ≡ OutOfMemory)
        ⊎ (put_record method schema.now number given.now (worked_on rows.now (drafted draft.old)) ≡ Err fault)) }
{
    let current = CurrentRows {
        rows: RowsById::of_slice(rows),
        index,
        written: RowsById::of_written(&draft.rows),
        written_index: &draft.index,
    };
    let (id, cells) = validated_record(alloc, method, schema, number, given, &current)?;
    draft.write(id, cells)
}

/// Applies the records to the rows one after another.
pub(crate) fn put_all(
    alloc: Global,
    method: Method,
    schema: &Schema,
    records: &[Json],
    rows: &[Row],
    index: &DigestIndex<u64>,
    next_id: u64,
) -> Result<Draft, TableFault>
    requires { IsSearchable schema.now rows.now index.now }
    ensures ok { IfOk result (λ draft. put_from method schema.now 1 records.now (begun rows.now next_id)
        ≡ Ok (worked_on rows.now (drafted draft))) }
    ensures draft { IfOk result IsDraft }
    ensures found { IfOk result (λ draft. IsSearchable schema.now draft.rows draft.index) }
    ensures err { IfErr result (λ fault. (fault ≡ OutOfMemory)
        ⊎ (put_from method schema.now 1 records.now (begun rows.now next_id) ≡ Err fault)) }
{
    let mut draft = Draft::new(alloc, schema, next_id)?;
    for (record_index, given) in records.iter().enumerate() {
        put_record(
            alloc,
            method,
            schema,
            record_index as u64 + 1,
            given,
            rows,
            index,
            &mut draft,
        )?;
    }
    Ok(draft)
}
