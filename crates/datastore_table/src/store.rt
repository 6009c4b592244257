//! The store of a table's rows, with their index.
//!
//! `reserve` prepares a change and is the only call that takes memory. `put`, `put_all` and `delete` make the change.
ghost use Rattle.std.specs.Prelude.{◌≡◌, ℕ, ◌+◌, ◌*◌, ◌<◌, ◌≤◌, ◌++◌, [], ◌∷◌, length, vec_len, vec_capacity};
ghost use Rattle.std.specs.Prelude.{IfOk, OnOk, OnErr};
ghost use Rattle.portal_base.specs.Ordered.{IsAscending, upserted};
ghost use Rattle.portal_base.proofs.Unique.{IsIn};
ghost use Rattle.datastore_table.specs.declared.row.Row.{Row};
ghost use Rattle.datastore_table.specs.Batch.{cut_rows};
ghost use Rattle.datastore_table.specs.Index.{column_lists_of, key_column_lists, unique_column_lists, EntersAt};
ghost use Rattle.datastore_table.specs.Index.{EntersRow, IsGone, IsIndexed, IsLeft, IsSound, LeavesAll, LeavesRow};
ghost use Rattle.datastore_table.specs.Rows.{row_cmp, rows_after};

use crate::cells::has_null_at;
use crate::ids::Ids;
use crate::lookup_key::digest_at;
use crate::removal::delete;
use crate::row::Row;
use crate::rows::put_sorted;
use crate::rows_by_id::RowsById;
use digest_index::DigestIndex;
use portal_base::seq::Seq;
use std::alloc::{AllocError, Global};
use table_schema::{Cell, Field, Schema};

/// Rows and their index.
#[derive(Drop)]
pub(crate) struct RowStore {
    pub rows: Vec<Row>,
    pub index: DigestIndex<u64>,
    /// The lists of columns that the index covers: the columns of the primary key, and the column of each unique field.
    pub column_lists: Vec<Seq<u32>>,
    /// The count of further rows for which there is memory.
    pub ready: usize,
}

impl RowStore {
    /// A store of these rows.
    pub(crate) fn of_rows(
        alloc: Global,
        schema: &Schema,
        rows: Vec<Row>,
    ) -> Result<RowStore, AllocError>
        ensures rows { IfOk result (λ store. store.rows.items ≡ rows.items) }
        ensures sound { IfOk result (λ store. IsSound store) }
        ensures column_lists { IfOk result (λ store. store.column_lists.items ≡ column_lists_of schema.now) }
        ensures ready { IfOk result (λ store. store.ready ≡ 0) }
    {
        let column_lists = column_lists_of(alloc, schema)?;
        let index = index_of(alloc, column_lists.as_slice(), rows.as_slice())?;
        Ok(RowStore {
            rows,
            index,
            column_lists,
            ready: 0,
        })
    }

    /// Reserves memory for this count of further rows.
    pub(crate) fn reserve(&mut self, more: usize) -> Result<(), AllocError>
        requires { IsSound self.old }
        ensures sound { IsSound self.new }
        ensures rows { self.new.rows.items ≡ self.old.rows.items }
        ensures column_lists { self.new.column_lists.items ≡ self.old.column_lists.items }
        ensures ready { OnOk result (more ≤ self.new.ready) }
        ensures same { OnErr result (self.new.ready ≡ self.old.ready) }
    {
        if more <= self.ready {
            return Ok(());
        }
        self.rows.reserve(more)?;
        self.index.reserve(product(more, self.column_lists.len())?)?;
        self.ready = more;
        Ok(())
    }

    /// Writes a row: it replaces the row with its `_id` or is a new row. There is memory for it, so it takes none and
    /// can't fail.
    pub fn put(&mut self, row: Row)
        requires ascending { IsAscending row_cmp self.old.rows.items }
        requires sound { IsSound self.old }
        requires room { 1 ≤ self.old.ready }
        ensures rows { self.new.rows.items ≡ upserted row_cmp row self.old.rows.items }
        ensures ascending { IsAscending row_cmp self.new.rows.items }
        ensures sound { IsSound self.new }
        ensures column_lists { self.new.column_lists.items ≡ self.old.column_lists.items }
        ensures ready { self.new.ready + 1 ≡ self.old.ready }
    {
        let column_lists = self.column_lists.as_slice();
        leave_id(
            &mut self.index,
            column_lists,
            &RowsById::of_slice(self.rows.as_slice()),
            row.id,
        );
        enter_row(&mut self.index, column_lists, &row);
        put_row(&mut self.rows, row);
        self.ready -= 1;
    }

    /// Writes the rows one after another. There is memory for them, so it takes none and can't fail.
    pub fn put_all(&mut self, changed: Vec<Row>)
        requires ascending { IsAscending row_cmp self.old.rows.items }
        requires sound { IsSound self.old }
        requires room { length changed.items ≤ self.old.ready }
        ensures rows { self.new.rows.items ≡ rows_after changed.items self.old.rows.items }
        ensures sound { IsSound self.new }
        ensures column_lists { self.new.column_lists.items ≡ self.old.column_lists.items }
    {
        for row in changed {
            self.put(row);
        }
    }

    /// Deletes the rows with these `_id`s. It takes no memory and can't fail.
    pub(crate) fn delete(&mut self, ids: &Ids)
        requires ascending { IsAscending row_cmp self.old.rows.items }
        requires sound { IsSound self.old }
        ensures rows { self.new.rows.items ≡ cut_rows ids.now self.old.rows.items }
        ensures sound { IsSound self.new }
        ensures column_lists { self.new.column_lists.items ≡ self.old.column_lists.items }
    {
        leave_all(
            &mut self.index,
            self.column_lists.as_slice(),
            &RowsById::of_slice(self.rows.as_slice()),
            ids.as_slice(),
        );
        delete(&mut self.rows, ids);
        self.ready = 0;
    }
}

/// The lists of columns that the index covers.
pub(crate) fn column_lists_of(alloc: Global, schema: &Schema) -> Result<Vec<Seq<u32>>, AllocError>
    ensures { IfOk result (λ column_lists. column_lists.items ≡ column_lists_of schema.now) }
{
    let mut column_lists = key_column_lists(alloc, schema.key().as_slice())?;
    add_unique_column_lists(alloc, &mut column_lists, schema.fields().as_slice())?;
    Ok(column_lists)
}

fn key_column_lists(alloc: Global, key: &[u32]) -> Result<Vec<Seq<u32>>, AllocError>
    ensures { IfOk result (λ column_lists. column_lists.items ≡ key_column_lists key.now) }
{
    let mut column_lists = Vec::new(alloc);
    if !key.is_empty() {
        column_lists.push(copy_columns(alloc, key)?)?;
    }
    Ok(column_lists)
}

fn add_unique_column_lists(
    alloc: Global,
    column_lists: &mut Vec<Seq<u32>>,
    fields: &[Field],
) -> Result<(), AllocError>
    ensures { OnOk result (column_lists.new.items ≡ column_lists.old.items ++ unique_column_lists 0 fields.now) }
{
    for (column, field) in fields.iter().enumerate() {
        add_unique_column_list(alloc, column_lists, column, field)?;
    }
    Ok(())
}

fn add_unique_column_list(
    alloc: Global,
    column_lists: &mut Vec<Seq<u32>>,
    column: usize,
    field: &Field,
) -> Result<(), AllocError>
    ensures { OnOk result (column_lists.new.items ≡ column_lists.old.items ++ unique_column_lists column
        (field.now ∷ [])) }
{
    if !field.constraints().unique {
        return Ok(());
    }
    match u32::try_from(column) {
        Ok(column) => {
            column_lists.push(copy_columns(alloc, &[column])?)?;
            Ok(())
        }
        // There is no memory for more fields than a `u32` counts.
        Err(_) => Err(AllocError),
    }
}

fn copy_columns(alloc: Global, columns: &[u32]) -> Result<Seq<u32>, AllocError>
    ensures { IfOk result (λ copy. copy ≡ columns.now) }
{
    let mut copy = Vec::with_capacity(alloc, columns.len())?;
    copy.extend_from_slice(columns)?;
    Ok(Seq::from(copy))
}

fn product(rows: usize, column_lists: usize) -> Result<usize, AllocError>
    ensures { IfOk result (λ product. product ≡ rows * column_lists) }
{
    match rows.checked_mul(column_lists) {
        Some(product) => Ok(product),
        None => Err(AllocError),
    }
}

/// Creates the index of these rows.
fn index_of(
    alloc: Global,
    column_lists: &[Seq<u32>],
    rows: &[Row],
) -> Result<DigestIndex<u64>, AllocError>
    ensures { IfOk result (λ index. IsIndexed column_lists.now rows.now index) }
{
    let mut index = DigestIndex::new(alloc);
    index.reserve(product(rows.len(), column_lists.len())?)?;
    enter_all(&mut index, column_lists, rows);
    Ok(index)
}

/// Enters all rows into the index, which has room for them.
fn enter_all(index: &mut DigestIndex<u64>, column_lists: &[Seq<u32>], rows: &[Row])
    requires { length rows.now * length column_lists.now ≤ index.old.room }
    ensures { IsIndexed column_lists.now rows.now index.new }
{
    for row in rows {
        enter_row(index, column_lists, row);
    }
}

/// Enters a row by each of these lists of columns.
pub(crate) fn enter_row(index: &mut DigestIndex<u64>, column_lists: &[Seq<u32>], row: &Row)
    requires { length column_lists.now ≤ index.old.room }
    ensures { EntersRow index.old index.new column_lists.now row.now }
{
    for columns in column_lists {
        enter_at(index, columns.as_slice(), row);
    }
}

/// Enters a row by its cells in these columns, unless one of them is Null.
fn enter_at(index: &mut DigestIndex<u64>, columns: &[u32], row: &Row)
    requires { 1 ≤ index.old.room }
    ensures { EntersAt index.old index.new columns.now row.now }
{
    let cells = row.cells.as_slice();
    if !has_null_at(cells, columns) {
        index.enter(digest_at(columns, cells, columns), row.id);
    }
}

/// Removes the index entries of the rows with these `_id`s.
fn leave_all(index: &mut DigestIndex<u64>, column_lists: &[Seq<u32>], rows: &RowsById, ids: &[u64])
    requires { IsAscending row_cmp rows.now }
    ensures leaves { LeavesAll index.old index.new ids.now }
    ensures left { (id : ℕ) → IsIn id ids.now → IsLeft column_lists.now rows.now id index.new }
{
    for id in ids {
        leave_id(index, column_lists, rows, *id);
    }
}

/// Removes the index entries of the row with this `_id`, if there is one.
pub(crate) fn leave_id(
    index: &mut DigestIndex<u64>,
    column_lists: &[Seq<u32>],
    rows: &RowsById,
    id: u64,
)
    requires { IsAscending row_cmp rows.now }
    ensures leaves { LeavesRow index.old index.new id }
    ensures left { IsLeft column_lists.now rows.now id index.new }
{
    if let Some(row) = rows.row_at(id) {
        leave_row(index, column_lists, row.cells.as_slice(), id);
    }
}

fn leave_row(index: &mut DigestIndex<u64>, column_lists: &[Seq<u32>], cells: &[Cell], id: u64)
    ensures leaves { LeavesRow index.old index.new id }
    ensures gone { IsGone column_lists.now cells.now id index.new }
{
    for columns in column_lists {
        let columns = columns.as_slice();
        index.leave(digest_at(columns, cells, columns), id);
    }
}

/// Writes one row among the others, for which there is room.
fn put_row(rows: &mut Vec<Row>, row: Row)
    requires ascending { IsAscending row_cmp rows.old.items }
    requires room { vec_len rows.old < vec_capacity rows.old }
    ensures items { rows.new.items ≡ upserted row_cmp row rows.old.items }
    ensures ascending { IsAscending row_cmp rows.new.items }
    ensures capacity { vec_capacity rows.old ≤ vec_capacity rows.new }
    ensures len { vec_len rows.new ≤ vec_len rows.old + 1 }
{
    let _replaced = put_sorted(rows, row);
}
