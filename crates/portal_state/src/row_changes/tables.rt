//! The changes of the rows of tables and of their rows.
ghost use Rattle.std.specs.Prelude.{◌≡◌, ◌++◌, ◌<◌, ◌^◌, All, IfOk, OnOk, map};
ghost use Rattle.std.specs.List.{flat_map};
ghost use Rattle.datastore_answers.specs.Plan.{IsPlanned};
ghost use Rattle.datastore_table.specs.Batch.{IsReady};
ghost use Rattle.datastore_table.specs.Rows.{row_cmp};
ghost use Rattle.portal_base.specs.Ordered.{IsAscending};
ghost use Rattle.portal_state.specs.ChangedRows.{IsTypedBatch, IsTypedTablePlan, cells_body, changes_of_batch};
ghost use Rattle.portal_state.specs.ChangedRows.{changes_of_head, changes_of_row, changes_of_tables, put_of};
ghost use Rattle.portal_state.specs.ChangedRows.{removal_of_row, removals_of_id, removals_of_ids, removals_of_table};
ghost use Rattle.portal_state.specs.KeptRows.{resource_id, row_target, row_targets, table_rows};
ghost use Rattle.portal_rows.specs.TableRows.{cells_row, table_row};
ghost use Rattle.table_schema.specs.Printed.{IsValue};

use crate::row_changes::push_between;
use datastore_answers::address::Address;
use datastore_answers::plan::TablePlan;
use datastore_answers::resource_table::ResourceTable;
use datastore_answers::tables::Tables;
use datastore_table::{Batch, Row};
use packages::named::resource_address;
use portal_base::ordered::{Key, find_in_order};
use portal_base::text::Text;
use portal_keeper::change::Change;
use portal_keeper::row::{KeptRow, RowKind};
use portal_rows::tables::{cells_row, row_key, table_row};
use std::alloc::{AllocError, Global};
use std::cmp::Ordering;

/// The key of a row of a table.
#[derive(Clone, Copy)]
struct RowId {
    id: u64,
}

impl Key<Row> for RowId {
    ghost use Rattle.portal_state.specs.ChangedRows.{IsKey-row_at_id, IsMonotone-row_at_id};
    ghost use Rattle.portal_state.specs.Entries.{row_at_id};

    ghost at = { λ key. row_at_id key.id };

    ghost is_key = { λ key. IsKey-row_at_id key.id };

    ghost is_monotone = { λ key. IsMonotone-row_at_id key.id };

    fn compare_item(&self, item: &Row) -> Ordering {
        item.id.cmp(&self.id)
    }
}

/// Adds the changes of rows for a plan on the tables.
pub(crate) fn push_changes(
    alloc: Global,
    changes: &mut Vec<Change>,
    tables: &Tables,
    plan: &TablePlan,
) -> Result<(), AllocError>
    requires { IsPlanned plan.now tables.now }
    ensures changes { OnOk result
        (changes.new.items ≡ changes.old.items ++ changes_of_tables plan.now tables.now.tables) }
    ensures typed { OnOk result (IsTypedTablePlan plan.now) }
{
    match plan {
        TablePlan::Create(table) => push_table(alloc, changes, table),
        TablePlan::Remove(address) => match tables.get(&address.dataset, address.number) {
            Some(table) => push_removals(alloc, changes, table),
            None => Ok(()),
        },
        TablePlan::Put(address, _, _, batch) => {
            match tables.get(&address.dataset, address.number) {
                Some(table) => push_batch(alloc, changes, table, batch),
                None => unreachable!(),
            }
        }
        TablePlan::DeleteRows(address, removal) => {
            match tables.get(&address.dataset, address.number) {
                Some(table) => push_ids(alloc, changes, table, removal.ids()),
                None => unreachable!(),
            }
        }
    }
}

// ---- a new table

/// Adds the rows of a new table.
fn push_table(
    alloc: Global,
    changes: &mut Vec<Change>,
    table: &ResourceTable,
) -> Result<(), AllocError>
    ensures changes { OnOk result (changes.new.items ≡ changes.old.items ++ map put_of (table_rows table.now)) }
    ensures number { OnOk result (table.now.address.number < 2 ^ 32) }
    ensures next_id { OnOk result (table.now.table.next_id < 2 ^ 64) }
{
    let resource = resource_id(alloc, &table.address)?;
    let head = head_row(alloc, &resource, table, table.table.next_id())?;
    changes.push(Change::Put(head))?;
    push_puts(alloc, changes, &resource, table.table.rows())
}

/// Adds the rows of these rows of a new table.
fn push_puts(
    alloc: Global,
    changes: &mut Vec<Change>,
    resource: &Text,
    rows: &[Row],
) -> Result<(), AllocError>
    requires { All (λ row. All IsValue row.cells) rows.now }
    ensures { OnOk result
        (changes.new.items ≡ changes.old.items ++ map put_of (map (cells_row resource.now) rows.now)) }
{
    for row in rows {
        let kept = cells_row(alloc, resource, row)?;
        changes.push(Change::Put(kept))?;
    }
    Ok(())
}

// ---- a table that goes

/// Adds the removals of a table: of its rows, and then of itself.
pub(crate) fn push_removals(
    alloc: Global,
    changes: &mut Vec<Change>,
    table: &ResourceTable,
) -> Result<(), AllocError>
    ensures { OnOk result (changes.new.items ≡ changes.old.items ++ removals_of_table table.now) }
{
    let resource = resource_id(alloc, &table.address)?;
    push_row_removals(alloc, changes, &resource, table.table.rows())?;
    changes.push(Change::Remove(RowKind::Table, resource))?;
    Ok(())
}

/// Adds the removals of these rows of a table.
fn push_row_removals(
    alloc: Global,
    changes: &mut Vec<Change>,
    resource: &Text,
    rows: &[Row],
) -> Result<(), AllocError>
    ensures { OnOk result (changes.new.items ≡ changes.old.items ++ map (removal_of_row resource.now) rows.now) }
{
    for row in rows {
        let key = row_key(alloc, resource, row.id)?;
        changes.push(Change::Remove(RowKind::Row, key))?;
    }
    Ok(())
}

// ---- a batch

/// Adds what changes in the rows of a table by a batch: of the table, and of each row that the batch writes.
fn push_batch(
    alloc: Global,
    changes: &mut Vec<Change>,
    table: &ResourceTable,
    batch: &Batch,
) -> Result<(), AllocError>
    requires { IsReady batch.now table.now.table }
    ensures changes { OnOk result
        (changes.new.items ≡ changes.old.items ++ changes_of_batch batch.now.work table.now) }
    ensures typed { OnOk result (IsTypedBatch batch.now.work) }
{
    let resource = resource_id(alloc, &table.address)?;
    push_head(alloc, changes, &resource, table, batch.next_id())?;
    push_rows(
        alloc,
        changes,
        &resource,
        table.table.rows(),
        batch.changed(),
    )
}

/// Adds what changes in the row of a table, where this is its next `_id` afterwards.
fn push_head(
    alloc: Global,
    changes: &mut Vec<Change>,
    resource: &Text,
    table: &ResourceTable,
    next_id: u64,
) -> Result<(), AllocError>
    requires { resource.now ≡ resource_id table.now.address }
    ensures { OnOk result (changes.new.items ≡ changes.old.items ++ changes_of_head table.now next_id) }
{
    let before = head_row(alloc, resource, table, table.table.next_id())?;
    let KeptRow { kind, key, body } = head_row(alloc, resource, table, next_id)?;
    push_between(changes, kind, key, Some(before.body), Some(body))
}

/// Adds what changes in the rows of rows that are put among the old ones.
fn push_rows(
    alloc: Global,
    changes: &mut Vec<Change>,
    resource: &Text,
    old: &[Row],
    rows: &[Row],
) -> Result<(), AllocError>
    requires ascending { IsAscending row_cmp old.now }
    requires old_values { All (λ row. All IsValue row.cells) old.now }
    requires values { All (λ row. All IsValue row.cells) rows.now }
    ensures { OnOk result
        (changes.new.items ≡ changes.old.items ++ flat_map (changes_of_row resource.now old.now) rows.now) }
{
    for row in rows {
        push_row(alloc, changes, resource, old, row)?;
    }
    Ok(())
}

/// Adds what changes in the row of a row that is put among the old ones.
fn push_row(
    alloc: Global,
    changes: &mut Vec<Change>,
    resource: &Text,
    old: &[Row],
    row: &Row,
) -> Result<(), AllocError>
    requires ascending { IsAscending row_cmp old.now }
    requires old_values { All (λ row. All IsValue row.cells) old.now }
    requires values { All IsValue row.now.cells }
    ensures { OnOk result
        (changes.new.items ≡ changes.old.items ++ changes_of_row resource.now old.now row.now) }
{
    let before = cells_body(alloc, resource, old, row.id)?;
    let KeptRow { kind, key, body } = cells_row(alloc, resource, row)?;
    push_between(changes, kind, key, before, Some(body))
}

/// The body of the row of the row with this `_id`, if there is one.
fn cells_body(
    alloc: Global,
    resource: &Text,
    rows: &[Row],
    id: u64,
) -> Result<Option<Text>, AllocError>
    requires ascending { IsAscending row_cmp rows.now }
    requires values { All (λ row. All IsValue row.cells) rows.now }
    ensures { IfOk result (λ body. body ≡ cells_body resource.now rows.now id) }
{
    match find_in_order(rows, &RowId { id }) {
        Some(row) => {
            let kept = cells_row(alloc, resource, row)?;
            Ok(Some(kept.body))
        }
        None => Ok(None),
    }
}

// ---- rows that are deleted

/// Adds the removals of the rows with these `_id`s, as far as the table has them.
fn push_ids(
    alloc: Global,
    changes: &mut Vec<Change>,
    table: &ResourceTable,
    ids: &[u64],
) -> Result<(), AllocError>
    ensures changes { OnOk result (changes.new.items ≡ changes.old.items ++ removals_of_ids ids.now table.now) }
    ensures sized { OnOk result (All (λ id. id < 2 ^ 64) ids.now) }
{
    let resource = resource_id(alloc, &table.address)?;
    push_each_id(alloc, changes, &resource, table.table.rows(), ids)
}

/// Adds the removals of the rows with these `_id`s among these rows.
fn push_each_id(
    alloc: Global,
    changes: &mut Vec<Change>,
    resource: &Text,
    rows: &[Row],
    ids: &[u64],
) -> Result<(), AllocError>
    requires { IsAscending row_cmp rows.now }
    ensures changes { OnOk result
        (changes.new.items ≡ changes.old.items ++ flat_map (removals_of_id resource.now rows.now) ids.now) }
    ensures sized { OnOk result (All (λ id. id < 2 ^ 64) ids.now) }
{
    for id in ids {
        push_id(alloc, changes, resource, rows, *id)?;
    }
    Ok(())
}

/// Adds the removal of the row with this `_id`, if there is one.
fn push_id(
    alloc: Global,
    changes: &mut Vec<Change>,
    resource: &Text,
    rows: &[Row],
    id: u64,
) -> Result<(), AllocError>
    requires { IsAscending row_cmp rows.now }
    ensures { OnOk result (changes.new.items ≡ changes.old.items ++ removals_of_id resource.now rows.now id) }
{
    if find_in_order(rows, &RowId { id }).is_some() {
        let key = row_key(alloc, resource, id)?;
        changes.push(Change::Remove(RowKind::Row, key))?;
    }
    Ok(())
}

// ---- parts of rows

/// The id of the resource at an address.
fn resource_id(alloc: Global, address: &Address) -> Result<Text, AllocError>
    ensures id { IfOk result (λ id. id ≡ resource_id address.now) }
    ensures number { OnOk result (address.now.number < 2 ^ 32) }
{
    resource_address(alloc, &address.dataset, address.number)
}

/// The row of a table, with this next `_id`.
fn head_row(
    alloc: Global,
    resource: &Text,
    table: &ResourceTable,
    next_id: u64,
) -> Result<KeptRow, AllocError>
    ensures { IfOk result (λ row. row ≡ table_row resource.now (record {
      schema = table.now.table.schema;
      next_id = next_id;
      targets = row_targets table.now;
    })) }
{
    let targets = row_targets(alloc, table)?;
    table_row(
        alloc,
        resource,
        table.table.schema(),
        next_id,
        targets.as_slice(),
    )
}

/// What the row of a table has in place of the resources' numbers that its foreign keys reference.
fn row_targets(alloc: Global, table: &ResourceTable) -> Result<Vec<u32>, AllocError>
    ensures { IfOk result (λ targets. targets.items ≡ row_targets table.now) }
{
    let own = table.address.number;
    table
        .targets
        .as_slice()
        .iter()
        .map(|number| row_target(own, *number))
        .collect(alloc)
}

/// What it has in place of this number: 0 for the table's own, and else the number.
fn row_target(own: u32, number: u32) -> u32
    ensures { result ≡ row_target own number }
{
    if number == own { 0 } else { number }
}
