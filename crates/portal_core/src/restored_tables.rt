//! Tables that are read back from values of a store.
ghost use Rattle.std.specs.Prelude.{◌≡◌, ◌≢◌, All, IfNone, IfOk, IfSome, List, map};
ghost use Rattle.std.specs.List.{AllZip};
ghost use Rattle.datastore_answers.specs.Tables.{tables_of};
ghost use Rattle.datastore_answers.specs.declared.resource_table.ResourceTable.{ResourceTable};
ghost use Rattle.datastore_table.specs.Meets.{IsTable, rows_of};
ghost use Rattle.packages.specs.Numbered.{AreNumbered};
ghost use Rattle.packages.specs.Shelf.{datasets_of};
ghost use Rattle.portal_base.specs.Ordered.{IsAscending};
ghost use Rattle.portal_rows.specs.KeptValues.{IsKeptTable, kept_table_cmp};
ghost use Rattle.portal_core.specs.Restored.{AreTablesOf, IsTableOf, target_of};

use crate::restored_homes::address_of;
use datastore_answers::resource_table::ResourceTable;
use datastore_answers::tables::Tables;
use datastore_table::{Row, Table};
use packages::shelf::Shelf;
use portal_base::seq::Seq;
use portal_rows::kept_tables::KeptTable;
use portal_rows::tables::TableHead;
use std::alloc::{AllocError, Global};
use table_schema::{Cell, Schema};

/// The tables with these values. The result is `None` exactly if no valid state with the shelf's datasets has such
/// tables.
pub(crate) fn tables_of_values(
    alloc: Global,
    shelf: &Shelf,
    kept: Seq<KeptTable>,
) -> Result<Option<Tables>, AllocError>
    requires numbered { All AreNumbered (datasets_of shelf.now) }
    requires kept { All IsKeptTable kept }
    requires ascend { IsAscending kept_table_cmp kept }
    ensures tables { IfOk result (λ found. IfSome found (λ made.
        AreTablesOf (datasets_of shelf.now) kept (tables_of made))) }
    ensures none { IfOk result (λ found. IfNone found
        ((tables : List ResourceTable) → AreTablesOf (datasets_of shelf.now) kept tables → ⊥)) }
{
    match each_table(alloc, shelf, kept)? {
        Some(tables) => Ok(Tables::restore(tables)),
        None => Ok(None),
    }
}

/// Each table, apart from the others. The result is `None` exactly if one of them is no table.
fn each_table(
    alloc: Global,
    shelf: &Shelf,
    kept: Seq<KeptTable>,
) -> Result<Option<Seq<ResourceTable>>, AllocError>
    requires numbered { All AreNumbered (datasets_of shelf.now) }
    requires kept { All IsKeptTable kept }
    ensures tables { IfOk result (λ found. IfSome found (λ tables.
        AllZip (IsTableOf (datasets_of shelf.now)) kept tables)) }
    ensures none { IfOk result (λ found. IfNone found
        ((tables : List ResourceTable) → AllZip (IsTableOf (datasets_of shelf.now)) kept tables → ⊥)) }
{
    let mut tables = Vec::with_capacity(alloc, kept.len())?;
    for one in kept.into_vec() {
        let Some(table) = table_of(alloc, shelf, one)? else {
            return Ok(None);
        };
        tables.push(table)?;
    }
    Ok(Some(Seq::from(tables)))
}

/// The table with these values, apart from other tables.
fn table_of(
    alloc: Global,
    shelf: &Shelf,
    kept: KeptTable,
) -> Result<Option<ResourceTable>, AllocError>
    requires numbered { All AreNumbered (datasets_of shelf.now) }
    requires kept { IsKeptTable kept }
    ensures table { IfOk result (λ found. IfSome found (IsTableOf (datasets_of shelf.now) kept)) }
    ensures none { IfOk result (λ found. IfNone found
        ((t : ResourceTable) → IsTableOf (datasets_of shelf.now) kept t → ⊥)) }
{
    let Some(address) = address_of(alloc, shelf, &kept.resource)? else {
        return Ok(None);
    };
    let KeptTable {
        resource: _resource,
        head,
        rows,
    } = kept;
    let TableHead {
        schema,
        next_id,
        targets,
    } = head;
    let Some(targets) = targets_of(address.number, targets) else {
        return Ok(None);
    };
    match filled_table(alloc, schema, rows, next_id)? {
        Some(table) => Ok(Some(ResourceTable {
            address,
            targets,
            table,
        })),
        None => Ok(None),
    }
}

// ---- targets

/// The numbers of the resources that the foreign keys of a table refer to. The table's own number is kept as 0, so that
/// the result is `None` exactly if that number itself is kept for one of them.
fn targets_of(own: u32, kept: Seq<u32>) -> Option<Seq<u32>>
    ensures targets { IfSome result (λ targets. targets ≡ map (target_of own) kept) }
    ensures other { IfSome result (λ targets. All (λ n. n ≢ own) kept) }
    ensures none { IfNone result (All (λ n. n ≢ own) kept → ⊥) }
{
    let mut targets = kept.into_vec();
    for at in 0..targets.len() {
        if targets[at] == own {
            return None;
        }
        targets[at] = target_of(own, targets[at]);
    }
    Some(Seq::from(targets))
}

/// The number of a resource that a foreign key refers to.
fn target_of(own: u32, kept: u32) -> u32
    ensures { result ≡ target_of own kept }
{
    if kept == 0 { own } else { kept }
}

// ---- tables with their rows

/// The table of this schema with these rows and this next `_id`. The result is `None` exactly if no valid table has
/// them.
fn filled_table(
    alloc: Global,
    schema: Schema,
    rows: Seq<Row>,
    next_id: u64,
) -> Result<Option<Table>, AllocError>
    ensures schema { IfOk result (λ made. IfSome made (λ table. table.schema ≡ schema)) }
    ensures rows { IfOk result (λ made. IfSome made (λ table. table.rows ≡ rows)) }
    ensures next_id { IfOk result (λ made. IfSome made (λ table. table.next_id ≡ next_id)) }
    ensures valid { IfOk result (λ made. IfSome made (λ table. IsTable schema rows next_id)) }
    ensures none { IfOk result (λ made. IfNone made (IsTable schema rows next_id → ⊥)) }
{
    let pairs = pairs_of(alloc, rows)?;
    Table::restore(alloc, schema, pairs, next_id)
}

/// The pairs of each row's `_id` and cells.
fn pairs_of(alloc: Global, rows: Seq<Row>) -> Result<Seq<(u64, Seq<Cell>)>, AllocError>
    ensures { IfOk result (λ pairs. rows_of pairs ≡ rows) }
{
    let mut pairs = Vec::with_capacity(alloc, rows.len())?;
    for row in rows.into_vec() {
        let Row { id, cells } = row;
        pairs.push((id, cells))?;
    }
    Ok(Seq::from(pairs))
}
