//! Tables with their rows, which are read from the rows of a store.
ghost use Rattle.std.specs.Prelude.{◌≡◌, ◌↔◌, ◌<◌, ◌^◌, IfOk, IfSome, IsTrue, List, OnOk, Some, length, map, position};
ghost use Rattle.std.specs.Cmp.Lexicographic.{slice_cmp};
ghost use Rattle.std.specs.List.{AllZip};
ghost use Rattle.std.specs.Ordering.{is_eq, nat_cmp};
ghost use Rattle.datastore_table.specs.declared.row.Row.{Row};
ghost use Rattle.portal_base.specs.Ordered.{IsAscending};
ghost use Rattle.portal_keeper.specs.Rows.{AreInOrder};
ghost use Rattle.portal_rows.specs.KeptValues.{AreNewTables, AreTablesOf, IsAdded, IsOfNoTable, IsRowInTable};
ghost use Rattle.portal_rows.specs.KeptValues.{IsRowOfNewTable, head_row, kept_table_cmp, with_row};
ghost use Rattle.portal_rows.specs.TableRows.{IsCellsBody, resource_of_key, row_key};
ghost use Rattle.portal_rows.specs.declared.kept_tables.KeptTable.{KeptTable};

use crate::cell_reading::read_cells;
use crate::key_reading::read_row_key;
use crate::table_reading::read_table_row;
use crate::tables::TableHead;
use datastore_table::Row;
use portal_base::copy::TryClone;
use portal_base::seq::Seq;
use portal_base::text::Text;
use portal_keeper::row::{KeptRow, RowKind};
use std::alloc::{AllocError, Global};

/// The count of the bytes of `/` and an `_id` at the end of the key of a row's row.
const ID_BYTES: usize = 21;

/// A table, and the resource that it is of.
#[derive(Drop)]
pub struct KeptTable {
    /// The id of the resource.
    pub resource: Text,
    pub head: TableHead,
    /// The rows, in the order of their `_id`s.
    pub rows: Seq<Row>,
}

/// Reads the rows of tables, and the rows of their rows. The result is some tables exactly if all rows are theirs.
pub(crate) fn read_tables(
    alloc: Global,
    heads: &[KeptRow],
    rows: &[KeptRow],
) -> Result<Option<Seq<KeptTable>>, AllocError>
    requires heads { AreInOrder heads.now }
    requires rows { AreInOrder rows.now }
    ensures { IfOk result (λ found. (tables : List KeptTable) →
        (found ≡ Some tables) ↔ AreTablesOf tables heads.now rows.now) }
{
    match read_new_tables(alloc, heads)? {
        Some(tables) => with_rows(alloc, tables, rows),
        None => Ok(None),
    }
}

// ---- tables without rows

/// Reads the rows of tables, and no row of their rows.
fn read_new_tables(alloc: Global, heads: &[KeptRow]) -> Result<Option<Seq<KeptTable>>, AllocError>
    ensures { IfOk result (λ found. (tables : List KeptTable) →
        (found ≡ Some tables) ↔ AllZip IsRowOfNewTable tables heads.now) }
{
    let mut tables = Vec::with_capacity(alloc, heads.len())?;
    for head in heads {
        let Some(table) = read_new_table(alloc, head)? else {
            return Ok(None);
        };
        tables.push(table)?;
    }
    Ok(Some(Seq::from(tables)))
}

/// Reads the row of a table.
fn read_new_table(alloc: Global, row: &KeptRow) -> Result<Option<KeptTable>, AllocError>
    ensures { IfOk result (λ found. (table : KeptTable) → (found ≡ Some table) ↔ IsRowOfNewTable table row.now) }
{
    match read_table_row(alloc, row)? {
        Some(head) => Ok(Some(KeptTable {
            resource: row.key.try_clone(alloc)?,
            head,
            rows: Seq::new(alloc),
        })),
        None => Ok(None),
    }
}

// ---- tables with their rows

/// Adds the rows of the tables' rows. The result is some tables exactly if all of the rows are of their rows.
fn with_rows(
    alloc: Global,
    tables: Seq<KeptTable>,
    rows: &[KeptRow],
) -> Result<Option<Seq<KeptTable>>, AllocError>
    requires new { AreNewTables tables }
    requires rows { AreInOrder rows.now }
    ensures { IfOk result (λ found. (kept : List KeptTable) →
        (found ≡ Some kept) ↔ AreTablesOf kept (map head_row tables) rows.now) }
{
    let mut filled = tables.into_vec();
    for row in rows {
        if !add_row(alloc, &mut filled, row)? {
            return Ok(None);
        }
    }
    Ok(Some(Seq::from(filled)))
}

/// Adds the row of a row to its table, which is found by a binary search. The result is false if no table can have it.
fn add_row(alloc: Global, tables: &mut Vec<KeptTable>, row: &KeptRow) -> Result<bool, AllocError>
    requires { IsAscending kept_table_cmp tables.old.items }
    ensures added { IfOk result (λ added. IsTrue added → IsAdded row.now tables.old.items tables.new.items) }
    ensures none { IfOk result (λ added. ¬ IsTrue added → IsOfNoTable row.now tables.old.items) }
{
    let Some(index) = index_of_table(tables.as_slice(), &row.key) else {
        return Ok(false);
    };
    let table = &mut tables[index];
    let Some(own) = read_row_in_table(alloc, table, row)? else {
        return Ok(false);
    };
    push_row(table, own)?;
    Ok(true)
}

fn push_row(table: &mut KeptTable, row: Row) -> Result<(), AllocError>
    ensures { OnOk result (table.new ≡ with_row table.old row) }
{
    match table.rows.push(row) {
        Ok(()) => Ok(()),
        Err(_refused) => Err(AllocError),
    }
}

/// The index of the table of the resource that a key of a row's row names.
fn index_of_table(tables: &[KeptTable], key: &Text) -> Option<usize>
    requires { IsAscending kept_table_cmp tables.now }
    ensures index { result ≡ position
        (λ table. is_eq (slice_cmp nat_cmp table.resource (resource_of_key key.now))) tables.now }
    ensures within { IfSome result (λ index. index < length tables.now) }
{
    let resource = resource_of_key(key);
    tables
        .binary_search_by(|table| table.resource.as_bytes().cmp(&resource))
        .ok()
}

fn resource_of_key(key: &Text) -> &[u8]
    ensures { result.now ≡ resource_of_key key.now }
{
    let bytes = key.as_bytes();
    &bytes[..bytes.len().saturating_sub(ID_BYTES)]
}

/// Reads the row of a row of this table.
fn read_row_in_table(
    alloc: Global,
    table: &KeptTable,
    row: &KeptRow,
) -> Result<Option<Row>, AllocError>
    ensures { IfOk result (λ found. (own : Row) → (found ≡ Some own) ↔ IsRowInTable table.now own row.now) }
{
    match row.kind {
        RowKind::Row => read_row(alloc, table, &row.key, &row.body),
        _ => Ok(None),
    }
}

/// Reads the key and the body of the row of a row of this table.
fn read_row(
    alloc: Global,
    table: &KeptTable,
    key: &Text,
    body: &Text,
) -> Result<Option<Row>, AllocError>
    ensures { IfOk result (λ found. (own : Row) → (found ≡ Some own) ↔ (
        ((own.id < 2 ^ 64) × (key.now ≡ row_key table.now.resource own.id))
        × IsCellsBody table.now.head.schema own.cells body.now)) }
{
    let Some(id) = read_row_key(alloc, &table.resource, key)? else {
        return Ok(None);
    };
    match read_cells(alloc, &table.head.schema, body)? {
        Some(cells) => Ok(Some(Row { id, cells })),
        None => Ok(None),
    }
}
