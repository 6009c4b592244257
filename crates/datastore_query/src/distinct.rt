//! Distinct rows: the first of each group of rows with equal cells in a query's columns. No cell is copied.
ghost use Rattle.std.specs.Prelude.{◌≡◌, true, IfOk, IsTrue, OnOk, fold, nat_eq};
ghost use Rattle.std.specs.Hash.DefaultHasher as sip;
ghost use Rattle.std.specs.HashMap.{get};
ghost use Rattle.std.specs.List.{list_any};
ghost use Rattle.table_schema.specs.Order.{same_cell, type_rank};
ghost use Rattle.datastore_table.specs.Cells.{cell_at};
ghost use Rattle.datastore_query.specs.Column.{column_cell};
ghost use Rattle.datastore_query.specs.Distinct.{HaveDigests, are_alike, row_digest, with_cell};
ghost use Rattle.datastore_query.specs.Query.{firsts, with_first};

use crate::column::{Column, columns_once, id_cell};
use crate::lent_row::LentRow;
use datastore_table::Row;
use std::alloc::{AllocError, Global};
use std::collections::HashMap;
use std::hash::{DefaultHasher, Hasher};
use table_schema::Cell;

// ---- rows with equal cells

fn is_same_cell(one: &[Cell], other: &[Cell], index: usize) -> bool
    ensures { result ≡ same_cell (cell_at one.now index) (cell_at other.now index) }
{
    match (one.get(index), other.get(index)) {
        (Some(one), Some(other)) => one.is_same(other),
        (Some(one), None) => one.is_same(&Cell::Null),
        (None, Some(other)) => Cell::Null.is_same(other),
        (None, None) => true,
    }
}

// Whether the two rows have equal cells in the column.
fn is_same_in(alloc: Global, column: Column, one: &Row, other: &Row) -> Result<bool, AllocError>
    ensures { IfOk result (λ same. same ≡ same_cell (column_cell column one.now) (column_cell column other.now)) }
{
    match column {
        Column::Id => Ok(id_cell(alloc, one.id)?.is_same(&id_cell(alloc, other.id)?)),
        Column::Field(index) => Ok(is_same_cell(
            one.cells.as_slice(),
            other.cells.as_slice(),
            index,
        )),
    }
}

// Whether the two rows have equal cells in the columns.
fn is_alike(alloc: Global, columns: &[Column], one: &Row, other: &Row) -> Result<bool, AllocError>
    ensures { IfOk result (λ alike. alike ≡ are_alike columns.now one.now other.now) }
{
    for column in columns {
        if !is_same_in(alloc, *column, one, other)? {
            return Ok(false);
        }
    }
    Ok(true)
}

fn is_among(
    alloc: Global,
    columns: &[Column],
    rows: &[LentRow],
    row: &Row,
) -> Result<bool, AllocError>
    ensures { IfOk result (λ among. among ≡ list_any (are_alike columns.now row.now) rows.now) }
{
    for other in rows {
        if is_alike(alloc, columns, row, other.row())? {
            return Ok(true);
        }
    }
    Ok(false)
}

// Whether there is a row at this index that is like this one.
fn is_at(
    alloc: Global,
    columns: &[Column],
    rows: &[LentRow],
    index: usize,
    row: &Row,
) -> Result<bool, AllocError>
    ensures { IfOk result (λ there. there ≡ true → list_any (are_alike columns.now row.now) rows.now ≡ true) }
{
    match rows.get(index) {
        Some(other) => is_alike(alloc, columns, row, other.row()),
        None => Ok(false),
    }
}

// Whether one of the rows is like this one. The row at the index is looked at first.
fn is_at_or_among(
    alloc: Global,
    columns: &[Column],
    rows: &[LentRow],
    index: usize,
    row: &Row,
) -> Result<bool, AllocError>
    ensures { IfOk result (λ among. among ≡ list_any (are_alike columns.now row.now) rows.now) }
{
    if is_at(alloc, columns, rows, index, row)? {
        return Ok(true);
    }
    is_among(alloc, columns, rows, row)
}

// ---- digests

// The rank of a cell's type.
fn type_rank(cell: &Cell) -> u8
    ensures { result ≡ type_rank cell.now }
{
    match cell {
        Cell::Text(_) => 0,
        Cell::Int(_) => 1,
        Cell::Number(_) => 2,
        Cell::Truth(_) => 3,
        Cell::Date(_) => 4,
        Cell::Time(_) => 5,
        Cell::Stamp(_) => 6,
        Cell::Year(_) => 7,
        Cell::YearMonth(_, _) => 8,
        Cell::Null => 9,
    }
}

// Adds a cell to a digest: its type, and its value.
fn add_cell(hasher: &mut DefaultHasher, cell: &Cell)
    ensures { hasher.new ≡ with_cell hasher.old cell.now }
{
    hasher.write_u8(type_rank(cell));
    match cell {
        Cell::Text(text) => {
            hasher.write(text.as_str().as_bytes());
            hasher.write_u8(255);
        }
        other => hasher.write_i128(other.rank()),
    }
}

// Adds a row's cell in a column to a digest.
fn add_cell_in(
    alloc: Global,
    hasher: &mut DefaultHasher,
    column: Column,
    row: &Row,
) -> Result<(), AllocError>
    ensures { OnOk result (hasher.new ≡ with_cell hasher.old (column_cell column row.now)) }
{
    match column {
        Column::Id => add_cell(hasher, &id_cell(alloc, row.id)?),
        Column::Field(index) => match row.cells.as_slice().get(index) {
            Some(cell) => add_cell(hasher, cell),
            None => add_cell(hasher, &Cell::Null),
        },
    }
    Ok(())
}

// A digest of a row's cells in the columns. Unequal rows seldom have equal digests, also where null stands in one and 0 in
// the other.
fn row_digest(alloc: Global, columns: &[Column], row: &Row) -> Result<u64, AllocError>
    ensures { IfOk result (λ digest. digest ≡ row_digest columns.now row.now) }
{
    let mut hasher = DefaultHasher::new();
    for column in columns {
        add_cell_in(alloc, &mut hasher, *column, row)?;
    }
    Ok(hasher.finish())
}

// ---- the first rows

// Whether a row like this one, which has this digest, is among the first rows. `by_digest` has the digest of each of them,
// with an index.
fn is_kept(
    alloc: Global,
    columns: &[Column],
    first: &[LentRow],
    by_digest: &HashMap<u64, usize>,
    row: &Row,
    digest: u64,
) -> Result<bool, AllocError>
    requires by_digest { HaveDigests columns.now first.now (get nat_eq by_digest.now) }
    requires digest { digest ≡ row_digest columns.now row.now }
    ensures { IfOk result (λ kept. kept ≡ list_any (are_alike columns.now row.now) first.now) }
{
    match by_digest.get(&digest) {
        Some(index) => is_at_or_among(alloc, columns, first, *index, row),
        None => Ok(false),
    }
}

// Adds the row, which has this digest, unless there is one like it.
fn keep_with_digest<'a>(
    alloc: Global,
    columns: &[Column],
    first: &mut Vec<LentRow<'a>>,
    by_digest: &mut HashMap<u64, usize>,
    row: LentRow<'a>,
    digest: u64,
) -> Result<(), AllocError>
    requires by_digest { HaveDigests columns.now first.old.items (get nat_eq by_digest.old) }
    requires digest { digest ≡ row_digest columns.now row }
    ensures first { OnOk result (first.new.items ≡ with_first (are_alike columns.now) first.old.items row.entry) }
    ensures by_digest { OnOk result (HaveDigests columns.now first.new.items (get nat_eq by_digest.new)) }
{
    if is_kept(
        alloc,
        columns,
        first.as_slice(),
        by_digest,
        row.row(),
        digest,
    )? {
        return Ok(());
    }
    by_digest.insert(digest, first.len())?;
    first.push(row)?;
    Ok(())
}

// Adds the row, unless there is one like it.
fn keep<'a>(
    alloc: Global,
    columns: &[Column],
    first: &mut Vec<LentRow<'a>>,
    by_digest: &mut HashMap<u64, usize>,
    row: &'a Row,
) -> Result<(), AllocError>
    requires { HaveDigests columns.now first.old.items (get nat_eq by_digest.old) }
    ensures first { OnOk result (first.new.items ≡ with_first (are_alike columns.now) first.old.items row.now) }
    ensures by_digest { OnOk result (HaveDigests columns.now first.new.items (get nat_eq by_digest.new)) }
{
    let digest = row_digest(alloc, columns, row)?;
    keep_with_digest(alloc, columns, first, by_digest, LentRow::of(row), digest)
}

// The first of each group of rows with equal cells in these columns, in the given order.
fn first_rows<'a>(
    alloc: Global,
    columns: &[Column],
    rows: &[LentRow<'a>],
) -> Result<Vec<LentRow<'a>>, AllocError>
    ensures { IfOk result (λ first. first.items ≡ firsts (are_alike columns.now) rows.now) }
{
    let mut first = Vec::new(alloc);
    let mut by_digest = HashMap::new(alloc);
    for row in rows {
        keep(alloc, columns, &mut first, &mut by_digest, row.row())?;
    }
    Ok(first)
}

/// The first of each group of rows with equal cells in these columns, in the given order. A row's cell is looked at once,
/// however often the columns name it.
#[tactic(auto, using(crate::proofs::DistinctLemmas::firsts_once))]
pub(crate) fn distinct_rows<'a>(
    alloc: Global,
    columns: &[Column],
    rows: &[LentRow<'a>],
) -> Result<Vec<LentRow<'a>>, AllocError>
    ensures { IfOk result (λ first. first.items ≡ firsts (are_alike columns.now) rows.now) }
{
    let once = columns_once(alloc, columns)?;
    first_rows(alloc, once.as_slice(), rows)
}
