//! Look-ups among the current rows: the rows of a table, with those that a batch has written in their place. Each
//! look-up goes through an index, or halves a list.
ghost use Rattle.std.specs.Prelude.{◌≡◌, ◌<◌, ◌≤◌, ◌+◌, ◌&&◌, ◌||◌, not, length, option_copied, vec_len, vec_capacity};
ghost use Rattle.std.specs.Prelude.{find, false, slice_get, Some, [], ◌∷◌};
ghost use Rattle.std.specs.Prelude.{nat_lt, get_or};
ghost use Rattle.std.specs.List.{list_any, prefix_len};
ghost use Rattle.std.specs.Ordering.{is_eq, is_lt, nat_cmp};
ghost use Rattle.lexical_forms.specs.Digits.{is_empty};
ghost use Rattle.portal_base.specs.Ordered.{IsAscending, upserted};
ghost use Rattle.datastore_table.specs.Cells.{cell_at, has_null, is_null};
ghost use Rattle.datastore_table.specs.Index.{only, is_other_unwritten, unwritten, IsAlone, IsIndexedAt, IsKeyed};
ghost use Rattle.datastore_table.specs.Rows.{earlier, has_cells, has_like, is_other, is_taken, row_at, row_cmp};
ghost use Rattle.datastore_table.specs.Rows.{row_with};
ghost use Rattle.datastore_table.specs.Rows.{rows_after, takes_cell};

use crate::cells::{has_null, is_null_at};
use crate::lookup::find_by_index;
use crate::lookup_key::LookupKey;
use crate::row::Row;
use crate::rows_by_id::RowsById;
use digest_index::DigestIndex;
use portal_base::ordered::Ordered;
use std::mem;
use table_schema::Cell;

/// The current rows: `rows`, where each row of `written` replaces the row with its `_id` or is a new row. Each of the
/// two lists has an index of its own.
#[derive(Drop)]
pub(crate) struct CurrentRows<'a> {
    pub rows: RowsById<'a>,
    pub index: &'a DigestIndex<u64>,
    pub written: RowsById<'a>,
    pub written_index: &'a DigestIndex<u64>,
}

/// Finds the row with this `_id`.
pub(crate) fn row_at(rows: &[Row], id: u64) -> Option<&Row>
    requires { IsAscending row_cmp rows.now }
    ensures { option_copied result ≡ row_at id rows.now }
{
    match item_at(rows, index_of_id(rows, id)) {
        Some(row) => only(row, id),
        None => None,
    }
}

fn item_at(rows: &[Row], index: usize) -> Option<&Row>
    ensures { option_copied result ≡ slice_get rows.now index }
{
    rows.get(index)
}

// The row, if it has this `_id`.
fn only(row: &Row, id: u64) -> Option<&Row>
    ensures { option_copied result ≡ only id (Some row.now) }
{
    if row.id == id { Some(row) } else { None }
}

// The count of rows with a lower `_id`. They come first.
fn index_of_id(rows: &[Row], id: u64) -> usize
    requires { IsAscending row_cmp rows.now }
    ensures { result ≡ prefix_len (λ row. is_lt (nat_cmp row.id id)) rows.now }
{
    rows.partition_point(|row| row.id.cmp(&id).is_lt())
}

/// Whether one of the rows has this `_id`.
pub(crate) fn has_row(rows: &RowsById, id: u64) -> bool
    requires { IsAscending row_cmp rows.now }
    ensures { result ≡ list_any (λ row. is_eq (nat_cmp id row.id)) rows.now }
{
    rows.row_at(id).is_some()
}

// Whether no row can match: there is no column, or one of the cells is Null.
fn matches_nothing(columns: &[u32], cells: &[Cell]) -> bool
    ensures { result ≡ (is_empty columns.now || has_null cells.now) }
{
    columns.is_empty() || has_null(cells)
}

// Finds the row that has these cells in these columns, which are those of the primary key.
#[tactic(auto, using(crate::proofs::LookupLemmas::alone_key))]
fn find_keyed<'a>(
    rows: &RowsById<'a>,
    index: &DigestIndex<u64>,
    columns: &[u32],
    cells: &[Cell],
) -> Option<&'a Row>
    requires keyed { IsKeyed columns.now rows.now index.now }
    requires some { is_empty columns.now ≡ false }
    requires full { has_null cells.now ≡ false }
    ensures { option_copied result ≡ find (has_cells columns.now cells.now) rows.now }
{
    find_by_index(rows, index, columns, LookupKey::OfKey(cells))
}

// The match among the rows that no written row replaces.
fn first_unwritten_with<'a>(
    current: &CurrentRows<'a>,
    columns: &[u32],
    cells: &[Cell],
) -> Option<&'a Row>
    requires keyed { IsKeyed columns.now current.now.rows current.now.index.now }
    requires written { IsAscending row_cmp current.now.written }
    requires some { is_empty columns.now ≡ false }
    requires full { has_null cells.now ≡ false }
    ensures { option_copied result ≡ find
        (λ row. has_cells columns.now cells.now row && not (has_like current.now.written row))
        current.now.rows }
{
    let row = find_keyed(&current.rows, current.index, columns, cells);
    unwritten(&current.written, row)
}

// The row, unless a written row has its `_id`.
fn unwritten<'a>(written: &RowsById, row: Option<&'a Row>) -> Option<&'a Row>
    requires { IsAscending row_cmp written.now }
    ensures { option_copied result ≡ unwritten written.now (option_copied row.entry) }
{
    match row {
        Some(row) if !has_row(written, row.id) => Some(row),
        _ => None,
    }
}

/// Finds the first row that has these cells in these columns, which are those of the primary key. Null matches no row.
pub(crate) fn row_with<'a>(
    rows: &'a [Row],
    index: &DigestIndex<u64>,
    columns: &[u32],
    cells: &[Cell],
) -> Option<&'a Row>
    requires { IsKeyed columns.now rows.now index.now }
    ensures { option_copied result ≡ row_with columns.now cells.now rows.now }
{
    if matches_nothing(columns, cells) {
        None
    } else {
        find_keyed(&RowsById::of_slice(rows), index, columns, cells)
    }
}

/// Finds the first of the current rows that has these cells in these columns.
#[tactic(auto, using(crate::proofs::RowLemmas::find_current))]
pub(crate) fn current_row_with<'a>(
    current: &CurrentRows<'a>,
    columns: &[u32],
    cells: &[Cell],
) -> Option<&'a Row>
    requires keyed { IsKeyed columns.now current.now.rows current.now.index.now }
    requires written { IsKeyed columns.now current.now.written current.now.written_index.now }
    ensures { option_copied result ≡ row_with columns.now cells.now
        (rows_after current.now.written current.now.rows) }
{
    if matches_nothing(columns, cells) {
        return None;
    }
    earlier(
        find_keyed(&current.written, current.written_index, columns, cells),
        first_unwritten_with(current, columns, cells),
    )
}

// The one with the lower `_id`.
fn earlier<'a>(one: Option<&'a Row>, other: Option<&'a Row>) -> Option<&'a Row>
    ensures { option_copied result ≡ earlier row_cmp (option_copied one.entry) (option_copied other.entry) }
{
    match (one, other) {
        (Some(a), Some(b)) => {
            if b.id.cmp(&a.id).is_lt() {
                Some(b)
            } else {
                Some(a)
            }
        }
        (Some(a), None) => Some(a),
        (None, other) => other,
    }
}

/// Finds the current row with this `_id`.
#[tactic(auto, using(crate::proofs::RowLemmas::current_at))]
pub(crate) fn current_row_at<'a>(
    rows: &RowsById<'a>,
    written: &RowsById<'a>,
    id: u64,
) -> Option<&'a Row>
    requires rows { IsAscending row_cmp rows.now }
    requires written { IsAscending row_cmp written.now }
    ensures { option_copied result ≡ row_at id (rows_after written.now rows.now) }
{
    match written.row_at(id) {
        Some(row) => Some(row),
        None => rows.row_at(id),
    }
}

fn is_other(row: &Row, except: Option<u64>) -> bool
    ensures { result ≡ is_other except row.now }
{
    match except {
        Some(id) => !(row.id == id),
        None => true,
    }
}

// Whether there is a row, it is not the excepted one, and no written row has its `_id`.
fn is_other_unwritten(except: Option<u64>, written: &RowsById, row: Option<&Row>) -> bool
    requires { IsAscending row_cmp written.now }
    ensures { result ≡ is_other_unwritten except written.now (option_copied row.entry) }
{
    match row {
        Some(row) => is_other(row, except) && !has_row(written, row.id),
        None => false,
    }
}

// Whether another row than the excepted one has the cell in this column, among the rows that no written row replaces.
fn is_taken_among(
    rows: &RowsById,
    index: &DigestIndex<u64>,
    written: &RowsById,
    except: Option<u64>,
    column: u32,
    cells: &[Cell],
) -> bool
    requires ascending { IsAscending row_cmp rows.now }
    requires written { IsAscending row_cmp written.now }
    requires some { is_null (cell_at cells.now column) ≡ false }
    requires alone { IsAlone (column ∷ []) (cell_at cells.now column ∷ []) rows.now }
    requires indexed { IsIndexedAt (column ∷ []) rows.now index.now }
    ensures { result ≡ list_any (λ row. takes_cell except column (cell_at cells.now column) row
        && not (has_like written.now row)) rows.now }
{
    let columns = [column];
    let row = find_by_index(rows, index, &columns, LookupKey::OfRow(cells, &columns));
    is_other_unwritten(except, written, row)
}

/// Whether one of the current rows other than the excepted one has, in this column, the same cell as `cells`. Null
/// counts as no value.
#[tactic(auto, using(crate::proofs::RowLemmas::taken_current))]
pub(crate) fn is_taken(
    current: &CurrentRows,
    except: Option<u64>,
    column: u32,
    cells: &[Cell],
) -> bool
    requires rows { IsAscending row_cmp current.now.rows }
    requires written { IsAscending row_cmp current.now.written }
    requires alone { is_null (cell_at cells.now column) ≡ false →
        IsAlone (column ∷ []) (cell_at cells.now column ∷ []) current.now.rows }
    requires alone_written { is_null (cell_at cells.now column) ≡ false →
        IsAlone (column ∷ []) (cell_at cells.now column ∷ []) current.now.written }
    requires indexed { IsIndexedAt (column ∷ []) current.now.rows current.now.index.now }
    requires indexed_written { IsIndexedAt (column ∷ []) current.now.written current.now.written_index.now }
    ensures { result ≡ is_taken except column (cell_at cells.now column)
        (rows_after current.now.written current.now.rows) }
{
    !is_null_at(cells, column as usize)
        && (is_taken_among(
            &current.written,
            current.written_index,
            &RowsById::none(),
            except,
            column,
            cells,
        ) || is_taken_among(
            &current.rows,
            current.index,
            &current.written,
            except,
            column,
            cells,
        ))
}

/// Replaces the item that compares equal to this one, and returns it, or inserts the item in order as a new one. There
/// is room for one more item, so it takes no memory and can't fail.
pub(crate) fn put_sorted<T: Ordered>(items: &mut Vec<T>, item: T) -> Option<T>
    requires ascending { IsAscending T.order items.old.items }
    requires room { vec_len items.old < vec_capacity items.old }
    ensures items { items.new.items ≡ upserted T.order item items.old.items }
    ensures ascending { IsAscending T.order items.new.items }
    ensures capacity { vec_capacity items.old ≤ vec_capacity items.new }
    ensures len { vec_len items.new ≤ vec_len items.old + 1 }
{
    let index = index_in(items.as_slice(), &item);
    if is_like_at(items.as_slice(), index, &item) {
        Some(mem::replace(&mut items[index], item))
    } else {
        items.insert(index, item).unwrap();
        None
    }
}

// The count of items that are less than this one. They come first.
fn index_in<T: Ordered>(items: &[T], item: &T) -> usize
    requires { IsAscending T.order items.now }
    ensures index { result ≡ prefix_len (λ other. is_lt (T.order other item.now)) items.now }
    ensures within { result ≤ length items.now }
{
    items.partition_point(|other| other.compare(item).is_lt())
}

// Whether there is an item at this index that compares equal to the other.
fn is_like_at<T: Ordered>(items: &[T], index: usize, item: &T) -> bool
    ensures { result ≡ (nat_lt index (length items.now) && is_eq (T.order (get_or items.now index item.now) item.now)) }
{
    index < items.len() && items[index].compare(item).is_eq()
}
