//! References between rows: the checks that a batch leaves no foreign key without its row.
ghost use Rattle.std.specs.Prelude.{◌≡◌, ◌<◌, ◌&&◌, ◌||◌, not, true, false, is_some, length, option_copied};
ghost use Rattle.std.specs.List.{list_any};
ghost use Rattle.lexical_forms.specs.Digits.{is_empty};
ghost use Rattle.portal_base.specs.Ordered.{IsAscending};
ghost use Rattle.datastore_table.specs.Cells.{cells_at, has_null, same_cells};
ghost use Rattle.datastore_table.specs.Index.{unwritten, IsKeyed};
ghost use Rattle.datastore_table.specs.References.{foreign_checked, is_broken, is_broken_at, key_exists, refers};
ghost use Rattle.datastore_table.specs.References.{self_reference_checked, self_references_checked, written_checked};
ghost use Rattle.datastore_table.specs.Rows.{has_cells, has_like, row_at, row_cmp, rows_after};

use crate::cells::has_null_at;
use crate::fault::TableFault;
use crate::lookup::find_by_index;
use crate::lookup_key::LookupKey;
use crate::row::Row;
use crate::rows::{CurrentRows, current_row_at, has_row};
use crate::rows_by_id::RowsById;
use digest_index::DigestIndex;
use table_schema::{Foreign, Schema};

/// Whether the row refers to a row by these columns: there is a column, and no cell in them is Null.
pub(crate) fn refers(row: &Row, columns: &[u32]) -> bool
    ensures { result ≡ refers columns.now row.now }
{
    !(columns.is_empty() || has_null_at(row.cells.as_slice(), columns))
}

// Whether a row has the key that this row has in these columns, among the rows that no written row replaces. The key has
// a column.
fn exists_by_index(
    rows: &RowsById,
    index: &DigestIndex<u64>,
    written: &RowsById,
    key: &[u32],
    row: &Row,
    columns: &[u32],
) -> bool
    requires keyed { IsKeyed key.now rows.now index.now }
    requires written { IsAscending row_cmp written.now }
    requires some { is_empty key.now ≡ false }
    requires full { has_null (cells_at columns.now row.now.cells) ≡ false }
    ensures { result ≡ list_any
        (λ other. has_cells key.now (cells_at columns.now row.now.cells) other && not (has_like written.now other))
        rows.now }
{
    let lookup_key = LookupKey::OfRow(row.cells.as_slice(), columns);
    let other = find_by_index(rows, index, key, lookup_key);
    is_unwritten(written, other)
}

// Whether there is a row, and no written row has its `_id`.
fn is_unwritten(written: &RowsById, row: Option<&Row>) -> bool
    requires { IsAscending row_cmp written.now }
    ensures { result ≡ is_some (unwritten written.now (option_copied row.entry)) }
{
    match row {
        Some(row) => !has_row(written, row.id),
        None => false,
    }
}

// Whether a row has the key that this row refers to, among the rows that no written row replaces. A table without a key
// has no such row.
#[tactic(auto, using(crate::proofs::LookupLemmas::refers_full))]
fn exists_among(
    rows: &RowsById,
    index: &DigestIndex<u64>,
    written: &RowsById,
    key: &[u32],
    row: &Row,
    columns: &[u32],
) -> bool
    requires keyed { IsKeyed key.now rows.now index.now }
    requires written { IsAscending row_cmp written.now }
    requires refers { refers columns.now row.now ≡ true }
    ensures { result ≡ list_any
        (λ other. has_cells key.now (cells_at columns.now row.now.cells) other && not (has_like written.now other))
        rows.now }
{
    !key.is_empty() && exists_by_index(rows, index, written, key, row, columns)
}

// Whether a current row has the key that this row refers to.
#[tactic(auto, using(crate::proofs::RowLemmas::exists_current))]
fn key_exists(target: &CurrentRows, key: &[u32], row: &Row, columns: &[u32]) -> bool
    requires keyed { IsKeyed key.now target.now.rows target.now.index.now }
    requires written { IsKeyed key.now target.now.written target.now.written_index.now }
    requires refers { refers columns.now row.now ≡ true }
    ensures { result ≡ key_exists key.now (cells_at columns.now row.now.cells)
        (rows_after target.now.written target.now.rows) }
{
    exists_among(
        &target.written,
        target.written_index,
        &RowsById::none(),
        key,
        row,
        columns,
    ) || exists_among(
        &target.rows,
        target.index,
        &target.written,
        key,
        row,
        columns,
    )
}

/// Whether the row refers to a row, and none of these rows has that key.
#[tactic(auto, using(crate::proofs::RowLemmas::none_replaced))]
pub(crate) fn is_broken_among(
    columns: &[u32],
    key: &[u32],
    rows: &[Row],
    index: &DigestIndex<u64>,
    row: &Row,
) -> bool
    requires { IsKeyed key.now rows.now index.now }
    ensures { result ≡ is_broken columns.now key.now rows.now row.now }
{
    refers(row, columns)
        && !exists_among(
            &RowsById::of_slice(rows),
            index,
            &RowsById::none(),
            key,
            row,
            columns,
        )
}

/// Whether the row refers to a row, and no current row of the target has that key.
pub(crate) fn is_broken(columns: &[u32], key: &[u32], target: &CurrentRows, row: &Row) -> bool
    requires keyed { IsKeyed key.now target.now.rows target.now.index.now }
    requires written { IsKeyed key.now target.now.written target.now.written_index.now }
    ensures { result ≡ is_broken columns.now key.now
        (rows_after target.now.written target.now.rows) row.now }
{
    refers(row, columns) && !key_exists(target, key, row, columns)
}

fn is_broken_at(
    columns: &[u32],
    key: &[u32],
    target: &CurrentRows,
    rows: &RowsById,
    changed: &RowsById,
    id: u64,
) -> bool
    requires keyed { IsKeyed key.now target.now.rows target.now.index.now }
    requires written { IsKeyed key.now target.now.written target.now.written_index.now }
    requires rows { IsAscending row_cmp rows.now }
    requires changed { IsAscending row_cmp changed.now }
    ensures { result ≡ is_broken_at columns.now key.now (rows_after target.now.written target.now.rows)
        (row_at id (rows_after changed.now rows.now)) }
{
    match current_row_at(rows, changed, id) {
        Some(row) => is_broken(columns, key, target, row),
        None => false,
    }
}

// Checks the row that the record with this number wrote.
fn check_written(
    columns: &[u32],
    key: &[u32],
    target: &CurrentRows,
    rows: &RowsById,
    changed: &RowsById,
    number: u64,
    id: u64,
) -> Result<(), TableFault>
    requires keyed { IsKeyed key.now target.now.rows target.now.index.now }
    requires written { IsKeyed key.now target.now.written target.now.written_index.now }
    requires rows { IsAscending row_cmp rows.now }
    requires changed { IsAscending row_cmp changed.now }
    ensures { result ≡ written_checked columns.now key.now (rows_after target.now.written target.now.rows)
        (rows_after changed.now rows.now) number id tt }
{
    if is_broken_at(columns, key, target, rows, changed, id) {
        Err(TableFault::Foreign(number))
    } else {
        Ok(())
    }
}

/// Checks that each row that a record wrote refers by these columns to a row of the target, unless it refers to
/// nothing.
pub(crate) fn check_all(
    columns: &[u32],
    key: &[u32],
    target: &CurrentRows,
    rows: &RowsById,
    changed: &RowsById,
    written: &[u64],
) -> Result<(), TableFault>
    requires keyed { IsKeyed key.now target.now.rows target.now.index.now }
    requires written { IsKeyed key.now target.now.written target.now.written_index.now }
    requires rows { IsAscending row_cmp rows.now }
    requires changed { IsAscending row_cmp changed.now }
    ensures { result ≡ foreign_checked columns.now key.now (rows_after target.now.written target.now.rows)
        (rows_after changed.now rows.now) written.now }
{
    for (record_index, id) in written.iter().enumerate() {
        check_written(
            columns,
            key,
            target,
            rows,
            changed,
            record_index as u64 + 1,
            *id,
        )?;
    }
    Ok(())
}

/// Checks the self references of the rows that the records wrote. A self reference is a foreign key to the table
/// itself.
pub(crate) fn check_self_references(
    schema: &Schema,
    current: &CurrentRows,
    written: &[u64],
) -> Result<(), TableFault>
    requires keyed { IsKeyed schema.now.key current.now.rows current.now.index.now }
    requires written { IsKeyed schema.now.key current.now.written current.now.written_index.now }
    ensures { result ≡ self_references_checked schema.now (rows_after current.now.written current.now.rows)
        written.now }
{
    let key = schema.key().as_slice();
    for foreign in schema.foreign().as_slice() {
        check_self_reference(key, current, written, foreign)?;
    }
    Ok(())
}

fn check_self_reference(
    key: &[u32],
    current: &CurrentRows,
    written: &[u64],
    foreign: &Foreign,
) -> Result<(), TableFault>
    requires keyed { IsKeyed key.now current.now.rows current.now.index.now }
    requires written { IsKeyed key.now current.now.written current.now.written_index.now }
    ensures { result ≡ self_reference_checked key.now (rows_after current.now.written current.now.rows)
        written.now 0 foreign.now tt }
{
    if !foreign.resource.is_empty() {
        return Ok(());
    }
    check_all(
        foreign.fields.as_slice(),
        key,
        current,
        &current.rows,
        &current.written,
        written,
    )
}
