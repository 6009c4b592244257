//! Finds rows by the index.
ghost use Rattle.std.specs.Prelude.{◌≡◌, ℕ, false, map, option_copied, find, IfSome, IfNone, IsTrue};
ghost use Rattle.digest_index.specs.Index.{first_under, IsUnder};
ghost use Rattle.portal_base.specs.Ordered.{IsAscending};
ghost use Rattle.datastore_table.specs.Cells.{has_null};
ghost use Rattle.datastore_table.specs.Index.{digest_of, has_cells_at, lookup_cells, IsAlone, IsIndexedAt};
ghost use Rattle.datastore_table.specs.Rows.{has_cells, row_cmp};

use crate::lookup_key::LookupKey;
use crate::row::Row;
use crate::rows_by_id::RowsById;
use digest_index::{DigestIndex, Further};

/// Finds the row that has the look-up key's cells in these columns, which the index covers. At most one row has them,
/// and none of the cells is Null.
pub(crate) fn find_by_index<'a>(
    rows: &RowsById<'a>,
    index: &DigestIndex<u64>,
    columns: &[u32],
    lookup_key: LookupKey,
) -> Option<&'a Row>
    requires ascending { IsAscending row_cmp rows.now }
    requires full { has_null (lookup_cells lookup_key) ≡ false }
    requires alone { IsAlone columns.now (lookup_cells lookup_key) rows.now }
    requires indexed { IsIndexedAt columns.now rows.now index.now }
    ensures { option_copied result ≡ find (has_cells columns.now (lookup_cells lookup_key.entry)) rows.now }
{
    match find_id(rows, index, columns, lookup_key) {
        Some(id) => rows.row_at(id),
        None => None,
    }
}

// Finds the `_id` of a row that has the look-up key's cells.
fn find_id(
    rows: &RowsById,
    index: &DigestIndex<u64>,
    columns: &[u32],
    lookup_key: LookupKey,
) -> Option<u64>
    requires { IsAscending row_cmp rows.now }
    ensures found { IfSome result (λ id.
        IsTrue (has_cells_at columns.now (lookup_cells lookup_key.entry) rows.now id)) }
    ensures none { IfNone result ((id : ℕ) →
        IsUnder index.now (digest_of columns.now (lookup_cells lookup_key.entry)) id →
        has_cells_at columns.now (lookup_cells lookup_key.entry) rows.now id ≡ false) }
{
    let digest = lookup_key.digest(columns);
    match find_first(rows, index.first(digest), columns, lookup_key) {
        Some(id) => Some(id),
        None => find_further(rows, index.further(digest), columns, lookup_key),
    }
}

// The `_id`, if its row has the look-up key's cells.
fn find_first(
    rows: &RowsById,
    id: Option<u64>,
    columns: &[u32],
    lookup_key: LookupKey,
) -> Option<u64>
    requires { IsAscending row_cmp rows.now }
    ensures found { IfSome result (λ id.
        IsTrue (has_cells_at columns.now (lookup_cells lookup_key.entry) rows.now id)) }
    ensures none { IfNone result ((i : ℕ) → id ≡ Some i →
        has_cells_at columns.now (lookup_cells lookup_key.entry) rows.now i ≡ false) }
{
    match id {
        Some(id) if has_cells_at(rows, columns, lookup_key, id) => Some(id),
        _ => None,
    }
}

// The first of the further `_id`s whose row has the look-up key's cells.
fn find_further(
    rows: &RowsById,
    further: &[Further<u64>],
    columns: &[u32],
    lookup_key: LookupKey,
) -> Option<u64>
    requires { IsAscending row_cmp rows.now }
    ensures { result ≡ find (has_cells_at columns.now (lookup_cells lookup_key.entry) rows.now)
        (map (λ e. e.number) further.now) }
{
    further
        .iter()
        .map(|entry| entry.number)
        .find(|id| has_cells_at(rows, columns, lookup_key, *id))
}

// Whether the row with this `_id` has the look-up key's cells.
fn has_cells_at(rows: &RowsById, columns: &[u32], lookup_key: LookupKey, id: u64) -> bool
    requires { IsAscending row_cmp rows.now }
    ensures { result ≡ has_cells_at columns.now (lookup_cells lookup_key.entry) rows.now id }
{
    match rows.row_at(id) {
        Some(row) => lookup_key.are_at(columns, row.cells.as_slice()),
        None => false,
    }
}
