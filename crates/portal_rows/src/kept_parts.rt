//! The rows of a store in order, and their parts by kind.
ghost use Rattle.std.specs.Prelude.{◌≡◌, ◌++◌, ◌↔◌, ◌<◌, ◌≤◌, [], ◌∷◌, All, IsTrue};
ghost use Rattle.portal_keeper.specs.Rows.{AreInOrder, kind_number};
ghost use Rattle.portal_rows.specs.VersionRow.{version_row};

use portal_base::ordered::Ordered;
use portal_keeper::row::{KeptRow, RowKind};

/// Whether the rows are in the order of a store, so that no two of them have the same kind and key.
pub(crate) fn are_in_order(rows: &[KeptRow]) -> bool
    ensures { IsTrue result ↔ AreInOrder rows.now }
{
    rows.is_sorted_by(|row, next| row.compare(next).is_lt())
}

/// The rows up to those of a kind, and the rows of later kinds, by a binary search.
pub(crate) fn split_after<'a>(rows: &'a [KeptRow], kind: RowKind) -> (&'a [KeptRow], &'a [KeptRow])
    requires { AreInOrder rows.now }
    ensures whole { result.0.now ++ result.1.now ≡ rows.now }
    ensures front { All (λ row. kind_number row.kind ≤ kind_number kind) result.0.now }
    ensures back { All (λ row. kind_number kind < kind_number row.kind) result.1.now }
{
    let last = kind.number();
    let index = rows.partition_point(|row| row.kind.number() <= last);
    rows.split_at(index)
}

/// Whether these rows are the row of the version alone.
pub(crate) fn are_version(rows: &[KeptRow]) -> bool
    ensures { IsTrue result ↔ (rows.now ≡ version_row ∷ []) }
{
    rows.len() == 1 && is_version(&rows[0])
}

fn is_version(row: &KeptRow) -> bool
    ensures { IsTrue result ↔ (row.now ≡ version_row) }
{
    match row.kind {
        RowKind::Version => row.key.as_str() == "portal" && row.body.as_str() == "1",
        _ => false,
    }
}
