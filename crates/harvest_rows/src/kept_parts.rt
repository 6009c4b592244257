//! The rows of a store in order, and their parts by kind.
ghost use Rattle.std.specs.Prelude.{◌≡◌, ◌++◌, ◌↔◌, ◌<◌, ◌≤◌, All, IsTrue};
ghost use Rattle.portal_keeper.specs.Rows.{AreInOrder, kind_number};

use portal_base::ordered::Ordered;
use portal_keeper::row::{KeptRow, RowKind};

/// Whether the rows are in the order of a store, so that no two of them have the same kind and key.
pub(crate) fn are_in_order(rows: &[KeptRow]) -> bool
    ensures { IsTrue result ↔ AreInOrder rows.now }
{
    rows.is_sorted_by(|row, next| row.compare(next).is_lt())
}

/// The rows up to those of a kind, and the rows of later kinds, by a binary search.
pub(crate) fn split_after<'a>(rows: &'a [KeptRow], kind: RowKind) -> (&'a [KeptRow], &'a [KeptRow])
    requires { AreInOrder rows.now }
    ensures whole { result.0.now ++ result.1.now ≡ rows.now }
    ensures front { All (λ row. kind_number row.kind ≤ kind_number kind) result.0.now }
    ensures back { All (λ row. kind_number kind < kind_number row.kind) result.1.now }
{
    let last = kind.number();
    let index = rows.partition_point(|row| row.kind.number() <= last);
    rows.split_at(index)
}
