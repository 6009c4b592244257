//! Rows that are found by their `_id`: those of a table, or those that a batch has written.
ghost use Rattle.std.specs.Prelude.{◌≡◌, [], option_copied};
ghost use Rattle.portal_base.specs.Ordered.{IsAscending};
ghost use Rattle.datastore_table.specs.Rows.{row_at, row_cmp};

use crate::row::Row;
use crate::rows::row_at;
use crate::written_rows::WrittenRows;
use std::marker::Model;

/// Where the rows are.
#[derive(Drop)]
enum RowList<'a> {
    /// In a slice, in ascending order of their `_id`.
    Slice(&'a [Row]),
    /// Among the rows that a batch has written.
    Written(&'a WrittenRows),
}

/// Rows in ascending order of their `_id`, by which they are found. Contracts see the list of the rows.
#[derive(Drop)]
pub(crate) struct RowsById<'a> {
    list: RowList<'a>,
}

impl<'a> Model for RowsById<'a> {
    ghost use Rattle.std.specs.Prelude.{List};
    ghost use Rattle.datastore_table.specs.declared.row.Row.{Row};
    ghost use Rattle.datastore_table.specs.RowsById.{listed};

    ghost Value = { List Row };

    ghost view = { λ rows. listed rows.list };
}

impl<'a> RowsById<'a> {
    /// No rows.
    pub fn none() -> RowsById<'a>
        ensures { result ≡ [] }
    {
        RowsById::of_slice(&[])
    }

    /// The rows of a slice.
    pub fn of_slice(rows: &'a [Row]) -> RowsById<'a>
        ensures { result ≡ rows.now }
    {
        RowsById {
            list: RowList::Slice(rows),
        }
    }

    /// The rows that a batch has written.
    pub fn of_written(rows: &'a WrittenRows) -> RowsById<'a>
        ensures { result ≡ rows.now }
    {
        RowsById {
            list: RowList::Written(rows),
        }
    }

    /// Finds the row with this `_id`.
    pub fn row_at(&self, id: u64) -> Option<&'a Row>
        requires { IsAscending row_cmp self.now }
        ensures { option_copied result ≡ row_at id self.now }
    {
        match self.list {
            RowList::Slice(rows) => row_at(rows, id),
            RowList::Written(rows) => rows.get(id),
        }
    }
}
