//! Rows that are borrowed from a table.
ghost use Rattle.std.specs.Prelude.{◌≡◌};

use datastore_table::Row;
use std::marker::Model;

/// A borrowed row. Contracts see it as the row.
#[derive(Drop)]
pub struct LentRow<'a> {
    row: &'a Row,
}

impl<'a> Model for LentRow<'a> {
    ghost use Rattle.datastore_table.specs.declared.row.Row.{Row};

    ghost Value = { Row };

    ghost view = { λ lent. lent.row.now };
}

impl<'a> LentRow<'a> {
    pub(crate) fn of(row: &'a Row) -> LentRow<'a>
        ensures { result ≡ row.now }
    {
        LentRow { row }
    }

    pub(crate) fn row(&self) -> &'a Row
        ensures { result.now ≡ self.now }
    {
        self.row
    }
}
