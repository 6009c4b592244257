//! The prepared batch.

use crate::row::Row;
use crate::work::Work;
use std::marker::Model;
use std::sync::Arc;
use table_schema::Schema;

/// A batch that was prepared on a table. It can be committed there while the table is unchanged.
#[derive(Drop)]
pub struct Batch {
    pub(crate) schema: Arc<Schema>,
    pub(crate) work: Work,
}

impl Model for Batch {
    ghost use Rattle.std.specs.Arc.{arc_value};
    ghost use Rattle.datastore_table.specs.Batch.{BatchValue};

    ghost Value = { BatchValue };

    ghost view = { λ b. record { schema = arc_value b.schema; work = b.work } };
}

impl Batch {
    ghost use Rattle.std.specs.Prelude.{◌≡◌};
    ghost use Rattle.portal_base.specs.Ordered.{IsAscending};
    ghost use Rattle.datastore_table.specs.Batch.{AreThoseOf};
    ghost use Rattle.datastore_table.specs.Rows.{row_cmp};

    /// The rows that the batch writes, with their cells after the batch, in ascending order of their `_id`. They are
    /// the rows that its records wrote, and no others.
    pub fn changed(&self) -> &[Row]
        ensures rows { result.now ≡ self.now.work.changed }
        ensures ascending { IsAscending row_cmp result.now }
        ensures those { AreThoseOf self.now.work.written result.now }
    {
        self.work.changed()
    }

    /// The `_id` of the next row after the batch.
    pub fn next_id(&self) -> u64
        ensures { result ≡ self.now.work.next_id }
    {
        self.work.next_id()
    }
}
