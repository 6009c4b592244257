//! The rows that a batch has written, in the order of their `_id`.
ghost use Rattle.std.specs.Prelude.{◌≡◌, [], option_copied, IfOk, OnOk};
ghost use Rattle.portal_base.specs.Ordered.{upserted};
ghost use Rattle.datastore_table.specs.Rows.{row_at, row_cmp};

use crate::row::Row;
use std::alloc::{AllocError, Global};
use std::collections::BTreeMap;
use std::marker::Model;

/// The rows that a batch has written. Contracts see the list of them in ascending order of their `_id`. To find or to
/// write one takes a number of steps in proportion to the logarithm of their count, whatever order they come in.
#[derive(Drop)]
pub(crate) struct WrittenRows {
    by_id: BTreeMap<u64, Row>,
}

impl Model for WrittenRows {
    ghost use Rattle.std.specs.Prelude.{List};
    ghost use Rattle.std.specs.BTreeMap.{values};
    ghost use Rattle.datastore_table.specs.declared.row.Row.{Row};
    ghost use Rattle.datastore_table.specs.WrittenRows.{AreById};

    ghost Value = { List Row };

    ghost view = { λ rows. values rows.by_id };

    ghost invariant = { λ rows. AreById rows.by_id.entries };
}

impl WrittenRows {
    /// No rows.
    pub fn new(alloc: Global) -> WrittenRows
        ensures { result ≡ [] }
    {
        WrittenRows {
            by_id: BTreeMap::new(alloc),
        }
    }

    /// Finds the row with this `_id`.
    pub fn get(&self, id: u64) -> Option<&Row>
        ensures { option_copied result ≡ row_at id self.now }
    {
        self.by_id.get(&id)
    }

    /// Writes a row: it replaces the row with its `_id` or is a new row.
    pub fn put(&mut self, row: Row) -> Result<(), AllocError>
        ensures { OnOk result (self.new ≡ upserted row_cmp row self.old) }
    {
        self.by_id.insert(row.id, row)?;
        Ok(())
    }

    /// The rows in a vector.
    pub fn into_vec(self, alloc: Global) -> Result<Vec<Row>, AllocError>
        ensures { IfOk result (λ rows. rows.items ≡ self) }
    {
        self.by_id.into_values().collect(alloc)
    }
}
