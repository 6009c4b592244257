//! The row of a table.
ghost use Rattle.std.specs.Prelude.{◌≡◌, IfOk};
ghost use Rattle.datastore_table.specs.Meets.{rows_of};

use portal_base::ordered::Ordered;
use portal_base::seq::Seq;
use std::alloc::{AllocError, Global};
use std::cmp::Ordering;
use table_schema::Cell;

/// A row of a table: its `_id`, and its cells in the schema's order.
#[derive(Drop)]
pub struct Row {
    pub id: u64,
    pub cells: Seq<Cell>,
}

/// Makes rows of pairs of an `_id` and cells.
pub(crate) fn rows_of(alloc: Global, pairs: Seq<(u64, Seq<Cell>)>) -> Result<Vec<Row>, AllocError>
    ensures { IfOk result (λ rows. rows.items ≡ rows_of pairs) }
{
    let mut rows = Vec::with_capacity(alloc, pairs.len())?;
    for pair in pairs.into_vec() {
        let (id, cells) = pair;
        rows.push(Row { id, cells })?;
    }
    Ok(rows)
}

impl Ordered for Row {
    ghost use Rattle.datastore_table.specs.Rows.{row_cmp, row_cmp_total};

    ghost order = { row_cmp };

    ghost total = { row_cmp_total };

    /// Compares by `_id`.
    fn compare(&self, other: &Row) -> Ordering {
        self.id.cmp(&other.id)
    }
}
