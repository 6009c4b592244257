//! The result of a query.

use crate::lent_row::LentRow;
use portal_base::seq::Seq;
use portal_base::text::Text;
use table_schema::Cell;

/// A page of rows.
#[derive(Drop)]
pub struct Page {
    /// The names of its columns, in the order of the query.
    pub columns: Seq<Text>,
    /// Its rows, each with one cell for each column.
    pub rows: Seq<Seq<Cell>>,
    /// The count of rows on all pages.
    pub total: u64,
}

/// The rows of a page, which are the table's own: nothing of them is copied.
#[derive(Drop)]
pub struct LentPage<'a> {
    pub rows: Vec<LentRow<'a>>,
    /// The count of rows on all pages.
    pub total: u64,
}
