//! The parts of a query.

use portal_base::json_value::Json;
use portal_base::seq::Seq;
use portal_base::text::Text;

/// The parts of a query, as the caller gives them (CKAN's `datastore_search`).
#[derive(Drop)]
pub struct Parts {
    /// A JSON object: the name of a column, with the value or the list of values of which a row has one there.
    pub filters: Json,
    /// The text whose words a row has in its cells.
    pub q: Text,
    /// Whether the query returns only the first of equal rows.
    pub distinct: bool,
    /// The names of the columns that the query returns. `None` stands for `_id` and all fields.
    pub fields: Option<Seq<Text>>,
    /// The names of columns, separated by commas, each with `asc`, `desc` or nothing after it.
    pub sort: Text,
    /// The limit of rows on the page.
    pub limit: u64,
    /// The count of rows before the page.
    pub offset: u64,
}
