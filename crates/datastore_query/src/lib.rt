//! Queries of tables (CKAN's `datastore_search`): which rows pass a query's filters and words, and a page of these rows
//! in the query's order.
#![tactic(auto)]

mod ascii_words;
mod column;
mod distinct;
mod fault;
mod field_names;
mod filter;
pub mod laws;
mod lent_row;
mod order;
mod ordered_filter;
mod page;
mod parts;
mod query;
mod rows;
mod sort;
mod sort_text;
mod words;

pub use fault::QueryFault;
pub use field_names::FieldNames;
pub use lent_row::LentRow;
pub use page::{LentPage, Page};
pub use parts::Parts;
pub use query::Query;
