//! Rows of a table as records (CKAN 2.10, DataStore): JSON dictionaries from the names of columns to the values of
//! cells.
#![tactic(auto)]

mod columns;
mod records;

pub use columns::{Column, columns_of};
pub use records::record_json;
