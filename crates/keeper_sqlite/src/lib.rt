//! The keeper of a portal's rows over a SQLite database: one table, and four statements besides those of a transaction.
#![tactic(auto)]

mod faults;
mod form;
mod keeper;
pub mod laws;
mod row_values;
mod statements;
mod transactions;

pub use keeper::SqliteKeeper;
