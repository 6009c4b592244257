//! Rows of CSV as the inserts that load them into a table: each is the body of a call with a piece of the rows.
#![tactic(auto)]

mod inserts;
pub mod laws;
mod piece;
mod records;

pub use inserts::Inserts;
pub use piece::Insert;
