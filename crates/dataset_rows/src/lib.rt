//! The rows of datasets in a store: the body of a dataset's row, and the dataset that a row is of.
#![tactic(auto)]

mod keys;
pub mod laws;
mod read;
pub mod row;
mod write;
