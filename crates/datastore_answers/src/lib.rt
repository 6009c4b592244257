//! The answers to calls on the DataStore's tables.
#![tactic(auto)]

pub mod address;
pub mod answer;
pub mod answers;
mod batches;
mod creation;
mod deletions;
mod described;
pub mod dictionary;
mod errors;
pub mod laws;
pub mod lookup;
pub mod plan;
mod resolution;
pub mod resource_table;
mod restored;
mod table_index;
mod table_lookup;
pub mod tables;
