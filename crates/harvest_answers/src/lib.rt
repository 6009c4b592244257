//! The answers to calls on sources of harvests and their jobs.
#![tactic(auto)]

pub mod answers;
mod bodies;
mod dictionary;
pub mod laws;
mod lookup;
mod rights;
