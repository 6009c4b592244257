//! The answers to calls on datasets and resources, and whether a stored dataset may exist.
#![tactic(auto)]

pub mod answers;
mod bodies;
pub mod change;
pub mod dictionary;
pub mod laws;
mod lists;
mod lookup;
pub mod sound;
