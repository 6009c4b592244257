//! The answers to calls on organizations, their members and users.
#![tactic(auto)]

pub mod answers;
mod bodies;
mod dictionary;
pub mod laws;
mod lists;
