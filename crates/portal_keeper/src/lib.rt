//! The store of a portal: rows by kind and key, lists of changes of them, and the device that keeps them.
#![tactic(auto)]

pub mod change;
pub mod keeper;
pub mod laws;
pub mod memory;
pub mod row;
mod slots;
