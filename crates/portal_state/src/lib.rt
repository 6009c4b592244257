//! The portal's state: its parts, the changes that are made on them, and the rows of the store that they stand for.
#![tactic(auto)]

pub mod act_fault;
pub mod change;
mod harvest;
pub mod indexes;
pub mod opening;
pub mod parts;
pub mod quota;
mod row_changes;
pub mod search_body;
