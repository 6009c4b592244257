//! The load of a CSV into a table, played as calls of the portal, one after another.
#![tactic(auto)]

pub mod load;
pub mod schema_file;
pub mod stop;
