//! The store of the program: a keeper of rows in a file or in memory, how it is opened, and the variable of the
//! environment that names the file.
#![tactic(auto)]

pub mod fault;
pub mod location;
pub mod opening;
pub mod run_store;
pub mod store;
