//! Typed rows from CSV (RFC 4180), by a schema of Table Schema v1.
#![tactic(auto)]

mod chunk;
mod fault;
mod header;
pub mod laws;
mod loader;
mod pieces;
mod record_reader;
mod row;
mod row_reader;
mod scan;

pub use fault::LoadFault;
pub use loader::Loader;
