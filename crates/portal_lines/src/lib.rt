//! Reading lines from a source of bytes, and writing whole pieces to a sink.
#![tactic(auto)]

pub mod lines;
pub mod write;
