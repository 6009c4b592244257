//! How a run of the program ends: its status, the line that reports it, and the fetch of a file, which a status can
//! end.
#![tactic(auto)]

pub mod fetch;
pub mod status;
