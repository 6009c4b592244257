//! Posts on a hall: passes that were split off one pass, each with the work that a thread does by it.
#![tactic(auto)]

pub mod laws;
pub mod posts;
