//! What a run begins with: the default portal or that of a portal file. The portal of a run, which is opened over the
//! store. And the commands that play a script on it, harvest a source for it, serve links from it or print a report on
//! it.
#![tactic(auto)]

pub mod commands;
pub mod harvest;
pub mod over_store;
pub mod start;
