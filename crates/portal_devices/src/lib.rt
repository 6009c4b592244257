//! The real devices of a run: the host's files, connections over TCP, the host's clock, random numbers, and the command
//! line and environment.
#![tactic(auto)]

pub mod clock;
pub mod environment;
pub mod files;
pub mod net;
pub mod nonces;
#[cfg(test)]
mod tests;
