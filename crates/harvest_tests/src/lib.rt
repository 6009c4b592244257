//! Tests of rounds of harvests over stores that fail, and of the round after them.
#![tactic(auto)]

#[cfg(test)]
mod memory;
#[cfg(test)]
mod rounds;
