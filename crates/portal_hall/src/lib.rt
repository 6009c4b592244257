//! One turn at a time over any machine, and one history of the events that it accepted.
#![tactic(auto)]

pub mod acted;
mod board;
mod gates;
pub mod hall;
mod held_machine;
pub mod machine;
mod parts;
pub mod pass;
mod turn;
