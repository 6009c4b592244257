//! Rounds of harvests: the steps that a round makes on a machine, what its worker fetches and reads between them, and its
//! report.
#![tactic(auto)]

mod catalogues;
mod ends;
pub mod laws;
mod making;
mod objects;
mod report;
mod rounds;

pub use report::{RoundFault, RoundReport};
pub use rounds::round;
