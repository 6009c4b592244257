//! Events of a portal and the replies to them, as data: calls, and steps of harvests.
#![tactic(auto)]

mod event;

pub use event::{Event, Refusal, Reply, refusal_of};
