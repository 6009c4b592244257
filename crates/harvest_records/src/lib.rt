//! What a catalogue says of a dataset that is harvested, and the name that the dataset gets.
#![tactic(auto)]

mod names;
mod record;

pub use names::name_of;
pub use record::{Distribution, HarvestRecord};
