//! What a harvest of a source's catalogue leaves of the source's datasets, and what its steps do to them.
#![tactic(auto)]

mod dataset;
mod effects;
mod equality;
pub mod history_laws;
pub mod laws;

pub use dataset::harvested_dataset;
pub use effects::{dataset_read, effect_over, names_gone, names_of_source};
pub use equality::equal_datasets;
