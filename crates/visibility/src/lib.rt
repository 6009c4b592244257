//! Who sees a dataset, who may edit it, and the class of a dataset.
#![tactic(auto)]

pub mod class;
pub mod context;
pub mod laws;
pub mod lookup;
pub mod permissions;
mod predicates;
pub mod public_counts;
pub mod table_lookup;
pub mod viewer;
