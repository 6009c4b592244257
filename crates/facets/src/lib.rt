//! The facets of a search (CKAN's package_search): for a field, its values among datasets, each with the count of datasets
//! that have it. Counters keep the facts that facets read, so that no dataset has to be read for them.
#![tactic(auto)]

mod class_set;
pub mod counters;
pub mod facets;
pub mod facts;
pub mod field;
pub mod items;
pub mod laws;
pub mod request;
pub mod search;
mod tally;
mod values;
