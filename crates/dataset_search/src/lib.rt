//! The search of datasets (CKAN's package_search): what a body asks for, what a caller finds, and a page of it.
#![tactic(auto)]

pub mod find;
pub mod laws;
pub mod lent_dataset;
mod order;
pub mod page;
pub mod search;
pub mod sort;
