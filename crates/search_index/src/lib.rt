//! The search of datasets: the language of queries, the terms by which datasets are found, and an index of them.
#![tactic(auto)]

mod cut;
pub mod demands;
pub mod field;
pub mod index;
pub mod item;
pub mod laws;
pub mod query;
mod reading;
mod term_set;
mod terms;
