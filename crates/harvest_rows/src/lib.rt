//! The rows of harvest sources and of their jobs in a store: writers, readers that answer a value exactly if a row is
//! the value's row, and a reader of all these rows.
#![tactic(auto)]

mod body;
mod cause_reading;
pub mod job_reading;
pub mod jobs;
pub mod kept_harvests;
mod kept_parts;
mod keys;
pub mod laws;
mod numbers;
mod report_reading;
pub mod source_reading;
pub mod sources;
