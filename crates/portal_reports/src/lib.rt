//! The reports of a portal: what a caller sees of it, as a table of numbers in columns of fixed widths.
#![tactic(auto)]

mod columns;
mod datasets;
pub mod laws;
pub mod report;
mod tables;
