//! The portal: how it decides a call on the view that its caller has of the state, the step that an event makes, and the laws
//! of both.
#![tactic(auto)]

pub mod decide;
pub mod event;
pub mod harvest_laws;
pub mod laws;
pub mod machine;
mod opened;
mod page;
pub mod portal;
mod queries;
mod restored;
mod restored_datasets;
mod restored_harvested;
mod restored_homes;
mod restored_people;
mod restored_sources;
mod restored_tables;
pub mod row_laws;
pub mod search;
