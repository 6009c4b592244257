//! The datasets of the catalogue, how they are built from the bodies of calls, and the shelf that holds them.
#![tactic(auto)]

pub mod build;
mod digest;
pub mod errors;
pub mod laws;
pub mod named;
mod order;
pub mod owners;
pub mod package;
mod resource_list;
pub mod resources;
pub mod shelf;
pub mod tags;
pub mod texts;
pub mod walk;
