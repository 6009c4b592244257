//! DCAT 3: what a graph's catalogues list, and a record for each dataset, as functions of the set of its triples.
#![tactic(auto)]

mod distributions;
mod graph;
mod instants;
pub mod laws;
mod listing;
mod picks;
mod record;
mod sets;
mod shared;
mod subject;
mod tags;
mod terms;
mod vocabulary;

pub use graph::{Graph, described};
pub use harvest_records::{Distribution, HarvestRecord, name_of};
pub use listing::{ListFault, Listing, listed, listed_in};
pub use record::{RecordFault, describe, describe_in};
