//! What a harvest reads of the documents that it fetches: a catalogue's, and those of datasets that this
//! lists.
#![tactic(auto)]

mod catalogue;
mod document;
mod fetch;
pub mod laws;
mod object;

pub use catalogue::{Catalogue, read_catalogue};
pub use document::MAX_DOCUMENT;
pub use fetch::{fetch_catalogue, fetch_object};
pub use object::read_object;
