//! RDF 1.1 N-Triples, read and written exactly by the grammar.
#![tactic(auto)]

mod borrowed;
mod characters;
mod document;
mod fault;
pub mod laws;
mod names;
mod quoted;
mod term;
mod terms;
mod text;
mod writing;

pub use borrowed::Borrowed;
pub use document::read;
pub use fault::NtFault;
pub use term::{Term, Triple};
pub use writing::write;
