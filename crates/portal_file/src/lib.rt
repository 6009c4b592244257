//! The portal file: the users of a portal with their tokens, and its organizations with their roles, in TOML.
#![tactic(auto)]

mod entries;
mod file;
mod orgs;
mod rule;
mod rules;
mod tables;
mod text_set;
mod users;

pub use entries::{NamedRole, Orgs, Users};
pub use file::PortalFile;
pub use rule::{FileFault, FileRule};
