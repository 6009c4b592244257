//! Users, organizations and the roles that users have in organizations, and what each role may do.
#![tactic(auto)]

pub mod change;
pub mod entry;
mod key;
pub mod laws;
mod order;
pub mod people;
pub mod role;
