//! The texts of the Action API: it reads bodies as requests, and renders replies as JSON with a status.
#![tactic(auto)]

pub mod early;
mod errors;
mod help;
pub mod query;
pub mod reply;
pub mod request;
