//! HTTP over a link: one request read off it, one response written to it, a small client for documents, and the
//! locations that are this machine's.
#![tactic(auto)]

pub mod action_target;
pub mod fault;
pub mod fetch;
pub mod fields;
pub mod head;
pub mod incoming;
pub mod laws;
pub mod loopback;
pub mod reading;
pub mod receive;
pub mod reply;
pub mod response;
pub mod write;
