//! Serving one link: its request is received, a call is made of it, some function answers the call, and the reply is
//! written. Nothing here knows a portal. A hall over any machine whose events are a portal's can answer.
#![tactic(auto)]

pub mod asked;
pub mod serve;
pub mod tokens;
pub mod written;
