//! Tests of a hall over the portal itself, with a keeper in memory. They are a crate of their own, so that portal_core and
//! portal_hall are proved once.
#![tactic(auto)]

mod acts;
mod calls;
mod crew;
mod crowd;
mod pair;
#[cfg(test)]
mod turns;
