//! Tests of portal_hall, of posts and of links that a pass serves, which need threads or a machine of their own. They are a crate
//! of their own, so that what they test is proved once.
#![tactic(auto)]

mod crowd;
mod echo;
#[cfg(test)]
mod links;
mod posts;
mod shelf;
#[cfg(test)]
mod turns;
