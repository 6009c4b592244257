//! Calls of a portal and the answers to them, as data: actions, calls, answers, stops.
#![tactic(auto)]

pub mod action;
pub mod answer;
pub mod body_values;
pub mod call;
pub mod stop;
pub mod topic;
