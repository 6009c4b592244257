//! The base of every layer of the portal: texts, lists, names, moments, JSON, and traits for the outside devices.
#![tactic(auto)]

pub mod calendar;
pub mod caller;
pub mod characters;
pub mod copy;
pub mod counted;
pub mod dictionary;
pub mod json_value;
pub mod key_errors;
pub mod kind_laws;
pub mod kinds;
pub mod lent;
pub mod memory;
pub mod moment;
pub mod name;
pub mod nonce;
pub mod ordered;
pub mod ordered_laws;
pub mod outside;
pub mod seq;
pub mod split;
pub mod std_adapters;
pub mod steps;
pub mod tag;
pub mod text;
pub mod tokens;
pub mod value_laws;
