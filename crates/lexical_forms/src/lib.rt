//! Parses and prints the texts of numbers (Table Schema v1, "integer" and "number"), and validates field names.
#![tactic(auto)]

mod field_name;
mod form;
pub mod laws;
mod number;
mod print;
mod separator;
mod split;

pub use field_name::is_field_name;
pub use form::NumberForm;
pub use number::{parse_integer, parse_number};
pub use print::{number_text, push_digit};
pub use separator::separator_of;
