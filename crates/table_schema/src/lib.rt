//! Table Schema v1: descriptors of tables, and typed cells.
#![tactic(auto)]

mod allowed;
mod cell;
mod column;
mod constraint;
mod fault;
mod field;
mod foreign;
mod form;
mod index;
mod keys;
pub mod laws;
mod listed;
mod members;
mod options;
mod print;
mod reading;
mod schema;
mod stamp;
mod to_json;
mod truth;
mod values;

pub use allowed::AllowedCells;
pub use cell::{Cell, CellError, CellFault};
pub use constraint::Constraints;
pub use fault::SchemaFault;
pub use field::Field;
pub use foreign::Foreign;
pub use form::{Form, Kind, Truths};
pub use lexical_forms::NumberForm;
pub use listed::ListedTexts;
pub use print::{cell_json, cell_text};
pub use reading::value_of;
pub use schema::Schema;
pub use to_json::kind_name;
