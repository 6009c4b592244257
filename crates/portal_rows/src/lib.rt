//! The rows of a portal's store: writers of the rows of the version, of organizations with their roles, and of tables
//! with their rows, readers that answer a value exactly if a row is the value's row, and a reader of a whole store.
#![tactic(auto)]

mod body;
pub mod cell_reading;
mod kept_parts;
pub mod kept_tables;
pub mod kept_values;
pub mod key_reading;
pub mod laws;
pub mod org_reading;
pub mod orgs;
pub mod table_reading;
pub mod tables;
pub mod version;
