//! Tables of typed rows. A table takes a batch of records as a whole or not at all, and keeps its primary key, its
//! unique fields and its foreign keys valid.
#![tactic(auto)]

mod admission;
mod batch;
mod cells;
mod checks;
mod draft;
mod fault;
mod ids;
mod key_set;
mod keys;
pub mod laws;
mod lookup;
mod lookup_key;
mod meets;
mod method;
mod reading;
mod references;
mod removal;
mod row;
mod rows;
mod rows_by_id;
mod store;
mod table;
mod validation;
mod work;
mod written_rows;

pub use batch::Batch;
pub use checks::{check_foreign, check_referred, keeps_references};
pub use fault::TableFault;
pub use method::Method;
pub use removal::Removal;
pub use row::Row;
pub use table::Table;
