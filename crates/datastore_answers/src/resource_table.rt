//! The table of a resource.
use crate::address::Address;
use datastore_table::Table;
use portal_base::seq::Seq;

/// The table of a resource.
#[derive(Drop)]
pub struct ResourceTable {
    pub address: Address,
    /// The numbers of the resources of the same dataset that the table's foreign keys reference, in the schema's
    /// order. A reference of the table to itself has its own number.
    pub targets: Seq<u32>,
    pub table: Table,
}
