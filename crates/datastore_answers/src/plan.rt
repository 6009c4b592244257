//! Accepted changes of the tables of resources, each with what was prepared for it.
use crate::address::Address;
use crate::resource_table::ResourceTable;
use datastore_table::{Batch, Method, Removal};
use portal_base::json_value::Json;
use portal_base::seq::Seq;
use std::snapshot::Snapshot;

/// A change of the tables of resources. The change is data; a prepared batch or removal comes with it.
#[derive(Drop)]
pub enum TablePlan {
    /// Replaces the table at its address, or adds it.
    Create(ResourceTable),
    /// Deletes the table at the address.
    Remove(Address),
    /// Puts the records into the table at the address, by this batch. Contracts alone see the records.
    Put(Address, Method, Snapshot<Seq<Json>>, Batch),
    /// Deletes rows from the table at the address.
    DeleteRows(Address, Removal),
}
