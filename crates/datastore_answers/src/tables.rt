//! The tables of resources as one value, with look-ups by dataset and number, and changes that don't allocate.
ghost use Rattle.std.specs.Prelude.{◌≡◌, ◌<◌, [], map, IsTrue, OnOk, option_map, option_copied, vec_len, vec_capacity};
ghost use Rattle.portal_base.specs.Ordered.{IsAscending, dropped, found, upserted};
ghost use Rattle.datastore_answers.specs.Changed.{changed_tables, without_rows, put_into, with_table_at};
ghost use Rattle.datastore_answers.specs.Linked.{AreLinked};
ghost use Rattle.datastore_answers.specs.Order.{at_address, table_cmp};
ghost use Rattle.datastore_answers.specs.Plan.{IsRemovalReady, IsPutReady, IsReadyPlan, change_of};
ghost use Rattle.datastore_answers.specs.Tables.{without_room, table_at, tables_in, tables_kept, tables_of};

use crate::address::Address;
use crate::plan::TablePlan;
use crate::resource_table::ResourceTable;
use crate::table_index::{find_index, find_range, find_table, tables_in};
use crate::table_lookup::is_among;
use datastore_table::{Batch, Method, Removal};
use packages::package::Resource;
use portal_base::json_value::Json;
use portal_base::ordered::{drop_at, replace_or_put, reserve};
use portal_base::seq::Seq;
use portal_base::text::Text;
use std::alloc::{AllocError, Global};
use std::marker::Model;
use std::snapshot::Snapshot;

/// The tables of resources. They ascend by dataset and number, and each row finds the row that it references in
/// another table. A contract sees the list of the tables, and whether there is room for one more without allocation.
#[derive(Drop)]
pub struct Tables {
    pub(crate) tables: Vec<ResourceTable>,
}

impl Model for Tables {
    ghost use Rattle.std.specs.Prelude.{map, nat_lt, vec_len, vec_capacity};
    ghost use Rattle.portal_base.specs.Ordered.{IsAscending};
    ghost use Rattle.datastore_answers.specs.Linked.{AreLinked};
    ghost use Rattle.datastore_answers.specs.Order.{table_cmp};
    ghost use Rattle.datastore_answers.specs.Tables.{Stored, without_room};

    ghost Value = { Stored };

    ghost view = { λ s. record {
      tables = s.tables.items;
      room = nat_lt (vec_len s.tables) (vec_capacity s.tables);
    } };

    ghost invariant = { λ s.
        IsAscending table_cmp s.tables.items × AreLinked (map without_room s.tables.items) };
}

impl Tables {
    /// No tables. It doesn't allocate.
    pub fn new(alloc: Global) -> Tables
        ensures { result.tables ≡ [] }
    {
        Tables {
            tables: Vec::new(alloc),
        }
    }

    /// The table of the dataset's resource with this number.
    pub fn get(&self, dataset: &Text, number: u32) -> Option<&ResourceTable>
        ensures table { option_map without_room (option_copied result)
            ≡ table_at number (tables_in dataset.now (tables_of self.now)) }
        ensures found { option_copied result
            ≡ found (at_address (record { dataset = dataset.now; number = number })) self.now.tables }
    {
        find_table(self.tables.as_slice(), dataset, number)
    }

    /// The tables of the dataset with this id, in the order of their numbers.
    pub fn of_dataset(&self, dataset: &Text) -> &[ResourceTable]
        ensures { result.now ≡ tables_in dataset.now self.now.tables }
    {
        tables_in(self.tables.as_slice(), dataset)
    }

    /// Makes room for one more table.
    pub fn reserve(&mut self) -> Result<(), AllocError>
        ensures room { OnOk result (IsTrue self.new.room) }
        ensures same { self.new.tables ≡ self.old.tables }
    {
        reserve(&mut self.tables)
    }

    /// Makes a change that is ready: nothing has changed since it was planned, and there is room for one more table.
    /// The references hold afterwards. It doesn't allocate and can't fail.
    pub fn commit(&mut self, plan: TablePlan)
        requires ready { IsReadyPlan plan self.old }
        requires linked { AreLinked (changed_tables (change_of plan) (tables_of self.old)) }
        ensures { tables_of self.new ≡ changed_tables (change_of plan) (tables_of self.old) }
    {
        match plan {
            TablePlan::Create(table) => set(&mut self.tables, table),
            TablePlan::Remove(address) => remove(&mut self.tables, &address),
            TablePlan::Put(address, method, records, batch) => {
                put(&mut self.tables, &address, method, &records, batch)
            }
            TablePlan::DeleteRows(address, removal) => {
                delete_rows(&mut self.tables, &address, removal)
            }
        }
    }

    /// Keeps, of the dataset's tables, only those of these resources. The references hold afterwards. It doesn't
    /// allocate.
    pub fn keep(&mut self, dataset: &Text, resources: &[Resource])
        requires linked { AreLinked (tables_kept dataset.now resources.now (tables_of self.old)) }
        ensures { tables_of self.new ≡ tables_kept dataset.now resources.now (tables_of self.old) }
    {
        let (from, to) = find_range(self.tables.as_slice(), dataset);
        for at in (from..to).rev() {
            if !is_among(resources, self.tables[at].address.number) {
                self.tables.remove(at);
            }
        }
    }
}

// ---- changes of tables in order, whose references aren't asked for

// Replaces the table at its address, or adds it.
#[tactic(auto, using(crate::proofs::TableLemmas::placed_without_room))]
fn set(tables: &mut Vec<ResourceTable>, table: ResourceTable)
    requires ascending { IsAscending table_cmp tables.old.items }
    requires room { vec_len tables.old < vec_capacity tables.old }
    ensures ascending { IsAscending table_cmp tables.new.items }
    ensures tables { map without_room tables.new.items
        ≡ upserted table_cmp (without_room table) (map without_room tables.old.items) }
{
    replace_or_put(tables, table);
}

// Deletes the table at the address.
#[tactic(auto, using(crate::proofs::TableLemmas::dropped_without_room))]
fn remove(tables: &mut Vec<ResourceTable>, address: &Address)
    requires ascending { IsAscending table_cmp tables.old.items }
    ensures ascending { IsAscending table_cmp tables.new.items }
    ensures tables { map without_room tables.new.items
        ≡ dropped (at_address address.now) (map without_room tables.old.items) }
{
    drop_at(tables, address);
}

// Commits a batch of these records in the table at the address.
fn put(
    tables: &mut Vec<ResourceTable>,
    address: &Address,
    _method: Method,
    _records: &Snapshot<Seq<Json>>,
    batch: Batch,
)
    requires ascending { IsAscending table_cmp tables.old.items }
    requires ready { IsPutReady address.now _method _records.now.value batch tables.old.items }
    ensures ascending { IsAscending table_cmp tables.new.items }
    ensures tables { map without_room tables.new.items
        ≡ with_table_at address.now (put_into _method _records.now.value) (map without_room tables.old.items) }
{
    match find_index(tables.as_slice(), &address.dataset, address.number) {
        Some(index) => {
            let table = &mut tables[index];
            table.table.commit(batch);
        }
        None => unreachable!(),
    }
}

// Commits a deletion of rows from the table at the address.
fn delete_rows(tables: &mut Vec<ResourceTable>, address: &Address, removal: Removal)
    requires ascending { IsAscending table_cmp tables.old.items }
    requires ready { IsRemovalReady address.now removal.ids tables.old.items }
    ensures ascending { IsAscending table_cmp tables.new.items }
    ensures tables { map without_room tables.new.items
        ≡ with_table_at address.now (without_rows removal.ids) (map without_room tables.old.items) }
{
    match find_index(tables.as_slice(), &address.dataset, address.number) {
        Some(index) => {
            let table = &mut tables[index];
            table.table.commit_delete(removal);
        }
        None => unreachable!(),
    }
}
