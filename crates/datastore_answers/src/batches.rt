//! Batches of records, prepared on the table of a resource among the tables of its dataset.
ghost use Rattle.std.specs.Prelude.{◌≡◌, ◌⊎◌, ◌<◌, [], Ok, Err, IfOk, IfErr, OnOk, IsSome, IsTrue, Some, None, length};
ghost use Rattle.std.specs.Prelude.{map, option_copied, option_map, slice_get};
ghost use Rattle.std.specs.List.{list_all};
ghost use Rattle.table_schema.specs.Values.{is_map};
ghost use Rattle.portal_base.specs.Ordered.{IsAscending, found};
ghost use Rattle.datastore_table.specs.Batch.{IsReady, worked_on};
ghost use Rattle.datastore_table.specs.Put.{put_records};
ghost use Rattle.datastore_table.specs.Rows.{row_cmp};
ghost use Rattle.datastore_table.specs.declared.fault.TableFault.TheVariants.{OutOfMemory};
ghost use Rattle.datastore_answers.specs.Changed.{put_into};
ghost use Rattle.datastore_answers.specs.Linked.{AreLinked, alone, link_checked, links_checked, put_among, put_at};
ghost use Rattle.datastore_answers.specs.Linked.{put_own, target_of};
ghost use Rattle.datastore_answers.specs.Order.{at_address, table_cmp};
ghost use Rattle.datastore_answers.specs.Plan.{IsBatchAt, IsPutReady};
ghost use Rattle.datastore_answers.specs.Tables.{without_room, table_at, tables_in, tables_of};
ghost use Rattle.datastore_answers.specs.Errors.{put_error};

use crate::resource_table::ResourceTable;
use crate::table_index::{find_index, find_table};
use crate::tables::Tables;
use datastore_table::{Batch, Method, TableFault, check_foreign};
use portal_base::json_value::Json;
use portal_base::seq::Seq;
use portal_base::text::Text;
use table_schema::Foreign;

// Prepares a batch on the table. The table stays unchanged.
fn prepared(
    table: &mut ResourceTable,
    method: Method,
    records: &Seq<Json>,
) -> Result<Batch, TableFault>
    requires { IsTrue (list_all is_map records.now) }
    ensures same { without_room table.new ≡ without_room table.old }
    ensures schema { IfOk result (λ batch. batch.schema ≡ table.new.table.schema) }
    ensures changed { IfOk result (λ batch. IsAscending row_cmp batch.work.changed) }
    ensures rows { IfOk result (λ _. IsAscending row_cmp table.new.table.rows) }
    ensures made { IfOk result (λ batch.
        put_records method records.now table.new.table ≡ Ok (worked_on table.new.table.rows batch.work)) }
    ensures ready { IfOk result (λ batch. IsReady batch table.new.table) }
    ensures fault { IfErr result (λ fault. (fault ≡ OutOfMemory)
        ⊎ (put_records method records.now table.new.table ≡ Err fault)) }
{
    let batch = table.table.prepare(method, records)?;
    let _changed = batch.changed();
    let _rows = table.table.rows();
    Ok(batch)
}

impl Tables {
    /// Prepares a batch of records, which are dictionaries, on the table of the resource with this number. It
    /// allocates all memory that the batch needs. The tables stay unchanged. Fails if the table refuses the batch, if
    /// a row references a row of another table that doesn't exist, or if no memory is left.
    pub(crate) fn batch(
        &mut self,
        dataset: &Text,
        number: u32,
        method: Method,
        records: &Seq<Json>,
    ) -> Result<Batch, TableFault>
        requires exists { IsSome (table_at number (tables_in dataset.now (tables_of self.old))) }
        requires maps { IsTrue (list_all is_map records.now) }
        ensures same { tables_of self.new ≡ tables_of self.old }
        ensures taken { IfOk result (λ _. put_error
            (put_at (tables_in dataset.now (tables_of self.old)) number method records.now) ≡ None) }
        ensures ready { IfOk result (λ batch. IsPutReady (record { dataset = dataset.now; number = number })
            method records.now batch self.new.tables) }
        ensures fault { IfErr result (λ fault. (fault ≡ OutOfMemory)
            ⊎ (put_at (tables_in dataset.now (tables_of self.old)) number method records.now ≡ Err fault)) }
    {
        let batch = self.prepared_at(dataset, number, method, records)?;
        match self.get(dataset, number) {
            Some(table) => {
                self.check_links(table, &batch)?;
                Ok(batch)
            }
            None => unreachable!(),
        }
    }

    /// Puts the records, which are dictionaries, into a table without rows. Fails as `batch` does.
    pub(crate) fn filled(
        &self,
        table: ResourceTable,
        records: &Seq<Json>,
    ) -> Result<ResourceTable, TableFault>
        requires maps { IsTrue (list_all is_map records.now) }
        requires empty { table.table.rows ≡ [] }
        ensures table { IfOk result (λ t. without_room t ≡ put_into Method.Insert records.now (without_room table)) }
        ensures taken { IfOk result (λ _. put_error (put_among
            (tables_in table.address.dataset (tables_of self.now)) Method.Insert records.now (without_room table))
            ≡ None) }
        ensures fault { IfErr result (λ fault. (fault ≡ OutOfMemory)
            ⊎ (put_among (tables_in table.address.dataset (tables_of self.now)) Method.Insert records.now
            (without_room table)
            ≡ Err fault)) }
    {
        let mut table = table;
        let batch = prepared(&mut table, Method::Insert, records)?;
        self.check_links(&table, &batch)?;
        table.table.commit(batch);
        Ok(table)
    }

    // Prepares a batch on that table. References to other tables aren't checked here.
    fn prepared_at(
        &mut self,
        dataset: &Text,
        number: u32,
        method: Method,
        records: &Seq<Json>,
    ) -> Result<Batch, TableFault>
        requires exists { IsSome
            (found (at_address (record { dataset = dataset.now; number = number })) self.old.tables) }
        requires maps { IsTrue (list_all is_map records.now) }
        ensures same { tables_of self.new ≡ tables_of self.old }
        ensures batch { IfOk result (λ batch. IsBatchAt (record { dataset = dataset.now; number = number })
            method records.now batch self.new.tables) }
        ensures linked { AreLinked (tables_of self.old) }
        ensures fault { IfErr result (λ fault. (fault ≡ OutOfMemory) ⊎ (put_own method records.now
            (found (at_address (record { dataset = dataset.now; number = number })) self.old.tables) ≡ Err fault)) }
    {
        match find_index(self.tables.as_slice(), dataset, number) {
            Some(index) => prepared(&mut self.tables[index], method, records),
            None => unreachable!(),
        }
    }

    // Checks that each row of the batch references existing rows of other tables.
    fn check_links(&self, table: &ResourceTable, batch: &Batch) -> Result<(), TableFault>
        requires schema { batch.now.schema ≡ table.now.table.schema }
        ensures ok { OnOk result (links_checked (tables_in table.now.address.dataset (tables_of self.now)) table.now
            (alone batch.now.work) ≡ Ok tt) }
        ensures err { IfErr result (λ fault. (fault ≡ OutOfMemory)
            ⊎ (links_checked (tables_in table.now.address.dataset (tables_of self.now)) table.now
            (alone batch.now.work) ≡ Err fault)) }
    {
        for (index, foreign) in table.table.schema().foreign().as_slice().iter().enumerate() {
            self.check_link(table, batch, index, foreign)?;
        }
        Ok(())
    }

    // Checks this for the foreign key with this index, counted from 0.
    fn check_link(
        &self,
        table: &ResourceTable,
        batch: &Batch,
        index: usize,
        foreign: &Foreign,
    ) -> Result<(), TableFault>
        requires schema { batch.now.schema ≡ table.now.table.schema }
        requires exists { slice_get table.now.table.schema.foreign index ≡ Some foreign.now }
        ensures ok { OnOk result (link_checked (tables_in table.now.address.dataset (tables_of self.now)) table.now
            (alone batch.now.work) index foreign.now tt ≡ Ok tt) }
        ensures err { IfErr result (λ fault. (fault ≡ OutOfMemory)
            ⊎ (link_checked (tables_in table.now.address.dataset (tables_of self.now)) table.now
            (alone batch.now.work) index foreign.now tt ≡ Err fault)) }
    {
        if foreign.resource.is_empty() {
            return Ok(());
        }
        let Ok(number) = u32::try_from(index) else {
            return Err(TableFault::OutOfMemory);
        };
        match target(self.tables.as_slice(), table, index) {
            Some(target) => check_foreign(batch, number, &target.table),
            None => Ok(()),
        }
    }
}

/// The table that the foreign key with this index references, if there is one.
pub(crate) fn target<'a>(
    tables: &'a [ResourceTable],
    table: &ResourceTable,
    index: usize,
) -> Option<&'a ResourceTable>
    requires { IsAscending table_cmp tables.now }
    ensures { option_map without_room (option_copied result)
        ≡ target_of (tables_in table.now.address.dataset (map without_room tables.now)) table.now index }
{
    match table.targets.as_slice().get(index) {
        Some(number) => find_table(tables, &table.address.dataset, *number),
        None => None,
    }
}
