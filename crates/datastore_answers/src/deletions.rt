//! Deletions of tables and of rows, and the references to them from other tables of the dataset.
ghost use Rattle.std.specs.Prelude.{◌≡◌, ◌⊎◌, ◌&&◌, ◌==◌, Ok, Err, IfOk, IfErr, OnOk, IsSome, None, Some, slice_get};
ghost use Rattle.std.specs.List.{list_any};
ghost use Rattle.portal_base.specs.Ordered.{found};
ghost use Rattle.datastore_table.specs.Batch.{delete_checked, removed_keys};
ghost use Rattle.datastore_table.specs.declared.fault.TableFault.TheVariants.{OutOfMemory};
ghost use Rattle.datastore_answers.specs.Order.{at_address};
ghost use Rattle.datastore_answers.specs.Plan.{IsRemovalReady, IsRemovalAt};
ghost use Rattle.datastore_answers.specs.Restrict.{delete_at, delete_own, is_referenced, key_restrict, refers_to};
ghost use Rattle.datastore_answers.specs.Restrict.{table_restrict};
ghost use Rattle.datastore_answers.specs.Restrict.{tables_restrict};
ghost use Rattle.datastore_answers.specs.Tables.{without_room, table_at, tables_in, tables_of};
ghost use Rattle.datastore_answers.specs.Errors.{delete_rows_error};

use crate::resource_table::ResourceTable;
use crate::table_index::{find_index, tables_in};
use crate::tables::Tables;
use datastore_table::{Removal, TableFault, check_referred};
use portal_base::seq::Seq;
use portal_base::text::Text;
use table_schema::Foreign;

// ---- tables

// Whether the number is one of these.
fn has(numbers: &[u32], number: u32) -> bool
    ensures { result ≡ list_any (λ n. n == number) numbers.now }
{
    numbers.iter().any(|other| *other == number)
}

// Whether this is the table of another resource, with a foreign key that references the resource with this number.
fn refers_to(table: &ResourceTable, number: u32) -> bool
    ensures { result ≡ refers_to number table.now }
{
    !(table.address.number == number) && has(table.targets.as_slice(), number)
}

// Whether one of the tables is such a table.
fn any_refers(tables: &[ResourceTable], number: u32) -> bool
    ensures { result ≡ is_referenced number tables.now }
{
    tables.iter().any(|table| refers_to(table, number))
}

impl Tables {
    /// Whether the table of another resource of the dataset has a foreign key that references the resource with this
    /// number.
    #[tactic(auto, using(crate::proofs::RestrictLemmas::any_in))]
    pub(crate) fn is_referenced(&self, dataset: &Text, number: u32) -> bool
        ensures { result ≡ is_referenced number (tables_in dataset.now (tables_of self.now)) }
    {
        any_refers(tables_in(self.tables.as_slice(), dataset), number)
    }
}
// ---- rows

// Prepares to delete rows from the table. The table stays unchanged.
fn prepared_removal(table: &mut ResourceTable, ids: &Seq<u64>) -> Result<Removal, TableFault>
    ensures same { without_room table.new ≡ without_room table.old }
    ensures ids { IfOk result (λ removal. removal.ids ≡ ids.now) }
    ensures keys { IfOk result (λ removal.
        removal.keys ≡ removed_keys table.new.table.schema.key ids.now table.new.table.rows) }
    ensures keeps_references { IfOk result (λ _. delete_checked ids.now table.new.table ≡ Ok tt) }
    ensures fault { IfErr result (λ fault. (fault ≡ OutOfMemory)
        ⊎ (delete_checked ids.now table.new.table ≡ Err fault)) }
{
    table.table.prepare_delete(ids)
}

// Checks that, by the foreign key with this index, no row of the table references a row of the removal. The key may
// reference another resource than the one with this number; then nothing is checked.
fn check_key(
    table: &ResourceTable,
    number: u32,
    removal: &Removal,
    index: usize,
    foreign: &Foreign,
) -> Result<(), TableFault>
    requires exists { slice_get table.now.table.schema.foreign index ≡ Some foreign.now }
    ensures ok { OnOk result (key_restrict removal.now.keys number table.now index foreign.now tt ≡ Ok tt) }
    ensures err { IfErr result (λ fault. (fault ≡ OutOfMemory)
        ⊎ (key_restrict removal.now.keys number table.now index foreign.now tt ≡ Err fault)) }
{
    if foreign.resource.is_empty() {
        return Ok(());
    }
    let Ok(at) = u32::try_from(index) else {
        return Err(TableFault::OutOfMemory);
    };
    match table.targets.as_slice().get(index) {
        Some(resolved) if *resolved == number => check_referred(removal, &table.table, at),
        _ => Ok(()),
    }
}

// Checks all foreign keys of the table, if it is the table of another resource.
fn check_table(table: &ResourceTable, number: u32, removal: &Removal) -> Result<(), TableFault>
    ensures ok { OnOk result (table_restrict removal.now.keys number table.now ≡ Ok tt) }
    ensures err { IfErr result (λ fault. (fault ≡ OutOfMemory)
        ⊎ (table_restrict removal.now.keys number table.now ≡ Err fault)) }
{
    if table.address.number == number {
        return Ok(());
    }
    for (index, foreign) in table.table.schema().foreign().as_slice().iter().enumerate() {
        check_key(table, number, removal, index, foreign)?;
    }
    Ok(())
}

// Checks each of the tables.
fn check_tables(tables: &[ResourceTable], number: u32, removal: &Removal) -> Result<(), TableFault>
    ensures ok { OnOk result (tables_restrict removal.now.keys number tables.now ≡ Ok tt) }
    ensures err { IfErr result (λ fault. (fault ≡ OutOfMemory)
        ⊎ (tables_restrict removal.now.keys number tables.now ≡ Err fault)) }
{
    for table in tables {
        check_table(table, number, removal)?;
    }
    Ok(())
}

impl Tables {
    /// Prepares to delete rows from the table of the resource with this number. The tables stay unchanged. Fails if a
    /// row that stays references a deleted row, or if no memory is left.
    pub(crate) fn removal(
        &mut self,
        dataset: &Text,
        number: u32,
        ids: &Seq<u64>,
    ) -> Result<Removal, TableFault>
        requires exists { IsSome (table_at number (tables_in dataset.now (tables_of self.old))) }
        ensures same { tables_of self.new ≡ tables_of self.old }
        ensures keeps_references { IfOk result (λ _. delete_rows_error
            (delete_at (tables_in dataset.now (tables_of self.old)) number ids.now) ≡ None) }
        ensures ids { IfOk result (λ removal. removal.ids ≡ ids.now) }
        ensures ready { IfOk result (λ removal. IsRemovalReady (record { dataset = dataset.now; number = number })
            removal.ids self.new.tables) }
        ensures fault { IfErr result (λ fault. (fault ≡ OutOfMemory)
            ⊎ (delete_at (tables_in dataset.now (tables_of self.old)) number ids.now ≡ Err fault)) }
    {
        let removal = self.removal_at(dataset, number, ids)?;
        let tables = tables_in(self.tables.as_slice(), dataset);
        check_tables(tables, number, &removal)?;
        Ok(removal)
    }

    // Prepares a removal on that table. References from other tables aren't checked here.
    fn removal_at(
        &mut self,
        dataset: &Text,
        number: u32,
        ids: &Seq<u64>,
    ) -> Result<Removal, TableFault>
        requires exists { IsSome
            (found (at_address (record { dataset = dataset.now; number = number })) self.old.tables) }
        ensures same { tables_of self.new ≡ tables_of self.old }
        ensures removal { IfOk result (λ removal. IsRemovalAt (record { dataset = dataset.now; number = number })
            ids.now removal self.new.tables) }
        ensures fault { IfErr result (λ fault. (fault ≡ OutOfMemory) ⊎ (delete_own ids.now
            (found (at_address (record { dataset = dataset.now; number = number })) self.old.tables) ≡ Err fault)) }
    {
        match find_index(self.tables.as_slice(), dataset, number) {
            Some(index) => prepared_removal(&mut self.tables[index], ids),
            None => unreachable!(),
        }
    }
}
