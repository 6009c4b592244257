//! References from one table to another.
ghost use Rattle.std.specs.Prelude.{◌<◌, length, IsTrue};
ghost use Rattle.std.specs.List.{list_all};
ghost use Rattle.table_schema.specs.Values.{is_map};

use crate::batch::{filled, push_outcome};
use crate::read::{ids_of, json_of, records_in, table_of};
use cases::{Buffer, Case, invalid};
use datastore_table::{Method, Table, TableFault, check_foreign, check_referred};
use portal_base::json_value::Json;
use portal_base::seq::Seq;
use std::alloc::Global;
use std::io;

fn has_foreign(table: &Table) -> bool
    ensures { IsTrue result → 0 < length table.now.schema.foreign }
{
    !table.schema().foreign().is_empty()
}

/// Whether the records, put into the table, refer to rows of the target by the first foreign key.
fn check_records(table: &mut Table, records: &Seq<Json>, target: &Table) -> Result<(), TableFault>
    requires maps { IsTrue (list_all is_map records.now) }
    requires foreign { 0 < length table.old.schema.foreign }
{
    let batch = table.prepare(Method::Insert, records)?;
    check_foreign(&batch, 0, target)
}

/// Whether the target's rows of these `_id`s can go with the table's references to them by the first foreign key.
fn check_ids(target: &mut Table, ids: &Seq<u64>, table: &Table) -> Result<(), TableFault>
    requires { 0 < length table.now.schema.foreign }
{
    let removal = target.prepare_delete(ids)?;
    check_referred(&removal, table, 0)
}

/// Writes the outcome of records of a table that refer to rows of the target.
fn push_foreign(
    alloc: Global,
    answer: &mut Buffer,
    table: &mut Table,
    records: &str,
    target: &Table,
) -> io::Result<()> {
    let records = records_in(alloc, records)?;
    if !has_foreign(table) {
        return Err(invalid());
    }
    push_outcome(answer, check_records(table, &records, target));
    Ok(())
}

/// A descriptor and records of the target, and a descriptor and records that refer to it by the first foreign key:
/// `ok`, or the fault.
pub fn foreign(alloc: Global, case: &Case, answer: &mut Buffer) -> io::Result<()> {
    let (of_target, rows, of_table, records) = case.four_texts()?;
    let target = filled(alloc, of_target, rows)?;
    let mut table = table_of(alloc, of_table)?;
    push_foreign(alloc, answer, &mut table, records, &target)
}

/// Writes the outcome of a deletion of the target's rows of these `_id`s, where the table refers to it.
fn push_referred(
    alloc: Global,
    answer: &mut Buffer,
    target: &mut Table,
    ids: &str,
    table: &Table,
) -> io::Result<()> {
    let ids = ids_of(alloc, &json_of(alloc, ids)?)?;
    if !has_foreign(table) {
        return Err(invalid());
    }
    push_outcome(answer, check_ids(target, &ids, table));
    Ok(())
}

/// The same, and the `_id`s of the target's rows that are to go: `ok`, or the fault.
pub fn referred(alloc: Global, case: &Case, answer: &mut Buffer) -> io::Result<()> {
    let (of_target, rows, of_table, records) = case.four_texts()?;
    let ids = case.text(4)?;
    let mut target = filled(alloc, of_target, rows)?;
    let table = filled(alloc, of_table, records)?;
    push_referred(alloc, answer, &mut target, ids, &table)
}
