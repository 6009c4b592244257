//! Batches and deletions one after another.
ghost use Rattle.std.specs.Prelude.{IsTrue};
ghost use Rattle.std.specs.List.{list_all};
ghost use Rattle.table_schema.specs.Values.{is_map};

use crate::read::{entry_of, ids_of, items_in, records_in, records_of, table_of};
use crate::table_text::push_table;
use cases::{Buffer, Case, invalid};
use datastore_table::{Method, Table, TableFault};
use portal_base::json_value::Json;
use portal_base::seq::Seq;
use std::alloc::Global;
use std::io;

/// Puts records into the table, or gives the fault.
pub fn put(table: &mut Table, method: Method, records: &Seq<Json>) -> Result<(), TableFault>
    requires { IsTrue (list_all is_map records.now) }
{
    let batch = table.prepare(method, records)?;
    table.commit(batch);
    Ok(())
}

fn delete(table: &mut Table, ids: &Seq<u64>) -> Result<(), TableFault> {
    let removal = table.prepare_delete(ids)?;
    table.commit_delete(removal);
    Ok(())
}

/// Writes `ok`, or the fault.
pub fn push_outcome(answer: &mut Buffer, outcome: Result<(), TableFault>) {
    match outcome {
        Ok(()) => answer.push("ok"),
        Err(fault) => answer.push_value(&fault),
    }
}

fn method_of(word: &str) -> Option<Method> {
    match word {
        "insert" => Some(Method::Insert),
        "upsert" => Some(Method::Upsert),
        "update" => Some(Method::Update),
        _ => None,
    }
}

/// Works a dictionary of one member, a method with its records or `delete` with `_id`s, and writes the outcome.
fn push_step(alloc: Global, answer: &mut Buffer, table: &mut Table, step: Json) -> io::Result<()> {
    let (word, value) = entry_of(step)?;
    match method_of(word.as_str()) {
        Some(method) => {
            let records = records_of(value)?;
            push_outcome(answer, put(table, method, &records));
        }
        None => {
            let ids = ids_of(alloc, &value)?;
            push_outcome(answer, delete(table, &ids));
        }
    }
    answer.push("; ");
    Ok(())
}

/// Works the steps, and writes the outcome of each.
fn push_steps(
    alloc: Global,
    answer: &mut Buffer,
    table: &mut Table,
    steps: &str,
) -> io::Result<()> {
    for step in items_in(alloc, steps)?.into_vec() {
        push_step(alloc, answer, table, step)?;
    }
    Ok(())
}

/// A table of this descriptor with these records.
pub fn filled(alloc: Global, descriptor: &str, records: &str) -> io::Result<Table> {
    let records = records_in(alloc, records)?;
    let mut table = table_of(alloc, descriptor)?;
    match put(&mut table, Method::Insert, &records) {
        Ok(()) => Ok(table),
        Err(_) => Err(invalid()),
    }
}

/// A descriptor, and steps: the outcome of each, and the table after them.
pub fn steps(alloc: Global, case: &Case, answer: &mut Buffer) -> io::Result<()> {
    let (descriptor, steps) = case.two_texts()?;
    let mut table = table_of(alloc, descriptor)?;
    push_steps(alloc, answer, &mut table, steps)?;
    push_table(alloc, answer, &table);
    Ok(())
}
