//! Worked examples of Table Schema v1 and of tables: cells of texts and of values, their order, descriptors, rows of
//! CSV and their inserts; batches and deletions, references to other tables, tables that are restored, and queries.
//!
//! By the word `cells` or `rows` and a descriptor it counts instead how many lines of standard input are cells of the
//! first field, or how many rows of CSV standard input has. A fault of the descriptor or of a row is printed on
//! standard error, and the status is not 0.
//!
//! By four numbers it inserts that many rows into a table, 500 in a batch, upserts that many batches of 500 known keys,
//! asks for a filter and for a sorted page that many times each, and prints how many rows there are, how many the
//! filters found and how many the pages had.
#![tactic(auto)]

mod batch;
mod cell;
mod count;
mod descriptor;
mod insert;
mod large_table;
mod parts;
mod query;
mod read;
mod reference;
mod restored;
mod row;
mod table_text;

use cases::{Buffer, Tally, print_counts};
use count::Kind;
use large_table::counts_text;
use portal_base::std_adapters::StdSource;
use std::alloc::Global;
use std::env;
use std::io::{self, Read};
use std::process::ExitCode;

fn check_cells(rt: &HostRuntime, tally: &mut Tally) {
    tally.check(rt, "cells", 3, cell::read);
    tally.check(rt, "missing_values", 3, cell::read_in_schema);
    tally.check(rt, "values", 3, cell::of_value);
    tally.check(rt, "order", 4, cell::ordered);
    tally.check(rt, "counted_cells", 3, count::cells);
    tally.check(rt, "descriptors", 2, descriptor::rewritten);
    tally.check(rt, "counts_of_fields", 2, descriptor::count_of_fields);
}

fn check_rows(rt: &HostRuntime, tally: &mut Tally) {
    tally.check(rt, "headers", 3, row::rows);
    tally.check(rt, "rows", 3, row::rows);
    tally.check(rt, "records", 3, row::rows);
    tally.check(rt, "failing_reads", 4, row::rows_before);
    tally.check(rt, "long_files", 4, row::count_before);
    tally.check(rt, "bodies", 4, insert::bodies);
    tally.check(rt, "sizes", 3, insert::sizes);
}

fn check_tables(rt: &HostRuntime, tally: &mut Tally) {
    tally.check(rt, "counted_rows", 5, large_table::counts);
    tally.check(rt, "batches", 3, batch::steps);
    tally.check(rt, "faults", 3, batch::steps);
    tally.check(rt, "keys", 3, batch::steps);
    tally.check(rt, "uniques", 3, batch::steps);
    tally.check(rt, "references", 3, batch::steps);
    tally.check(rt, "random", 3, batch::steps);
    tally.check(rt, "foreign", 5, reference::foreign);
    tally.check(rt, "referred", 6, reference::referred);
    tally.check(rt, "restored", 4, restored::table);
}

fn check_queries(rt: &HostRuntime, tally: &mut Tally) {
    tally.check(rt, "pages", 4, query::page);
    tally.check(rt, "filters", 4, query::page);
    tally.check(rt, "sorts", 4, query::page);
    tally.check(rt, "query_faults", 4, query::page);
    tally.check(rt, "random_queries", 4, query::page);
}

/// How many lines of standard input are cells, and how many aren't.
fn count_cells(rt: &HostRuntime, descriptor: &[u8]) -> io::Result<Result<Buffer, Buffer>> {
    let mut lines = String::new(rt.alloc());
    rt.reader().read_to_string(&mut lines)?;
    count::count_cells(rt.alloc(), descriptor, lines.as_str())
}

/// Counts in standard input.
fn count_input(rt: &HostRuntime, kind: Kind, descriptor: &[u8]) -> io::Result<ExitCode> {
    let counts = match kind {
        Kind::Cells => count_cells(rt, descriptor)?,
        Kind::Rows => { row::count_rows(rt.alloc(), descriptor, StdSource::new(rt.reader()))? }
    };
    print_counts(rt, &counts)
}

/// The kind and the descriptor that the words give, if they give them.
fn input_of_words(rt: &(impl env::Env + Alloc<A = Global>)) -> Option<(Kind, String)> {
    let mut words = env::args(rt).ok()?.skip(1);
    let kind = Kind::named(words.next()?.as_str())?;
    Some((kind, words.next()?))
}

/// The four numbers that the words are, if they are.
fn numbers_of_words(rt: &(impl env::Env + Alloc<A = Global>)) -> Option<[u64; 4]> {
    let mut numbers = [0; 4];
    let mut words = env::args(rt).ok()?.skip(1);
    for index in 0..4 {
        numbers[index] = words.next()?.as_str().parse::<u64>().ok()?;
    }
    Some(numbers)
}

fn main(rt: HostRuntime) -> io::Result<ExitCode> {
    if let Some((kind, descriptor)) = input_of_words(&rt) {
        return count_input(&rt, kind, descriptor.as_bytes());
    }
    if let Some(numbers) = numbers_of_words(&rt) {
        return print_counts(&rt, &Ok(counts_text(rt.alloc(), numbers)?));
    }
    let mut tally = Tally::new();
    check_cells(&rt, &mut tally);
    check_rows(&rt, &mut tally);
    check_tables(&rt, &mut tally);
    check_queries(&rt, &mut tally);
    tally.end(&rt)
}
