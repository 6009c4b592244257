//! Rows of CSV (RFC 4180) by descriptors of Table Schema v1.
use crate::read::schema_of;
use crate::table_text::push_cells;
use cases::{Buffer, Case};
use portal_base::memory::MemorySource;
use portal_base::outside::{Failed, Source};
use portal_base::seq::Seq;
use std::alloc::{AllocError, Global};
use std::io;
use typed_csv::{LoadFault, Loader};

/// A source that gives the bytes of another one by one.
#[derive(Drop)]
struct OneByOne {
    inner: MemorySource,
}

impl Source for OneByOne {
    ghost use Rattle.std.specs.Prelude.{None};

    ghost to_come = { λ _. None };

    ghost faults = { λ s. s.inner.plan.faults };

    fn read(&mut self, into: &mut [u8]) -> Result<usize, Failed> {
        if into.is_empty() {
            return Ok(0);
        }
        self.inner.read(&mut into[..1])
    }
}

/// Whether two more calls answer what they should: none after the end, and `Spent` after a fault.
fn is_over<S: Source>(loader: &mut Loader<S>, is_at_end: bool) -> bool {
    for _ in 0..2u8 {
        let holds = match loader.next() {
            Ok(None) => is_at_end,
            Err(LoadFault::Spent) => !is_at_end,
            _ => false,
        };
        if !holds {
            return false;
        }
    }
    true
}

/// Writes what ends the rows, and that they don't end with it, where they don't.
fn push_end<S: Source>(answer: &mut Buffer, loader: &mut Loader<S>, fault: Option<LoadFault>) {
    match &fault {
        None => answer.push("end"),
        Some(fault) => answer.push_value(fault),
    }
    if !is_over(loader, fault.is_none()) {
        answer.push(" and goes on");
    }
}

/// Writes the rows that the loader gives, and what ends them.
fn push_rows<S: Source>(alloc: Global, answer: &mut Buffer, loader: &mut Loader<S>) {
    let mut fault = None;
    for _ in 0..u64::MAX {
        match loader.next() {
            Ok(Some(cells)) => {
                push_cells(alloc, answer, cells.as_slice());
                answer.push(" ");
            }
            Ok(None) => break,
            Err(error) => {
                fault = Some(error);
                break;
            }
        }
    }
    push_end(answer, loader, fault);
}

/// The rows that the loader gives, and what ends them.
fn rows_text<S: Source>(alloc: Global, loader: &mut Loader<S>) -> Buffer {
    let mut text = Buffer::new(alloc);
    push_rows(alloc, &mut text, loader);
    text
}

/// The rows of the source by the descriptor.
fn rows_of<S: Source + Drop>(alloc: Global, descriptor: &[u8], source: S) -> io::Result<Buffer> {
    match Loader::start(alloc, schema_of(alloc, descriptor)?, source) {
        Ok(mut loader) => Ok(rows_text(alloc, &mut loader)),
        Err((fault, _)) => Ok(Buffer::of_value(alloc, &fault)),
    }
}

/// Writes the rows of the source by the descriptor.
fn push_rows_of<S: Source + Drop>(
    alloc: Global,
    answer: &mut Buffer,
    descriptor: &[u8],
    source: S,
) -> io::Result<()> {
    answer.push_buffer(&rows_of(alloc, descriptor, source)?);
    Ok(())
}

/// How many rows the loader gives, and what ends them; `Err` where a fault does.
fn count_ahead<S: Source>(alloc: Global, loader: &mut Loader<S>) -> Result<Buffer, Buffer> {
    let mut rows: u64 = 0;
    let mut fault = None;
    for _ in 0..u64::MAX {
        match loader.next() {
            Ok(Some(_)) => rows = rows.saturating_add(1),
            Ok(None) => break,
            Err(error) => {
                fault = Some(error);
                break;
            }
        }
    }
    let mut counts = Buffer::of_value(alloc, &rows);
    counts.push(" rows, ");
    match fault {
        None => {
            counts.push("end");
            Ok(counts)
        }
        Some(fault) => {
            counts.push_value(&fault);
            Err(counts)
        }
    }
}

/// How many rows the source has by the descriptor, and what ends them; `Err` where a fault does.
pub fn count_rows<S: Source + Drop>(
    alloc: Global,
    descriptor: &[u8],
    source: S,
) -> io::Result<Result<Buffer, Buffer>> {
    match Loader::start(alloc, schema_of(alloc, descriptor)?, source) {
        Ok(mut loader) => Ok(count_ahead(alloc, &mut loader)),
        Err((fault, _)) => Ok(Err(Buffer::of_value(alloc, &fault))),
    }
}

/// The bytes, all of whose reads succeed.
pub fn source_of(alloc: Global, bytes: &[u8]) -> Result<MemorySource, AllocError> {
    let bytes = Seq::from(bytes.to_vec(alloc)?);
    Ok(MemorySource::new(bytes, Seq::new(alloc)))
}

/// The bytes, whose read with this number fails.
fn failing_source(alloc: Global, bytes: &[u8], failing: u64) -> Result<MemorySource, AllocError> {
    let bytes = Seq::from(bytes.to_vec(alloc)?);
    let failing = Seq::from(vec![in alloc; failing]?);
    Ok(MemorySource::new(bytes, failing))
}

/// A descriptor and a text of CSV: its rows, which are the same where they are read byte by byte.
pub fn rows(alloc: Global, case: &Case, answer: &mut Buffer) -> io::Result<()> {
    let source = source_of(alloc, case.bytes(1))?;
    push_rows_of(alloc, answer, case.bytes(0), source)?;
    let inner = source_of(alloc, case.bytes(1))?;
    let mut single = Buffer::new(alloc);
    push_rows_of(alloc, &mut single, case.bytes(0), OneByOne { inner })?;
    answer.push_difference(", and byte by byte ", &single);
    Ok(())
}

/// A descriptor, a text of CSV that is read byte by byte, and the number of the read that fails: the rows.
pub fn rows_before(alloc: Global, case: &Case, answer: &mut Buffer) -> io::Result<()> {
    let inner = failing_source(alloc, case.bytes(1), case.parsed(2)?)?;
    push_rows_of(alloc, answer, case.bytes(0), OneByOne { inner })
}

/// A header and that number of rows, each with its index and a text of 1,008 bytes.
fn long_file(alloc: Global, rows: u64) -> Buffer {
    let mut bytes = Buffer::new(alloc);
    bytes.push("id,name\n");
    for row in 0..rows {
        bytes.push_value(&row);
        bytes.push(",");
        bytes.push_times("0123456789abcdef", 63);
        bytes.push("\n");
    }
    bytes
}

/// A long file, whose read with that number fails.
fn long_source(alloc: Global, rows: u64, failing: u64) -> Result<MemorySource, AllocError> {
    let file = long_file(alloc, rows);
    failing_source(alloc, file.bytes()?, failing)
}

/// A descriptor, the number of rows of a long file, and the number of the read that fails: how many rows come before.
pub fn count_before(alloc: Global, case: &Case, answer: &mut Buffer) -> io::Result<()> {
    let source = long_source(alloc, case.parsed(1)?, case.parsed(2)?)?;
    match count_rows(alloc, case.bytes(0), source)? {
        Ok(counts) => answer.push_buffer(&counts),
        Err(counts) => answer.push_buffer(&counts),
    }
    Ok(())
}
