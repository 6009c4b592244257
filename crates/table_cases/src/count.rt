//! How many lines of an input are cells.
use crate::cell::first_field;
use cases::{Buffer, Case};
use std::alloc::{AllocError, Global};
use std::io;
use table_schema::{CellError, Field, Schema};

/// What is counted of an input.
#[derive(Clone, Copy)]
pub enum Kind {
    /// The lines that are cells of the first field.
    Cells,
    /// The rows of CSV.
    Rows,
}

impl Kind {
    /// The kind that the word names.
    pub fn named(word: &str) -> Option<Kind> {
        match word {
            "cells" => Some(Kind::Cells),
            "rows" => Some(Kind::Rows),
            _ => None,
        }
    }
}

/// Whether the text is a cell of the field.
fn is_cell(alloc: Global, field: &Field, text: &str) -> Result<bool, AllocError> {
    match field.read_cell(alloc, text) {
        Ok(_) => Ok(true),
        Err(CellError::Fault(_)) => Ok(false),
        Err(CellError::OutOfMemory) => Err(AllocError),
    }
}

/// How many of the lines are cells of the field, and how many aren't.
fn counts_of(alloc: Global, field: &Field, lines: &str) -> Result<(u64, u64), AllocError> {
    let mut cells: u64 = 0;
    let mut faults: u64 = 0;
    for line in lines.lines() {
        if is_cell(alloc, field, line)? {
            cells = cells.saturating_add(1);
        } else {
            faults = faults.saturating_add(1);
        }
    }
    Ok((cells, faults))
}

/// How many of the lines are cells of the descriptor's first field, and how many aren't, in words; `Err` with the fault
/// of a descriptor that has one.
pub fn count_cells(
    alloc: Global,
    descriptor: &[u8],
    lines: &str,
) -> io::Result<Result<Buffer, Buffer>> {
    let schema = match Schema::read(alloc, descriptor) {
        Ok(schema) => schema,
        Err(fault) => return Ok(Err(Buffer::of_value(alloc, &fault))),
    };
    let (cells, faults) = counts_of(alloc, first_field(&schema)?, lines)?;
    let mut counts = Buffer::new(alloc);
    counts.push_value(&cells);
    counts.push(" cells, ");
    counts.push_value(&faults);
    counts.push(" faults");
    Ok(Ok(counts))
}

/// A descriptor and lines: how many of them are cells of its first field, and how many aren't; or its fault.
pub fn cells(alloc: Global, case: &Case, answer: &mut Buffer) -> io::Result<()> {
    match count_cells(alloc, case.bytes(0), case.text(1)?)? {
        Ok(counts) => answer.push_buffer(&counts),
        Err(fault) => answer.push_buffer(&fault),
    }
    Ok(())
}
