//! Lines of a source that is read in one piece, and byte by byte.
use cases::{Buffer, Case, invalid};
use portal_base::memory::MemorySource;
use portal_base::outside::{Failed, Source};
use portal_base::seq::Seq;
use portal_lines::lines::{LineFault, LineReader, NextLine};
use std::alloc::{AllocError, Global};
use std::io;

/// The most calls that are made of a reader.
const MAX_CALLS: usize = 12;

/// A source that gives one byte at a time.
#[derive(Drop)]
struct OneByOne {
    inner: MemorySource,
}

impl Source for OneByOne {
    ghost use Rattle.std.specs.Prelude.{None};

    ghost to_come = { λ _. None };

    ghost faults = { λ s. s.inner.plan.faults };

    fn read(&mut self, into: &mut [u8]) -> Result<usize, Failed> {
        if into.is_empty() {
            return Ok(0);
        }
        self.inner.read(&mut into[..1])
    }
}

/// The most bytes of a line, and of the source.
#[derive(Clone, Copy)]
struct Bounds {
    longest: usize,
    most: u64,
}

fn bounds_of(case: &Case) -> io::Result<Bounds> {
    Ok(Bounds {
        longest: case.parsed(0)?,
        most: case.parsed(1)?,
    })
}

/// Writes the answer of the next call, and says whether it is the last: a line in brackets, `!` for one that is too
/// long, `.` at the end, `F` for a fault, `M` where the source gave too much, `E` where an earlier call had a fault.
fn push_next<S: Source>(answer: &mut Buffer, reader: &mut LineReader, source: &mut S) -> bool {
    let (text, is_last) = match reader.next(source) {
        Ok(NextLine::Line) => {
            answer.push_bracketed(reader.line());
            ("", false)
        }
        Ok(NextLine::TooLong) => ("!", false),
        Ok(NextLine::End) => (".", true),
        Err(LineFault::Failed) => ("F", false),
        Err(LineFault::TooMuch) => ("M", false),
        Err(LineFault::OutOfMemory) => ("out of memory", true),
        Err(LineFault::EarlierFault) => ("E", true),
    };
    answer.push(text);
    is_last
}

/// Writes the answers of a reader's calls, up to the end.
fn push_lines<S: Source>(
    alloc: Global,
    answer: &mut Buffer,
    source: &mut S,
    bounds: Bounds,
) -> Result<(), AllocError> {
    let mut reader = LineReader::new(alloc, bounds.longest, bounds.most)?;
    for _ in 0..MAX_CALLS {
        if push_next(answer, &mut reader, source) {
            return Ok(());
        }
    }
    Ok(())
}

/// The numbers of the calls that fail, divided by commas; none where the column is empty.
fn failing_calls(alloc: Global, case: &Case) -> io::Result<Seq<u64>> {
    let mut numbers = Vec::new(alloc);
    for part in case.text(2)?.split(',') {
        if !part.is_empty() {
            let Ok(number) = part.parse::<u64>() else {
                return Err(invalid());
            };
            numbers.push(number)?;
        }
    }
    Ok(Seq::from(numbers))
}

/// A source of the case's text that fails at the case's calls.
fn source_of(alloc: Global, case: &Case) -> io::Result<MemorySource> {
    let failing = failing_calls(alloc, case)?;
    Ok(MemorySource::new(Seq::from(case.bytes(3).to_vec(alloc)?), failing))
}

/// The answers where the text is read byte by byte.
fn read_singly(alloc: Global, case: &Case, bounds: Bounds) -> io::Result<Buffer> {
    let inner = source_of(alloc, case)?;
    let mut answer = Buffer::new(alloc);
    push_lines(alloc, &mut answer, &mut OneByOne { inner }, bounds)?;
    Ok(answer)
}

/// The most bytes of a line, the most of the source, the calls that fail, and the text: the answers of a reader's
/// calls, and, unless the text is too long, those over a source that gives one byte at a time, where they differ.
pub fn read(alloc: Global, case: &Case, answer: &mut Buffer) -> io::Result<()> {
    let bounds = bounds_of(case)?;
    let mut source = source_of(alloc, case)?;
    push_lines(alloc, answer, &mut source, bounds)?;
    if case.bytes(3).len() as u64 <= bounds.most {
        answer.push_difference(", but byte by byte ", &read_singly(alloc, case, bounds)?);
    }
    Ok(())
}
