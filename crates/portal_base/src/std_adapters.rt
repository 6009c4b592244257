//! Sources and sinks over std's readers and writers. Their bytes are not observable.
ghost use Rattle.std.specs.Prelude.{◌≡◌, ◌<◌, ◌≤◌, length, IfSome};

use crate::outside::{Failed, Sink, Source};
use std::io::{Read, Write};
use std::marker::Model;

/// A source over a reader. Every error of the reader is a fault, also an interrupted read. A contract sees it as the
/// number of faults so far, up to the maximum of a `u64`.
#[derive(Drop)]
pub struct StdSource<R: Read> {
    reader: R,
    faults: u64,
}

impl<R: Read> Model for StdSource<R> {
    ghost use Rattle.std.specs.Prelude.{ℕ};

    ghost Value = { ℕ };

    ghost view = { λ s. s.faults };
}

impl<R: Read> StdSource<R> {
    pub fn new(reader: R) -> StdSource<R>
        ensures { result ≡ 0 }
    {
        StdSource { reader, faults: 0 }
    }
}

impl<R: Read> Source for StdSource<R> {
    ghost use Rattle.std.specs.Prelude.{None};

    ghost to_come = { λ _. None };

    ghost faults = { λ count. count };

    fn read(&mut self, into: &mut [u8]) -> Result<usize, Failed> {
        match self.reader.read(into) {
            Ok(count) => Ok(count),
            Err(_) => {
                self.faults = self.faults.saturating_add(1);
                Err(Failed)
            }
        }
    }
}

/// A sink over a writer. Each write flushes the writer, so that buffered bytes are not lost without a fault. Every
/// error of the writer is a fault, and so is a write that takes no byte of a nonempty piece. A contract sees it as the
/// number of faults so far, up to the maximum of a `u64`.
#[derive(Drop)]
pub struct StdSink<W: Write> {
    writer: W,
    faults: u64,
}

impl<W: Write> Model for StdSink<W> {
    ghost use Rattle.std.specs.Prelude.{ℕ};

    ghost Value = { ℕ };

    ghost view = { λ s. s.faults };
}

impl<W: Write> StdSink<W> {
    pub fn new(writer: W) -> StdSink<W>
        ensures { result ≡ 0 }
    {
        StdSink { writer, faults: 0 }
    }

    // Writes and flushes. The result is `None` if either fails.
    fn write_through(&mut self, piece: &[u8]) -> Option<usize>
        ensures within { IfSome result (λ count. count ≤ length piece.now) }
        ensures some { 0 < length piece.now → IfSome result (λ count. 0 < count) }
        ensures same { self.new ≡ self.old }
    {
        let count = self.writer.write(piece).ok()?;
        if count == 0 && !piece.is_empty() {
            return None;
        }
        self.writer.flush().ok()?;
        Some(count)
    }
}

impl<W: Write> Sink for StdSink<W> {
    ghost use Rattle.std.specs.Prelude.{None};

    ghost taken = { λ _. None };

    ghost faults = { λ count. count };

    fn write(&mut self, piece: &[u8]) -> Result<usize, Failed> {
        match self.write_through(piece) {
            Some(count) => Ok(count),
            None => {
                self.faults = self.faults.saturating_add(1);
                Err(Failed)
            }
        }
    }
}
