//! Lines of a source of bytes, each of bounded length.
ghost use Rattle.std.specs.Prelude.{◌≡◌, ◌↔◌, ◌<◌, ◌≤◌, ◌+◌, ◌≢◌, ◌==◌, ℕ, List, [], ◌++◌, ◌∷◌, length, drop};
ghost use Rattle.std.specs.Prelude.{position, true, false, Ok, Err, IfOk, OnOk, OnErr, is_err};
ghost use Rattle.std.specs.Str.Lines.{strip_carriage_return};
ghost use Rattle.portal_base.specs.Outside.{Gives, Rose, IsAtEnd};
ghost use Rattle.portal_lines.specs.Lines.{TakesLine, SkipsLine, FindsEnd, Receives, ReceivesNoEnd, LosesStart};
ghost use Rattle.portal_lines.specs.Lines.{bytes_left};
ghost use Rattle.portal_lines.specs.PartialLines.{KeepsRaw, TakesPiece};

use portal_base::outside::{Failed, Source};
use std::alloc::{AllocError, Global};
use std::marker::Model;

/// How many bytes a reader of lines asks of its source at once.
const WINDOW: usize = 65_536;

/// What the next line is.
#[derive(Clone, Copy, Debug, PartialEq, Eq)]
pub enum NextLine {
    /// A line, which the reader holds.
    Line,
    /// A line of more than the longest length, which the reader doesn't keep.
    TooLong,
    /// No line is left.
    End,
}

/// Why the next line can't be read.
#[derive(Clone, Copy, Debug, PartialEq, Eq)]
pub enum LineFault {
    /// The source failed.
    Failed,
    /// The source gave more bytes than it may.
    TooMuch,
    OutOfMemory,
    /// An earlier call had a fault, and the reader reads nothing more.
    EarlierFault,
}

impl From<Failed> for LineFault {
    ghost use Rattle.std.specs.Prelude.{◌≡◌};
    ghost use Rattle.portal_lines.specs.declared.lines.LineFault.TheVariants.{Failed as failed};

    ghost from_gives = { λ _ fault. fault ≡ failed };

    fn from(_failed: Failed) -> LineFault {
        LineFault::Failed
    }
}

impl From<AllocError> for LineFault {
    ghost use Rattle.std.specs.Prelude.{◌≡◌};
    ghost use Rattle.portal_lines.specs.declared.lines.LineFault.TheVariants.{OutOfMemory};

    ghost from_gives = { λ _ fault. fault ≡ OutOfMemory };

    fn from(_error: AllocError) -> LineFault {
        LineFault::OutOfMemory
    }
}

/// The bytes that a source gave and that are still to be used, in a buffer of fixed size.
#[derive(Drop)]
struct Window {
    buffer: Vec<u8>,
    start: usize,
    end: usize,
}

impl Model for Window {
    ghost use Rattle.std.specs.Prelude.{◌≡◌, ◌≤◌, ℕ, List, length, slice_range};

    ghost Value = { List ℕ };

    ghost view = { λ w. slice_range w.buffer.items w.start w.end };

    ghost invariant = { λ w. (w.start ≤ w.end) × (w.end ≤ 65536) × (length w.buffer.items ≡ 65536) };
}

impl Window {
    fn new(alloc: Global) -> Result<Window, AllocError>
        ensures { IfOk result (λ window. window ≡ []) }
    {
        let buffer = vec![in alloc; 0; WINDOW]?;
        Ok(Window {
            buffer,
            start: 0,
            end: 0,
        })
    }

    fn bytes(&self) -> &[u8]
        ensures { result.now ≡ self.now }
    {
        &self.buffer[self.start..self.end]
    }

    fn skip(&mut self, count: usize)
        requires { count ≤ length self.old }
        ensures { self.new ≡ drop count self.old }
    {
        self.start += count;
    }

    // Reads the next bytes in place of the buffered ones, and returns their count.
    fn fill<S: Source>(&mut self, source: &mut S) -> Result<usize, Failed>
        ensures count { IfOk result (λ count. count ≡ length self.new) }
        ensures bytes { OnOk result (Gives (S.to_come source.old) self.new (S.to_come source.new)) }
        ensures end { result ≡ Ok 0 → IsAtEnd (S.to_come source.old) }
        ensures empty { OnErr result (self.new ≡ []) }
        ensures kept { OnErr result (S.to_come source.new ≡ S.to_come source.old) }
        ensures loan { S.loan source.new ≡ S.loan source.old }
        ensures failed { OnErr result (Rose (S.faults source.old) (S.faults source.new)) }
        ensures counts { S.faults source.old ≤ S.faults source.new }
    {
        self.start = 0;
        self.end = 0;
        let count = source.read(self.buffer.as_mut_slice())?;
        self.end = count;
        Ok(count)
    }
}

// The index of the first line feed.
fn find_feed(bytes: &[u8]) -> Option<usize>
    ensures { result ≡ position (λ b. b == 10) bytes.now }
{
    bytes.iter().position(|byte| *byte == b'\n')
}

/// The bytes of a line before its line feed, as far as they were read. `is_over` says that they are more than a line of
/// the longest length and a carriage return; then `kept` lacks some of them.
#[derive(Drop)]
struct PartialLine {
    kept: Vec<u8>,
    is_over: bool,
}

impl PartialLine {
    // Starts a line.
    fn clear(&mut self)
        ensures kept { self.new.kept.items ≡ [] }
        ensures over { self.new.is_over ≡ false }
    {
        self.kept.clear();
        self.is_over = false;
    }

    // Adds a piece where the line may still be one of at most `longest` bytes and a carriage return.
    fn add(&mut self, longest: usize, piece: &[u8]) -> Result<(), AllocError>
        ensures added { OnOk result ((raw : List ℕ) → KeepsRaw longest raw self.old.kept.items self.old.is_over →
            KeepsRaw longest (raw ++ piece.now) self.new.kept.items self.new.is_over) }
        ensures bound { length self.old.kept.items ≤ longest + 1 → length self.new.kept.items ≤ longest + 1 }
    {
        if self.is_over {
            return Ok(());
        }
        if self.kept.len() as u128 + piece.len() as u128 > longest as u128 + 1 {
            self.is_over = true;
            return Ok(());
        }
        self.kept.extend_from_slice(piece)
    }

    // Moves the bytes before the first line feed off the front of the window, drops the line feed, and returns whether
    // there was one.
    fn take_from(&mut self, longest: usize, window: &mut Window) -> Result<bool, AllocError>
        ensures taken { IfOk result (λ found. (piece : List ℕ) × TakesPiece found window.old piece window.new
            × ((raw : List ℕ) → KeepsRaw longest raw self.old.kept.items self.old.is_over →
            KeepsRaw longest (raw ++ piece) self.new.kept.items self.new.is_over)) }
        ensures same { OnErr result (window.new ≡ window.old) }
        ensures bound { length self.old.kept.items ≤ longest + 1 → length self.new.kept.items ≤ longest + 1 }
    {
        let bytes = window.bytes();
        match find_feed(bytes) {
            Some(index) => {
                self.add(longest, &bytes[..index])?;
                window.skip(index + 1);
                Ok(true)
            }
            None => {
                self.add(longest, bytes)?;
                let count = bytes.len();
                window.skip(count);
                Ok(false)
            }
        }
    }

    // Drops a carriage return at the end.
    fn strip(&mut self)
        ensures kept { self.new.kept.items ≡ strip_carriage_return self.old.kept.items }
        ensures over { self.new.is_over ≡ self.old.is_over }
    {
        if self.kept.last() == Some(&b'\r') {
            self.kept.pop();
        }
    }

    // What the line is, once it is complete.
    fn measure(&self, longest: usize) -> NextLine
        ensures line { result ≡ NextLine.Line → (self.now.is_over ≡ false) × (length self.now.kept.items ≤ longest) }
        ensures long { result ≡ NextLine.TooLong → self.now.is_over ≡ false → longest < length self.now.kept.items }
        ensures some { result ≢ NextLine.End }
    {
        if self.is_over || self.kept.len() > longest {
            NextLine::TooLong
        } else {
            NextLine::Line
        }
    }

    // What the line is, where the source ended before a line feed.
    fn measure_last(&self, longest: usize) -> NextLine
        ensures end { result ≡ NextLine.End ↔ ((self.now.is_over ≡ false) × (self.now.kept.items ≡ [])) }
        ensures line { result ≡ NextLine.Line → (self.now.is_over ≡ false) × (length self.now.kept.items ≤ longest) }
        ensures long { result ≡ NextLine.TooLong → self.now.is_over ≡ false → longest < length self.now.kept.items }
    {
        if !self.is_over && self.kept.is_empty() {
            NextLine::End
        } else {
            self.measure(longest)
        }
    }
}

/// Reads lines. A line feed ends a line, one carriage return before it is no part of the line, and the last line may
/// lack its line feed. After a fault, which may lose the start of a line, it reads nothing more.
#[derive(Drop)]
pub struct LineReader {
    window: Window,
    partial: PartialLine,
    received: u128,
    longest: usize,
    limit: u64,
    has_failed: bool,
}

impl Model for LineReader {
    ghost use Rattle.portal_lines.specs.Lines.{ReaderState};

    ghost Value = { ReaderState };

    ghost view = { λ r. record {
      buffered = r.window;
      line = r.partial.kept.items;
      received = r.received;
      longest = r.longest;
      limit = r.limit;
      has_failed = r.has_failed;
    } };
}

impl LineReader {
    /// A reader that has read nothing. A line has at most `longest` bytes without its end, and the source may give at
    /// most `limit` bytes in all.
    pub fn new(alloc: Global, longest: usize, limit: u64) -> Result<LineReader, AllocError>
        ensures { IfOk result (λ reader. reader ≡ record {
          buffered = [];
          line = [];
          received = 0;
          longest = longest;
          limit = limit;
          has_failed = false;
        }) }
    {
        let window = Window::new(alloc)?;
        Ok(LineReader {
            window,
            partial: PartialLine {
                kept: Vec::new(alloc),
                is_over: false,
            },
            received: 0,
            longest,
            limit,
            has_failed: false,
        })
    }

    /// The current line, after `Line`.
    pub fn line(&self) -> &[u8]
        ensures { result.now ≡ self.now.line }
    {
        self.partial.kept.as_slice()
    }

    /// Reads to the end of the next line, and keeps at most `longest` + 1 bytes of it. A fault may lose the bytes of
    /// the line that were read so far. So the reader is spent with its first fault: each later call reads nothing and
    /// fails with `EarlierFault`, and no line lacks its start.
    pub fn next<S: Source>(&mut self, source: &mut S) -> Result<NextLine, LineFault>
        ensures longest { self.new.longest ≡ self.old.longest }
        ensures limit { self.new.limit ≡ self.old.limit }
        ensures kept { length self.new.line ≤ self.new.longest + 1 }
        ensures counts { S.faults source.old ≤ S.faults source.new }
        ensures loan { S.loan source.new ≡ S.loan source.old }

        ensures line { result ≡ Ok NextLine.Line →
            TakesLine self.old (S.to_come source.old) self.new.line self.new (S.to_come source.new) }
        ensures short { result ≡ Ok NextLine.Line → length self.new.line ≤ self.new.longest }
        ensures long { result ≡ Ok NextLine.TooLong →
            SkipsLine self.old (S.to_come source.old) self.new (S.to_come source.new) }
        ensures end { result ≡ Ok NextLine.End →
            FindsEnd self.old (S.to_come source.old) self.new (S.to_come source.new) }
        ensures falls { IfOk result (λ next. next ≢ NextLine.End → bytes_left self.new < bytes_left self.old) }

        ensures received { OnErr result
            (Receives self.old (S.to_come source.old) self.new (S.to_come source.new)) }
        ensures failed { result ≡ Err LineFault.Failed → Rose (S.faults source.old) (S.faults source.new) }
        ensures lost { OnErr result
            (LosesStart self.old (S.to_come source.old) self.new (S.to_come source.new)) }
        // The reader holds no complete line back.
        ensures unended { result ≡ Err LineFault.Failed →
            ReceivesNoEnd self.old (S.to_come source.old) self.new (S.to_come source.new) }
        ensures too_much { (result ≡ Err LineFault.TooMuch)
            ↔ ((self.old.has_failed ≡ false) × (self.new.limit < self.new.received)) }
        ensures within { OnOk result (self.new.received ≤ self.new.limit) }

        // A call fails with `EarlierFault` exactly if a call before it failed, and then it reads nothing.
        ensures fails { self.new.has_failed ≡ is_err result }
        ensures earlier { (self.old.has_failed ≡ true) ↔ (result ≡ Err LineFault.EarlierFault) }
        ensures unread { self.old.has_failed ≡ true →
            (source.new ≡ source.old) × (self.new ≡ record self.old { line = [] }) }
    {
        self.partial.clear();
        if self.has_failed {
            return Err(LineFault::EarlierFault);
        }
        // Every way out of the loop is a fault, but for the two that take this back.
        self.has_failed = true;
        loop {
            if self.received > u128::from(self.limit) {
                return Err(LineFault::TooMuch);
            }
            if self.partial.take_from(self.longest, &mut self.window)? {
                self.partial.strip();
                self.has_failed = false;
                return Ok(self.partial.measure(self.longest));
            }
            let count = self.window.fill(source)?;
            if count == 0 {
                self.has_failed = false;
                return Ok(self.partial.measure_last(self.longest));
            }
            self.received += count as u128;
        }
    }
}
