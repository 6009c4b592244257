//! Splits the bytes of a source where records end.
ghost use Rattle.std.specs.Prelude.{◌≡◌, ◌≤◌, ℕ, List, [], ◌∷◌, ◌++◌, length, take, drop, true, false, Some, Ok, OnOk};
ghost use Rattle.csv.specs.Reading.{strip_bom};
ghost use Rattle.csv.specs.Records.{fields_of};
ghost use Rattle.typed_csv.specs.Records.{is_text};
ghost use Rattle.typed_csv.specs.ReaderValue.{text_records, BeginsNotText};
ghost use Rattle.typed_csv.specs.Pieces.{records_with};
ghost use Rattle.typed_csv.specs.Positions.{has_start, IsIncomplete, position_after};

use crate::chunk::{Chunk, Next};
use crate::scan::{Position, scan};
use csv::StringRecord;
use std::alloc::{AllocError, Global};
use std::marker::Model;

/// The bytes of a byte order mark.
const BYTE_ORDER_MARK: [u8; 3] = [0xEF, 0xBB, 0xBF];

/// The part of the bytes so far that is still needed.
#[derive(Drop)]
pub(crate) struct Pieces {
    alloc: Global,
    /// The complete records.
    ready: Option<Chunk>,
    /// The bytes after the complete records.
    held: Vec<u8>,
    /// The count of these bytes that were scanned.
    scanned: usize,
    /// The position in their record at which the scanned bytes end.
    position: Position,
    /// Whether a byte order mark may still come.
    is_fresh: bool,
}

impl Model for Pieces {
    ghost use Rattle.typed_csv.specs.Pieces.{Kept, ready_records, IsScanned};

    ghost Value = { Kept };

    ghost view = { λ p. record { ready = ready_records p.ready; held = p.held.items; is_fresh = p.is_fresh } };

    ghost invariant = { λ p. IsScanned p.held.items p.scanned p.position p.is_fresh };
}

impl Pieces {
    /// The state before the first byte.
    pub(crate) fn new(alloc: Global) -> Pieces
        ensures { result ≡ record { ready = []; held = []; is_fresh = true } }
    {
        Pieces {
            alloc,
            ready: None,
            held: Vec::new(alloc),
            scanned: 0,
            position: Position::RecordStart,
            is_fresh: true,
        }
    }

    /// Takes the next one of the complete records.
    pub(crate) fn take(&mut self, row: &mut StringRecord) -> Result<Next, AllocError>
        ensures took { result ≡ Ok Next.Record → self.old.ready ≡ fields_of row.new ∷ self.new.ready }
        ensures text { result ≡ Ok Next.Record → is_text (fields_of row.new) ≡ true }
        ensures bytes { result ≡ Ok Next.NotText → BeginsNotText (Some self.old.ready) }
        ensures end { result ≡ Ok Next.End → (self.old.ready ≡ []) × (self.new.ready ≡ []) }
        ensures held { self.new.held ≡ self.old.held }
        ensures fresh { self.new.is_fresh ≡ self.old.is_fresh }
    {
        let Some(chunk) = &mut self.ready else {
            return Ok(Next::End);
        };
        let next = chunk.next(row)?;
        if next == Next::End {
            self.ready = None;
        }
        Ok(next)
    }

    /// Adds a piece of the source. Afterwards the held bytes have no complete record.
    pub(crate) fn add(&mut self, piece: &[u8]) -> Result<(), AllocError>
        requires { self.old.ready ≡ [] }
        ensures records { OnOk result
            ((rest : List ℕ) → records_with self.new rest ≡ records_with self.old (piece.now ++ rest)) }
        ensures held { OnOk result (IsIncomplete self.new.is_fresh self.new.held) }
    {
        self.extend(piece)?;
        if !self.is_fresh {
            return self.cut();
        }
        if self.held.len() < BYTE_ORDER_MARK.len() {
            return Ok(());
        }
        self.strip()?;
        self.cut()
    }

    // Appends a piece to the held bytes.
    fn extend(&mut self, piece: &[u8]) -> Result<(), AllocError>
        ensures held { OnOk result (self.new.held ≡ self.old.held ++ piece.now) }
        ensures ready { self.new.ready ≡ self.old.ready }
        ensures fresh { self.new.is_fresh ≡ self.old.is_fresh }
    {
        self.held.extend_from_slice(piece)
    }

    // Drops a byte order mark.
    fn strip(&mut self) -> Result<(), AllocError>
        requires { self.old.is_fresh ≡ true }
        ensures held { OnOk result (self.new.held ≡ strip_bom self.old.held) }
        ensures ready { self.new.ready ≡ self.old.ready }
        ensures fresh { OnOk result (self.new.is_fresh ≡ false) }
    {
        let text = Vec::from_slice(self.alloc, without_mark(self.held.as_slice()))?;
        self.held = text;
        self.is_fresh = false;
        Ok(())
    }

    // Scans the bytes that weren't scanned yet, and reads those up to the last end of a record as complete records.
    fn cut(&mut self) -> Result<(), AllocError>
        requires ready { self.old.ready ≡ [] }
        requires fresh { self.old.is_fresh ≡ false }
        ensures records { OnOk result ((rest : List ℕ) → records_with self.new rest ≡ records_with self.old rest) }
        ensures held { OnOk result (IsIncomplete self.new.is_fresh self.new.held) }
    {
        let scanned = scan(self.position, &self.held[self.scanned..]);
        match scanned.records_end {
            None => {
                self.scanned = self.held.len();
                self.position = scanned.position;
                Ok(())
            }
            Some(count) => {
                let end = self.scanned + count;
                self.split(end, scanned.position)
            }
        }
    }

    // Reads the bytes before `end` as complete records. The held bytes end at `position`.
    fn split(&mut self, end: usize, position: Position) -> Result<(), AllocError>
        requires ready { self.old.ready ≡ [] }
        requires fresh { self.old.is_fresh ≡ false }
        requires within { end ≤ length self.old.held }
        requires ends { position_after Position.RecordStart (take end self.old.held) ≡ Position.RecordStart }
        requires position { position ≡ position_after Position.RecordStart self.old.held }
        requires last { has_start Position.RecordStart (drop end self.old.held) ≡ false }
        ensures records { OnOk result ((rest : List ℕ) → records_with self.new rest ≡ records_with self.old rest) }
        ensures held { OnOk result (IsIncomplete self.new.is_fresh self.new.held) }
    {
        let (complete, rest) = self.held.split_at(end);
        let rest = Vec::from_slice(self.alloc, rest)?;
        self.ready = Some(Chunk::new(self.alloc, complete)?);
        self.scanned = rest.len();
        self.held = rest;
        self.position = position;
        Ok(())
    }

    /// Reads all held bytes as complete records, since the source has ended.
    pub(crate) fn finish(&mut self) -> Result<(), AllocError>
        ensures ready { OnOk result (self.new.ready ≡ text_records self.old.is_fresh self.old.held) }
        ensures held { OnOk result (self.new.held ≡ []) }
        ensures fresh { OnOk result (self.new.is_fresh ≡ false) }
    {
        if self.is_fresh {
            self.strip()?;
        }
        self.ready = Some(Chunk::new(self.alloc, self.held.as_slice())?);
        self.held.clear();
        self.scanned = 0;
        self.position = Position::RecordStart;
        Ok(())
    }
}

// The bytes without a byte order mark at their start.
fn without_mark(bytes: &[u8]) -> &[u8]
    ensures { result.now ≡ strip_bom bytes.now }
{
    match bytes.strip_prefix(&BYTE_ORDER_MARK) {
        Some(text) => text,
        None => bytes,
    }
}
