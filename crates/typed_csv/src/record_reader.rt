//! Reads the records of a source in pieces.
ghost use Rattle.std.specs.Prelude.{◌≡◌, ◌↔◌, ◌<◌, ◌≤◌, ◌^◌, [], length, true, false, Ok, Err, IfErr, OnOk};
ghost use Rattle.csv.specs.Records.{fields_of};
ghost use Rattle.portal_base.specs.Outside.{IsAtEnd, Rose};
ghost use Rattle.typed_csv.specs.Faults.{IsOutside};
ghost use Rattle.typed_csv.specs.Records.{is_text};
ghost use Rattle.typed_csv.specs.ReaderValue.{remaining_records, Receives, TakesFirst, BeginsNotText, IsNoneLeft};
ghost use Rattle.typed_csv.specs.Pieces.{IsRoom};
ghost use Rattle.typed_csv.specs.Positions.{IsIncomplete};

use crate::chunk::Next;
use crate::fault::LoadFault;
use crate::pieces::Pieces;
use csv::StringRecord;
use portal_base::outside::Source;
use std::alloc::{AllocError, Global};
use std::marker::Model;

/// The count of bytes that one read asks the source for.
const PIECE_SIZE: usize = 65_536;

/// The maximum count of bytes that the source may give.
const MAX_BYTES: u64 = 1 << 40;

// Makes room for a piece.
fn make_room(alloc: Global, room: &mut Vec<u8>) -> Result<(), AllocError>
    requires { IsRoom room.old.items }
    ensures kept { IsRoom room.new.items }
    ensures made { OnOk result (length room.new.items ≡ 65536) }
{
    if room.is_empty() {
        *room = vec![in alloc; 0; PIECE_SIZE]?;
    }
    Ok(())
}

/// Reads the records of a source. Between two calls it holds only the complete records of a piece and the incomplete
/// record after them.
#[derive(Drop)]
pub(crate) struct RecordReader<S> {
    alloc: Global,
    source: S,
    /// Room for a piece, made at the first read.
    room: Vec<u8>,
    pieces: Pieces,
    given: u64,
}

impl<S> Model for RecordReader<S> {
    ghost use Rattle.typed_csv.specs.ReaderValue.{ReaderValue};
    ghost use Rattle.typed_csv.specs.Pieces.{IsRoom};
    ghost use Rattle.typed_csv.specs.Positions.{IsIncomplete};

    ghost Value = { ReaderValue S };

    ghost view = { λ r. record {
      source = r.source;
      ready = r.pieces.ready;
      held = r.pieces.held;
      given = r.given;
      is_fresh = r.pieces.is_fresh;
    } };

    ghost invariant = { λ r. IsRoom r.room.items };
}

impl<S: Source> RecordReader<S> {
    /// A reader that has read nothing yet.
    pub(crate) fn new(alloc: Global, source: S) -> RecordReader<S>
        ensures { result ≡ record { source = source; ready = []; held = []; given = 0; is_fresh = true } }
    {
        RecordReader {
            alloc,
            source,
            room: Vec::new(alloc),
            pieces: Pieces::new(alloc),
            given: 0,
        }
    }

    /// The source, as far as it was read.
    pub(crate) fn into_source(self) -> S
        ensures { result ≡ self.source }
    {
        self.source
    }

    /// Reads the next record into `row`.
    pub(crate) fn next(&mut self, row: &mut StringRecord) -> Result<Next, LoadFault>
        ensures took { result ≡ Ok Next.Record
            → TakesFirst (remaining_records S.to_come self.old) (fields_of row.new)
            (remaining_records S.to_come self.new) }
        ensures text { result ≡ Ok Next.Record → is_text (fields_of row.new) ≡ true }
        ensures bytes { result ≡ Ok Next.NotText → BeginsNotText (remaining_records S.to_come self.old) }
        ensures end { result ≡ Ok Next.End → IsNoneLeft (remaining_records S.to_come self.old) }
        ensures at_end { result ≡ Ok Next.End → IsAtEnd (S.to_come self.new.source) }
        ensures held { IsIncomplete self.old.is_fresh self.old.held
            → OnOk result (IsIncomplete self.new.is_fresh self.new.held) }
        ensures received { Receives S.to_come self.old self.new }
        ensures fault { IfErr result IsOutside }
        ensures failed { result ≡ Err LoadFault.ReadFault → Rose (S.faults self.old.source) (S.faults self.new.source) }
        ensures counts { S.faults self.old.source ≤ S.faults self.new.source }
        ensures loan { S.loan self.new.source ≡ S.loan self.old.source }
        ensures limit { (result ≡ Err LoadFault.TooLong) ↔ (2 ^ 40 < self.new.given) }
    {
        if self.given > MAX_BYTES {
            return Err(LoadFault::TooLong);
        }
        loop {
            let next = self.pieces.take(row)?;
            if next != Next::End {
                return Ok(next);
            }
            if !self.advance()? {
                return Ok(self.take_last(row)?);
            }
        }
    }

    // Reads a piece. Returns false at the end of the source.
    fn advance(&mut self) -> Result<bool, LoadFault>
        requires ready { self.old.ready ≡ [] }
        requires within { self.old.given ≤ 2 ^ 40 }
        ensures remaining { OnOk result (remaining_records S.to_come self.new ≡ remaining_records S.to_come self.old) }
        ensures rises { result ≡ Ok true → self.old.given < self.new.given }
        ensures end { result ≡ Ok false → IsAtEnd (S.to_come self.new.source) × (self.new.ready ≡ []) }
        ensures held { IsIncomplete self.old.is_fresh self.old.held
            → OnOk result (IsIncomplete self.new.is_fresh self.new.held) }
        ensures received { Receives S.to_come self.old self.new }
        ensures fault { IfErr result IsOutside }
        ensures failed { result ≡ Err LoadFault.ReadFault → Rose (S.faults self.old.source) (S.faults self.new.source) }
        ensures counts { S.faults self.old.source ≤ S.faults self.new.source }
        ensures loan { S.loan self.new.source ≡ S.loan self.old.source }
        ensures limit { (result ≡ Err LoadFault.TooLong) ↔ (2 ^ 40 < self.new.given) }
    {
        make_room(self.alloc, &mut self.room)?;
        let count = self.source.read(self.room.as_mut_slice())?;
        if count == 0 {
            return Ok(false);
        }
        self.given += count as u64;
        if self.given > MAX_BYTES {
            return Err(LoadFault::TooLong);
        }
        self.pieces.add(&self.room[..count])?;
        Ok(true)
    }

    // Takes the next record of the held bytes, since the source has ended.
    fn take_last(&mut self, row: &mut StringRecord) -> Result<Next, AllocError>
        requires ready { self.old.ready ≡ [] }
        requires end { IsAtEnd (S.to_come self.old.source) }
        ensures took { result ≡ Ok Next.Record
            → TakesFirst (remaining_records S.to_come self.old) (fields_of row.new)
            (remaining_records S.to_come self.new) }
        ensures text { result ≡ Ok Next.Record → is_text (fields_of row.new) ≡ true }
        ensures bytes { result ≡ Ok Next.NotText → BeginsNotText (remaining_records S.to_come self.old) }
        ensures none { result ≡ Ok Next.End → IsNoneLeft (remaining_records S.to_come self.old) }
        ensures source { self.new.source ≡ self.old.source }
        ensures given { self.new.given ≡ self.old.given }
        ensures held { OnOk result (IsIncomplete self.new.is_fresh self.new.held) }
    {
        self.pieces.finish()?;
        self.pieces.take(row)
    }
}
