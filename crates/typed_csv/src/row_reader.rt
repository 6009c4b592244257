//! Reads the records after a header as rows.
ghost use Rattle.std.specs.Prelude.{◌≡◌, ◌↔◌, ◌≢◌, ◌<◌, ◌≤◌, ◌+◌, ◌^◌, IsOk, Ok, Err, None, All, IfOk, IfErr, IfSome};
ghost use Rattle.portal_base.specs.Outside.{IsAtEnd, Rose};
ghost use Rattle.table_schema.specs.Printed.{IsValue};
ghost use Rattle.typed_csv.specs.Calls.{IsOfSameColumns, Reads, remaining_rows};
ghost use Rattle.typed_csv.specs.LoaderValue.{IsRow, IsRowFault, number_after};
ghost use Rattle.typed_csv.specs.ReaderValue.{Receives};

use crate::chunk::Next;
use crate::fault::LoadFault;
use crate::header::Layout;
use crate::loader::Stage;
use crate::record_reader::RecordReader;
use crate::row::row_of;
use csv::StringRecord;
use portal_base::outside::Source;
use portal_base::seq::Seq;
use std::alloc::Global;
use table_schema::{Cell, Schema};

/// Reads the records after a header as rows, up to the first error.
#[derive(Drop)]
pub(crate) struct RowReader<S> {
    pub(crate) alloc: Global,
    pub(crate) schema: Schema,
    pub(crate) layout: Layout,
    pub(crate) records: RecordReader<S>,
    pub(crate) row: StringRecord,
    /// The count of rows so far.
    pub(crate) number: u64,
}

impl<S: Source> RowReader<S> {
    /// Reads the next row. Returns none at the end.
    pub(crate) fn next(&mut self) -> Result<Option<Seq<Cell>>, LoadFault>
        ensures reads { Reads (remaining_rows S.to_come Stage.Reading self.old) result
            (remaining_rows S.to_come Stage.Reading self.new) }
        ensures row { IfOk result
            (λ row. IfSome row (IsRow self.old.schema.fields self.old.layout self.old.number)) }
        ensures value { IfOk result (λ row. IfSome row (λ cells. All IsValue cells)) }
        ensures cause { IfErr result (IsRowFault self.old.schema.fields self.old.layout self.old.number) }
        ensures number { self.new.number ≡ number_after self.old.number result }
        ensures fault { result ≢ Err LoadFault.Spent }
        ensures end { result ≡ Ok None → IsAtEnd (S.to_come self.new.records.source) }
        ensures kept { IsOfSameColumns self.old self.new }
        ensures received { Receives S.to_come self.old.records self.new.records }
        ensures failed { result ≡ Err LoadFault.ReadFault
            → Rose (S.faults self.old.records.source) (S.faults self.new.records.source) }
        ensures counts { S.faults self.old.records.source ≤ S.faults self.new.records.source }
        ensures loan { S.loan self.new.records.source ≡ S.loan self.old.records.source }
        ensures limit { (result ≡ Err LoadFault.TooLong) ↔ (2 ^ 40 < self.new.records.given) }
    {
        let next = self.records.next(&mut self.row)?;
        let number = next_number(self.number)?;
        match next {
            Next::Record => {}
            Next::NotText => return Err(LoadFault::NotUtf8(number)),
            Next::End => return Ok(None),
        }
        let cells = row_of(
            self.alloc,
            self.schema.fields().as_slice(),
            &self.layout,
            number,
            &self.row,
        )?;
        self.number = number;
        Ok(Some(cells))
    }
}

// The number of the row after this one. Only past the last number, which no source reaches, the error is `OutOfMemory`.
fn next_number(number: u64) -> Result<u64, LoadFault>
    ensures next { IfOk result (λ next. next ≡ number + 1) }
    ensures answers { number + 1 < 2 ^ 64 → IsOk result }
    ensures refused { IfErr result (λ fault. fault ≡ LoadFault.OutOfMemory) }
{
    match number.checked_add(1) {
        Some(next) => Ok(next),
        None => Err(LoadFault::OutOfMemory),
    }
}
