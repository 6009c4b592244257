//! The loader: reads the rows of a source in order.
ghost use Rattle.std.specs.Prelude.{◌≡◌, ◌↔◌, ◌≢◌, ◌<◌, ◌≤◌, ◌^◌, ℕ, List, length, Ok, Err, None, All, IfOk, IfErr};
ghost use Rattle.std.specs.Prelude.{IfSome};
ghost use Rattle.portal_base.specs.Outside.{Gives, IsAtEnd, Rose};
ghost use Rattle.table_schema.specs.Printed.{IsValue};
ghost use Rattle.typed_csv.specs.Calls.{RefusesRecords, TakesHeader};
ghost use Rattle.typed_csv.specs.LoaderValue.{Answers, Begins, IsGiven, IsHeaderFault, IsLayout, IsOfSameFile, IsRow};
ghost use Rattle.typed_csv.specs.LoaderValue.{IsRowFault, IsObservable, RefusesHeader, number_after, stage_after};
ghost use Rattle.typed_csv.specs.ReaderValue.{Receives, remaining_records};

use crate::chunk::Next;
use crate::fault::LoadFault;
use crate::header::{Layout, layout_of};
use crate::record_reader::RecordReader;
use crate::row_reader::RowReader;
use csv::StringRecord;
use portal_base::outside::Source;
use portal_base::seq::Seq;
use std::alloc::Global;
use std::marker::Model;
use table_schema::{Cell, Field, Schema};

/// The state of a loader.
#[derive(Clone, Copy, Debug, PartialEq, Eq)]
pub(crate) enum Stage {
    /// Rows may be left.
    Reading,
    /// The end was reached.
    Ended,
    /// A call returned an error.
    Spent,
}

/// Reads the rows of a source of CSV (RFC 4180) by a schema of Table Schema v1. The records are those that the crate
/// `csv` reads with its default settings, except that their widths may differ. A byte order mark at the start is
/// dropped. The first record is the header. A column without a name is skipped, and a field without a column reads the
/// empty text.
#[derive(Drop)]
pub struct Loader<S: Source> {
    rows: RowReader<S>,
    stage: Stage,
}

impl<S: Source> Model for Loader<S> {
    ghost use Rattle.typed_csv.specs.Calls.{remaining_rows};
    ghost use Rattle.typed_csv.specs.LoaderValue.{IsConsistentLoader, LoaderValue};

    ghost Value = { LoaderValue S };

    ghost view = { λ l. record {
      source = l.rows.records.source;
      given = l.rows.records.given;
      fields = l.rows.schema.fields;
      layout = l.rows.layout;
      number = l.rows.number;
      stage = l.stage;
      remaining = remaining_rows S.to_come l.stage l.rows;
    } };

    ghost invariant = { λ l. IsConsistentLoader l.stage l.rows.records.given (S.to_come l.rows.records.source) };
}

impl<S: Source> Loader<S> {
    /// Reads the header. An error comes with the source, as far as it was read.
    ///
    /// The errors are `NotUtf8(0)`, `Header`, `ReadFault`, `TooLong` and `OutOfMemory`.
    pub fn start(alloc: Global, schema: Schema, source: S) -> Result<Loader<S>, (LoadFault, S)>
        ensures begins { IfOk result (λ loader. Begins schema.fields (S.to_come source) loader.remaining) }
        ensures observable { IfOk result
            (λ loader. IsObservable loader.stage (S.to_come loader.source) loader.remaining) }
        ensures stage { IfOk result
            (λ loader. (loader.fields ≡ schema.fields) × (loader.number ≡ 0) × (loader.stage ≡ Stage.Reading)) }
        ensures header { IfOk result (λ loader. IsLayout schema.fields loader.layout) }
        ensures received { IfOk result (λ loader. (bytes : List ℕ)
            × Gives (S.to_come source) bytes (S.to_come loader.source)
            × (loader.given ≡ length bytes) × (length bytes ≤ 2 ^ 40)) }
        ensures counts { IfOk result (λ loader. S.faults source ≤ S.faults loader.source) }
        ensures loan { IfOk result (λ loader. S.loan loader.source ≡ S.loan source) }

        ensures refused { IfErr result (λ back. RefusesHeader schema.fields (S.to_come source) back.0) }
        ensures cause { IfErr result (λ back. IsHeaderFault schema.fields back.0) }
        ensures returned { IfErr result (λ back. (bytes : List ℕ) × Gives (S.to_come source) bytes (S.to_come back.1)
            × ((back.0 ≡ LoadFault.TooLong) ↔ (2 ^ 40 < length bytes))) }
        ensures failed { IfErr result
            (λ back. back.0 ≡ LoadFault.ReadFault → Rose (S.faults source) (S.faults back.1)) }
        ensures counted { IfErr result (λ back. S.faults source ≤ S.faults back.1) }
        ensures lent { IfErr result (λ back. S.loan back.1 ≡ S.loan source) }
    {
        let mut records = RecordReader::new(alloc, source);
        let mut row = StringRecord::new(alloc);
        match read_header(alloc, schema.fields().as_slice(), &mut records, &mut row) {
            Ok(layout) => Ok(Loader {
                rows: RowReader {
                    alloc,
                    schema,
                    layout,
                    records,
                    row,
                    number: 0,
                },
                stage: Stage::Reading,
            }),
            Err(fault) => Err((fault, records.into_source())),
        }
    }

    /// Reads the next row, with a cell for each field in the schema's order. Returns none at the end.
    ///
    /// The errors of a row are tried in this order: `NotUtf8`, `Width`, and `Cell` of the first bad cell. Cells are
    /// tried in the order of the header's columns, and those of fields without a column last, in the schema's order.
    /// `ReadFault`, `TooLong` and `OutOfMemory` may come at any row. After an error each call returns `Spent`.
    pub fn next(&mut self) -> Result<Option<Seq<Cell>>, LoadFault>
        ensures answers { Answers self.old.remaining result self.new.remaining }
        ensures observable { IsObservable self.new.stage (S.to_come self.new.source) self.new.remaining }
        ensures row { IfOk result (λ row. IfSome row (IsRow self.old.fields self.old.layout self.old.number)) }
        ensures value { IfOk result (λ row. IfSome row (λ cells. All IsValue cells)) }
        ensures cause { IfErr result (IsRowFault self.old.fields self.old.layout self.old.number) }
        ensures number { self.new.number ≡ number_after self.old.number result }
        ensures spent { (result ≡ Err LoadFault.Spent) ↔ (self.old.stage ≡ Stage.Spent) }
        ensures stage { self.new.stage ≡ stage_after result }
        ensures at_end { result ≡ Ok None → IsAtEnd (S.to_come self.new.source) }
        ensures ended { self.old.stage ≡ Stage.Ended → result ≡ Ok None }
        ensures unchanged { self.old.stage ≢ Stage.Reading → self.new ≡ self.old }
        ensures kept { IsOfSameFile self.old self.new }
        ensures received { IsGiven S.to_come self.old self.new }
        ensures failed { result ≡ Err LoadFault.ReadFault → Rose (S.faults self.old.source) (S.faults self.new.source) }
        ensures counts { S.faults self.old.source ≤ S.faults self.new.source }
        ensures loan { S.loan self.new.source ≡ S.loan self.old.source }
        ensures limit { result ≢ Err LoadFault.Spent → ((result ≡ Err LoadFault.TooLong) ↔ (2 ^ 40 < self.new.given)) }
    {
        match self.stage {
            Stage::Reading => {}
            Stage::Ended => return Ok(None),
            Stage::Spent => return Err(LoadFault::Spent),
        }
        self.stage = Stage::Spent;
        let row = self.rows.next()?;
        self.stage = match &row {
            Some(_) => Stage::Reading,
            None => Stage::Ended,
        };
        Ok(row)
    }

    /// The source, as far as it was read.
    pub fn into_source(self) -> S
        ensures { result ≡ self.source }
    {
        self.rows.records.into_source()
    }
}

// Reads the layout from the first record.
fn read_header<S: Source>(
    alloc: Global,
    fields: &[Field],
    records: &mut RecordReader<S>,
    row: &mut StringRecord,
) -> Result<Layout, LoadFault>
    ensures begins { IfOk result
        (λ layout. TakesHeader fields.now (remaining_records S.to_come records.old) layout
        (remaining_records S.to_come records.new)) }
    ensures refused { IfErr result (RefusesRecords fields.now (remaining_records S.to_come records.old)) }
    ensures header { IfOk result (IsLayout fields.now) }
    ensures cause { IfErr result (IsHeaderFault fields.now) }
    ensures received { Receives S.to_come records.old records.new }
    ensures failed { result ≡ Err LoadFault.ReadFault
        → Rose (S.faults records.old.source) (S.faults records.new.source) }
    ensures counts { S.faults records.old.source ≤ S.faults records.new.source }
    ensures loan { S.loan records.new.source ≡ S.loan records.old.source }
    ensures limit { (result ≡ Err LoadFault.TooLong) ↔ (2 ^ 40 < records.new.given) }
{
    match records.next(row)? {
        Next::Record => layout_of(alloc, fields, row),
        Next::NotText => Err(LoadFault::NotUtf8(0)),
        Next::End => Err(LoadFault::Header(1)),
    }
}
