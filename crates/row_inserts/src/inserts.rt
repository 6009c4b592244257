//! The inserts of the rows of a source, in order.
ghost use Rattle.std.specs.Prelude.{◌≡◌, ◌↔◌, ◌≢◌, ◌<◌, ◌≤◌, ◌^◌, ℕ, List, [], length, true, false, Ok, Err, None};
ghost use Rattle.std.specs.Prelude.{IfOk, IfErr, OnOk};
ghost use Rattle.std.specs.Result.{is_err};
ghost use Rattle.portal_base.specs.Outside.{Gives, IsAtEnd, Rose};
ghost use Rattle.typed_csv.specs.declared.loader.Stage.TheVariants as stage;
ghost use Rattle.row_inserts.specs.InsertsValue.{Answers, Begins, IsGiven, RefusesHeader, inserts_value};
ghost use Rattle.row_inserts.specs.Piece.{piece_with};
ghost use Rattle.row_inserts.specs.Records.{columns_of};

use crate::piece::{Insert, Piece};
use crate::records::{Record, columns_of};
use portal_base::outside::Source;
use row_records::Column;
use std::alloc::{AllocError, Global};
use std::marker::Model;
use table_schema::Schema;
use typed_csv::{LoadFault, Loader};

/// Returns the inserts of the rows of a source of CSV (RFC 4180) by a schema of Table Schema v1. Each has the next
/// rows, as many as fit: at most 500, and fewer if the body would have more than 200,000 bytes with one more row. A row
/// that is too long by itself has an insert of its own. An insert is returned as soon as no further row fits. Between
/// two calls the rows of at most one insert are held, besides what a loader holds.
#[derive(Drop)]
pub struct Inserts<S: Source> {
    alloc: Global,
    columns: Vec<Column>,
    loader: Loader<S>,
    piece: Piece,
    /// Whether a call returned an error.
    is_spent: bool,
}

impl<S: Source> Model for Inserts<S> {
    ghost use Rattle.row_inserts.specs.InsertsValue.{InsertsValue, IsConsistentInserts, inserts_value};

    ghost Value = { InsertsValue S };

    ghost use Rattle.portal_base.specs.contracts.json_value.Json as json;
    ghost use Rattle.std.specs.Coded.{codes};

    ghost coded = { Prim.hlevel (codes, json.the_row.coded, S.code) };

    ghost view = { λ i. inserts_value i.loader i.piece i.is_spent };

    ghost invariant = { λ i. IsConsistentInserts i.columns.items i.loader i.is_spent };
}

impl<S: Source> Inserts<S> {
    /// Reads the header. The text names the resource whose table gets the rows. An error comes with the source, as far
    /// as it was read.
    ///
    /// The errors are `NotUtf8(0)`, `Header`, `ReadFault`, `TooLong` and `OutOfMemory`.
    pub fn start(
        alloc: Global,
        schema: Schema,
        resource: &str,
        source: S,
    ) -> Result<Inserts<S>, (LoadFault, S)>
        ensures begins { IfOk result (λ inserts.
            Begins resource.now schema.fields (S.to_come source) inserts.remaining) }
        ensures stage { IfOk result
            (λ inserts. (inserts.resource ≡ resource.now) × (inserts.is_spent ≡ false)) }
        ensures received { IfOk result (λ inserts. (bytes : List ℕ)
            × Gives (S.to_come source) bytes (S.to_come inserts.source)
            × (inserts.given ≡ length bytes) × (length bytes ≤ 2 ^ 40)) }
        ensures counts { IfOk result (λ inserts. S.faults source ≤ S.faults inserts.source) }
        ensures loan { IfOk result (λ inserts. S.loan inserts.source ≡ S.loan source) }

        ensures refused { IfErr result (λ back.
            RefusesHeader resource.now schema.fields (S.to_come source) back.0) }
        ensures returned { IfErr result (λ back. (bytes : List ℕ) × Gives (S.to_come source) bytes (S.to_come back.1)
            × ((back.0 ≡ LoadFault.TooLong) ↔ (2 ^ 40 < length bytes))) }
        ensures failed { IfErr result
            (λ back. back.0 ≡ LoadFault.ReadFault → Rose (S.faults source) (S.faults back.1)) }
        ensures counted { IfErr result (λ back. S.faults source ≤ S.faults back.1) }
        ensures lent { IfErr result (λ back. S.loan back.1 ≡ S.loan source) }
    {
        let (columns, piece) = match begun(alloc, &schema, resource) {
            Ok(begun) => begun,
            Err(_refused) => return Err((LoadFault::OutOfMemory, source)),
        };
        match Loader::start(alloc, schema, source) {
            Ok(loader) => Ok(Inserts {
                alloc,
                columns,
                loader,
                piece,
                is_spent: false,
            }),
            Err(back) => Err(back),
        }
    }

    /// Returns the next insert, or none at the end. If an insert would contain a row with an error, the error of the
    /// row is returned in its place.
    ///
    /// The errors are those of a loader. After an error each call returns `Spent`.
    pub fn next(&mut self) -> Result<Option<Insert>, LoadFault>
        ensures answers { Answers self.old.resource self.old.remaining result self.new.remaining }
        ensures resource { self.new.resource ≡ self.old.resource }
        ensures received { IsGiven S.to_come self.old self.new }
        ensures end { result ≡ Ok None → IsAtEnd (S.to_come self.new.source) }
        ensures spent { (result ≡ Err LoadFault.Spent) ↔ (self.old.is_spent ≡ true) }
        ensures left { self.new.is_spent ≡ is_err result }
        ensures failed { result ≡ Err LoadFault.ReadFault → Rose (S.faults self.old.source) (S.faults self.new.source) }
        ensures counts { S.faults self.old.source ≤ S.faults self.new.source }
        ensures loan { S.loan self.new.source ≡ S.loan self.old.source }
        ensures limit { result ≢ Err LoadFault.Spent → ((result ≡ Err LoadFault.TooLong) ↔ (2 ^ 40 < self.new.given)) }
    {
        if self.is_spent {
            return Err(LoadFault::Spent);
        }
        self.is_spent = true;
        let insert = gather(
            self.alloc,
            self.columns.as_slice(),
            &mut self.loader,
            &mut self.piece,
        )?;
        self.is_spent = false;
        Ok(insert)
    }

    /// The source, as far as it was read.
    pub fn into_source(self) -> S
        ensures { result ≡ self.source }
    {
        self.loader.into_source()
    }
}

/// Reads rows up to the end of an insert, which is returned, or up to the end of the source.
fn gather<S: Source>(
    alloc: Global,
    columns: &[Column],
    loader: &mut Loader<S>,
    piece: &mut Piece,
) -> Result<Option<Insert>, LoadFault>
    requires columns { columns.now ≡ columns_of loader.old.fields }
    requires loads { loader.old.stage ≢ stage.Spent }
    requires within { loader.old.given ≤ 2 ^ 40 }
    ensures answers { Answers piece.old.resource (inserts_value loader.old piece.old false).remaining result
        (inserts_value loader.new piece.new false).remaining }
    ensures resource { piece.new.resource ≡ piece.old.resource }
    ensures fields { loader.new.fields ≡ loader.old.fields }
    ensures goes_on { OnOk result (loader.new.stage ≢ stage.Spent) }
    ensures spent { result ≢ Err LoadFault.Spent }
    ensures received { IsGiven S.to_come (inserts_value loader.old piece.old false)
        (inserts_value loader.new piece.new false) }
    ensures end { result ≡ Ok None → IsAtEnd (S.to_come loader.new.source) }
    ensures failed { result ≡ Err LoadFault.ReadFault
        → Rose (S.faults loader.old.source) (S.faults loader.new.source) }
    ensures counts { S.faults loader.old.source ≤ S.faults loader.new.source }
    ensures loan { S.loan loader.new.source ≡ S.loan loader.old.source }
    ensures limit { (result ≡ Err LoadFault.TooLong) ↔ (2 ^ 40 < loader.new.given) }
{
    while !piece.is_full() {
        let Some(cells) = loader.next()? else {
            return Ok(piece.take_rest()?);
        };
        let record = Record::of_row(alloc, columns, cells.as_slice())?;
        if let Some(insert) = piece.put(record)? {
            return Ok(Some(insert));
        }
    }
    Ok(Some(piece.take()?))
}

/// The columns of a schema, and an empty piece.
fn begun(alloc: Global, schema: &Schema, resource: &str) -> Result<(Vec<Column>, Piece), AllocError>
    ensures columns { IfOk result (λ begun. begun.0.items ≡ columns_of schema.now.fields) }
    ensures piece { IfOk result (λ begun. begun.1 ≡ piece_with resource.now []) }
{
    let columns = columns_of(alloc, schema.fields().as_slice())?;
    let piece = Piece::new(alloc, resource)?;
    Ok((columns, piece))
}
