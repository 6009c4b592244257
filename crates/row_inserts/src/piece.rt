//! A piece of records that are inserted together.
ghost use Rattle.std.specs.Prelude.{◌≡◌, ◌∷◌, [], ◌++◌, ◌≤◌, ◌^◌, None, Ok, OnOk, OnErr, IfOk, IfSome};
ghost use Rattle.row_inserts.specs.Inserts.{fit, insert_body, insert_size, is_full};
ghost use Rattle.row_inserts.specs.Piece.{Clears, IsInsertOf, Puts, piece_with, takes};

use crate::records::Record;
use portal_base::dictionary::Value;
use portal_base::json_value::Json;
use portal_base::seq::Seq;
use portal_base::text::Text;
use std::alloc::{AllocError, Global};
use std::marker::Model;
use std::mem;

/// The maximum count of records in a piece.
const MAX_RECORDS: usize = 500;

/// The maximum length of an insert's body in bytes. A piece of one record may be longer.
const MAX_BYTES: usize = 200_000;

/// The body of the insert of these records into the table of the resource.
fn insert_body(alloc: Global, resource: &str, records: Seq<Json>) -> Result<Json, AllocError>
    ensures { IfOk result (λ body. body ≡ insert_body resource.now records) }
{
    Json::dictionary(
        alloc,
        [
            ("method", Value::Static("insert")),
            ("records", Value::List(records)),
            ("resource_id", Value::Str(resource)),
        ],
    )
}

/// Records that wait for their insert. Contracts see the text that names the resource, and the records.
#[derive(Drop)]
pub struct Piece {
    alloc: Global,
    resource: Text,
    records: Seq<Json>,
    /// The length of the insert's body in bytes.
    size: usize,
    /// The length of the body without records in bytes.
    empty_size: usize,
}

impl Model for Piece {
    ghost use Rattle.row_inserts.specs.Piece.{IsSized, PieceValue};

    ghost Value = { PieceValue };

    ghost use Rattle.portal_base.specs.contracts.json_value.Json as json;
    ghost use Rattle.std.specs.Coded.{codes};

    ghost coded = { Prim.hlevel (codes, json.the_row.coded) };

    ghost view = { λ p. record { resource = p.resource; records = p.records } };

    ghost invariant = { λ p. IsSized p.resource p.records p.size p.empty_size };
}

/// The body of an insert, and the length of its compact text in bytes.
#[derive(Drop)]
pub struct Insert {
    pub body: Json,
    pub size: usize,
}

impl Piece {
    /// A piece without records.
    pub fn new(alloc: Global, resource: &str) -> Result<Piece, AllocError>
        ensures { IfOk result (λ piece. piece ≡ piece_with resource.now []) }
    {
        let empty = insert_body(alloc, resource, Seq::new(alloc))?;
        let empty_size = empty.text(alloc)?.len();
        Ok(Piece {
            alloc,
            resource: Text::from_str(alloc, resource)?,
            records: Seq::new(alloc),
            size: empty_size,
            empty_size,
        })
    }

    /// The length of the insert's body in bytes with this record after the others. Returns none if it doesn't fit a
    /// `usize`.
    fn size_with(&self, added: &Record) -> Option<usize>
        ensures size { IfSome result
            (λ size. size ≡ insert_size self.now.resource (self.now.records ++ added.now ∷ [])) }
        ensures large { result ≡ None
            → 2 ^ 64 ≤ insert_size self.now.resource (self.now.records ++ added.now ∷ []) }
    {
        if self.records.is_empty() {
            self.size.checked_add(added.size())
        } else {
            self.size.checked_add(1)?.checked_add(added.size())
        }
    }

    /// Whether the records fit one insert with this record after them.
    fn fits(&self, added: &Record) -> bool
        ensures { result ≡ fit self.now.resource (self.now.records ++ added.now ∷ []) }
    {
        match self.size_with(added) {
            Some(size) => self.records.len() < MAX_RECORDS && size <= MAX_BYTES,
            None => false,
        }
    }

    /// Whether the piece takes this record. An empty piece takes any.
    fn takes(&self, added: &Record) -> bool
        ensures { result ≡ takes self.now added.now }
    {
        self.records.is_empty() || self.fits(added)
    }

    /// Whether the piece is full, so that no further record fits. An empty piece is never full.
    pub fn is_full(&self) -> bool
        ensures { result ≡ is_full self.now.resource self.now.records }
    {
        if self.records.is_empty() {
            return false;
        }
        self.records.len() >= MAX_RECORDS || self.size > MAX_BYTES
    }

    /// Appends a record. If memory runs out, nothing changes.
    fn add(&mut self, added: Record) -> Result<(), AllocError>
        ensures put { OnOk result (self.new ≡ piece_with self.old.resource (self.old.records ++ added ∷ [])) }
        ensures same { OnErr result (self.new ≡ self.old) }
    {
        let Some(size) = self.size_with(&added) else {
            return Err(AllocError);
        };
        if self.records.push(added.into_json()).is_err() {
            return Err(AllocError);
        }
        self.size = size;
        Ok(())
    }

    /// Takes all records out, as their insert. If memory runs out, they are lost.
    pub fn take(&mut self) -> Result<Insert, AllocError>
        ensures insert { IfOk result (IsInsertOf self.old.resource self.old.records) }
        ensures empty { self.new ≡ piece_with self.old.resource [] }
    {
        let size = mem::replace(&mut self.size, self.empty_size);
        let records = mem::replace(&mut self.records, Seq::new(self.alloc));
        let body = insert_body(self.alloc, self.resource.as_str(), records)?;
        Ok(Insert { body, size })
    }

    /// Appends a record if it fits. Otherwise the records so far are returned as their insert, and the record is the
    /// first of the next one. If memory runs out, records may be lost.
    pub fn put(&mut self, added: Record) -> Result<Option<Insert>, AllocError>
        ensures put { IfOk result (λ insert. Puts self.old added insert self.new) }
        ensures resource { self.new.resource ≡ self.old.resource }
    {
        if self.takes(&added) {
            self.add(added)?;
            return Ok(None);
        }
        let insert = self.take()?;
        self.add(added)?;
        Ok(Some(insert))
    }

    /// Takes all records out, as their insert, if there are any, which alone takes memory. If memory runs out, they are
    /// lost.
    pub fn take_rest(&mut self) -> Result<Option<Insert>, AllocError>
        ensures cleared { IfOk result (λ insert. Clears self.old insert self.new) }
        ensures none { self.old.records ≡ [] → result ≡ Ok None }
        ensures resource { self.new.resource ≡ self.old.resource }
    {
        if !self.records.is_empty() {
            return Ok(Some(self.take()?));
        }
        Ok(None)
    }
}
