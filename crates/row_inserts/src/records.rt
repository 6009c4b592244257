//! Rows as records: the dictionaries for rows in the body of a call.
ghost use Rattle.std.specs.Prelude.{◌≡◌, All, IfOk, length, map};
ghost use Rattle.portal_base.specs.Json.{json_text};
ghost use Rattle.table_schema.specs.Printed.{IsValue};
ghost use Rattle.row_inserts.specs.Records.{columns_of};
ghost use Rattle.row_records.specs.Records.{record_of};

use portal_base::copy::TryClone;
use portal_base::json_value::Json;
use portal_base::seq::Seq;
use portal_base::text::Text;
use row_records::{Column, record_json};
use std::alloc::{AllocError, Global};
use std::marker::Model;
use table_schema::{Cell, Field};

/// The names of these fields.
fn names_of(alloc: Global, fields: &[Field]) -> Result<Seq<Text>, AllocError>
    ensures { IfOk result (λ names. names ≡ map (λ f. f.name) fields.now) }
{
    let mut names = Vec::with_capacity(alloc, fields.len())?;
    for field in fields {
        names.push(field.name().try_clone(alloc)?)?;
    }
    Ok(Seq::from(names))
}

/// The columns of these fields, sorted by name.
pub fn columns_of(alloc: Global, fields: &[Field]) -> Result<Vec<Column>, AllocError>
    ensures { IfOk result (λ columns. columns.items ≡ columns_of fields.now) }
{
    let names = names_of(alloc, fields)?;
    row_records::columns_of(alloc, names.as_slice())
}

/// A record, and the length of its compact text in bytes.
#[derive(Drop)]
pub struct Record {
    value: Json,
    size: usize,
}

impl Model for Record {
    ghost use Rattle.std.specs.Prelude.{◌≡◌, length};
    ghost use Rattle.portal_base.specs.Json.{json_text};
    ghost use Rattle.portal_base.specs.declared.json_value.Json.{Json};

    ghost Value = { Json };

    ghost use Rattle.portal_base.specs.contracts.json_value.Json as json;

    ghost coded = { json.the_row.coded };

    ghost view = { λ r. r.value };

    ghost invariant = { λ r. r.size ≡ length (json_text r.value) };
}

impl Record {
    /// The record of a row.
    pub fn of_row(alloc: Global, columns: &[Column], cells: &[Cell]) -> Result<Record, AllocError>
        requires { All IsValue cells.now }
        ensures { IfOk result (λ made. made ≡ record_of columns.now cells.now) }
    {
        let value = record_json(alloc, columns, cells)?;
        let size = value.text(alloc)?.len();
        Ok(Record { value, size })
    }

    /// The length of its compact text in bytes.
    pub fn size(&self) -> usize
        ensures { result ≡ length (json_text self.now) }
    {
        self.size
    }

    pub fn into_json(self) -> Json
        ensures { result ≡ self }
    {
        self.value
    }
}
