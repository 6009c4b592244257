//! Fields, which read texts and JSON values as cells.
ghost use Rattle.std.specs.Prelude.{◌≡◌, ◌≢◌, IfOk, IfErr, IsSome, Ok, Err, false};
ghost use Rattle.std.specs.Arc.{arc_value};
ghost use Rattle.portal_base.specs.Kinds.{text_in};
ghost use Rattle.table_schema.specs.Form.{kind_of};
ghost use Rattle.table_schema.specs.Printed.{IsValue};
ghost use Rattle.table_schema.specs.Reading.{cell_reading, record_reading, null_reading, kept, Reads, IsFault};
ghost use Rattle.table_schema.specs.Truth.{is_among};

use crate::cell::{Cell, CellError, CellFault};
use crate::column::Column;
use crate::constraint::Constraints;
use crate::form::{Form, Kind};
use crate::listed::ListedTexts;
use crate::reading::{cell_of, value_of};
use portal_base::json_value::Json;
use portal_base::text::Text;
use std::alloc::Global;
use std::marker::Model;
use std::sync::Arc;

/// A field of a schema.
#[derive(Drop)]
pub struct Field {
    name: Text,
    form: Form,
    constraints: Constraints,
    /// The texts that are missing values. The fields of a schema share one list, which may be long.
    missing: Arc<ListedTexts>,
    in_key: bool,
}

impl Model for Field {
    ghost use Rattle.table_schema.specs.Field.{FieldValue};
    ghost use Rattle.std.specs.Arc.{arc_value};

    ghost Value = { FieldValue };

    ghost view = { λ f. record {
      name = f.name;
      form = f.form;
      constraints = f.constraints;
      missing = arc_value f.missing;
      in_key = f.in_key;
    } };
}

impl Field {
    pub fn name(&self) -> &Text
        ensures { result.now ≡ self.now.name }
    {
        &self.name
    }

    /// The type with the options that apply to it.
    pub fn form(&self) -> &Form
        ensures { result.now ≡ self.now.form }
    {
        &self.form
    }

    pub fn constraints(&self) -> &Constraints
        ensures { result.now ≡ self.now.constraints }
    {
        &self.constraints
    }

    /// Reads a text of a file as a cell. A missing value is `Null`, or the error `Required` if the field is required or
    /// in the primary key. Only a text cell takes memory.
    pub fn read_cell(&self, alloc: Global, text: &str) -> Result<Cell, CellError>
        ensures cell { IfOk result (Reads self.now text.now) }
        ensures value { IfOk result IsValue }
        ensures fault { IfErr result (IsFault (cell_reading self.now text.now)) }
        ensures memory { result ≡ Err CellError.OutOfMemory
            → (kind_of self.now.form ≡ Kind.Text) × (is_among self.now.missing text.now ≡ false) }
    {
        if self.missing.has(text) {
            return null_of(self.constraints.required || self.in_key);
        }
        kept(&self.constraints, cell_of(alloc, &self.form, text)?)
    }

    /// Reads a JSON value of a record as a cell. The options and missing values of the field don't apply. Only a text
    /// cell takes memory.
    pub fn of_json(&self, alloc: Global, value: &Json) -> Result<Cell, CellError>
        ensures cell { IfOk result (λ cell. record_reading self.now value.now ≡ Ok cell) }
        ensures value { IfOk result IsValue }
        ensures fault { IfErr result (IsFault (record_reading self.now value.now)) }
        ensures memory { result ≡ Err CellError.OutOfMemory
            → (kind_of self.now.form ≡ Kind.Text) × IsSome (text_in value.now) }
    {
        match value {
            Json::Null => null_of(self.constraints.required),
            _ => kept(&self.constraints, value_of(alloc, self.form.kind(), value)?),
        }
    }
}

impl Field {
    /// The field of a descriptor, with the parts that the whole schema gives it.
    pub(crate) fn of_column(column: Column, missing: Arc<ListedTexts>, in_key: bool) -> Field
        ensures { result
            ≡ record {
              name = column.name;
              form = column.form;
              constraints = column.constraints;
              missing = arc_value missing;
              in_key = in_key;
            } }
    {
        Field {
            name: column.name,
            form: column.form,
            constraints: column.constraints,
            missing,
            in_key,
        }
    }
}

// `Null`, unless a value is required.
fn null_of(required: bool) -> Result<Cell, CellError>
    ensures cell { IfOk result (λ cell. null_reading required ≡ Ok cell) }
    ensures fault { IfErr result (IsFault (null_reading required)) }
    ensures memory { result ≢ Err CellError.OutOfMemory }
{
    if required {
        Err(CellError::Fault(CellFault::Required))
    } else {
        Ok(Cell::Null)
    }
}

// The cell, if there is one and it keeps the constraints of the field.
fn kept(constraints: &Constraints, cell: Option<Cell>) -> Result<Cell, CellError>
    ensures cell { IfOk result (λ read. kept constraints.now cell ≡ Ok read) }
    ensures fault { IfErr result (IsFault (kept constraints.now cell)) }
    ensures memory { result ≢ Err CellError.OutOfMemory }
{
    let Some(cell) = cell else {
        return Err(CellError::Fault(CellFault::NotOfType));
    };
    match constraints.fault_of(&cell) {
        Some(fault) => Err(CellError::Fault(fault)),
        None => Ok(cell),
    }
}
