//! Reads texts and JSON values as cells of a type.
ghost use Rattle.std.specs.Prelude.{◌≡◌, IfOk, IsErr, IsSome, Some, option_map, pos};
ghost use Rattle.portal_base.specs.Kinds.{text_in};
ghost use Rattle.table_schema.specs.Form.{kind_of};
ghost use Rattle.table_schema.specs.Reading.{text_reading, value_reading, default_form, whole_cell, truth_cell};
ghost use Rattle.lexical_forms.specs.Number.{i64_only, default_spelling};

use crate::cell::Cell;
use crate::form::{Form, Kind};
use crate::stamp::stamp_of;
use crate::truth::{default_truth_of, truth_of};
use lexical_forms::{NumberForm, parse_integer, parse_number};
use portal_base::calendar::{date_of, second_of, year_month_of, year_of};
use portal_base::json_value::Json;
use portal_base::text::Text;
use std::alloc::{AllocError, Global};

/// The count of billionths in one.
const BILLION: i128 = 1_000_000_000;

/// The bound of whole numbers that fit a number cell: they have at most 18 digits.
const WHOLE_LIMIT: i128 = 1_000_000_000_000_000_000;

/// The spelling of numbers without options.
const DEFAULT_SPELLING: NumberForm = NumberForm {
    decimal: '.',
    group: None,
    bare: true,
};

/// Reads a text as a cell of the type, by its options. Returns none if it isn't a text of the type. Only a text cell
/// takes memory.
pub(crate) fn cell_of(alloc: Global, form: &Form, text: &str) -> Result<Option<Cell>, AllocError>
    ensures cell { IfOk result (λ cell. cell ≡ text_reading form.now text.now) }
    ensures memory { IsErr result → kind_of form.now ≡ Kind.Text }
{
    Ok(match form {
        Form::Text => Some(Cell::Text(Text::from_str(alloc, text)?)),
        Form::Integer(bare) => parse_integer(*bare, text).map(Cell::Int),
        Form::Number(spelling) => parse_number(*spelling, text).map(Cell::Number),
        Form::Boolean(truths) => truth_of(truths, text).map(Cell::Truth),
        Form::Date => date_of(text.as_bytes()).map(Cell::Date),
        Form::Time => second_of(text.as_bytes()).map(Cell::Time),
        Form::Datetime => stamp_of(text.as_bytes()).map(Cell::Stamp),
        Form::Year => year_of(text.as_bytes()).map(Cell::Year),
        Form::YearMonth => year_month_of(text.as_bytes()).map(|(year, month)| Cell::YearMonth(
            year, month,
        )),
    })
}

/// Reads a text as a cell of the type, by the default options. Only a text cell takes memory.
fn default_cell_of(alloc: Global, kind: Kind, text: &str) -> Result<Option<Cell>, AllocError>
    ensures cell { IfOk result (λ cell. cell ≡ text_reading (default_form kind) text.now) }
    ensures memory { IsErr result → kind ≡ Kind.Text }
{
    let form = match kind {
        Kind::Text => Form::Text,
        Kind::Integer => Form::Integer(true),
        Kind::Number => Form::Number(DEFAULT_SPELLING),
        Kind::Boolean => return Ok(default_truth_of(text).map(Cell::Truth)),
        Kind::Date => Form::Date,
        Kind::Time => Form::Time,
        Kind::Datetime => Form::Datetime,
        Kind::Year => Form::Year,
        Kind::YearMonth => Form::YearMonth,
    };
    cell_of(alloc, &form, text)
}

/// Reads a JSON value as a cell of the type. Texts are read by the default options. Returns none if it isn't a value of
/// the type. Only a text cell takes memory.
pub fn value_of(alloc: Global, kind: Kind, value: &Json) -> Result<Option<Cell>, AllocError>
    ensures cell { IfOk result (λ cell. cell ≡ value_reading kind value.now) }
    ensures memory { IsErr result → (kind ≡ Kind.Text) × IsSome (text_in value.now) }
{
    match value {
        Json::Truth(truth) => Ok(truth_cell_of(kind, *truth)),
        Json::Whole(number) => Ok(whole_cell_of(kind, *number)),
        Json::Text(text) => default_cell_of(alloc, kind, text.as_str()),
        Json::Null | Json::List(_) | Json::Map(_) => Ok(None),
    }
}

fn truth_cell_of(kind: Kind, truth: bool) -> Option<Cell>
    ensures { result ≡ truth_cell kind truth }
{
    match kind {
        Kind::Boolean => Some(Cell::Truth(truth)),
        _ => None,
    }
}

fn whole_cell_of(kind: Kind, number: i128) -> Option<Cell>
    ensures { result ≡ whole_cell kind number }
{
    match kind {
        Kind::Integer => match i64::try_from(number) {
            Ok(number) => Some(Cell::Int(number)),
            Err(_) => None,
        },
        Kind::Number if -WHOLE_LIMIT < number && number < WHOLE_LIMIT => Some(Cell::Number(
            number * BILLION,
        )),
        Kind::Year if 0 <= number && number <= 9999 => Some(Cell::Year(number as u16)),
        _ => None,
    }
}
