//! Prints cells as texts and as JSON values.
ghost use Rattle.std.specs.Prelude.{◌≡◌, ◌<◌, ◌≤◌, ◌++◌, IfOk, OnOk, Ok, string_bytes};
ghost use Rattle.portal_base.specs.MomentText.{two_digits, clock_text};
ghost use Rattle.table_schema.specs.Field.{FieldValue};
ghost use Rattle.table_schema.specs.Reading.{Accepts, record_reading};
ghost use Rattle.portal_base.specs.Calendar.{IsDay};
ghost use Rattle.table_schema.specs.Printed.{IsValue, date_text, year_month_text, cell_text, cell_value};

use crate::cell::Cell;
use lexical_forms::{number_text, push_digit};
use portal_base::copy::TryClone;
use portal_base::json_value::Json;
use portal_base::moment::Moment;
use portal_base::text::Text;
use std::alloc::{AllocError, Global};

/// The JSON value of a cell. A field that accepts the cell reads the value as that cell.
pub fn cell_json(alloc: Global, cell: &Cell) -> Result<Json, AllocError>
    requires { IsValue cell.now }
    ensures value { IfOk result (λ value. value ≡ cell_value cell.now) }
    ensures back { IfOk result (λ value. (field : FieldValue) → Accepts field cell.now →
        record_reading field value ≡ Ok cell.now) }
{
    match cell {
        Cell::Null => Ok(Json::Null),
        Cell::Int(number) => Ok(Json::Whole(i128::from(*number))),
        Cell::Truth(truth) => Ok(Json::Truth(*truth)),
        Cell::Year(year) => Ok(Json::Whole(i128::from(*year))),
        _ => Ok(Json::Text(cell_text(alloc, cell)?)),
    }
}

/// The text of a cell. If the JSON value of the cell is a text, it is this one.
#[tactic(auto, unfolding(crate::specs::Printed::cell_text))]
pub fn cell_text(alloc: Global, cell: &Cell) -> Result<Text, AllocError>
    requires { IsValue cell.now }
    ensures { IfOk result (λ text. text ≡ cell_text cell.now) }
{
    match cell {
        Cell::Null => Text::from_str(alloc, "null"),
        Cell::Text(text) => text.try_clone(alloc),
        Cell::Int(number) => Ok(Text::from(format!(in alloc; "{number}")?)),
        Cell::Number(billionths) => Ok(Text::from(number_text(alloc, *billionths)?)),
        Cell::Truth(true) => Text::from_str(alloc, "true"),
        Cell::Truth(false) => Text::from_str(alloc, "false"),
        Cell::Date(day) => date_text(alloc, *day),
        Cell::Time(second) => time_text(alloc, *second),
        Cell::Stamp(moment) => moment.text(alloc),
        Cell::Year(year) => Ok(Text::from(format!(in alloc; "{year}")?)),
        Cell::YearMonth(year, month) => year_month_text(alloc, *year, *month),
    }
}

fn date_text(alloc: Global, day: i32) -> Result<Text, AllocError>
    requires { IsDay day }
    ensures { IfOk result (λ text. text ≡ date_text day) }
{
    let moment = Moment::from_seconds(i64::from(day) * 86_400).unwrap();
    let text = moment.text(alloc)?;
    let (date, _) = text.as_str().split_at(10);
    Text::from_str(alloc, date)
}

fn time_text(alloc: Global, second: u32) -> Result<Text, AllocError>
    requires { second < 86400 }
    ensures { IfOk result (λ text. text ≡ clock_text second) }
{
    let moment = Moment::from_seconds(i64::from(second)).unwrap();
    let text = moment.text(alloc)?;
    let (_, time) = text.as_str().split_at(11);
    Text::from_str(alloc, time)
}

fn year_month_text(alloc: Global, year: u16, month: u8) -> Result<Text, AllocError>
    requires year { year ≤ 9999 }
    requires month { month ≤ 12 }
    ensures { IfOk result (λ text. text ≡ year_month_text year month) }
{
    let mut text = String::new(alloc);
    push_two_digits(&mut text, (year / 100) as u8)?;
    push_two_digits(&mut text, (year % 100) as u8)?;
    text.push('-')?;
    push_two_digits(&mut text, month)?;
    Ok(Text::from(text))
}

fn push_two_digits(text: &mut String, number: u8) -> Result<(), AllocError>
    requires { number < 100 }
    ensures { OnOk result (string_bytes text.new ≡ string_bytes text.old ++ two_digits number) }
{
    push_digit(text, number / 10)?;
    push_digit(text, number % 10)
}
