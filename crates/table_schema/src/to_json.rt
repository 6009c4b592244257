//! Writes the descriptor of a schema.
ghost use Rattle.std.specs.Prelude.{◌≡◌, ◌++◌, All, map, IfSome, IfOk, OnOk};
ghost use Rattle.portal_base.specs.declared.json_value.Json.{Whole as whole_value, List as list_value};
ghost use Rattle.table_schema.specs.Printed.{IsValue, HasValues, cell_value};
ghost use Rattle.table_schema.specs.Written.{texts_value, kind_name, member_where, member_if, allowed_member};
ghost use Rattle.table_schema.specs.Written.{constraints_value, bare_number_member, character_value};
ghost use Rattle.table_schema.specs.Written.{options_before_format};
ghost use Rattle.table_schema.specs.Written.{options_before_name, options_before_type, field_value, name_at};
ghost use Rattle.table_schema.specs.Written.{names_value, reference_value, foreign_key_value};

use crate::cell::Cell;
use crate::constraint::Constraints;
use crate::field::Field;
use crate::foreign::Foreign;
use crate::form::{Form, Kind};
use crate::members::Members;
use crate::print::cell_json;
use portal_base::json_value::Json;
use portal_base::seq::Seq;
use portal_base::text::Text;
use std::alloc::{AllocError, Global};

/// The list of field descriptors.
pub(crate) fn fields_json(alloc: Global, fields: &[Field]) -> Result<Json, AllocError>
    requires { All (λ f. HasValues f.constraints) fields.now }
    ensures { IfOk result (λ value. value ≡ list_value (map field_value fields.now)) }
{
    let mut list = Vec::with_capacity(alloc, fields.len())?;
    for field in fields {
        list.push(field_json(alloc, field)?)?;
    }
    Ok(Json::List(Seq::from(list)))
}

fn field_json(alloc: Global, field: &Field) -> Result<Json, AllocError>
    requires { HasValues field.now.constraints }
    ensures { IfOk result (λ value. value ≡ field_value field.now) }
{
    let form = field.form();
    let mut members = Members::new(alloc);
    add_bare_number(&mut members, form)?;
    members.add("constraints", constraints_json(alloc, field.constraints())?)?;
    add_before_format(alloc, &mut members, form)?;
    members.add_text("format", "default")?;
    add_before_name(alloc, &mut members, form)?;
    members.add_text("name", field.name().as_str())?;
    add_before_type(alloc, &mut members, form)?;
    members.add_text("type", kind_name(form.kind()))?;
    Ok(members.into_json())
}

fn add_bare_number(members: &mut Members, form: &Form) -> Result<(), AllocError>
    ensures { OnOk result (members.new ≡ members.old ++ bare_number_member form.now) }
{
    match form {
        Form::Integer(bare) => members.add("bareNumber", Json::Truth(*bare)),
        Form::Number(spelling) => members.add("bareNumber", Json::Truth(spelling.bare)),
        _ => Ok(()),
    }
}

fn add_before_format(alloc: Global, members: &mut Members, form: &Form) -> Result<(), AllocError>
    ensures { OnOk result (members.new ≡ members.old ++ options_before_format form.now) }
{
    match form {
        Form::Number(spelling) => {
            members.add("decimalChar", character_json(alloc, spelling.decimal)?)
        }
        Form::Boolean(truths) => members.add(
            "falseValues",
            texts_json(alloc, truths.false_values.as_slice())?,
        ),
        _ => Ok(()),
    }
}

fn add_before_name(alloc: Global, members: &mut Members, form: &Form) -> Result<(), AllocError>
    ensures { OnOk result (members.new ≡ members.old ++ options_before_name form.now) }
{
    let Form::Number(spelling) = form else {
        return Ok(());
    };
    match spelling.group {
        Some(group) => members.add("groupChar", character_json(alloc, group)?),
        None => Ok(()),
    }
}

fn add_before_type(alloc: Global, members: &mut Members, form: &Form) -> Result<(), AllocError>
    ensures { OnOk result (members.new ≡ members.old ++ options_before_type form.now) }
{
    match form {
        Form::Boolean(truths) => members.add(
            "trueValues",
            texts_json(alloc, truths.true_values.as_slice())?,
        ),
        _ => Ok(()),
    }
}

/// The name of a type (Table Schema v1, "Types and formats").
pub fn kind_name(kind: Kind) -> &'static str
    ensures { result.now ≡ kind_name kind }
{
    match kind {
        Kind::Text => "string",
        Kind::Integer => "integer",
        Kind::Number => "number",
        Kind::Boolean => "boolean",
        Kind::Date => "date",
        Kind::Time => "time",
        Kind::Datetime => "datetime",
        Kind::Year => "year",
        Kind::YearMonth => "yearmonth",
    }
}

fn character_json(alloc: Global, character: char) -> Result<Json, AllocError>
    ensures { IfOk result (λ value. value ≡ character_value character) }
{
    let mut text = String::new(alloc);
    text.push(character)?;
    Ok(Json::Text(Text::from(text)))
}

/// A list of texts.
pub(crate) fn texts_json(alloc: Global, texts: &[Text]) -> Result<Json, AllocError>
    ensures { IfOk result (λ value. value ≡ texts_value texts.now) }
{
    let mut list = Vec::with_capacity(alloc, texts.len())?;
    for text in texts {
        list.push(Json::Text(Text::from_str(alloc, text.as_str())?))?;
    }
    Ok(Json::List(Seq::from(list)))
}

fn constraints_json(alloc: Global, constraints: &Constraints) -> Result<Json, AllocError>
    requires { HasValues constraints.now }
    ensures { IfOk result (λ value. value ≡ constraints_value constraints.now) }
{
    let mut members = Members::new(alloc);
    add_allowed(alloc, &mut members, constraints.allowed.as_slice())?;
    add_length(&mut members, "maxLength", constraints.max_length)?;
    add_bound(alloc, &mut members, "maximum", &constraints.maximum)?;
    add_length(&mut members, "minLength", constraints.min_length)?;
    add_bound(alloc, &mut members, "minimum", &constraints.minimum)?;
    add_truth(&mut members, "required", constraints.required)?;
    add_truth(&mut members, "unique", constraints.unique)?;
    Ok(members.into_json())
}

fn add_allowed(alloc: Global, members: &mut Members, cells: &[Cell]) -> Result<(), AllocError>
    requires { All IsValue cells.now }
    ensures { OnOk result (members.new ≡ members.old ++ allowed_member cells.now) }
{
    if cells.is_empty() {
        return Ok(());
    }
    members.add("enum", cells_json(alloc, cells)?)
}

fn cells_json(alloc: Global, cells: &[Cell]) -> Result<Json, AllocError>
    requires { All IsValue cells.now }
    ensures { IfOk result (λ value. value ≡ list_value (map cell_value cells.now)) }
{
    let mut list = Vec::with_capacity(alloc, cells.len())?;
    for cell in cells {
        list.push(cell_json(alloc, cell)?)?;
    }
    Ok(Json::List(Seq::from(list)))
}

// Adds a length constraint, if there is one.
fn add_length(
    members: &mut Members,
    key: &'static str,
    length: Option<i128>,
) -> Result<(), AllocError>
    ensures { OnOk result (members.new ≡ members.old ++ member_where key.now whole_value length) }
{
    match length {
        Some(length) => members.add(key, Json::Whole(length)),
        None => Ok(()),
    }
}

// Adds a bound, if there is one.
fn add_bound(
    alloc: Global,
    members: &mut Members,
    key: &'static str,
    bound: &Option<Cell>,
) -> Result<(), AllocError>
    requires { IfSome bound.now IsValue }
    ensures { OnOk result (members.new ≡ members.old ++ member_where key.now cell_value bound.now) }
{
    match bound {
        Some(cell) => members.add(key, cell_json(alloc, cell)?),
        None => Ok(()),
    }
}

// Adds a truth value, but only if it is true.
fn add_truth(members: &mut Members, key: &'static str, truth: bool) -> Result<(), AllocError>
    ensures { OnOk result (members.new ≡ members.old ++ member_if key.now truth) }
{
    if truth {
        members.add(key, Json::Truth(true))
    } else {
        Ok(())
    }
}

/// The list of foreign keys.
pub(crate) fn foreign_keys_json(
    alloc: Global,
    fields: &[Field],
    foreign_keys: &[Foreign],
) -> Result<Json, AllocError>
    ensures { IfOk result (λ value. value ≡ list_value (map (foreign_key_value fields.now) foreign_keys.now)) }
{
    let mut list = Vec::with_capacity(alloc, foreign_keys.len())?;
    for foreign in foreign_keys {
        list.push(foreign_key_json(alloc, fields, foreign)?)?;
    }
    Ok(Json::List(Seq::from(list)))
}

fn foreign_key_json(alloc: Global, fields: &[Field], foreign: &Foreign) -> Result<Json, AllocError>
    ensures { IfOk result (λ value. value ≡ foreign_key_value fields.now foreign.now) }
{
    let mut members = Members::new(alloc);
    members.add(
        "fields",
        names_json(alloc, fields, foreign.fields.as_slice())?,
    )?;
    members.add("reference", reference_json(alloc, foreign)?)?;
    Ok(members.into_json())
}

fn reference_json(alloc: Global, foreign: &Foreign) -> Result<Json, AllocError>
    ensures { IfOk result (λ value. value ≡ reference_value foreign.now) }
{
    let mut members = Members::new(alloc);
    members.add("fields", texts_json(alloc, foreign.target.as_slice())?)?;
    members.add_text("resource", foreign.resource.as_str())?;
    Ok(members.into_json())
}

/// The list of the names of the fields at these indices.
pub(crate) fn names_json(
    alloc: Global,
    fields: &[Field],
    indices: &[u32],
) -> Result<Json, AllocError>
    ensures { IfOk result (λ value. value ≡ names_value fields.now indices.now) }
{
    let mut list = Vec::with_capacity(alloc, indices.len())?;
    for index in indices {
        let name = Text::from_str(alloc, name_at(fields, *index))?;
        list.push(Json::Text(name))?;
    }
    Ok(Json::List(Seq::from(list)))
}

fn name_at(fields: &[Field], index: u32) -> &str
    ensures { result.now ≡ name_at fields.now index }
{
    match fields.get(index as usize) {
        Some(field) => field.name().as_str(),
        None => "",
    }
}
