//! Reads the options and the constraints of a field's descriptor.
ghost use Rattle.std.specs.Prelude.{◌≡◌, [], codes, map, option_map, IfOk, IsOk, IsErr, IsSome};
ghost use Rattle.table_schema.specs.declared.form.Form.TheVariants.{Boolean as boolean};
ghost use Rattle.portal_base.specs.Kinds.{present};
ghost use Rattle.table_schema.specs.Values.{or_default, optional, all_of, texts_in};
ghost use Rattle.table_schema.specs.Reading.{value_reading};
ghost use Rattle.table_schema.specs.Descriptor.{mark_in, spelling_in, truths_in, form_in, has_length, has_order};
ghost use Rattle.table_schema.specs.Descriptor.{count_of, length_in, bound_in, allowed_in, constraints_in};
ghost use Rattle.table_schema.specs.Descriptor.{constraints_of, no_constraints};

use crate::allowed::AllowedCells;
use crate::cell::Cell;
use crate::constraint::Constraints;
use crate::form::{Form, Kind, Truths};
use crate::listed::ListedTexts;
use crate::reading::value_of;
use crate::truth::{DEFAULT_FALSES, DEFAULT_TRUES};
use crate::values::{is_map, listed_in, truth_at};
use lexical_forms::{NumberForm, separator_of};
use portal_base::json_value::Json;
use portal_base::kinds::{list_in, present, text_in};
use portal_base::seq::Seq;
use portal_base::text::Text;
use std::alloc::{AllocError, Global};

/// The type with the options that apply to it, or none if one of them is invalid. Only a boolean's take memory.
pub(crate) fn form_of(alloc: Global, kind: Kind, item: &Json) -> Result<Option<Form>, AllocError>
    ensures form { IfOk result (λ form. form ≡ form_in kind item.now) }
    ensures memory { IsErr result → kind ≡ Kind.Boolean }
{
    Ok(match kind {
        Kind::Text => Some(Form::Text),
        Kind::Integer => truth_at(item, "bareNumber", true).map(Form::Integer),
        Kind::Number => spelling_of(item).map(Form::Number),
        Kind::Boolean => truths_of(alloc, item)?.map(Form::Boolean),
        Kind::Date => Some(Form::Date),
        Kind::Time => Some(Form::Time),
        Kind::Datetime => Some(Form::Datetime),
        Kind::Year => Some(Form::Year),
        Kind::YearMonth => Some(Form::YearMonth),
    })
}

fn spelling_of(item: &Json) -> Option<NumberForm>
    ensures { result ≡ spelling_in item.now }
{
    let decimal = match present(item, "decimalChar") {
        Some(value) => mark_in(value)?,
        None => '.',
    };
    let group = match present(item, "groupChar") {
        Some(value) => Some(mark_in(value)?),
        None => None,
    };
    let bare = truth_at(item, "bareNumber", true)?;
    if group == Some(decimal) {
        return None;
    }
    Some(NumberForm {
        decimal,
        group,
        bare,
    })
}

// The separator that a text value consists of, if it is one.
fn mark_in(value: &Json) -> Option<char>
    ensures { result ≡ mark_in value.now }
{
    separator_of(text_in(value)?.as_str())
}

fn truths_of(alloc: Global, item: &Json) -> Result<Option<Truths>, AllocError>
    ensures { IfOk result (λ truths. option_map boolean truths ≡ truths_in item.now) }
{
    let Some(true_values) = values_at(alloc, item, "trueValues", &DEFAULT_TRUES)? else {
        return Ok(None);
    };
    let Some(false_values) = values_at(alloc, item, "falseValues", &DEFAULT_FALSES)? else {
        return Ok(None);
    };
    Ok(Some(Truths {
        true_values,
        false_values,
    }))
}

// The list of texts of a key, or the default list if the key is absent. Returns none for another value.
fn values_at(
    alloc: Global,
    item: &Json,
    key: &str,
    otherwise: &[&str],
) -> Result<Option<ListedTexts>, AllocError>
    ensures { IfOk result (λ values. values
        ≡ or_default texts_in (map (λ t. t.now) otherwise.now) (present key.now item.now)) }
{
    match present(item, key) {
        Some(value) => listed_in(alloc, value),
        None => Ok(Some(ListedTexts::of_texts(alloc, copies_of(alloc, otherwise)?)?)),
    }
}

fn copies_of(alloc: Global, texts: &[&str]) -> Result<Seq<Text>, AllocError>
    ensures { IfOk result (λ copies. copies ≡ map (λ t. t.now) texts.now) }
{
    let mut copies = Vec::new(alloc);
    for text in texts {
        copies.push(Text::from_str(alloc, text)?)?;
    }
    Ok(Seq::from(copies))
}

/// The constraints of a field of that type, or none if one of them is invalid.
pub(crate) fn constraints_of(
    alloc: Global,
    kind: Kind,
    item: &Json,
) -> Result<Option<Constraints>, AllocError>
    ensures { IfOk result (λ constraints. constraints ≡ constraints_of kind item.now) }
{
    match present(item, "constraints") {
        Some(value) if is_map(value) => constraints_in(alloc, kind, value),
        Some(_) => Ok(None),
        None => Ok(Some(no_constraints(alloc))),
    }
}

fn no_constraints(alloc: Global) -> Constraints
    ensures { result ≡ no_constraints }
{
    Constraints {
        required: false,
        unique: false,
        min_length: None,
        max_length: None,
        minimum: None,
        maximum: None,
        allowed: AllowedCells::new(alloc),
    }
}

// Reads the constraints of a dictionary. Only `enum` takes memory.
fn constraints_in(
    alloc: Global,
    kind: Kind,
    value: &Json,
) -> Result<Option<Constraints>, AllocError>
    ensures constraints { IfOk result (λ constraints. constraints ≡ constraints_in kind value.now) }
    ensures memory { IsErr result → IsSome (present (codes "enum") value.now) }
{
    let Some(required) = truth_at(value, "required", false) else {
        return Ok(None);
    };
    let Some(unique) = truth_at(value, "unique", false) else {
        return Ok(None);
    };
    let Some(min_length) = length_at(value, "minLength", kind) else {
        return Ok(None);
    };
    let Some(max_length) = length_at(value, "maxLength", kind) else {
        return Ok(None);
    };
    let Some(minimum) = bound_at(alloc, value, "minimum", kind)? else {
        return Ok(None);
    };
    let Some(maximum) = bound_at(alloc, value, "maximum", kind)? else {
        return Ok(None);
    };
    let Some(allowed) = allowed_at(alloc, value, kind)? else {
        return Ok(None);
    };
    Ok(Some(Constraints {
        required,
        unique,
        min_length,
        max_length,
        minimum,
        maximum,
        allowed,
    }))
}

// The length that a constraint's key names, if it is there. The outer `None` says that the value is not a length.
fn length_at(value: &Json, key: &str, kind: Kind) -> Option<Option<i128>>
    ensures { result ≡ optional (length_in kind) (present key.now value.now) }
{
    match present(value, key) {
        Some(value) => Some(Some(length_in(value, kind)?)),
        None => Some(None),
    }
}

fn length_in(value: &Json, kind: Kind) -> Option<i128>
    ensures { result ≡ length_in kind value.now }
{
    match value {
        Json::Whole(count) if has_length(kind) => count_of(*count),
        _ => None,
    }
}

// The number, if it is a `u64`.
fn count_of(number: i128) -> Option<i128>
    ensures { result ≡ count_of number }
{
    (0 <= number && number < 1 << 64).then_some(number)
}

// Whether `minLength` and `maxLength` apply to the type.
fn has_length(kind: Kind) -> bool
    ensures { result ≡ has_length kind }
{
    matches!(kind, Kind::Text)
}

// Whether `minimum` and `maximum` apply to the type.
fn has_order(kind: Kind) -> bool
    ensures { result ≡ has_order kind }
{
    !matches!(kind, Kind::Text | Kind::Boolean)
}

// The bound of a key. Types that have an order take no memory.
fn bound_at(
    alloc: Global,
    value: &Json,
    key: &str,
    kind: Kind,
) -> Result<Option<Option<Cell>>, AllocError>
    ensures bound { IfOk result (λ bound. bound ≡ optional (bound_in kind) (present key.now value.now)) }
    ensures memory { IsOk result }
{
    match present(value, key) {
        Some(value) if has_order(kind) => match value_of(alloc, kind, value)? {
            Some(cell) => Ok(Some(Some(cell))),
            None => Ok(None),
        },
        Some(_) => Ok(None),
        None => Ok(Some(None)),
    }
}

fn allowed_at(alloc: Global, value: &Json, kind: Kind) -> Result<Option<AllowedCells>, AllocError>
    ensures cells { IfOk result (λ cells. cells ≡ or_default (allowed_in kind) [] (present (codes "enum") value.now)) }
    ensures memory { IsErr result → IsSome (present (codes "enum") value.now) }
{
    let Some(value) = present(value, "enum") else {
        return Ok(Some(AllowedCells::new(alloc)));
    };
    match list_in(value) {
        Some(items) if !items.is_empty() => allowed_of(alloc, items.as_slice(), kind),
        _ => Ok(None),
    }
}

// The cells of a list's values, in which cells are found by halving, or none if a value isn't one of the type.
fn allowed_of(alloc: Global, items: &[Json], kind: Kind) -> Result<Option<AllowedCells>, AllocError>
    ensures { IfOk result (λ cells. cells ≡ all_of (value_reading kind) items.now) }
{
    match cells_of(alloc, items, kind)? {
        Some(cells) => Ok(Some(AllowedCells::of_cells(alloc, cells)?)),
        None => Ok(None),
    }
}

fn cells_of(alloc: Global, items: &[Json], kind: Kind) -> Result<Option<Seq<Cell>>, AllocError>
    ensures { IfOk result (λ cells. cells ≡ all_of (value_reading kind) items.now) }
{
    let mut cells = Vec::new(alloc);
    for item in items {
        let Some(cell) = value_of(alloc, kind, item)? else {
            return Ok(None);
        };
        cells.push(cell)?;
    }
    Ok(Some(Seq::from(cells)))
}
