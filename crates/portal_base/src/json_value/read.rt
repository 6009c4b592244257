//! Conversion from `serde_json::Value` to `Json`.
ghost use Rattle.std.specs.Prelude.{◌≡◌, ◌⊎◌, None, Some, IfOk, IfErr, OnOk, OnSome};
ghost use Rattle.serde_json.specs.Data.{number, array, object};
ghost use Rattle.serde_json.specs.Find.{as_integer};
ghost use Rattle.serde_json.specs.View.{view, number_view, items_view, members_view};
ghost use Rattle.portal_base.specs.Json.{json_of, Fits, IsOrderly, ItemsAreOrderly, MembersAreOrderly};

use super::{Json, JsonFault};
use crate::seq::Seq;
use crate::text::Text;
use serde_json::{Map, Number, Value};
use std::alloc::Global;

/// The `Json` of a value, or `Fraction` if one of its numbers fits neither an `i64` nor a `u64`.
#[cycle(value_of)]
pub(crate) fn value_of(alloc: Global, value: &Value) -> Result<Json, JsonFault>
    ensures ok { IfOk result (λ j. json_of (view value.now) ≡ Some j) }
    ensures fault { IfErr result (λ fault. (fault ≡ JsonFault.OutOfMemory)
        ⊎ ((fault ≡ JsonFault.Fraction) × (json_of (view value.now) ≡ None))) }
    ensures orderly { OnOk result (IsOrderly (view value.now)) }
{
    match value {
        Value::Null => Ok(Json::Null),
        Value::Bool(truth) => Ok(Json::Truth(*truth)),
        Value::Number(number) => whole(number),
        Value::String(text) => text_value(alloc, text.as_str()),
        Value::Array(items) => list(alloc, items),
        Value::Object(members) => map(alloc, members),
    }
}

// A text with these bytes.
fn text_value(alloc: Global, text: &str) -> Result<Json, JsonFault>
    ensures ok { IfOk result (λ j. j ≡ Json.Text text.now) }
    ensures fault { IfErr result (λ fault. fault ≡ JsonFault.OutOfMemory) }
{
    Ok(Json::Text(Text::from_str(alloc, text)?))
}

// The whole number.
fn whole(value: &Number) -> Result<Json, JsonFault>
    ensures ok { IfOk result (λ j. json_of (number (number_view value.now)) ≡ Some j) }
    ensures fault { IfErr result (λ fault. (fault ≡ JsonFault.Fraction)
        × (json_of (number (number_view value.now)) ≡ None)) }
    ensures orderly { OnOk result (Fits (number_view value.now)) }
{
    match read_whole(value) {
        Some(whole) => Ok(Json::Whole(whole)),
        None => Err(JsonFault::Fraction),
    }
}

// The number, if it is an `i64` or a `u64`.
fn read_whole(value: &Number) -> Option<i128>
    ensures integer { result ≡ as_integer (number_view value.now) }
    ensures orderly { OnSome result (Fits (number_view value.now)) }
{
    if let Some(whole) = value.as_u64() {
        return Some(whole as i128);
    }
    match value.as_i64() {
        Some(whole) => Some(whole as i128),
        None => None,
    }
}

#[cycle(value_of)]
fn list(alloc: Global, items: &Vec<Value>) -> Result<Json, JsonFault>
    ensures ok { IfOk result (λ j. json_of (array (items_view items.now.items)) ≡ Some j) }
    ensures fault { IfErr result (λ fault. (fault ≡ JsonFault.OutOfMemory)
        ⊎ ((fault ≡ JsonFault.Fraction) × (json_of (array (items_view items.now.items)) ≡ None))) }
    ensures orderly { OnOk result (ItemsAreOrderly (items_view items.now.items)) }
{
    let mut list = Vec::with_capacity(alloc, items.len())?;
    for item in items {
        let item = value_of(alloc, item)?;
        if list.push(item).is_err() {
            return Err(JsonFault::OutOfMemory);
        }
    }
    Ok(Json::List(Seq::from(list)))
}

#[cycle(value_of)]
fn map(alloc: Global, members: &Map<String, Value>) -> Result<Json, JsonFault>
    ensures ok { IfOk result (λ j. json_of (object (members_view members.now.entries)) ≡ Some j) }
    ensures fault { IfErr result (λ fault. (fault ≡ JsonFault.OutOfMemory)
        ⊎ ((fault ≡ JsonFault.Fraction)
        × (json_of (object (members_view members.now.entries)) ≡ None))) }
    ensures orderly { OnOk result (MembersAreOrderly (members_view members.now.entries)) }
{
    let mut entries = Vec::with_capacity(alloc, members.len())?;
    for (key, member) in members.iter() {
        let value = value_of(alloc, member)?;
        let key = Text::from_str(alloc, key.as_str())?;
        if entries.push((key, value)).is_err() {
            return Err(JsonFault::OutOfMemory);
        }
    }
    Ok(Json::Map(Seq::from(entries)))
}
