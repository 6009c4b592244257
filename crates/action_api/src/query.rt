//! Reading requests from queries: each pair of a name and a value is a member of the body (URL Standard, section 5.1).
ghost use Rattle.std.specs.BTreeMap.{insert_entry};
ghost use Rattle.std.specs.Cmp.Lexicographic.{slice_cmp};
ghost use Rattle.std.specs.Ordering.{nat_cmp};
ghost use Rattle.std.specs.Prelude.{◌≡◌, ◌⊎◌, Ok, Err, IfOk, IfErr, OnOk, string_bytes};
ghost use Rattle.portal_base.specs.declared.json_value.Json.{Map};
ghost use Rattle.action_api.specs.Query.{begins_json, query_value, query_body, request_of_query, is_reading_action};

use crate::early::Early;
use crate::request::request_for;
use portal_base::json_value::{Json, JsonFault};
use portal_base::seq::Seq;
use portal_base::text::Text;
use portal_calls::action::Action;
use portal_calls::call::{LONGEST_BODY, Request};
use std::alloc::{AllocError, Global};
use std::collections::BTreeMap;

/// Whether the action of that name only reads. `None` where no action has the name.
pub fn is_reading(name: &str) -> Option<bool>
    ensures { result ≡ is_reading_action name.now }
{
    match Action::named(name) {
        Some(action) => Some(action.is_reading()),
        None => None,
    }
}

/// Whether the text begins as a list or a dictionary does.
fn begins_json(text: &str) -> bool
    ensures { result ≡ begins_json text.now }
{
    match text.as_bytes().first() {
        Some(first) => *first == b'[' || *first == b'{',
        None => false,
    }
}

/// The value of a text: the list or dictionary that it is as JSON, else the text itself.
fn read_value(alloc: Global, text: String) -> Result<Json, AllocError>
    ensures { IfOk result (λ json. json ≡ query_value (string_bytes text)) }
{
    if !begins_json(text.as_str()) {
        return Ok(Json::Text(Text::from(text)));
    }
    match Json::read(alloc, text.as_bytes()) {
        Ok(json) => Ok(json),
        Err(JsonFault::OutOfMemory) => Err(AllocError),
        Err(_) => Ok(Json::Text(Text::from(text))),
    }
}

/// Sets the member of a pair. It replaces a member of an equal key.
fn put_pair(
    alloc: Global,
    members: &mut BTreeMap<Text, Json>,
    name: String,
    value: String,
) -> Result<(), AllocError>
    ensures { OnOk result (members.new.entries
        ≡ insert_entry (slice_cmp nat_cmp) members.old.entries (string_bytes name) (query_value (string_bytes value))) }
{
    let value = read_value(alloc, value)?;
    members.insert(Text::from(name), value)?;
    Ok(())
}

/// The members of a body, ascending by their keys.
fn read_members(alloc: Global, query: &str) -> Result<BTreeMap<Text, Json>, AllocError>
    ensures { IfOk result (λ members. Map members.entries ≡ query_body query.now) }
{
    let mut members = BTreeMap::new(alloc);
    let mut pairs = form_urlencoded::parse(alloc, query.as_bytes()).into_owned();
    while let Some(pair) = pairs.next() {
        let (name, value) = pair?;
        put_pair(alloc, &mut members, name, value)?;
    }
    Ok(members)
}

/// Reads a query as a body.
fn read_query_body(alloc: Global, query: &str) -> Result<Json, AllocError>
    ensures { IfOk result (λ body. body ≡ query_body query.now) }
{
    let members = read_members(alloc, query)?;
    let list: Vec<(Text, Json)> = members.into_iter().collect(alloc)?;
    Ok(Json::Map(Seq::from(list)))
}

/// The request for the action of that name, with the body of the query. A value that begins as a JSON list or
/// dictionary and is one has that JSON value, and every other one is a text. Of equal keys the last one counts. It
/// checks the query's length first, then whether an action has the name.
pub fn request_of_query(alloc: Global, name: &str, query: &str) -> Result<Request, Early>
    ensures value { IfOk result (λ request. request_of_query name.now query.now ≡ Ok request) }
    ensures fault { IfErr result
        (λ early. (early ≡ Early.OutOfMemory) ⊎ (request_of_query name.now query.now ≡ Err early)) }
{
    if query.len() > LONGEST_BODY {
        return Err(Early::TooLong);
    }
    let body = read_query_body(alloc, query)?;
    request_for(alloc, name, body)
}
