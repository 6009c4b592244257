//! Scripts: the call or the round that a line asks for.
ghost use Rattle.std.specs.Prelude.{◌≡◌, ◌⊎◌, ◌≤◌, Ok, Err, length, IfOk, IfErr};
ghost use Rattle.portal_serve.specs.Script.{action_in, caller_in, body_in, call_of_json, line_of_json, parsed_line};
ghost use Rattle.portal_serve.specs.Script.{round_of_json, workers_in, workers_of_value};
ghost use Rattle.portal_serve.specs.Values.{script_call, script_line};

use action_api::early::Early;
use action_api::request::dictionary;
use portal_base::caller::Caller;
use portal_base::copy::TryClone;
use portal_base::json_value::Json;
use portal_base::kinds::text_in;
use portal_base::seq::Seq;
use portal_base::text::Text;
use portal_calls::call::LONGEST_BODY;
use std::alloc::{AllocError, Global};

/// The limit of bytes of a script's line without its end.
pub const LONGEST_LINE: usize = LONGEST_BODY;

/// The most workers of a round.
pub const MOST_WORKERS: u32 = 16;

/// The call that a line asks for. The portal may not know its caller, and its action may have any name.
#[derive(Drop)]
pub struct ScriptCall {
    pub caller: Caller,
    pub action: Text,
    pub body: Json,
}

/// What a line asks for.
#[derive(Drop)]
pub enum ScriptLine {
    Call(ScriptCall),
    /// A round of harvests by this number of workers, 1 to `MOST_WORKERS`.
    Round(u32),
}

/// Reads what a line asks for, or why it asks for nothing.
pub fn read_line(alloc: Global, line: &[u8]) -> Result<ScriptLine, Early>
    requires { length line.now ≤ LONGEST_LINE }
    ensures value { IfOk result (λ asked. parsed_line line.now ≡ Ok (script_line asked)) }
    ensures fault { IfErr result
        (λ early. (early ≡ Early.OutOfMemory) ⊎ (parsed_line line.now ≡ Err early)) }
{
    parse_line(alloc, Json::read(alloc, line)?)
}

/// A line with the key `action` asks for a call, whatever its value is.
fn parse_line(alloc: Global, json: Json) -> Result<ScriptLine, Early>
    ensures value { IfOk result (λ asked. line_of_json json ≡ Ok (script_line asked)) }
    ensures fault { IfErr result
        (λ early. (early ≡ Early.OutOfMemory) ⊎ (line_of_json json ≡ Err early)) }
{
    if json.get("action").is_none() {
        return parse_round(&json);
    }
    match parse_call(alloc, json) {
        Ok(call) => Ok(ScriptLine::Call(call)),
        Err(early) => Err(early),
    }
}

fn parse_round(json: &Json) -> Result<ScriptLine, Early>
    ensures value { IfOk result (λ asked. round_of_json json.now ≡ Ok (script_line asked)) }
    ensures fault { IfErr result (λ early. round_of_json json.now ≡ Err early) }
{
    match read_workers(json) {
        Some(workers) => Ok(ScriptLine::Round(workers)),
        None => Err(Early::NotJson),
    }
}

/// The number of workers at `round`.
fn read_workers(json: &Json) -> Option<u32>
    ensures { result ≡ workers_in json.now }
{
    match json.get("round") {
        Some(value) => workers_of_value(value),
        None => None,
    }
}

fn workers_of_value(value: &Json) -> Option<u32>
    ensures { result ≡ workers_of_value value.now }
{
    let Json::Whole(number) = value else {
        return None;
    };
    match u32::try_from(*number) {
        Ok(workers) if 1 <= workers && workers <= MOST_WORKERS => Some(workers),
        _ => None,
    }
}

fn parse_call(alloc: Global, json: Json) -> Result<ScriptCall, Early>
    ensures value { IfOk result (λ call. call_of_json json ≡ Ok (script_call call)) }
    ensures fault { IfErr result
        (λ early. (early ≡ Early.OutOfMemory) ⊎ (call_of_json json ≡ Err early)) }
{
    let Some(action) = read_action(alloc, &json)? else {
        return Err(Early::NotJson);
    };
    let Some(caller) = read_caller(alloc, &json)? else {
        return Err(Early::NotJson);
    };
    let body = read_body(alloc, json)?;
    Ok(ScriptCall {
        caller,
        action,
        body,
    })
}

/// The text that names the line's action.
fn read_action(alloc: Global, json: &Json) -> Result<Option<Text>, AllocError>
    ensures { IfOk result (λ action. action ≡ action_in json.now) }
{
    match json.get("action") {
        None => Ok(None),
        Some(value) => match text_in(value) {
            Some(name) => Ok(Some(name.try_clone(alloc)?)),
            None => Ok(None),
        },
    }
}

/// The caller that the line names: anonymous where it names none. `None` where the value is no text.
fn read_caller(alloc: Global, json: &Json) -> Result<Option<Caller>, AllocError>
    ensures { IfOk result (λ caller. caller ≡ caller_in json.now) }
{
    match json.get("as") {
        None => Ok(Some(Caller::Anonymous)),
        Some(value) => match text_in(value) {
            Some(name) => Ok(Some(Caller::Named(name.try_clone(alloc)?))),
            None => Ok(None),
        },
    }
}

/// The line's body, which is empty where the line has none.
fn read_body(alloc: Global, json: Json) -> Result<Json, Early>
    ensures { result ≡ body_in json }
{
    match json.take("body") {
        Some(body) => dictionary(body),
        None => Ok(Json::Map(Seq::new(alloc))),
    }
}
