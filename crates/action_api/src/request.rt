//! Requests: an action by its name, and a body by its bytes.
ghost use Rattle.std.specs.Prelude.{◌≡◌, ◌⊎◌, Ok, Err, IfOk, IfErr};
ghost use Rattle.action_api.specs.Request.{if_dictionary, body_reading, request_for, request_of};

use crate::early::Early;
use portal_base::copy::TryClone;
use portal_base::json_value::Json;
use portal_base::kinds::dictionary_in;
use portal_base::text::Text;
use portal_calls::action::Action;
use portal_calls::call::{LONGEST_BODY, Request};
use std::alloc::Global;

/// The value, if it is a dictionary, as a body has to be.
pub fn dictionary(json: Json) -> Result<Json, Early>
    ensures { result ≡ if_dictionary json }
{
    match json {
        Json::Map(entries) => Ok(Json::Map(entries)),
        _ => Err(Early::NotJson),
    }
}

/// Reads a body. It checks its length first, then whether it is JSON, then whether it is a dictionary.
fn read_body(alloc: Global, body: &[u8]) -> Result<Json, Early>
    ensures value { IfOk result (λ json. body_reading body.now ≡ Ok json) }
    ensures fault { IfErr result
        (λ early. (early ≡ Early.OutOfMemory) ⊎ (body_reading body.now ≡ Err early)) }
{
    if body.len() > LONGEST_BODY {
        return Err(Early::TooLong);
    }
    dictionary(Json::read(alloc, body)?)
}

/// The request for the action of that name, with a body that was read. It fails where no action has the name.
pub fn request_for(alloc: Global, name: &str, body: Json) -> Result<Request, Early>
    ensures value { IfOk result (λ request. request_for name.now body ≡ Ok request) }
    ensures fault { IfErr result
        (λ early. (early ≡ Early.OutOfMemory) ⊎ (request_for name.now body ≡ Err early)) }
{
    match Action::named(name) {
        Some(action) => Ok(Request { action, body }),
        None => Err(Early::UnknownAction(Text::from_str(alloc, name)?)),
    }
}

/// The request for the action of that name, with this body. It checks the body's length first, then whether it is JSON
/// and a dictionary, then whether an action has the name.
pub fn request(alloc: Global, name: &str, body: &[u8]) -> Result<Request, Early>
    ensures value { IfOk result (λ request. request_of name.now body.now ≡ Ok request) }
    ensures fault { IfErr result
        (λ early. (early ≡ Early.OutOfMemory) ⊎ (request_of name.now body.now ≡ Err early)) }
{
    let body = read_body(alloc, body)?;
    request_for(alloc, name, body)
}
