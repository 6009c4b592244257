//! The call that a received request asks for.
ghost use Rattle.std.specs.Prelude.{◌≡◌, ◌⊎◌, Ok, Err, IfOk, IfErr};
ghost use Rattle.std.specs.Option.{option_copied};
ghost use Rattle.portal_links.specs.Asked.{body_or_empty, call_in, call_of, name_in, request_in, size_in, token_in};

use crate::tokens::Tokens;
use action_api::early::Early;
use action_api::query::request_of_query;
use action_api::request::request;
use http_front::incoming::Incoming;
use portal_base::caller::Caller;
use portal_base::moment::Moment;
use portal_base::nonce::Nonce;
use portal_calls::call::{Call, Request};
use std::alloc::Global;

/// The size of a call in bytes, and the moment and the nonce that were drawn for it.
#[derive(Drop)]
pub struct Drawn {
    pub size: u64,
    pub moment: Moment,
    pub nonce: Nonce,
}

/// The name of the requested action.
pub fn name_in(incoming: &Incoming) -> &str
    ensures { result.now ≡ name_in incoming.now }
{
    match incoming {
        Incoming::Post(name, _, _) => name.as_str(),
        Incoming::Get(name, _, _) => name.as_str(),
    }
}

/// The token, if the request has one.
pub fn token_in(incoming: &Incoming) -> Option<&str>
    ensures { option_copied result ≡ token_in incoming.now }
{
    let token = match incoming {
        Incoming::Post(_, _, token) => token,
        Incoming::Get(_, _, token) => token,
    };
    match token {
        Some(token) => Some(token.as_str()),
        None => None,
    }
}

/// The size of the body in bytes, or that of the query.
pub fn size_in(incoming: &Incoming) -> u64
    ensures { result ≡ size_in incoming.now }
{
    match incoming {
        Incoming::Post(_, body, _) => body.len() as u64,
        Incoming::Get(_, query, _) => query.len() as u64,
    }
}

/// The body, and the text of an empty dictionary where it is empty.
fn body_or_empty(body: &[u8]) -> &[u8]
    ensures { result.now ≡ body_or_empty body.now }
{
    if body.is_empty() { b"{}" } else { body }
}

/// Reads the request for an action, or why there is none.
pub fn read_request(alloc: Global, incoming: &Incoming) -> Result<Request, Early>
    ensures value { IfOk result (λ request. request_in incoming.now ≡ Ok request) }
    ensures fault { IfErr result
        (λ early. (early ≡ Early.OutOfMemory) ⊎ (request_in incoming.now ≡ Err early)) }
{
    match incoming {
        Incoming::Post(name, body, _) => {
            request(alloc, name.as_str(), body_or_empty(body.as_slice()))
        }
        Incoming::Get(name, query, _) => request_of_query(alloc, name.as_str(), query.as_str()),
    }
}

/// The call of a caller's request.
pub fn call_of(caller: Caller, request: Request, drawn: Drawn) -> Call
    ensures { result ≡ call_of caller request drawn.size drawn.moment drawn.nonce.0 }
{
    let Drawn {
        size,
        moment,
        nonce,
    } = drawn;
    Call {
        caller,
        request,
        size,
        moment,
        nonce,
    }
}

/// The call that the received request asks for, by the token's user and with this moment and nonce, or the early fault
/// where it asks for none.
pub fn call_in(
    alloc: Global,
    tokens: &Tokens,
    incoming: &Incoming,
    moment: Moment,
    nonce: Nonce,
) -> Result<Call, Early>
    ensures value { IfOk result (λ call. call_in tokens.now moment nonce.0 incoming.now ≡ Ok call) }
    ensures fault { IfErr result
        (λ early. (early ≡ Early.OutOfMemory) ⊎ (call_in tokens.now moment nonce.0 incoming.now ≡ Err early)) }
{
    let caller = tokens.caller(alloc, token_in(incoming))?;
    let request = read_request(alloc, incoming)?;
    let drawn = Drawn {
        size: size_in(incoming),
        moment,
        nonce,
    };
    Ok(call_of(caller, request, drawn))
}
