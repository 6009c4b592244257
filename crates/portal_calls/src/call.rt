//! Calls: the caller, the action with its body, and the moment and nonce that belong to the call.
use crate::action::Action;
use portal_base::caller::Caller;
use portal_base::json_value::Json;
use portal_base::moment::Moment;
use portal_base::nonce::Nonce;

/// The limit of a body's length, in bytes.
pub const LONGEST_BODY: usize = 262_144;

/// An action and its body.
#[derive(Drop)]
pub struct Request {
    pub action: Action,
    pub body: Json,
}

/// A request with its caller, its size in bytes, and the moment and the nonce that were drawn for it.
#[derive(Drop)]
pub struct Call {
    pub caller: Caller,
    pub request: Request,
    pub size: u64,
    pub moment: Moment,
    pub nonce: Nonce,
}
