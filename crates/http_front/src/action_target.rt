//! The action that a head asks for.
ghost use Rattle.std.specs.Prelude.{◌≡◌, ◌≢◌, ◌==◌, ◌≤◌, List, ℕ, Some, IfOk, IfErr, codes};
ghost use Rattle.std.specs.List.{list_any};
ghost use Rattle.std.specs.Option.{option_copied};
ghost use Rattle.http_front.specs.Request.{UnlessFails, AnswersAt};
ghost use Rattle.http_front.specs.ActionTarget.{is_segment, without_prefix, name_after, route_of, is_long};
ghost use Rattle.http_front.specs.ActionTarget.{get_of, post_of};
ghost use Rattle.http_front.specs.ActionTarget.{action_target_of, path_of, query_of};
ghost use Rattle.http_front.specs.Taken.{IsOfHead, body_length};

use crate::fault::FrontFault;
use crate::fields::{has_bad_length, has_named, length_given, token_of};
use crate::head::Field;
use portal_base::text::Text;
use portal_calls::call::LONGEST_BODY;
use std::alloc::Global;

/// The action that a head asks for, before the body is read.
#[derive(Drop)]
pub enum ActionTarget {
    /// The action, the query, and the token where there is one.
    Get(Text, Text, Option<Text>),
    /// The action, the length of the body, and the token where there is one.
    Post(Text, u64, Option<Text>),
}

fn without_prefix<'a>(front: &str, text: &'a str) -> Option<&'a str>
    ensures { option_copied result ≡ without_prefix front.now text.now }
{
    text.strip_prefix(front)
}

fn has_slash(name: &[u8]) -> bool
    ensures { result ≡ list_any (λ b. b == 47) name.now }
{
    name.iter().any(|byte| *byte == b'/')
}

// A name isn't empty and has no `/`.
fn is_segment(name: &str) -> bool
    ensures { result ≡ is_segment name.now }
{
    !name.is_empty() && !has_slash(name.as_bytes())
}

fn name_after<'a>(front: &str, path: &'a str) -> Option<&'a str>
    ensures { option_copied result ≡ name_after front.now path.now }
{
    match without_prefix(front, path) {
        Some(name) if is_segment(name) => Some(name),
        _ => None,
    }
}

// The name of the action in a path.
fn route_of(path: &str) -> Option<&str>
    ensures { option_copied result ≡ route_of path.now }
{
    match name_after("/api/3/action/", path) {
        Some(name) => Some(name),
        None => name_after("/api/action/", path),
    }
}

fn is_long(length: Option<u64>) -> bool
    ensures { result ≡ is_long length }
{
    match length {
        Some(length) => length > LONGEST_BODY as u64,
        None => false,
    }
}

fn get_of(
    alloc: Global,
    reads: Option<bool>,
    name: &str,
    query: &str,
    fields: &[Field],
) -> Result<ActionTarget, FrontFault>
    ensures gives { UnlessFails result (result ≡ get_of reads name.now query.now fields.now) }
    ensures no_link { IfErr result (λ fault. fault ≢ FrontFault.LinkFault) }
    ensures own { IfErr result IsOfHead }
    ensures short { IfOk result (λ target. body_length target ≤ 262144) }
{
    if reads == Some(false) {
        return Err(FrontFault::Method);
    }
    if is_long(length_given(fields)) {
        return Err(FrontFault::TooLong);
    }
    let token = token_of(alloc, fields)?;
    let name = Text::from_str(alloc, name)?;
    let query = Text::from_str(alloc, query)?;
    Ok(ActionTarget::Get(name, query, token))
}

fn post_of(alloc: Global, name: &str, fields: &[Field]) -> Result<ActionTarget, FrontFault>
    ensures gives { UnlessFails result (result ≡ post_of name.now fields.now) }
    ensures no_link { IfErr result (λ fault. fault ≢ FrontFault.LinkFault) }
    ensures own { IfErr result IsOfHead }
    ensures short { IfOk result (λ target. body_length target ≤ 262144) }
{
    if has_named("transfer-encoding", fields) {
        return Err(FrontFault::NoLength);
    }
    let Some(length) = length_given(fields) else {
        return Err(FrontFault::NoLength);
    };
    if length > LONGEST_BODY as u64 {
        return Err(FrontFault::TooLong);
    }
    let token = token_of(alloc, fields)?;
    let name = Text::from_str(alloc, name)?;
    Ok(ActionTarget::Post(name, length, token))
}

// The path of a request target, and the query after its `?` (RFC 9112, section 3.2.1).
fn parts_of(target: &str) -> (&str, &str)
    ensures path { result.0.now ≡ path_of target.now }
    ensures query { result.1.now ≡ query_of target.now }
{
    match target.split_once('?') {
        Some(parts) => parts,
        None => (target, ""),
    }
}

/// Whether the action that a GET asks for only reads: `reading` of its name. It is none if the method isn't GET or the
/// path is no action's.
pub fn find_reading(reading: fn(&str) -> Option<bool>, method: &[u8], target: &str) -> Option<bool>
    requires callable { IsAlwaysCallable reading }
    ensures { (name : List ℕ) → route_of (path_of target.now) ≡ Some name → method.now ≡ codes "GET"
        → AnswersAt (post reading) name result }
{
    if method != b"GET".as_slice() {
        return None;
    }
    let (path, _) = parts_of(target);
    match route_of(path) {
        Some(name) => reading(name),
        None => None,
    }
}

/// The action that the head asks for, or the first fault. `reads` says whether the action of a GET only reads.
pub fn action_target_of(
    alloc: Global,
    reads: Option<bool>,
    method: &[u8],
    target: &str,
    fields: &[Field],
) -> Result<ActionTarget, FrontFault>
    ensures gives { UnlessFails result (result ≡ action_target_of reads method.now target.now fields.now) }
    ensures no_link { IfErr result (λ fault. fault ≢ FrontFault.LinkFault) }
    ensures own { IfErr result IsOfHead }
    ensures short { IfOk result (λ target. body_length target ≤ 262144) }
{
    if has_bad_length(fields) {
        return Err(FrontFault::BadHead);
    }
    let (path, query) = parts_of(target);
    let Some(name) = route_of(path) else {
        return Err(FrontFault::NoRoute);
    };
    if method == b"GET".as_slice() {
        return get_of(alloc, reads, name, query, fields);
    }
    if method == b"POST".as_slice() {
        return post_of(alloc, name, fields);
    }
    Err(FrontFault::Method)
}
