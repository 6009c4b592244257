//! One request of a connection.
ghost use Rattle.std.specs.Prelude.{◌≡◌, ◌<◌, ◌≤◌, ◌+◌, ◌++◌, ◌⊎◌, ℕ, List, Err, Ok, length, IfOk, IfErr, IfSome, if◌then◌else◌};
ghost use Rattle.std.specs.Str.{IsUtf8};
ghost use Rattle.httparse.specs.Grammar.{RequestHead, ReadsRequest};
ghost use Rattle.portal_base.specs.Outside.{Rose};
ghost use Rattle.http_front.specs.Head.{marked};
ghost use Rattle.http_front.specs.Fields.{has_bad_length};
ghost use Rattle.http_front.specs.HeadParse.{HasHeadOf};
ghost use Rattle.http_front.specs.Request.{AnswersAt, AsksOf, IsReceived, IsActionTarget, UnlessFails, without_route};
ghost use Rattle.http_front.specs.ActionTarget.{incoming_of};
ghost use Rattle.http_front.specs.LinkRead.{IsOutside};
ghost use Rattle.http_front.specs.Taken.{IsOfHead, Leaves, LeavesAfter, ReadsBody, body_in, body_length};

use crate::action_target::{ActionTarget, action_target_of, find_reading};
use crate::fault::FrontFault;
use crate::fields::has_bad_length;
use crate::head::{Head, HeadParse, parse_head};
use crate::incoming::Incoming;
use crate::reading::{parse_marked_head, read_body, read_head};
use portal_base::outside::Link;
use portal_base::seq::Seq;
use std::alloc::{AllocError, Global};
use std::str;

// The fault of a head whose target isn't UTF-8.
fn fault_of(mark: &Head) -> FrontFault
    ensures gives { result ≡ (if has_bad_length mark.now.fields then FrontFault.BadHead else FrontFault.NoRoute) }
    ensures own { IsOfHead result }
{
    if has_bad_length(mark.fields.as_slice()) {
        FrontFault::BadHead
    } else {
        FrontFault::NoRoute
    }
}

fn without_route(alloc: Global, text: &[u8]) -> Result<FrontFault, AllocError>
    ensures gives { (mark : RequestHead) (rest : List ℕ) → ReadsRequest (marked text.now) mark rest
        → length mark.fields ≤ 64 → IfOk result (λ fault. fault ≡ without_route mark) }
    ensures own { IfOk result IsOfHead }
{
    let parse = parse_marked_head(alloc, text)?;
    match parse {
        HeadParse::Complete(mark) => Ok(fault_of(&mark)),
        HeadParse::Partial => Ok(FrontFault::NoRoute),
        HeadParse::Invalid => Ok(FrontFault::NoRoute),
    }
}

// The action that a head asks for, where its target is UTF-8.
fn action_target_by(
    alloc: Global,
    reading: fn(&str) -> Option<bool>,
    head: &Head,
) -> Result<ActionTarget, FrontFault>
    requires callable { IsAlwaysCallable reading }
    ensures asks { IsUtf8 head.now.target → UnlessFails result
        (AsksOf (AnswersAt (post reading)) head.now.method head.now.target head.now.fields result) }
    ensures own { IfErr result IsOfHead }
    ensures short { IfOk result (λ target. body_length target ≤ 262144) }
{
    let Ok(target) = str::from_utf8(head.target.as_slice()) else {
        return Err(FrontFault::NoRoute);
    };
    let method = head.method.as_slice();
    let reads = find_reading(reading, method, target);
    action_target_of(alloc, reads, method, target, head.fields.as_slice())
}

// The action that the bytes of one head ask for.
fn action_target_in(
    alloc: Global,
    reading: fn(&str) -> Option<bool>,
    text: &[u8],
) -> Result<ActionTarget, FrontFault>
    requires callable { IsAlwaysCallable reading }
    ensures asks { (mark : RequestHead) (rest : List ℕ) → ReadsRequest (marked text.now) mark rest
        → length mark.fields ≤ 64 → UnlessFails result (IsActionTarget (AnswersAt
        (post reading)) text.now mark result) }
    ensures own { IfErr result IsOfHead }
    ensures short { IfOk result (λ target. body_length target ≤ 262144) }
{
    let parse = parse_head(alloc, text)?;
    match parse {
        HeadParse::Complete(head) => action_target_by(alloc, reading, &head),
        HeadParse::Partial => Err(without_route(alloc, text)?),
        HeadParse::Invalid => Err(without_route(alloc, text)?),
    }
}

// Reads the rest of the request, once its head is known. The received bytes came after the head.
fn incoming_of<K: Link>(
    alloc: Global,
    link: &mut K,
    action_target: ActionTarget,
    received: &[u8],
) -> Result<Incoming, FrontFault>
    ensures gives { IfSome (K.to_come link.old) (λ bytes.
        UnlessFails result (result ≡ incoming_of (Ok action_target) (received.now ++ bytes))) }
    ensures reads { ReadsBody (body_length action_target) received.now (K.to_come link.old) (K.to_come link.new) result }
    ensures body { IfOk result (λ incoming. length (body_in incoming) ≡ body_length action_target) }
    ensures late { IfErr result (λ fault. (fault ≡ FrontFault.EndedEarly) ⊎ IsOutside fault) }
    ensures taken { K.taken link.new ≡ K.taken link.old }
    ensures failed { result ≡ Err FrontFault.LinkFault → Rose (K.faults link.old) (K.faults link.new) }
    ensures counts { K.faults link.old ≤ K.faults link.new }
{
    match action_target {
        ActionTarget::Get(name, query, token) => Ok(Incoming::Get(name, query, token)),
        ActionTarget::Post(name, count, token) => {
            match read_body(alloc, link, received, count as usize) {
                Ok(body) => Ok(Incoming::Post(name, Seq::from(body), token)),
                Err(fault) => Err(fault),
            }
        }
    }
}

// Reads the request whose head begins the buffer.
fn read_request<K: Link>(
    alloc: Global,
    link: &mut K,
    reading: fn(&str) -> Option<bool>,
    buffer: &[u8],
    count: usize,
) -> Result<Incoming, FrontFault>
    requires callable { IsAlwaysCallable reading }
    requires found { HasHeadOf buffer.now count }
    requires few { length buffer.now < count + 4096 }
    ensures request { IfSome (K.to_come link.old) (λ bytes.
        UnlessFails result (IsReceived (AnswersAt (post reading)) (buffer.now ++ bytes) result)) }
    ensures leaves { LeavesAfter (AnswersAt (post reading)) buffer.now (K.to_come link.old) (K.to_come link.new) result }
    ensures taken { K.taken link.new ≡ K.taken link.old }
    ensures failed { result ≡ Err FrontFault.LinkFault → Rose (K.faults link.old) (K.faults link.new) }
    ensures counts { K.faults link.old ≤ K.faults link.new }
{
    let (text, received) = buffer.split_at(count);
    match action_target_in(alloc, reading, text) {
        Ok(action_target) => incoming_of(alloc, link, action_target, received),
        Err(fault) => Err(fault),
    }
}

/// Reads one request off the link, and writes nothing. `reading` says whether the action of a name only reads, and is
/// none if no action has the name. The request depends on the link's bytes alone, and not on the pieces in which they
/// come. What is left unread of the link is all but the pieces in which the head came and the rest of a POST's body.
pub fn receive<K: Link>(
    alloc: Global,
    link: &mut K,
    reading: fn(&str) -> Option<bool>,
) -> Result<Incoming, FrontFault>
    requires callable { IsAlwaysCallable reading }
    ensures request { IfSome (K.to_come link.old) (λ bytes.
        UnlessFails result (IsReceived (AnswersAt (post reading)) bytes result)) }
    ensures leaves { Leaves (AnswersAt (post reading)) (K.to_come link.old) (K.to_come link.new) result }
    ensures taken { K.taken link.new ≡ K.taken link.old }
    ensures failed { result ≡ Err FrontFault.LinkFault → Rose (K.faults link.old) (K.faults link.new) }
    ensures counts { K.faults link.old ≤ K.faults link.new }
{
    let mut buffer = Vec::new(alloc);
    match read_head(alloc, link, &mut buffer) {
        Ok(count) => read_request(alloc, link, reading, buffer.as_slice(), count),
        Err(fault) => Err(fault),
    }
}
