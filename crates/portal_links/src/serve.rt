//! Serving one link by a pass of a hall.
ghost use Rattle.std.specs.Prelude.{◌≡◌, ◌≤◌, ℕ, List, Option, Err, None, Some, IfSome, IsSome, IsTrue};
ghost use Rattle.action_api.specs.Reply.{has_text, reply_text};
ghost use Rattle.hall_posts.specs.Posts.{Advances};
ghost use Rattle.hall_posts.specs.Replies.{IsReplyAt};
ghost use Rattle.http.specs.StatusCode.{reason_phrase};
ghost use Rattle.portal_base.specs.Outside.{Rose};
ghost use Rattle.portal_events.specs.Reply.{is_of_call};
ghost use Rattle.portal_hall.specs.Passes.{IsPassOf, mark, opening, seen};
ghost use Rattle.portal_links.specs.Asked.{call_in, name_in};
ghost use Rattle.portal_links.specs.ByPass.{AnswersCalls, IsActed, ServesByPass, Tells, indexes_in, text_or_memory};
ghost use Rattle.portal_links.specs.Written.{Writes, link_trace};

use crate::asked::{call_in, name_in};
use crate::tokens::Tokens;
use crate::written::{Served, answer_fault, receive_request, write_out_of_memory, write_text};
use action_api::early::Early;
use action_api::reply::reply_text;
use hall_posts::laws::{a_refusal_is_replied, an_entry_is_replied};
use http_front::incoming::Incoming;
use portal_base::moment::Moment;
use portal_base::nonce::Nonce;
use portal_base::outside::Link;
use portal_base::seq::Seq;
use portal_calls::call::Call;
use portal_events::{Event, Refusal, Reply};
use portal_hall::acted::Acted;
use portal_hall::hall::Hall;
use portal_hall::machine::Machine;
use portal_hall::pass::Pass;
use std::alloc::Global;
use std::sync::Wait;

/// The reply to a call, and the call's index in the history, if it was accepted.
#[derive(Drop)]
struct Replied {
    reply: Reply,
    entry: Option<u64>,
}

/// What was told of a call: the status and the text of its reply, none where memory ran out. With them the call's index in
/// the history, if it was accepted.
#[derive(Drop)]
struct Told {
    text: Option<(u16, Seq<u8>)>,
    entry: Option<u64>,
}

/// Makes a call by the pass. There is no reply where the history can't grow.
fn reply_by_pass<M: Machine<Event = Event, Reply = Reply>, R: Wait>(
    rt: &R,
    hall: &Hall<M>,
    pass: &mut Pass<M>,
    call: Call,
) -> Option<Replied>
    requires pass { IsPassOf hall.now pass.old }
    requires machine { AnswersCalls M.step M.IsOutOfMemory M.IsFault }
    ensures none { result ≡ None → Advances hall.now (indexes_in None) pass.old pass.new }
    ensures pass { IfSome result (λ replied. Advances hall.now (indexes_in replied.entry) pass.old pass.new) }
    ensures reply { IfSome result (λ replied. (front : ℕ) × IsActed (seen pass.old) (seen pass.new) front replied.entry
        × IsReplyAt M.step M.IsOutOfMemory M.IsFault (M.core (opening hall.now)) (seen pass.new) (Event.Call call)
        replied.reply front replied.entry) }
    ensures of_call { IfSome result (λ replied. IsTrue (is_of_call replied.reply)) }
    ensures store_failed { IfSome result (λ replied. replied.reply ≡ Reply.Refused Refusal.KeeperFault
        → Rose (mark pass.old) (mark pass.new)) }
{
    an_entry_is_replied::<M>();
    a_refusal_is_replied::<M>();
    match hall.act(rt, pass, Event::Call(call)) {
        Acted::Done {
            reply,
            front: _,
            entry,
        } => Some(Replied { reply, entry }),
        Acted::OutOfMemory(_event) => None,
    }
}

/// The status and the text of a reply, or of an early fault, to a call of the action of that name. There is none where
/// memory runs out.
fn text_of(alloc: Global, name: &str, reply: Result<Reply, Early>) -> Option<(u16, Seq<u8>)>
    requires { IsTrue (has_text reply) }
    ensures { IfSome result (λ text. text ≡ reply_text (Some name.now) reply) }
{
    match reply_text(alloc, Some(name), &reply) {
        Ok(text) => Some(text),
        Err(_refused) => None,
    }
}

/// Makes the call, if there is one, and renders the reply, or the early fault.
fn tell<M: Machine<Event = Event, Reply = Reply>, R: Wait>(
    alloc: Global,
    rt: &R,
    hall: &Hall<M>,
    pass: &mut Pass<M>,
    name: &str,
    call: Result<Call, Early>,
) -> Told
    requires pass { IsPassOf hall.now pass.old }
    requires machine { AnswersCalls M.step M.IsOutOfMemory M.IsFault }
    ensures pass { Advances hall.now (indexes_in result.entry) pass.old pass.new }
    ensures tells { (front : Option ℕ) × Tells M.step M.IsOutOfMemory M.IsFault (M.core (opening hall.now))
        (seen pass.old) (seen pass.new) name.now call front result.entry result.text }
    ensures memory { call ≡ Err Early.OutOfMemory → (result.text ≡ None) × (result.entry ≡ None) }
    ensures phrase { IfSome result.text (λ text. IsSome (reason_phrase text.0)) }
    ensures store_failed { IfSome result.text (λ text. text.0 ≡ 503 → Rose (mark pass.old) (mark pass.new)) }
{
    match call {
        Ok(call) => match reply_by_pass(rt, hall, pass, call) {
            Some(Replied { reply, entry }) => Told {
                text: text_of(alloc, name, Ok(reply)),
                entry,
            },
            None => Told {
                text: None,
                entry: None,
            },
        },
        Err(Early::OutOfMemory) => Told {
            text: None,
            entry: None,
        },
        Err(early) => Told {
            text: text_of(alloc, name, Err(early)),
            entry: None,
        },
    }
}

/// Writes what was told of a call.
fn write_told<K: Link>(link: &mut K, text: Option<(u16, Seq<u8>)>) -> Served
    requires phrase { IfSome text (λ text. IsSome (reason_phrase text.0)) }
    ensures writes { Writes (text_or_memory text)
        (link_trace (K.to_come link.old) (K.taken link.old) (K.faults link.old))
        (link_trace (K.to_come link.new) (K.taken link.new) (K.faults link.new)) result }
    ensures to_come { K.to_come link.new ≡ K.to_come link.old }
    ensures replied { result ≡ Served.Replied 503 → (text_or_memory text).0 ≡ 503 }
    ensures counts { K.faults link.old ≤ K.faults link.new }
{
    match text {
        Some((status, text)) => write_text(link, status, text.as_slice()),
        None => write_out_of_memory(link),
    }
}

/// Makes the call of a received request by the pass, and writes what was told of it.
fn respond<M: Machine<Event = Event, Reply = Reply>, K: Link, R: Wait>(
    alloc: Global,
    rt: &R,
    hall: &Hall<M>,
    pass: &mut Pass<M>,
    tokens: &Tokens,
    link: &mut K,
    incoming: &Incoming,
    moment: Moment,
    nonce: Nonce,
) -> (Served, Option<u64>)
    requires pass { IsPassOf hall.now pass.old }
    requires machine { AnswersCalls M.step M.IsOutOfMemory M.IsFault }
    ensures pass { Advances hall.now (indexes_in result.1) pass.old pass.new }
    ensures responds { (front : Option ℕ) × (told : Option (ℕ × List ℕ))
        × Tells M.step M.IsOutOfMemory M.IsFault (M.core (opening hall.now)) (seen pass.old) (seen pass.new)
        (name_in incoming.now) (call_in tokens.now moment nonce.0 incoming.now) front result.1 told
        × Writes (text_or_memory told) (link_trace (K.to_come link.old) (K.taken link.old) (K.faults link.old))
        (link_trace (K.to_come link.new) (K.taken link.new) (K.faults link.new)) result.0 }
    ensures to_come { K.to_come link.new ≡ K.to_come link.old }
    ensures store_failed { result.0 ≡ Served.Replied 503 → Rose (mark pass.old) (mark pass.new) }
    ensures counts { K.faults link.old ≤ K.faults link.new }
{
    let call = call_in(alloc, tokens, incoming, moment, nonce);
    let told = tell(alloc, rt, hall, pass, name_in(incoming), call);
    let served = write_told(link, told.text);
    (served, told.entry)
}

/// Reads one request off the link, and nothing after it but the rest of the piece in which it ends. It makes the call for
/// the token's user with this moment and nonce, by the pass, and writes the reply. The second result is the call's index in
/// the history, if it was accepted. Where memory runs out, the reply is 507, and its bytes take no memory.
pub fn serve_link<M: Machine<Event = Event, Reply = Reply>, K: Link, R: Wait>(
    alloc: Global,
    rt: &R,
    hall: &Hall<M>,
    pass: &mut Pass<M>,
    tokens: &Tokens,
    link: &mut K,
    moment: Moment,
    nonce: Nonce,
) -> (Served, Option<u64>)
    requires pass { IsPassOf hall.now pass.old }
    requires machine { AnswersCalls M.step M.IsOutOfMemory M.IsFault }
    // The pass is still the hall's, with as many seats, and gained the index of the call, if it was accepted.
    ensures pass { Advances hall.now (indexes_in result.1) pass.old pass.new }
    ensures served { ServesByPass M.step M.IsOutOfMemory M.IsFault (M.core (opening hall.now)) (seen pass.old)
        (seen pass.new) tokens.now moment nonce.0 result.1
        (link_trace (K.to_come link.old) (K.taken link.old) (K.faults link.old))
        (link_trace (K.to_come link.new) (K.taken link.new) (K.faults link.new)) result.0 }
    // Status 503 says that the machine's count of faults rose.
    ensures store_failed { result.0 ≡ Served.Replied 503 → Rose (mark pass.old) (mark pass.new) }
    ensures counts { K.faults link.old ≤ K.faults link.new }
{
    match receive_request(alloc, link) {
        Ok(incoming) => respond(
            alloc, rt, hall, pass, tokens, link, &incoming, moment, nonce,
        ),
        Err(fault) => (answer_fault(link, fault), None),
    }
}
