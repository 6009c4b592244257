//! Receiving the request of a link, and writing the reply to it.
ghost use Rattle.std.specs.Prelude.{◌≡◌, ◌≢◌, ◌≤◌, Err, IfOk, IfSome, IsSome, option_map};
ghost use Rattle.http.specs.StatusCode.{reason_phrase};
ghost use Rattle.http_front.specs.Request.{IsReceived, UnlessFails};
ghost use Rattle.http_front.specs.Taken.{Leaves};
ghost use Rattle.portal_base.specs.Outside.{Rose};
ghost use Rattle.portal_links.specs.Written.{fault_text, fixed_text, link_trace, memory_text, store_text};
ghost use Rattle.portal_links.specs.Written.{IsReadingAnswer, Writes, WritesFault};

use crate::asked::name_in;
use action_api::query::is_reading;
use action_api::reply::reply_text;
use http_front::fault::FrontFault;
use http_front::incoming::Incoming;
use http_front::receive::receive;
use http_front::response::send;
use portal_base::outside::Link;
use portal_base::seq::Seq;
use portal_events::{Refusal, Reply};
use std::alloc::{AllocError, Global};

/// How serving a link ended.
#[derive(Clone, Copy, Debug, PartialEq, Eq)]
pub enum Served {
    /// A complete response of this status was written.
    Replied(u16),
    /// The input ended before the request did, and nothing was written.
    EndedEarly,
    /// The link's count of faults rose.
    LinkFault,
}

// ---- the request

/// Reads one request off the link, and nothing after it but the rest of the piece in which it ends. It writes nothing.
pub fn receive_request<K: Link>(alloc: Global, link: &mut K) -> Result<Incoming, FrontFault>
    ensures receives { IfSome (K.to_come link.old)
        (λ bytes. UnlessFails result (IsReceived IsReadingAnswer bytes result)) }
    ensures leaves { Leaves IsReadingAnswer (K.to_come link.old) (K.to_come link.new) result }
    ensures taken { K.taken link.new ≡ K.taken link.old }
    ensures failed { result ≡ Err FrontFault.LinkFault → Rose (K.faults link.old) (K.faults link.new) }
    ensures counts { K.faults link.old ≤ K.faults link.new }
{
    receive(alloc, link, is_reading)
}

// ---- replies that take no memory

/// An HTTP status with the text of a reply, as a constant of the program.
#[derive(Clone, Copy)]
struct FixedReply {
    status: u16,
    text: &'static str,
}

/// The text of a failure with an error of this type and message, and with no help. The reply to a fault takes no memory,
/// so it is this constant of the program, and not rendered. The contracts below say that it is the text which action_api
/// renders of the error (`error_text`).
macro_rules! failure_text {
    ($kind:literal, $message:literal) => {
        concat!(
            "{\"error\":{\"__type\":\"",
            $kind,
            "\",\"message\":\"",
            $message,
            "\"},\"help\":\"\",\"success\":false}"
        )
    };
}

/// The reply where memory runs out.
fn memory_reply() -> FixedReply
    ensures { fixed_text result ≡ memory_text }
{
    FixedReply {
        status: 507,
        text: failure_text!("Memory Error", "Want of memory"),
    }
}

/// The reply to a fault, if it has one.
fn fault_reply(fault: FrontFault) -> Option<FixedReply>
    ensures text { option_map fixed_text result ≡ fault_text fault }
    ensures status { IfSome result (λ reply. reply.status ≢ 503) }
{
    match fault {
        FrontFault::BadHead => Some(FixedReply {
            status: 400,
            text: failure_text!("Bad Request", "Bad request head"),
        }),
        FrontFault::NoLength => Some(FixedReply {
            status: 411,
            text: failure_text!("Bad Request", "Length required"),
        }),
        FrontFault::TooLong => Some(FixedReply {
            status: 413,
            text: failure_text!("Bad Request", "Body too long"),
        }),
        FrontFault::NoRoute => Some(FixedReply {
            status: 404,
            text: failure_text!("Not Found Error", "No such page"),
        }),
        FrontFault::Method => Some(FixedReply {
            status: 405,
            text: failure_text!("Bad Request", "Method not allowed"),
        }),
        FrontFault::OutOfMemory => Some(memory_reply()),
        FrontFault::EndedEarly => None,
        FrontFault::LinkFault => None,
    }
}

// ---- the reply

/// The status and the text of the reply that the store failed to keep the change of a request.
pub fn store_reply(alloc: Global, incoming: &Incoming) -> Result<(u16, Seq<u8>), AllocError>
    ensures { IfOk result (λ text. text ≡ store_text incoming.now) }
{
    let refused = Ok(Reply::Refused(Refusal::KeeperFault));
    reply_text(alloc, Some(name_in(incoming)), &refused)
}

/// Writes the response of this status with this text.
pub fn write_text<K: Link>(link: &mut K, status: u16, text: &[u8]) -> Served
    requires phrase { IsSome (reason_phrase status) }
    ensures writes { Writes (status, text.now)
        (link_trace (K.to_come link.old) (K.taken link.old) (K.faults link.old))
        (link_trace (K.to_come link.new) (K.taken link.new) (K.faults link.new)) result }
    ensures to_come { K.to_come link.new ≡ K.to_come link.old }
    ensures replied { result ≡ Served.Replied 503 → status ≡ 503 }
    ensures counts { K.faults link.old ≤ K.faults link.new }
{
    match send(link, status, text) {
        Ok(()) => Served::Replied(status),
        Err(_failed) => Served::LinkFault,
    }
}

/// Writes the reply that memory ran out. It takes no memory.
pub fn write_out_of_memory<K: Link>(link: &mut K) -> Served
    ensures writes { Writes memory_text (link_trace (K.to_come link.old) (K.taken link.old) (K.faults link.old))
        (link_trace (K.to_come link.new) (K.taken link.new) (K.faults link.new)) result }
    ensures other { result ≢ Served.Replied 503 }
    ensures to_come { K.to_come link.new ≡ K.to_come link.old }
    ensures counts { K.faults link.old ≤ K.faults link.new }
{
    let reply = memory_reply();
    write_text(link, reply.status, reply.text.as_bytes())
}

/// Writes the reply to a fault, if it has one. It takes no memory.
pub fn answer_fault<K: Link>(link: &mut K, fault: FrontFault) -> Served
    ensures writes { fault ≢ FrontFault.LinkFault → WritesFault fault (fault_text fault)
        (link_trace (K.to_come link.old) (K.taken link.old) (K.faults link.old))
        (link_trace (K.to_come link.new) (K.taken link.new) (K.faults link.new)) result }
    ensures failed { fault ≡ FrontFault.LinkFault → (result ≡ Served.LinkFault) × (link.new ≡ link.old) }
    ensures other { result ≢ Served.Replied 503 }
    ensures to_come { K.to_come link.new ≡ K.to_come link.old }
    ensures counts { K.faults link.old ≤ K.faults link.new }
{
    match fault_reply(fault) {
        Some(reply) => write_text(link, reply.status, reply.text.as_bytes()),
        None if fault == FrontFault::EndedEarly => Served::EndedEarly,
        None => Served::LinkFault,
    }
}
