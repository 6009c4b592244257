//! A small client for documents.
ghost use Rattle.std.specs.Prelude.{◌≡◌, ◌≤◌, ◌<◌, ◌++◌, ◌⊎◌, List, ℕ, Ok, Err, length, OnOk, OnErr, IfOk, IfErr};
ghost use Rattle.std.specs.Prelude.{IfSome, IsErrOf};
ghost use Rattle.portal_base.specs.Outside.{Gives, Takes, TakesPrefix, Rose};
ghost use Rattle.http_front.specs.LinkRead.{IsOutside};
ghost use Rattle.http_front.specs.Fetch.{request_bytes, body_of, reply_of, fetch_fault, IsReplyOf, IsFetched};
ghost use Rattle.http_front.specs.Fetch.{ObservesBody, ObservesRead, UnlessUnobserved};

use crate::fault::FrontFault;
use crate::fields::{has_bad_length, length_given};
use crate::reading::{PIECE, read_body, read_more};
use crate::reply::{Reply, read_reply};
use crate::write::write_five;
use portal_base::outside::{Failed, FetchFault, Link};
use std::alloc::Global;

const BEFORE_HOST: &[u8] = b" HTTP/1.1\r\nHost: ";

const AFTER_HOST: &[u8] = b"\r\nConnection: close\r\n\r\n";

// Writes the request. It takes no memory.
fn write_request<K: Link>(link: &mut K, host: &[u8], target: &[u8]) -> Result<(), Failed>
    ensures ok { OnOk result
        (Takes (K.taken link.old) (request_bytes host.now target.now) (K.taken link.new)) }
    ensures failed { OnErr result
        (TakesPrefix (K.taken link.old) (request_bytes host.now target.now) (K.taken link.new)) }
    ensures to_come { K.to_come link.new ≡ K.to_come link.old }
    ensures fault { OnErr result (Rose (K.faults link.old) (K.faults link.new)) }
    ensures counts { K.faults link.old ≤ K.faults link.new }
{
    write_five(link, b"GET ", target, BEFORE_HOST, host, AFTER_HOST)
}

// Reads into the buffer to the end of input, or until the buffer has more than `limit` bytes.
fn drain<K: Link>(link: &mut K, limit: usize, buffer: &mut Vec<u8>) -> Result<(), FrontFault>
    ensures all { OnOk result (IfSome (K.to_come link.old) (λ bytes. buffer.new.items ≡ buffer.old.items ++ bytes)) }
    ensures within { OnOk result (length buffer.new.items ≤ limit) }
    ensures long { result ≡ Err FrontFault.TooLong → IfSome (K.to_come link.old)
        (λ bytes. limit < length (buffer.old.items ++ bytes)) }
    ensures fault { IfErr result (λ fault. (fault ≡ FrontFault.TooLong) ⊎ IsOutside fault) }
    ensures taken { K.taken link.new ≡ K.taken link.old }
    ensures failed { result ≡ Err FrontFault.LinkFault → Rose (K.faults link.old) (K.faults link.new) }
    ensures counts { K.faults link.old ≤ K.faults link.new }
{
    while buffer.len() <= limit {
        let more = read_more(link, PIECE, buffer)?;
        if !more {
            return Ok(());
        }
    }
    Err(FrontFault::TooLong)
}

// Reads the body after a head, to the end of input. The received bytes of it came with the head.
fn read_to_end<K: Link>(
    alloc: Global,
    link: &mut K,
    received: &[u8],
    limit: usize,
) -> Result<Vec<u8>, FrontFault>
    ensures all { IfOk result (λ body. IfSome (K.to_come link.old) (λ bytes. body.items ≡ received.now ++ bytes)) }
    ensures within { IfOk result (λ body. length body.items ≤ limit) }
    ensures long { result ≡ Err FrontFault.TooLong → IfSome (K.to_come link.old)
        (λ bytes. limit < length (received.now ++ bytes)) }
    ensures fault { IfErr result (λ fault. (fault ≡ FrontFault.TooLong) ⊎ IsOutside fault) }
    ensures taken { K.taken link.new ≡ K.taken link.old }
    ensures failed { result ≡ Err FrontFault.LinkFault → Rose (K.faults link.old) (K.faults link.new) }
    ensures counts { K.faults link.old ≤ K.faults link.new }
{
    let mut body = Vec::from_slice(alloc, received)?;
    drain(link, limit, &mut body)?;
    Ok(body)
}

// Reads the body after a head that gives its length, or gives none.
fn body_of<K: Link>(
    alloc: Global,
    link: &mut K,
    given: Option<u64>,
    received: &[u8],
    limit: usize,
) -> Result<Vec<u8>, FrontFault>
    ensures gives { IfSome (K.to_come link.old) (λ bytes. ObservesRead result (λ body. body.items)
        (λ observed. observed ≡ body_of limit given (received.now ++ bytes))) }
    ensures within { IfOk result (λ body. length body.items ≤ limit) }
    ensures taken { K.taken link.new ≡ K.taken link.old }
    ensures failed { result ≡ Err FrontFault.LinkFault → Rose (K.faults link.old) (K.faults link.new) }
    ensures counts { K.faults link.old ≤ K.faults link.new }
{
    let Some(count) = given else {
        return read_to_end(alloc, link, received, limit);
    };
    if count > limit as u64 {
        return Err(FrontFault::TooLong);
    }
    read_body(alloc, link, received, count as usize)
}

// Reads the body of the response with this head, if its status is 200.
fn reply_of<K: Link>(
    alloc: Global,
    link: &mut K,
    reply: &Reply,
    received: &[u8],
    limit: usize,
) -> Result<Vec<u8>, FrontFault>
    ensures gives { IfSome (K.to_come link.old) (λ bytes. ObservesRead result (λ body. body.items)
        (λ observed. observed ≡ reply_of limit reply.now.status reply.now.fields (received.now ++ bytes))) }
    ensures within { IfOk result (λ body. length body.items ≤ limit) }
    ensures taken { K.taken link.new ≡ K.taken link.old }
    ensures failed { result ≡ Err FrontFault.LinkFault → Rose (K.faults link.old) (K.faults link.new) }
    ensures counts { K.faults link.old ≤ K.faults link.new }
{
    let fields = reply.fields.as_slice();
    if reply.status != 200 || has_bad_length(fields) {
        return Err(FrontFault::BadHead);
    }
    body_of(alloc, link, length_given(fields), received, limit)
}

// Reads the response, and returns its body.
fn read_response<K: Link>(alloc: Global, link: &mut K, limit: usize) -> Result<Vec<u8>, FrontFault>
    ensures gives { IfSome (K.to_come link.old) (λ bytes. ObservesRead result (λ body. body.items)
        (IsFetched limit bytes)) }
    ensures within { IfOk result (λ body. length body.items ≤ limit) }
    ensures taken { K.taken link.new ≡ K.taken link.old }
    ensures failed { result ≡ Err FrontFault.LinkFault → Rose (K.faults link.old) (K.faults link.new) }
    ensures counts { K.faults link.old ≤ K.faults link.new }
{
    let mut buffer = Vec::new(alloc);
    match read_reply(alloc, link, &mut buffer) {
        Ok(Some(reply)) => reply_of(alloc, link, &reply, &buffer[reply.length..], limit),
        Ok(None) => Err(FrontFault::BadHead),
        Err(fault) => Err(fault),
    }
}

fn fault_of(fault: FrontFault) -> FetchFault
    ensures { result ≡ fetch_fault fault }
{
    match fault {
        FrontFault::TooLong => FetchFault::TooLong,
        FrontFault::LinkFault => FetchFault::Failed,
        FrontFault::OutOfMemory => FetchFault::OutOfMemory,
        _ => FetchFault::Missing,
    }
}

/// Asks the host at the other end of the link for the target (RFC 9110, section 9.3.1), and returns the body of its
/// response, which has at most `limit` bytes. The fault is `Missing` if the status isn't 200, if no head can be read,
/// or if the input ends too early. It is `TooLong` if the body is longer. The link's bytes to come are those of the
/// response.
pub fn get_over<K: Link>(
    alloc: Global,
    link: &mut K,
    host: &str,
    target: &str,
    limit: usize,
) -> Result<Vec<u8>, FetchFault>
    ensures gives { IfSome (K.to_come link.old) (λ bytes. ObservesBody result (λ body. body.items)
        (IsFetched limit bytes)) }
    ensures within { IfOk result (λ body. length body.items ≤ limit) }
    ensures requested { UnlessUnobserved result
        (Takes (K.taken link.old) (request_bytes host.now target.now) (K.taken link.new)) }
    ensures taken { TakesPrefix (K.taken link.old) (request_bytes host.now target.now) (K.taken link.new) }
    ensures failed { IsErrOf result FetchFault.Failed → Rose (K.faults link.old) (K.faults link.new) }
    ensures counts { K.faults link.old ≤ K.faults link.new }
{
    match write_request(link, host.as_bytes(), target.as_bytes()) {
        Ok(()) => match read_response(alloc, link, limit) {
            Ok(body) => Ok(body),
            Err(fault) => Err(fault_of(fault)),
        },
        Err(_) => Err(FetchFault::Failed),
    }
}
