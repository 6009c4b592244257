//! What is fetched over a link.
use crate::links::{OneByOne, failing_link, filled, link_of};
use cases::{Buffer, Case};
use http_front::fetch::get_over;
use portal_base::memory::MemoryLink;
use portal_base::outside::{FetchFault, Link};
use std::alloc::{AllocError, Global};
use std::io;

const HOST: &str = "localhost";

const TARGET: &str = "/c.nt";

/// Room for a request.
const ROOM: usize = 1000;

/// The most bytes that are fetched over a link that fails.
const SHORT: usize = 10;

fn fault_text(fault: FetchFault) -> &'static str {
    match fault {
        FetchFault::Failed => "failed",
        FetchFault::Missing => "missing",
        FetchFault::TooLong => "too long",
        FetchFault::OutOfMemory => "out of memory",
    }
}

/// Writes what is fetched over the link: the bytes in brackets, or why there are none.
fn push_fetched<K: Link>(alloc: Global, answer: &mut Buffer, link: &mut K, limit: usize) {
    match get_over(alloc, link, HOST, TARGET, limit) {
        Ok(body) => answer.push_bracketed(body.as_slice()),
        Err(fault) => answer.push(fault_text(fault)),
    }
}

/// What is fetched of these bytes, and what else where they are read byte by byte.
fn fetched(alloc: Global, limit: usize, bytes: &[u8]) -> Result<Buffer, AllocError> {
    let mut link = link_of(alloc, bytes, ROOM)?;
    let inner = link_of(alloc, bytes, ROOM)?;
    let mut answer = Buffer::new(alloc);
    push_fetched(alloc, &mut answer, &mut link, limit);
    let mut single = Buffer::new(alloc);
    push_fetched(alloc, &mut single, &mut OneByOne { inner }, limit);
    answer.push_difference(", but byte by byte ", &single);
    Ok(answer)
}

/// The limit and the bytes of the response: what is fetched.
pub fn content(alloc: Global, case: &Case, answer: &mut Buffer) -> io::Result<()> {
    answer.push_buffer(&fetched(alloc, case.parsed(0)?, case.bytes(1))?);
    Ok(())
}

/// Writes how many bytes were fetched, or why none were.
fn push_length(answer: &mut Buffer, fetched: &Buffer) {
    match fetched.bytes() {
        Ok(bytes) if bytes.starts_with(b"[") => {
            answer.push_value(&bytes.len().saturating_sub(2));
            answer.push(" bytes");
        }
        _ => answer.push_buffer(fetched),
    }
}

/// The limit, how long the filler is, and the bytes of the response: how much is fetched.
pub fn length(alloc: Global, case: &Case, answer: &mut Buffer) -> io::Result<()> {
    let bytes = filled(alloc, case.parsed(1)?, case.bytes(2));
    push_length(answer, &fetched(alloc, case.parsed(0)?, bytes.bytes()?)?);
    Ok(())
}

/// Writes what a link took of a request, and that something was fetched, where it was.
fn push_request(answer: &mut Buffer, link: &MemoryLink, is_fetched: bool) {
    answer.push_bytes(link.taken());
    if is_fetched {
        answer.push(", and something fetched");
    }
}

/// The request that a link takes byte by byte, where nothing is answered.
fn request_singly(alloc: Global, host: &str, target: &str) -> Result<Buffer, AllocError> {
    let inner = link_of(alloc, &[], ROOM)?;
    let mut link = OneByOne { inner };
    let is_fetched = get_over(alloc, &mut link, host, target, 0).is_ok();
    let mut request = Buffer::new(alloc);
    push_request(&mut request, &link.inner, is_fetched);
    Ok(request)
}

/// The host and the target: the request, which is the same where it is taken byte by byte.
pub fn request(alloc: Global, case: &Case, answer: &mut Buffer) -> io::Result<()> {
    let (host, target) = case.two_texts()?;
    let mut link = link_of(alloc, &[], ROOM)?;
    let is_fetched = get_over(alloc, &mut link, host, target, 0).is_ok();
    push_request(answer, &link, is_fetched);
    answer.push_difference(", but byte by byte ", &request_singly(alloc, host, target)?);
    Ok(())
}

/// The number of the call that fails, the room, and the bytes of the response: what is fetched, and the bytes that were
/// written before.
pub fn failing(alloc: Global, case: &Case, answer: &mut Buffer) -> io::Result<()> {
    let mut link = failing_link(alloc, case.bytes(2), case.parsed(1)?, case.parsed(0)?)?;
    push_fetched(alloc, answer, &mut link, SHORT);
    answer.push(" after ");
    answer.push_bytes(link.taken());
    Ok(())
}
