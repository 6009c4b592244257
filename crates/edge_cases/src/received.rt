//! What is received of a link.
use crate::links::{OneByOne, failing_link, filled, link_of};
use cases::{Buffer, Case};
use http_front::fault::FrontFault;
use http_front::incoming::Incoming;
use http_front::receive::receive;
use portal_base::outside::Link;
use portal_base::text::Text;
use std::alloc::{AllocError, Global};
use std::io;

/// Room for what isn't to be written.
const ROOM: usize = 1000;

/// The bytes of a link that are read at once.
const PIECE: usize = 4096;

/// The most reads of a link.
const MAX_PIECES: usize = 100_000;

/// Three names of actions: two that only read, and one that changes something.
fn is_reading(name: &str) -> Option<bool> {
    match name {
        "package_show" | "package_list" => Some(true),
        "package_create" => Some(false),
        _ => None,
    }
}

fn fault_text(fault: FrontFault) -> &'static str {
    match fault {
        FrontFault::BadHead => "bad head",
        FrontFault::NoLength => "no length",
        FrontFault::TooLong => "too long",
        FrontFault::NoRoute => "no route",
        FrontFault::Method => "method",
        FrontFault::EndedEarly => "ended early",
        FrontFault::LinkFault => "link fault",
        FrontFault::OutOfMemory => "out of memory",
    }
}

/// Writes the name, the body or query in brackets, and the token where there is one.
fn push_parts(answer: &mut Buffer, name: &Text, part: &[u8], token: &Option<Text>) {
    answer.push(name.as_str());
    answer.push(" ");
    answer.push_bracketed(part);
    if let Some(token) = token {
        answer.push(" as ");
        answer.push(token.as_str());
    }
}

/// Writes what is received of the link.
fn push_received<K: Link>(alloc: Global, answer: &mut Buffer, link: &mut K) {
    match receive(alloc, link, is_reading) {
        Ok(Incoming::Post(name, body, token)) => {
            answer.push("POST ");
            push_parts(answer, &name, body.as_slice(), &token);
        }
        Ok(Incoming::Get(name, query, token)) => {
            answer.push("GET ");
            push_parts(answer, &name, query.as_bytes(), &token);
        }
        Err(fault) => answer.push(fault_text(fault)),
    }
}

/// What is received of these bytes, and what else where they are read byte by byte.
fn received(alloc: Global, bytes: &[u8]) -> Result<Buffer, AllocError> {
    let mut link = link_of(alloc, bytes, 0)?;
    let inner = link_of(alloc, bytes, 0)?;
    let mut answer = Buffer::new(alloc);
    push_received(alloc, &mut answer, &mut link);
    let mut single = Buffer::new(alloc);
    push_received(alloc, &mut single, &mut OneByOne { inner });
    answer.push_difference(", but byte by byte ", &single);
    Ok(answer)
}

/// The bytes of a connection: what is received of them.
pub fn request(alloc: Global, case: &Case, answer: &mut Buffer) -> io::Result<()> {
    answer.push_buffer(&received(alloc, case.bytes(0))?);
    Ok(())
}

/// How long the filler is, and the bytes of a connection: what is received of them.
pub fn long_request(alloc: Global, case: &Case, answer: &mut Buffer) -> io::Result<()> {
    let bytes = filled(alloc, case.parsed(0)?, case.bytes(1));
    answer.push_buffer(&received(alloc, bytes.bytes()?)?);
    Ok(())
}

/// How many bytes the link has left.
fn count_left<K: Link>(link: &mut K) -> usize {
    let mut piece = [0; PIECE];
    let mut left = 0usize;
    for _ in 0..MAX_PIECES {
        match link.read(&mut piece) {
            Ok(count) if count > 0 => left = left.saturating_add(count),
            _ => return left,
        }
    }
    left
}

/// How many bytes the link has left after a request was received.
fn left_of<K: Link>(alloc: Global, link: &mut K) -> Buffer {
    let mut unread = Buffer::new(alloc);
    push_received(alloc, &mut unread, link);
    Buffer::of_value(alloc, &count_left(link))
}

/// How long the filler is, and the bytes of a connection: how many are left after what is received of them, and how
/// many else where they are read byte by byte.
pub fn left(alloc: Global, case: &Case, answer: &mut Buffer) -> io::Result<()> {
    let bytes = filled(alloc, case.parsed(0)?, case.bytes(1));
    let mut link = link_of(alloc, bytes.bytes()?, 0)?;
    let inner = link_of(alloc, bytes.bytes()?, 0)?;
    answer.push_buffer(&left_of(alloc, &mut link));
    answer.push_difference(", byte by byte ", &left_of(alloc, &mut OneByOne { inner }));
    Ok(())
}

/// The bytes of a connection: what is received of each proper prefix, where it is the same of all.
pub fn prefixes(alloc: Global, case: &Case, answer: &mut Buffer) -> io::Result<()> {
    let bytes = case.bytes(0);
    answer.push_buffer(&received(alloc, &[])?);
    for end in 0..bytes.len() {
        let other = received(alloc, &bytes[..end])?;
        answer.push_difference(", but of a longer prefix ", &other);
    }
    Ok(())
}

/// The number of the call that fails, and the bytes of a connection: what is received of them. Nothing is written.
pub fn failing(alloc: Global, case: &Case, answer: &mut Buffer) -> io::Result<()> {
    let mut link = failing_link(alloc, case.bytes(1), ROOM, case.parsed(0)?)?;
    push_received(alloc, answer, &mut link);
    if !link.taken().is_empty() {
        answer.push(", and something written");
    }
    Ok(())
}
