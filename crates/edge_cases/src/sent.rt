//! What is sent.
ghost use Rattle.std.specs.Prelude.{IsSome};
ghost use Rattle.http.specs.StatusCode.{reason_phrase};

use crate::links::{OneByOne, link_of};
use cases::{Buffer, Case};
use http_front::response::send;
use std::alloc::{AllocError, Global};
use std::io;

/// Room for a response.
const ROOM: usize = 1000;

/// The status where it is one of the portal's, and else 507.
fn known(status: u16) -> u16
    ensures { IsSome (reason_phrase result) }
{
    match status {
        200 => 200,
        400 => 400,
        403 => 403,
        404 => 404,
        405 => 405,
        409 => 409,
        411 => 411,
        413 => 413,
        503 => 503,
        _ => 507,
    }
}

/// Writes what a link with that much room takes of the response, and says whether the link failed.
fn push_sent(
    alloc: Global,
    answer: &mut Buffer,
    room: usize,
    status: u16,
    body: &[u8],
) -> Result<bool, AllocError> {
    let mut link = link_of(alloc, &[], room)?;
    let has_failed = send(&mut link, known(status), body).is_err();
    answer.push_bytes(link.taken());
    Ok(has_failed)
}

/// What a link takes of the response that takes one byte at a time, and whether it failed.
fn sent_singly(alloc: Global, status: u16, body: &[u8]) -> Result<(Buffer, bool), AllocError> {
    let inner = link_of(alloc, &[], ROOM)?;
    let mut link = OneByOne { inner };
    let has_failed = send(&mut link, known(status), body).is_err();
    let mut sent = Buffer::new(alloc);
    sent.push_bytes(link.inner.taken());
    Ok((sent, has_failed))
}

/// A status and a body: the response, which is the same where it is taken byte by byte.
pub fn response(alloc: Global, case: &Case, answer: &mut Buffer) -> io::Result<()> {
    let status = case.parsed(0)?;
    let has_failed = push_sent(alloc, answer, ROOM, status, case.bytes(1))?;
    let (single, has_single_failed) = sent_singly(alloc, status, case.bytes(1))?;
    answer.push_difference(", but byte by byte ", &single);
    if has_failed || has_single_failed {
        answer.push(", and a fault");
    }
    Ok(())
}

/// The room of a link, a status and a body: what is taken before the link fails.
pub fn beginning(alloc: Global, case: &Case, answer: &mut Buffer) -> io::Result<()> {
    if !push_sent(
        alloc,
        answer,
        case.parsed(0)?,
        case.parsed(1)?,
        case.bytes(2),
    )? {
        answer.push(", and no fault");
    }
    Ok(())
}
