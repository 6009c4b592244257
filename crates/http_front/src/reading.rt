//! Reading off a link: a head, and a body of a given length.
ghost use Rattle.std.specs.Prelude.{◌≡◌, ◌<◌, ◌≤◌, ◌+◌, ◌++◌, ◌==◌, ◌⊎◌, ℕ, List, [], Bool, true, false, Err};
ghost use Rattle.std.specs.Prelude.{Ok, length, map, take};
ghost use Rattle.std.specs.Prelude.{IfOk, IfErr, IfSome, OnOk, OnErr, MatchResult};
ghost use Rattle.std.specs.List.{list_any};
ghost use Rattle.portal_base.specs.Outside.{Gives, IsAtEnd, Rose};
ghost use Rattle.httparse.specs.Grammar.{HasNoRequest, MayBecomeRequest};
ghost use Rattle.http_front.specs.Head.{marked_byte, marked, IsInvalid, IsPartial};
ghost use Rattle.http_front.specs.LinkRead.{IsOutside, LosesPiece, ReadsOn};
ghost use Rattle.http_front.specs.HeadParse.{HasHeadOf, IsHeadParse, IsParseOfBuffer, is_due};
ghost use Rattle.http_front.specs.Request.{UnlessOutside, HasNone};
ghost use Rattle.http_front.specs.Taken.{ReadsBody, ReadsNoHead};

use crate::fault::FrontFault;
use crate::head::{HeadParse, is_over, parse_head};
use portal_base::outside::Link;
use std::alloc::{AllocError, Global};

/// The most bytes of a head.
pub const LONGEST_HEAD: usize = 16_384;

/// The most bytes of a piece.
pub const PIECE: usize = 4096;

fn mark_of(byte: u8) -> u8
    ensures { result ≡ marked_byte byte }
{
    if byte < 128 { byte } else { b'(' }
}

// The bytes, each one past ASCII as `(`.
fn marked(alloc: Global, bytes: &[u8]) -> Result<Vec<u8>, AllocError>
    ensures { IfOk result (λ marks. marks.items ≡ marked bytes.now) }
{
    let mut marks = Vec::with_capacity(alloc, bytes.len())?;
    for byte in bytes {
        marks.push(mark_of(*byte))?;
    }
    Ok(marks)
}

/// Parses the head at the front of the bytes, whatever the encoding of its target.
pub fn parse_marked_head(alloc: Global, bytes: &[u8]) -> Result<HeadParse, AllocError>
    ensures { IfOk result (λ parse. IsHeadParse (marked bytes.now) parse) }
{
    let marks = marked(alloc, bytes)?;
    parse_head(alloc, marks.as_slice())
}

/// Appends at most `limit` bytes of the link to the buffer, and returns whether any came.
pub fn read_more<K: Link>(
    link: &mut K,
    limit: usize,
    buffer: &mut Vec<u8>,
) -> Result<bool, FrontFault>
    requires some { 0 < limit }
    ensures bytes { IfOk result (λ more.
        ReadsOn limit (K.to_come link.old) buffer.old.items (K.to_come link.new) buffer.new.items more) }
    ensures fault { IfErr result IsOutside }
    ensures lost { IfErr result (LosesPiece limit (K.to_come link.old) (K.to_come link.new)) }
    ensures taken { K.taken link.new ≡ K.taken link.old }
    ensures failed { result ≡ Err FrontFault.LinkFault → Rose (K.faults link.old) (K.faults link.new) }
    ensures counts { K.faults link.old ≤ K.faults link.new }
{
    let mut piece = [0; PIECE];
    let room = limit.min(PIECE);
    let count = link.read(&mut piece[..room])?;
    buffer.extend_from_slice(&piece[..count])?;
    Ok(count > 0)
}

fn has_feed(bytes: &[u8]) -> bool
    ensures { result ≡ list_any (λ b. b == 10) bytes.now }
{
    bytes.iter().any(|byte| *byte == b'\n')
}

/// Whether the buffer is to be parsed again. A head ends in a line feed, so it is if one of the bytes from `before` on
/// is a line feed, or if the buffer has as many bytes as a head may have.
pub fn is_due(buffer: &[u8], before: usize) -> bool
    ensures value { result ≡ is_due buffer.now before }
    ensures short { result ≡ false → length buffer.now < 16384 }
{
    buffer.len() >= LONGEST_HEAD || has_feed(buffer.get(before..).unwrap_or(&[]))
}

// The fault of a buffer after which no bytes come, and which might have become a head.
#[tactic(auto, using(crate::proofs::StartLemmas::marks_continue))]
fn fault_at_end(alloc: Global, buffer: &[u8]) -> Result<FrontFault, AllocError>
    requires open { MayBecomeRequest (marked buffer.now) }
    ensures bad { IfOk result (λ fault. fault ≡ FrontFault.BadHead → IsInvalid buffer.now) }
    ensures early { IfOk result (λ fault. fault ≡ FrontFault.EndedEarly → IsPartial buffer.now) }
    ensures either { IfOk result (λ fault. (fault ≡ FrontFault.BadHead) ⊎ (fault ≡ FrontFault.EndedEarly)) }
{
    let marks = marked(alloc, buffer)?;
    if is_over(alloc, marks.as_slice())? {
        Ok(FrontFault::BadHead)
    } else {
        Ok(FrontFault::EndedEarly)
    }
}

// Parses the buffer, whose bytes from `before` on are new, and which began with no head before they came. Returns the
// length of its head, or none if more bytes are to be read. If `more` is false, no bytes come after the buffer.
fn parse_buffer(
    alloc: Global,
    buffer: &[u8],
    before: usize,
    more: bool,
) -> Result<Option<usize>, FrontFault>
    requires short { length buffer.now ≤ 16384 }
    requires new { before ≤ length buffer.now }
    requires none { HasNoRequest (marked (take before buffer.now)) }
    ensures { IsParseOfBuffer buffer.now more result }
{
    if more && !is_due(buffer, before) {
        return Ok(None);
    }
    match parse_marked_head(alloc, buffer)? {
        HeadParse::Complete(head) => Ok(Some(head.length)),
        HeadParse::Invalid => Err(FrontFault::BadHead),
        HeadParse::Partial if more => Ok(None),
        HeadParse::Partial => Err(fault_at_end(alloc, buffer)?),
    }
}

/// Reads into the buffer until it begins with a head, and returns how many bytes the head has.
pub fn read_head<K: Link>(
    alloc: Global,
    link: &mut K,
    buffer: &mut Vec<u8>,
) -> Result<usize, FrontFault>
    requires empty { buffer.old.items ≡ [] }
    ensures found { IfOk result (λ count. HasHeadOf buffer.new.items count) }
    ensures gives { OnOk result (Gives (K.to_come link.old) buffer.new.items (K.to_come link.new)) }
    // The head ends in the last piece.
    ensures few { IfOk result (λ count. length buffer.new.items < count + 4096) }
    ensures none { IfErr result (λ fault. UnlessOutside fault
        (IfSome (K.to_come link.old) (λ bytes. HasNone bytes (Err fault)))) }
    ensures lost { IfErr result (ReadsNoHead (K.to_come link.old) (K.to_come link.new)) }
    ensures taken { K.taken link.new ≡ K.taken link.old }
    ensures failed { result ≡ Err FrontFault.LinkFault → Rose (K.faults link.old) (K.faults link.new) }
    ensures counts { K.faults link.old ≤ K.faults link.new }
{
    while buffer.len() < LONGEST_HEAD {
        let before = buffer.len();
        let more = read_more(link, LONGEST_HEAD - before, buffer)?;
        match parse_buffer(alloc, buffer.as_slice(), before, more) {
            Ok(Some(count)) => return Ok(count),
            Ok(None) => {}
            Err(fault) => return Err(fault),
        }
    }
    Err(FrontFault::BadHead)
}

// Reads into the buffer until it has `count` bytes.
fn fill<K: Link>(link: &mut K, count: usize, buffer: &mut Vec<u8>) -> Result<(), FrontFault>
    requires short { length buffer.old.items ≤ count }
    ensures filled { OnOk result ((read : List ℕ) × Gives (K.to_come link.old) read (K.to_come link.new)
        × (buffer.new.items ≡ buffer.old.items ++ read) × (length buffer.new.items ≡ count)) }
    ensures ended { result ≡ Err FrontFault.EndedEarly → IfSome (K.to_come link.old)
        (λ bytes. length (buffer.old.items ++ bytes) < count) }
    ensures reads { ReadsBody count buffer.old.items (K.to_come link.old) (K.to_come link.new) result }
    ensures fault { IfErr result (λ fault. (fault ≡ FrontFault.EndedEarly) ⊎ IsOutside fault) }
    ensures taken { K.taken link.new ≡ K.taken link.old }
    ensures failed { result ≡ Err FrontFault.LinkFault → Rose (K.faults link.old) (K.faults link.new) }
    ensures counts { K.faults link.old ≤ K.faults link.new }
{
    while buffer.len() < count {
        let more = read_more(link, count - buffer.len(), buffer)?;
        if !more {
            return Err(FrontFault::EndedEarly);
        }
    }
    Ok(())
}

/// Reads the body of this length, of which the received bytes came with the head. The bytes after it aren't read.
pub fn read_body<K: Link>(
    alloc: Global,
    link: &mut K,
    received: &[u8],
    count: usize,
) -> Result<Vec<u8>, FrontFault>
    ensures body { IfSome (K.to_come link.old) (λ bytes. IfOk result (λ body.
        (body.items ≡ take count (received.now ++ bytes)) × (count ≤ length (received.now ++ bytes)))) }
    ensures long { IfOk result (λ body. length body.items ≡ count) }
    ensures ended { result ≡ Err FrontFault.EndedEarly → IfSome (K.to_come link.old)
        (λ bytes. length (received.now ++ bytes) < count) }
    ensures reads { ReadsBody count received.now (K.to_come link.old) (K.to_come link.new) result }
    ensures fault { IfErr result (λ fault. (fault ≡ FrontFault.EndedEarly) ⊎ IsOutside fault) }
    ensures taken { K.taken link.new ≡ K.taken link.old }
    ensures failed { result ≡ Err FrontFault.LinkFault → Rose (K.faults link.old) (K.faults link.new) }
    ensures counts { K.faults link.old ≤ K.faults link.new }
{
    if count <= received.len() {
        let body = Vec::from_slice(alloc, &received[..count])?;
        return Ok(body);
    }
    let mut body = Vec::from_slice(alloc, received)?;
    match fill(link, count, &mut body) {
        Ok(()) => Ok(body),
        Err(fault) => Err(fault),
    }
}
