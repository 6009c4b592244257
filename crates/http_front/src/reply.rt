//! The head of a response at the front of a text, and of a link's bytes.
ghost use Rattle.std.specs.Prelude.{◌≡◌, ◌≤◌, ◌≢◌, [], map, take, IfOk, IfErr, IfSome, OnOk, IsNone, Err};
ghost use Rattle.httparse.specs.Spans.{IsResponseWithin, header_bytes};
ghost use Rattle.portal_base.specs.Outside.{Gives, Rose};
ghost use Rattle.http_front.specs.LinkRead.{IsOutside};
ghost use Rattle.http_front.specs.Fetch.{IsReplyParse, IsReplyParseOfBuffer, IsReplyOf, HasNoReply};

use crate::fault::FrontFault;
use crate::head::{Field, MOST_FIELDS, fields_at};
use crate::reading::{LONGEST_HEAD, is_due, read_more};
use httparse::Status;
use httparse::spans::{EMPTY_HEADER_SPAN, HeaderSpan, ResponseSpans, parse_response};
use portal_base::outside::Link;
use portal_base::seq::Seq;
use std::alloc::{AllocError, Global};

/// A head's status and fields, and how many bytes it has.
#[derive(Drop)]
pub struct Reply {
    pub status: u16,
    pub fields: Seq<Field>,
    pub length: usize,
}

/// What a parse says of a text: it begins with a complete head, it may be the beginning of one, or it is neither.
#[derive(Drop)]
pub enum ReplyParse {
    Complete(Reply),
    Partial,
    Invalid,
}

// Parses the head at the front of the text.
fn parse_reply(alloc: Global, text: &[u8]) -> Result<ReplyParse, AllocError>
    ensures { IfOk result (λ parse. IsReplyParse text.now parse) }
{
    let mut spans = [EMPTY_HEADER_SPAN; MOST_FIELDS];
    match parse_response(text, &mut spans) {
        Ok(Status::Complete(found)) => {
            let reply = copy_of(alloc, text, &spans, found)?;
            Ok(ReplyParse::Complete(reply))
        }
        Ok(Status::Partial) => Ok(ReplyParse::Partial),
        Err(_) => Ok(ReplyParse::Invalid),
    }
}

// Copies the head that the spans describe.
fn copy_of(
    alloc: Global,
    text: &[u8],
    spans: &[HeaderSpan],
    found: ResponseSpans,
) -> Result<Reply, AllocError>
    requires { IsResponseWithin text.now spans.now found }
    ensures status { IfOk result (λ reply. reply.status ≡ found.code) }
    ensures fields { IfOk result
        (λ reply. reply.fields ≡ map (header_bytes text.now) (take found.headers spans.now)) }
    ensures length { IfOk result (λ reply. reply.length ≡ found.len) }
{
    let fields = fields_at(alloc, text, &spans[..found.headers])?;
    Ok(Reply {
        status: found.code,
        fields: Seq::from(fields),
        length: found.len,
    })
}

// Parses the buffer, whose bytes from `before` on are new. If `more` is false, no bytes come after the buffer.
fn parse_buffer(
    alloc: Global,
    buffer: &[u8],
    before: usize,
    more: bool,
) -> Result<ReplyParse, AllocError>
    ensures { IfOk result (IsReplyParseOfBuffer buffer.now more) }
{
    if more && !is_due(buffer, before) {
        return Ok(ReplyParse::Partial);
    }
    match parse_reply(alloc, buffer)? {
        ReplyParse::Partial if !more => Ok(ReplyParse::Invalid),
        parse => Ok(parse),
    }
}

/// Reads into the buffer until it begins with a head, and returns a copy of the head, or none if no head comes.
pub fn read_reply<K: Link>(
    alloc: Global,
    link: &mut K,
    buffer: &mut Vec<u8>,
) -> Result<Option<Reply>, FrontFault>
    requires empty { buffer.old.items ≡ [] }
    ensures found { IfOk result (λ reply. IfSome reply (IsReplyOf buffer.new.items)) }
    ensures short { IfOk result (λ reply. IfSome reply (λ r. r.length ≤ 16384)) }
    ensures gives { OnOk result (Gives (K.to_come link.old) buffer.new.items (K.to_come link.new)) }
    ensures none { IfOk result (λ reply. IsNone reply → IfSome (K.to_come link.old) HasNoReply) }
    ensures fault { IfErr result IsOutside }
    ensures taken { K.taken link.new ≡ K.taken link.old }
    ensures failed { result ≡ Err FrontFault.LinkFault → Rose (K.faults link.old) (K.faults link.new) }
    ensures counts { K.faults link.old ≤ K.faults link.new }
{
    while buffer.len() < LONGEST_HEAD {
        let before = buffer.len();
        let more = read_more(link, LONGEST_HEAD - before, buffer)?;
        match parse_buffer(alloc, buffer.as_slice(), before, more) {
            Ok(ReplyParse::Complete(reply)) => return Ok(Some(reply)),
            Ok(ReplyParse::Partial) => {}
            Ok(ReplyParse::Invalid) => return Ok(None),
            Err(_) => return Err(FrontFault::OutOfMemory),
        }
    }
    Ok(None)
}
