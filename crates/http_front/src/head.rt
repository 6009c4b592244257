//! The head of a request at the front of a text.
ghost use Rattle.std.specs.Prelude.{◌≡◌, ◌≤◌, ◌++◌, ℕ, length, map, take, true, false, All, IfOk};
ghost use Rattle.httparse.specs.Spans.{IsRequestWithin, IsHeaderWithin, header_bytes, span_bytes};
ghost use Rattle.httparse.specs.Spans.{RequestExceeds, RequestOverflows};
ghost use Rattle.http_front.specs.HeadParse.{IsHeadParse, HasNoneOver, StaysWithin};

use httparse::spans::{EMPTY_HEADER_SPAN, HeaderSpan, RequestSpans, parse_request};
use httparse::{Error, Status};
use portal_base::seq::Seq;
use std::alloc::{AllocError, Global};

/// The name and the value of a field.
pub type Field = (Seq<u8>, Seq<u8>);

/// A head's method, request target and fields, and how many bytes it has.
#[derive(Drop)]
pub struct Head {
    pub method: Seq<u8>,
    pub target: Seq<u8>,
    pub fields: Seq<Field>,
    pub length: usize,
}

/// What a parse says of a text: it begins with a complete head, it may be the beginning of one, or it is neither.
#[derive(Drop)]
pub enum HeadParse {
    Complete(Head),
    Partial,
    Invalid,
}

/// The most fields of a head.
pub const MOST_FIELDS: usize = 64;

// Whether the text begins with more field lines than a head may have.
fn exceeds(text: &[u8]) -> bool
    ensures over { result ≡ true → RequestExceeds 64 text.now }
    ensures fits { result ≡ false → HasNoneOver text.now }
{
    let mut spans = [EMPTY_HEADER_SPAN; MOST_FIELDS];
    match parse_request(text, &mut spans) {
        Ok(Status::Complete(_)) => false,
        Ok(Status::Partial) => false,
        Err(Error::TooManyHeaders) => true,
        Err(_) => false,
    }
}

fn exceeds_with(alloc: Global, text: &[u8], ending: &[u8]) -> Result<bool, AllocError>
    ensures over { IfOk result (λ over. over ≡ true → RequestExceeds 64 (text.now ++ ending.now)) }
    ensures fits { IfOk result (λ over. over ≡ false → HasNoneOver (text.now ++ ending.now)) }
{
    let mut whole = Vec::with_capacity(alloc, text.len())?;
    whole.extend_from_slice(text)?;
    whole.extend_from_slice(ending)?;
    Ok(exceeds(whole.as_slice()))
}

/// Whether the text has begun one field line more than a head may have. So if it may become a head at all, this says
/// whether it may become one within the limit.
pub fn is_over(alloc: Global, text: &[u8]) -> Result<bool, AllocError>
    ensures over { IfOk result (λ over. over ≡ true → RequestOverflows 64 text.now) }
    ensures fits { IfOk result (λ over. over ≡ false → StaysWithin text.now) }
{
    // One of these two ends completes the last line and the head, wherever in a field line the text ends.
    if exceeds_with(alloc, text, b":\n\n")? {
        return Ok(true);
    }
    exceeds_with(alloc, text, b"\n\n")
}

/// Parses the head at the front of the text.
pub fn parse_head(alloc: Global, text: &[u8]) -> Result<HeadParse, AllocError>
    ensures { IfOk result (λ parse. IsHeadParse text.now parse) }
{
    let mut spans = [EMPTY_HEADER_SPAN; MOST_FIELDS];
    match parse_request(text, &mut spans) {
        Ok(Status::Complete(request)) => {
            let head = copy_of(alloc, text, &spans, request)?;
            Ok(HeadParse::Complete(head))
        }
        Ok(Status::Partial) => Ok(HeadParse::Partial),
        Err(_) => Ok(HeadParse::Invalid),
    }
}

// Copies the head that the spans describe.
fn copy_of(
    alloc: Global,
    text: &[u8],
    spans: &[HeaderSpan],
    request: RequestSpans,
) -> Result<Head, AllocError>
    requires { IsRequestWithin text.now spans.now request }
    ensures method { IfOk result (λ head. head.method ≡ span_bytes text.now request.method) }
    ensures target { IfOk result (λ head. head.target ≡ span_bytes text.now request.path) }
    ensures fields { IfOk result
        (λ head. head.fields ≡ map (header_bytes text.now) (take request.headers spans.now)) }
    ensures length { IfOk result (λ head. head.length ≡ request.len) }
{
    let method = Vec::from_slice(alloc, request.method.of(text))?;
    let target = Vec::from_slice(alloc, request.path.of(text))?;
    let fields = fields_at(alloc, text, &spans[..request.headers])?;
    Ok(Head {
        method: Seq::from(method),
        target: Seq::from(target),
        fields: Seq::from(fields),
        length: request.len,
    })
}

/// Copies the fields that the spans describe.
pub fn fields_at(alloc: Global, text: &[u8], spans: &[HeaderSpan]) -> Result<Vec<Field>, AllocError>
    requires within { (end : ℕ) × (end ≤ length text.now) × All (IsHeaderWithin end) spans.now }
    ensures { IfOk result (λ fields. fields.items ≡ map (header_bytes text.now) spans.now) }
{
    let mut fields = Vec::with_capacity(alloc, spans.len())?;
    for span in spans {
        let field = field_at(alloc, text, span)?;
        fields.push(field)?;
    }
    Ok(fields)
}

fn field_at(alloc: Global, text: &[u8], span: &HeaderSpan) -> Result<Field, AllocError>
    requires within { IsHeaderWithin (length text.now) span.now }
    ensures { IfOk result (λ field. field ≡ header_bytes text.now span.now) }
{
    let name = Vec::from_slice(alloc, span.name.of(text))?;
    let value = Vec::from_slice(alloc, span.value.of(text))?;
    Ok((Seq::from(name), Seq::from(value)))
}
