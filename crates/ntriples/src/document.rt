//! Documents.
ghost use Rattle.std.specs.Prelude.{All, ◌≡◌, ◌⊎◌, ◌≤◌, ◌<◌, ℕ, List, ◌∷◌, ◌++◌, true, false, length, slice_index};
ghost use Rattle.std.specs.Prelude.{drop, option_map, Some, Ok, Err, IfOk, IfErr, IfSome};
ghost use Rattle.ntriples.specs.declared.term.Triple.{Triple as Triples};
ghost use Rattle.ntriples.specs.Reading.{Gives};
ghost use Rattle.ntriples.specs.Document.{is_line_end, begins_with_feed, lines, given};
ghost use Rattle.ntriples.specs.Document.{IsDocument, IsFirstBadLine, IsFault};
ghost use Rattle.ntriples.specs.ParsedLines.{lines_after, after_end, line_of, IsParsed, IsParseFault};
ghost use Rattle.ntriples.specs.Written.{CanBeRead};

use crate::fault::{NtFault, Refusal};
use crate::term::Triple;
use crate::terms::line;
use portal_base::seq::Seq;
use std::alloc::Global;

fn is_line_end(byte: u8) -> bool
    ensures { result ≡ is_line_end byte }
{
    byte == b'\n' || byte == b'\r'
}

// How many bytes there are before the first line end.
fn line_len(bytes: &[u8]) -> usize
    ensures within { result ≤ length bytes.now }
    ensures before { (k : ℕ) → k < result → is_line_end (slice_index bytes.now k) ≡ false }
    ensures found { result < length bytes.now → is_line_end (slice_index bytes.now result) ≡ true }
{
    for (position, byte) in bytes.iter().enumerate() {
        if is_line_end(*byte) {
            return position;
        }
    }
    bytes.len()
}

// What follows a line end, from it on.
fn after_end(bytes: &[u8]) -> Option<&[u8]>
    ensures { option_map (λ rest. rest.now) result ≡ after_end bytes.now }
{
    match bytes {
        [] => None,
        [b'\r', b'\n', rest @ ..] => Some(rest),
        [_, rest @ ..] => Some(rest),
    }
}

// The first line without its end, and what follows its end.
fn split_line(bytes: &[u8]) -> (&[u8], Option<&[u8]>)
    ensures cut { lines bytes.now ≡ result.0.now ∷ lines_after (option_map (λ rest. rest.now) result.1) }
    ensures shorter { IfSome result.1 (λ rest. length rest.now < length bytes.now) }
    ensures within { length result.0.now ≤ length bytes.now }
{
    let (line, rest) = bytes.split_at(line_len(bytes));
    (line, after_end(rest))
}

// The triple of a line.
fn line_of(alloc: Global, bytes: &[u8]) -> Result<Option<Triple>, Refusal>
    ensures { Gives (λ t. t) result (line_of bytes.now) }
{
    match std::str::from_utf8(bytes) {
        Ok(text) => line(alloc, text),
        Err(_) => Err(Refusal::Malformed),
    }
}

// Adds the triple of a line.
fn push_line(alloc: Global, triples: &mut Seq<Triple>, bytes: &[u8]) -> Result<(), Refusal>
    ensures { Gives (λ _. triples.new) result (option_map (λ t. triples.old ++ given t) (line_of bytes.now)) }
{
    let triple = line_of(alloc, bytes)?;
    push_given(triples, triple)
}

// Adds the triple, if there is one.
fn push_given(triples: &mut Seq<Triple>, triple: Option<Triple>) -> Result<(), Refusal>
    ensures { Gives (λ _. triples.new) result (Some (triples.old ++ given triple)) }
{
    match triple {
        Some(triple) => triples
            .push(triple)
            .map_err(|_refused| Refusal::OutOfMemory),
        None => Ok(()),
    }
}

// Reads a document, or reports the first bad line.
fn read_lines(alloc: Global, bytes: &[u8]) -> Result<Seq<Triple>, NtFault>
    ensures triples { IfOk result (λ ts. IsParsed bytes.now ts) }
    ensures fault { IfErr result (λ fault. IsParseFault bytes.now fault) }
{
    let mut triples = Seq::new(alloc);
    let mut rest = bytes;
    let mut ended: u64 = 0;
    loop {
        let (line, following) = split_line(rest);
        match push_line(alloc, &mut triples, line) {
            Ok(()) => {}
            Err(Refusal::Malformed) => return Err(NtFault::Line(ended + 1)),
            Err(Refusal::OutOfMemory) => return Err(NtFault::OutOfMemory),
        }
        match following {
            Some(following) => rest = following,
            None => return Ok(triples),
        }
        ended += 1;
    }
}

/// Reads a document of RDF 1.1 N-Triples. A line ends at a carriage return and a line feed, or at one of them, and the
/// last one may lack its end.
pub fn read(alloc: Global, bytes: &[u8]) -> Result<Seq<Triple>, NtFault>
    ensures triples { IfOk result (λ ts. IsDocument bytes.now ts) }
    ensures readable { IfOk result (λ ts. All CanBeRead ts) }
    ensures fault { IfErr result (λ fault. IsFault bytes.now fault) }
    ensures documents { (ts : List Triples) → IsDocument bytes.now ts →
        (result ≡ Ok ts) ⊎ (result ≡ Err NtFault.OutOfMemory) }
    ensures bad { (number : ℕ) → IsFirstBadLine bytes.now number →
        (result ≡ Err (NtFault.Line number)) ⊎ (result ≡ Err NtFault.OutOfMemory) }
{
    read_lines(alloc, bytes)
}
