//! Writing triples.
ghost use Rattle.std.specs.Prelude.{◌≡◌, ◌<◌, ◌++◌, List, All, OnOk, IfOk};
ghost use Rattle.std.specs.List.{flat_map};
ghost use Rattle.ntriples.specs.Document.{IsDocument};
ghost use Rattle.ntriples.specs.Written.{upper_digit, code_escape, iri_byte, literal_byte, iri_text, quoted_text};
ghost use Rattle.ntriples.specs.Written.{typed_text, suffix_text, term_text, triple_text, document_text, CanBeRead};

use crate::characters::is_iri_character;
use crate::term::{Term, Triple};
use crate::terms::XSD_STRING;
use portal_base::seq::Seq;
use portal_base::text::Text;
use std::alloc::{AllocError, Global};

// A hexadecimal digit in upper case.
fn upper_digit(digit: u8) -> u8
    requires { digit < 16 }
    ensures { result ≡ upper_digit digit }
{
    if digit < 10 {
        b'0' + digit
    } else {
        b'A' - 10 + digit
    }
}

#[tactic(auto, unfolding(crate::specs::Written::iri_byte, crate::specs::Written::code_escape))]
fn push_iri_byte(out: &mut Vec<u8>, byte: u8) -> Result<(), AllocError>
    ensures { OnOk result (out.new.items ≡ out.old.items ++ iri_byte byte) }
{
    if is_iri_character(char::from(byte)) {
        out.push(byte)?;
    } else {
        let digits = [upper_digit(byte / 16), upper_digit(byte % 16)];
        out.extend_from_slice(b"\\u00")?;
        out.extend_from_slice(&digits)?;
    }
    Ok(())
}

#[tactic(auto, unfolding(crate::specs::Written::literal_byte))]
fn push_literal_byte(out: &mut Vec<u8>, byte: u8) -> Result<(), AllocError>
    ensures { OnOk result (out.new.items ≡ out.old.items ++ literal_byte byte) }
{
    match byte {
        b'\\' => out.extend_from_slice(b"\\\\"),
        b'"' => out.extend_from_slice(b"\\\""),
        b'\n' => out.extend_from_slice(b"\\n"),
        b'\r' => out.extend_from_slice(b"\\r"),
        _ => Ok(out.push(byte)?),
    }
}

fn push_iri_bytes(out: &mut Vec<u8>, bytes: &[u8]) -> Result<(), AllocError>
    ensures { OnOk result (out.new.items ≡ out.old.items ++ flat_map iri_byte bytes.now) }
{
    for byte in bytes {
        push_iri_byte(out, *byte)?;
    }
    Ok(())
}

fn push_literal_bytes(out: &mut Vec<u8>, bytes: &[u8]) -> Result<(), AllocError>
    ensures { OnOk result (out.new.items ≡ out.old.items ++ flat_map literal_byte bytes.now) }
{
    for byte in bytes {
        push_literal_byte(out, *byte)?;
    }
    Ok(())
}

#[tactic(auto, unfolding(crate::specs::Written::iri_text))]
fn push_iri(out: &mut Vec<u8>, iri: &Text) -> Result<(), AllocError>
    ensures { OnOk result (out.new.items ≡ out.old.items ++ iri_text iri.now) }
{
    out.push(b'<')?;
    push_iri_bytes(out, iri.as_bytes())?;
    out.push(b'>')?;
    Ok(())
}

#[tactic(auto, unfolding(crate::specs::Written::quoted_text))]
fn push_quoted(out: &mut Vec<u8>, text: &Text) -> Result<(), AllocError>
    ensures { OnOk result (out.new.items ≡ out.old.items ++ quoted_text text.now) }
{
    out.push(b'"')?;
    push_literal_bytes(out, text.as_bytes())?;
    out.push(b'"')?;
    Ok(())
}

#[tactic(auto, unfolding(crate::specs::Written::typed_text))]
fn push_typed(out: &mut Vec<u8>, datatype: &Text) -> Result<(), AllocError>
    ensures { OnOk result (out.new.items ≡ out.old.items ++ typed_text datatype.now) }
{
    out.extend_from_slice(b"^^")?;
    push_iri(out, datatype)
}

#[tactic(auto, unfolding(crate::specs::Written::suffix_text))]
fn push_suffix(out: &mut Vec<u8>, datatype: &Text, tag: &Option<Text>) -> Result<(), AllocError>
    ensures { OnOk result (out.new.items ≡ out.old.items ++ suffix_text datatype.now tag.now) }
{
    match tag {
        Some(tag) => {
            out.push(b'@')?;
            out.extend_from_slice(tag.as_bytes())
        }
        None => {
            if datatype.as_str() == XSD_STRING {
                return Ok(());
            }
            push_typed(out, datatype)
        }
    }
}

#[tactic(auto, unfolding(crate::specs::Written::term_text))]
fn push_term(out: &mut Vec<u8>, term: &Term) -> Result<(), AllocError>
    ensures { OnOk result (out.new.items ≡ out.old.items ++ term_text term.now) }
{
    match term {
        Term::Iri(iri) => push_iri(out, iri),
        Term::Blank(label) => {
            out.extend_from_slice(b"_:")?;
            out.extend_from_slice(label.as_bytes())
        }
        Term::Literal(text, datatype, tag) => {
            push_quoted(out, text)?;
            push_suffix(out, datatype, tag)
        }
    }
}

#[tactic(auto, unfolding(crate::specs::Written::triple_text))]
fn push_triple(out: &mut Vec<u8>, triple: &Triple) -> Result<(), AllocError>
    ensures { OnOk result (out.new.items ≡ out.old.items ++ triple_text triple.now) }
{
    push_term(out, &triple.subject)?;
    out.push(b' ')?;
    push_iri(out, &triple.predicate)?;
    out.push(b' ')?;
    push_term(out, &triple.object)?;
    out.extend_from_slice(b" .\n")
}

// The text of triples.
fn text_of(alloc: Global, triples: &Seq<Triple>) -> Result<Vec<u8>, AllocError>
    ensures { IfOk result (λ out. out.items ≡ document_text triples.now) }
{
    let mut out = Vec::new(alloc);
    for triple in triples.as_slice() {
        push_triple(&mut out, triple)?;
    }
    Ok(out)
}

/// Writes each triple on a line of RDF 1.1 N-Triples: one space between the terms and before the full stop, and a
/// line feed after it. The datatype of strings is not written. What is written reads back as the same triples.
pub fn write(alloc: Global, triples: &Seq<Triple>) -> Result<Vec<u8>, AllocError>
    requires { All CanBeRead triples.now }
    ensures text { IfOk result (λ out. out.items ≡ document_text triples.now) }
    ensures back { IfOk result (λ out. IsDocument out.items triples.now) }
{
    text_of(alloc, triples)
}
