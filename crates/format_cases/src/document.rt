//! Documents of N-Triples (RDF 1.1 N-Triples).
use cases::{Buffer, Case, invalid};
use ntriples::{NtFault, Term, read, write};
use std::alloc::Global;
use std::io;

/// The mark at the position of a character in a document.
const MARK: char = '◌';

/// A document: the document that is written of its triples, or which line is bad.
pub fn rewritten(alloc: Global, case: &Case, answer: &mut Buffer) -> io::Result<()> {
    match read(alloc, case.bytes(0)) {
        Ok(triples) => answer.push_bytes(write(alloc, &triples)?.as_slice()),
        Err(fault) => answer.push_value(&fault),
    }
    Ok(())
}

/// The character of that number in hexadecimal digits.
fn character_of(number: &str) -> io::Result<char> {
    let Ok(code) = u32::from_str_radix(number, 16) else {
        return Err(invalid());
    };
    char::from_u32(code).ok_or(invalid())
}

/// The document with the character in place of its mark.
fn document_with(alloc: Global, document: &str, character: char) -> io::Result<Buffer> {
    let Some((before, after)) = document.split_once(MARK) else {
        return Err(invalid());
    };
    let mut text = Buffer::new(alloc);
    text.push(before);
    text.push_value(&character);
    text.push(after);
    Ok(text)
}

/// A document with a mark, and a character: whether it is N-Triples with the character there.
pub fn with_character(alloc: Global, case: &Case, answer: &mut Buffer) -> io::Result<()> {
    let (document, number) = case.two_texts()?;
    let document = document_with(alloc, document, character_of(number)?)?;
    answer.push(match read(alloc, document.bytes()?) {
        Ok(_) => "yes",
        Err(NtFault::Line(_)) => "no",
        Err(NtFault::OutOfMemory) => "out of memory",
    });
    Ok(())
}

/// Writes the term: its kind, and what it has.
fn push_term(answer: &mut Buffer, term: &Term) {
    match term {
        Term::Iri(iri) => answer.push_all(&["IRI ", iri.as_str()]),
        Term::Blank(label) => answer.push_all(&["blank node ", label.as_str()]),
        Term::Literal(text, datatype, language) => {
            answer.push_all(&["literal ", text.as_str(), ", datatype ", datatype.as_str()]);
            if let Some(language) = language {
                answer.push_all(&[", language ", language.as_str()]);
            }
        }
    }
}

/// A document of one triple: its object.
pub fn object(alloc: Global, case: &Case, answer: &mut Buffer) -> io::Result<()> {
    let Ok(triples) = read(alloc, case.bytes(0)) else {
        return Err(invalid());
    };
    match triples.as_slice() {
        [triple] => push_term(answer, &triple.object),
        _ => answer.push("not one triple"),
    }
    Ok(())
}
