//! Rows of CSV as inserts: their bodies, and where one ends and the next begins.
use crate::read::schema_of;
use crate::row::source_of;
use cases::{Buffer, Case, invalid};
use portal_base::outside::Source;
use row_inserts::{Insert, Inserts};
use std::alloc::{AllocError, Global};
use std::io;

/// The descriptor of a table with one column of texts.
const TEXTS: &[u8] = br#"{"fields":[{"name":"v"}]}"#;

/// What is written of an insert.
#[derive(Clone, Copy)]
enum Part {
    /// The text of its body.
    Body,
    /// How many records its body has, and how many bytes its text.
    Sizes,
}

/// How many records a body has.
fn count_of(text: &str) -> usize {
    text.matches("{\"").count().saturating_sub(1)
}

/// Writes the part of the insert, and that its size is another than that of its text, where it is.
fn push_insert(
    alloc: Global,
    answer: &mut Buffer,
    insert: &Insert,
    part: Part,
) -> Result<(), AllocError> {
    let text = insert.body.text(alloc)?;
    match part {
        Part::Body => answer.push(text.as_str()),
        Part::Sizes => {
            answer.push_value(&count_of(text.as_str()));
            answer.push(":");
            answer.push_value(&text.len());
        }
    }
    if insert.size != text.len() {
        answer.push(" with another size");
    }
    answer.push(" ");
    Ok(())
}

/// Writes the inserts that come, and what ends them.
fn push_inserts<S: Source>(
    alloc: Global,
    answer: &mut Buffer,
    inserts: &mut Inserts<S>,
    part: Part,
) -> Result<(), AllocError> {
    for _ in 0..u64::MAX {
        match inserts.next() {
            Ok(Some(insert)) => push_insert(alloc, answer, &insert, part)?,
            Ok(None) => {
                answer.push("end");
                break;
            }
            Err(fault) => {
                answer.push_value(&fault);
                break;
            }
        }
    }
    Ok(())
}

/// The inserts of the loader, one after another, and what ends them.
fn inserts_text<S: Source>(
    alloc: Global,
    inserts: &mut Inserts<S>,
    part: Part,
) -> Result<Buffer, AllocError> {
    let mut text = Buffer::new(alloc);
    push_inserts(alloc, &mut text, inserts, part)?;
    Ok(text)
}

/// The inserts of a text of CSV by a descriptor.
fn inserts_of(
    alloc: Global,
    descriptor: &[u8],
    resource: &str,
    bytes: &[u8],
    part: Part,
) -> io::Result<Buffer> {
    let source = source_of(alloc, bytes)?;
    match Inserts::start(alloc, schema_of(alloc, descriptor)?, resource, source) {
        Ok(mut inserts) => Ok(inserts_text(alloc, &mut inserts, part)?),
        Err((fault, _)) => Ok(Buffer::of_value(alloc, &fault)),
    }
}

/// Writes the inserts of a text of CSV by a descriptor.
fn push_inserts_of(
    alloc: Global,
    answer: &mut Buffer,
    descriptor: &[u8],
    resource: &str,
    bytes: &[u8],
    part: Part,
) -> io::Result<()> {
    answer.push_buffer(&inserts_of(alloc, descriptor, resource, bytes, part)?);
    Ok(())
}

/// A descriptor, the id of a resource, and a text of CSV: the bodies of its inserts.
pub fn bodies(alloc: Global, case: &Case, answer: &mut Buffer) -> io::Result<()> {
    let resource = case.text(1)?;
    push_inserts_of(
        alloc,
        answer,
        case.bytes(0),
        resource,
        case.bytes(2),
        Part::Body,
    )
}

fn number_in(text: &str) -> io::Result<usize> {
    match text.parse::<usize>() {
        Ok(number) => Ok(number),
        Err(_) => Err(invalid()),
    }
}

/// Writes the rows that a word says: `COUNTxLENGTH` COUNT rows of LENGTH letters, and any other word one row of itself.
fn push_rows(file: &mut Buffer, word: &str) -> io::Result<()> {
    let Some((count, length)) = word.split_once('x') else {
        file.push_all(&[word, "\n"]);
        return Ok(());
    };
    let length = number_in(length)?;
    for _ in 0..number_in(count)? {
        file.push_times("a", length);
        file.push("\n");
    }
    Ok(())
}

/// The id of a resource, and words that say rows of one column: how many records and bytes each insert has.
pub fn sizes(alloc: Global, case: &Case, answer: &mut Buffer) -> io::Result<()> {
    let (resource, words) = case.two_texts()?;
    let mut file = Buffer::new(alloc);
    file.push("v\n");
    for word in words.split(' ') {
        push_rows(&mut file, word)?;
    }
    push_inserts_of(alloc, answer, TEXTS, resource, file.bytes()?, Part::Sizes)
}
