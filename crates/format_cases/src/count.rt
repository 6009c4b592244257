//! What is counted of a document of N-Triples: its triples, or the datasets that its catalogues list.
use crate::graph::document_of;
use cases::{Buffer, Case};
use dcat_map::{Graph, ListFault, RecordFault, describe_in, listed_in};
use ntriples::{Triple, read};
use portal_base::seq::Seq;
use portal_base::text::Text;
use std::alloc::{AllocError, Global};
use std::io;

#[derive(Clone, Copy)]
pub enum Kind {
    /// The triples.
    Triples,
    /// The datasets that are listed, and those of them that have a record.
    Datasets,
}

impl Kind {
    /// The kind that the word names.
    pub fn named(word: &str) -> Option<Kind> {
        match word {
            "triples" => Some(Kind::Triples),
            "datasets" => Some(Kind::Datasets),
            _ => None,
        }
    }
}

/// Whether the graph has a record of the dataset.
fn has_record(alloc: Global, graph: &Graph, iri: &Text) -> Result<bool, AllocError> {
    match describe_in(alloc, graph, iri) {
        Ok(_) => Ok(true),
        Err(RecordFault::OutOfMemory) => Err(AllocError),
        Err(_) => Ok(false),
    }
}

/// How many of the datasets the graph has a record of.
fn count_records(alloc: Global, graph: &Graph, iris: &[Text]) -> Result<usize, AllocError> {
    let mut count: usize = 0;
    for iri in iris {
        if has_record(alloc, graph, iri)? {
            count = count.saturating_add(1);
        }
    }
    Ok(count)
}

/// How many datasets the graph's catalogues list, and how many of these have a record.
fn count_listed(alloc: Global, triples: &Seq<Triple>) -> Result<(usize, usize), ListFault> {
    let graph = Graph::of(alloc, triples)?;
    let listing = listed_in(alloc, &graph)?;
    let recorded = count_records(alloc, &graph, listing.iris.as_slice())?;
    Ok((listing.iris.len(), recorded))
}

fn triples_text(alloc: Global, triples: &Seq<Triple>) -> Buffer {
    let mut counts = Buffer::new(alloc);
    counts.push_value(&triples.len());
    counts.push(" triples");
    counts
}

fn datasets_text(alloc: Global, triples: &Seq<Triple>) -> Result<Buffer, Buffer> {
    match count_listed(alloc, triples) {
        Ok((listed, recorded)) => {
            let mut counts = Buffer::new(alloc);
            counts.push_value(&listed);
            counts.push(" listed, ");
            counts.push_value(&recorded);
            counts.push(" with a record");
            Ok(counts)
        }
        Err(fault) => Err(Buffer::of_value(alloc, &fault)),
    }
}

/// What is counted of the document, in words; the fault, where it is faulty.
pub fn counts(alloc: Global, kind: Kind, document: &[u8]) -> Result<Buffer, Buffer> {
    let triples = match read(alloc, document) {
        Ok(triples) => triples,
        Err(fault) => return Err(Buffer::of_value(alloc, &fault)),
    };
    match kind {
        Kind::Triples => Ok(triples_text(alloc, &triples)),
        Kind::Datasets => datasets_text(alloc, &triples),
    }
}

/// Writes the counts, or the fault in brackets.
fn push_counts(answer: &mut Buffer, counts: &Result<Buffer, Buffer>) {
    match counts {
        Ok(counts) => answer.push_buffer(counts),
        Err(fault) => {
            answer.push("[");
            answer.push_buffer(fault);
            answer.push("]");
        }
    }
}

/// A document: how many triples it has.
pub fn triples(alloc: Global, case: &Case, answer: &mut Buffer) -> io::Result<()> {
    push_counts(answer, &counts(alloc, Kind::Triples, case.bytes(0)));
    Ok(())
}

/// A graph: how many datasets its catalogues list, and how many of them have a record.
pub fn datasets(alloc: Global, case: &Case, answer: &mut Buffer) -> io::Result<()> {
    let document = document_of(alloc, case.text(0)?);
    push_counts(answer, &counts(alloc, Kind::Datasets, document.bytes()?));
    Ok(())
}
