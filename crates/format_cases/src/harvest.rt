//! What catalogues list, and the record that a graph has of the dataset `<x>` (DCAT 3).
use crate::graph::triples_of;
use cases::{Buffer, Case, invalid};
use dcat_map::{Distribution, HarvestRecord, describe, described, listed, name_of};
use ntriples::Triple;
use portal_base::moment::Moment;
use portal_base::seq::Seq;
use portal_base::text::Text;
use std::alloc::{AllocError, Global};
use std::io;

/// The IRI of the dataset.
const IRI: &str = "x";

fn push_listing(alloc: Global, answer: &mut Buffer, triples: &Seq<Triple>) {
    match listed(alloc, triples) {
        Ok(listing) => {
            for iri in listing.iris.as_slice() {
                answer.push("<");
                answer.push(iri.as_str());
                answer.push("> ");
            }
            answer.push("and ");
            answer.push_value(&listing.unnamed);
            answer.push(" unnamed");
        }
        Err(fault) => answer.push_value(&fault),
    }
}

/// A graph: the IRIs that its catalogues list, and how many datasets without an IRI.
pub fn listing(alloc: Global, case: &Case, answer: &mut Buffer) -> io::Result<()> {
    match triples_of(alloc, case.text(0)?) {
        Ok(triples) => push_listing(alloc, answer, &triples),
        Err(fault) => answer.push_value(&fault),
    }
    Ok(())
}

/// A graph: whether it describes `<x>`.
pub fn is_described(alloc: Global, case: &Case, answer: &mut Buffer) -> io::Result<()> {
    let Ok(triples) = triples_of(alloc, case.text(0)?) else {
        return Err(invalid());
    };
    let is_described = described(&triples, &Text::from_static(IRI));
    answer.push(if is_described { "yes" } else { "no" });
    Ok(())
}

/// Writes a field, after the divider unless it is the first, if its value isn't empty.
fn push_field(fields: &mut Buffer, divider: &str, name: &str, value: &str) {
    if !value.is_empty() {
        fields.divide(divider);
        fields.push(name);
        fields.push("=");
        fields.push(value);
    }
}

/// Writes a distribution in brackets, with the fields that aren't empty.
fn push_distribution(alloc: Global, answer: &mut Buffer, distribution: &Distribution) {
    let mut fields = Buffer::new(alloc);
    push_field(&mut fields, ",", "url", distribution.url.as_str());
    push_field(&mut fields, ",", "name", distribution.name.as_str());
    push_field(&mut fields, ",", "format", distribution.format.as_str());
    push_field(&mut fields, ",", "mimetype", distribution.mimetype.as_str());
    push_field(
        &mut fields,
        ",",
        "description",
        distribution.description.as_str(),
    );
    answer.push(" [");
    answer.push_buffer(&fields);
    answer.push("]");
}

/// The texts with commas between them.
fn joined(alloc: Global, texts: &[Text]) -> Buffer {
    let mut list = Buffer::new(alloc);
    for text in texts {
        list.divide(",");
        list.push(text.as_str());
    }
    list
}

/// The moment's text. The moment 1970-01-01T00:00:00, which stands for none, has an empty one.
fn moment_text(alloc: Global, moment: &Moment) -> Result<Text, AllocError> {
    if moment.seconds() == 0 {
        return Ok(Text::new(alloc));
    }
    moment.text(alloc)
}

/// The record's fields that aren't empty.
fn record_fields(alloc: Global, record: &HarvestRecord) -> io::Result<Buffer> {
    let tags = joined(alloc, record.tags.as_slice());
    let modified = moment_text(alloc, &record.modified)?;
    let mut fields = Buffer::new(alloc);
    push_field(&mut fields, "; ", "title", record.title.as_str());
    push_field(&mut fields, "; ", "notes", record.notes.as_str());
    push_field(&mut fields, "; ", "tags", tags.text()?);
    push_field(&mut fields, "; ", "modified", modified.as_str());
    push_field(&mut fields, "; ", "license", record.license_id.as_str());
    Ok(fields)
}

fn push_record(alloc: Global, answer: &mut Buffer, record: &HarvestRecord) -> io::Result<()> {
    answer.push_buffer(&record_fields(alloc, record)?);
    for distribution in record.resources.as_slice() {
        push_distribution(alloc, answer, distribution);
    }
    Ok(())
}

/// Writes the record of `<x>` in the graph in short.
fn push_record_of(alloc: Global, answer: &mut Buffer, short: &str) -> io::Result<()> {
    let triples = match triples_of(alloc, short) {
        Ok(triples) => triples,
        Err(fault) => {
            answer.push_value(&fault);
            return Ok(());
        }
    };
    match describe(alloc, &triples, &Text::from_static(IRI)) {
        Ok(record) => push_record(alloc, answer, &record)?,
        Err(fault) => answer.push_value(&fault),
    }
    Ok(())
}

/// A graph: its record of `<x>`.
pub fn record(alloc: Global, case: &Case, answer: &mut Buffer) -> io::Result<()> {
    push_record_of(alloc, answer, case.text(0)?)
}

/// A graph and more of it: its record of `<x>`.
pub fn record_with(alloc: Global, case: &Case, answer: &mut Buffer) -> io::Result<()> {
    let (graph, more) = case.two_texts()?;
    let mut short = Buffer::new(alloc);
    short.push_all(&[graph, " . ", more]);
    push_record_of(alloc, answer, short.text()?)
}

/// The graph in short of `<x>` with that number of keywords and of distributions.
fn graph_with(alloc: Global, count: u32) -> Buffer {
    let mut short = Buffer::new(alloc);
    short.push("<x> a dcat:Dataset . <x> dct:title \"A\"");
    for number in 0..count {
        short.push(" . <x> dcat:keyword \"k");
        short.push_value(&number);
        short.push("\" . <x> dcat:distribution _:");
        short.push_value(&number);
    }
    short
}

/// How many keywords and distributions `<x>` has: how many tags and resources its record has.
pub fn sizes(alloc: Global, case: &Case, answer: &mut Buffer) -> io::Result<()> {
    let short = graph_with(alloc, case.parsed(0)?);
    let Ok(triples) = triples_of(alloc, short.text()?) else {
        return Err(invalid());
    };
    match describe(alloc, &triples, &Text::from_static(IRI)) {
        Ok(record) => {
            answer.push_value(&record.tags.len());
            answer.push(" tags, ");
            answer.push_value(&record.resources.len());
            answer.push(" resources");
        }
        Err(fault) => answer.push_value(&fault),
    }
    Ok(())
}

/// A source and an IRI: the name of the dataset that is harvested.
pub fn name(alloc: Global, case: &Case, answer: &mut Buffer) -> io::Result<()> {
    let (source, iri) = case.two_texts()?;
    let source = Text::from_str(alloc, source)?;
    let iri = Text::from_str(alloc, iri)?;
    answer.push(name_of(alloc, &source, &iri)?.as_str());
    Ok(())
}
