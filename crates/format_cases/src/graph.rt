//! Graphs in short: triples with ` . ` between them, and terms with a space between them. `a` stands for `rdf:type`,
//! and the prefixes `dcat:` and `dct:` for those of DCAT and of the DCMI Metadata Terms, as in Turtle.
use cases::Buffer;
use ntriples::{NtFault, Triple, read};
use portal_base::seq::Seq;
use std::alloc::Global;

const TYPE: &str = "<http://www.w3.org/1999/02/22-rdf-syntax-ns#type>";

const PREFIXES: [(&str, &str); 2] = [
    ("dcat:", "http://www.w3.org/ns/dcat#"),
    ("dct:", "http://purl.org/dc/terms/"),
];

/// Writes the IRI of a word with a prefix, and says whether the word has one.
fn push_prefixed(document: &mut Buffer, word: &str) -> bool {
    for (prefix, iri) in PREFIXES {
        if let Some(local) = word.strip_prefix(prefix) {
            document.push_all(&["<", iri, local, "> "]);
            return true;
        }
    }
    false
}

/// Writes the word in full.
fn push_word(document: &mut Buffer, word: &str) {
    match word {
        "." => document.push(".\n"),
        "a" => document.push_all(&[TYPE, " "]),
        _ => {
            if !push_prefixed(document, word) {
                document.push_all(&[word, " "]);
            }
        }
    }
}

/// The document of a graph in short.
pub fn document_of(alloc: Global, short: &str) -> Buffer {
    let mut document = Buffer::new(alloc);
    if short.is_empty() {
        return document;
    }
    for word in short.split(' ') {
        push_word(&mut document, word);
    }
    document.push(".\n");
    document
}

/// The triples of a graph in short.
pub fn triples_of(alloc: Global, short: &str) -> Result<Seq<Triple>, NtFault> {
    let document = document_of(alloc, short);
    read(alloc, document.bytes()?)
}
