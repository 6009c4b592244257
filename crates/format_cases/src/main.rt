//! Worked examples of formats: names, moments, ids, JSON, lines, tokens and tags; bodies of datasets and resources;
//! documents of N-Triples, and what catalogues of DCAT list and describe.
//!
//! By the word `triples` or `datasets` it counts instead how many triples the document on standard input has, or how
//! many datasets its catalogues list and how many of them have a record. A fault of the document is printed on standard
//! error, and the status is not 0.
#![tactic(auto)]

mod body;
mod count;
mod dataset_text;
mod document;
mod graph;
mod harvest;
mod json;
mod kinds;
mod lines;
mod old_dataset;
mod short_text;
mod words;

use cases::{Tally, print_counts};
use count::{Kind, counts};
use std::alloc::Global;
use std::env;
use std::io::{self, Read};
use std::process::ExitCode;

fn check_texts(rt: &HostRuntime, tally: &mut Tally) {
    tally.check(rt, "names", 3, words::name);
    tally.check(rt, "ids", 2, words::id);
    tally.check(rt, "moments_written", 2, words::moment_text);
    tally.check(rt, "moments_read", 2, words::moment_seconds);
    tally.check(rt, "tokens", 2, words::tokens_of_text);
    tally.check(rt, "tags", 2, words::tag);
    tally.check(rt, "json_read", 2, json::rewritten);
    tally.check(rt, "json_members", 3, json::member);
    tally.check(rt, "kinds", 3, kinds::value);
    tally.check(rt, "lines", 5, lines::read);
}

fn check_bodies(rt: &HostRuntime, tally: &mut Tally) {
    tally.check(rt, "datasets", 3, body::dataset);
    tally.check(rt, "texts", 3, body::dataset);
    tally.check(rt, "tags_of_datasets", 3, body::dataset);
    tally.check(rt, "resources", 3, body::dataset);
    tally.check(rt, "resource", 3, body::resource);
}

fn check_graphs(rt: &HostRuntime, tally: &mut Tally) {
    tally.check(rt, "documents", 2, document::rewritten);
    tally.check_files(rt, "document_files", 2, document::rewritten);
    tally.check(rt, "characters", 3, document::with_character);
    tally.check(rt, "objects", 2, document::object);
    tally.check(rt, "catalogues", 2, harvest::listing);
    tally.check(rt, "described", 2, harvest::is_described);
    tally.check(rt, "harvested_datasets", 2, harvest::record);
    tally.check(rt, "records", 3, harvest::record_with);
    tally.check(rt, "many", 2, harvest::sizes);
    tally.check(rt, "harvested_names", 3, harvest::name);
    tally.check(rt, "counted_triples", 2, count::triples);
    tally.check(rt, "counted_datasets", 2, count::datasets);
}

/// Counts in standard input.
fn count_input(rt: &HostRuntime, kind: Kind) -> io::Result<ExitCode> {
    let mut document = Vec::new(rt.alloc());
    rt.reader().read_to_end(&mut document)?;
    print_counts(rt, &counts(rt.alloc(), kind, document.as_slice()))
}

/// The kind that the first word names, if it names one.
fn kind_of_words(rt: &(impl env::Env + Alloc<A = Global>)) -> Option<Kind> {
    let word = env::args(rt).ok()?.skip(1).next()?;
    Kind::named(word.as_str())
}

fn main(rt: HostRuntime) -> io::Result<ExitCode> {
    if let Some(kind) = kind_of_words(&rt) {
        return count_input(&rt, kind);
    }
    let mut tally = Tally::new();
    check_texts(&rt, &mut tally);
    check_bodies(&rt, &mut tally);
    check_graphs(&rt, &mut tally);
    tally.end(&rt)
}
