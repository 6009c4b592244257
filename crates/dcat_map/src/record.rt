//! The record of a dataset.
ghost use Rattle.std.specs.Prelude.{◌≡◌, ◌⊎◌, ℕ, List, Ok, Err, IfOk, IfErr};
ghost use Rattle.ntriples.specs.declared.term.Term.TheVariants.{Iri};
ghost use Rattle.dcat_map.specs.Records.{record_in, titled, description_in, description_of};
ghost use Rattle.std.specs.List.{list_any};
ghost use Rattle.dcat_map.specs.Graphs.{about};
ghost use Rattle.dcat_map.specs.Terms.{is_iri};
ghost use Rattle.dcat_map.specs.Picks.{picked, least_named, or_empty};
ghost use Rattle.dcat_map.specs.Vocabulary.{rdf_type, dcat_dataset_class, dct_title, dct_description, dct_license};
ghost use Rattle.dcat_map.specs.Instants.{or_epoch};

use crate::distributions::{or_empty, resources_of};
use crate::graph::Graph;
use crate::instants::latest;
use crate::picks::{least_named, picked};
use crate::subject::Subject;
use crate::tags::tags_among;
use crate::terms::is_iri;
use crate::vocabulary::{DATASET_CLASS, DESCRIPTION, KEYWORD, LICENSE, MODIFIED, TITLE, TYPE};
use harvest_records::HarvestRecord;
use ntriples::{Term, Triple};
use portal_base::copy::TryClone;
use portal_base::moment::Moment;
use portal_base::seq::Seq;
use portal_base::text::Text;
use std::alloc::{AllocError, Global};
use thiserror::Error;

/// Why there is no record.
#[derive(Debug, Drop, Error, Clone, Copy, PartialEq, Eq)]
pub enum RecordFault {
    #[error("the graph doesn't describe the dataset")]
    NotDescribed,
    #[error("the dataset has no title")]
    NoTitle,
    #[error("out of memory")]
    OutOfMemory,
}

impl From<AllocError> for RecordFault {
    ghost use Rattle.std.specs.Prelude.{◌≡◌};
    ghost use Rattle.dcat_map.specs.declared.record.RecordFault.TheVariants.{OutOfMemory};

    ghost from_gives = { λ _ fault. fault ≡ OutOfMemory };

    fn from(_refused: AllocError) -> RecordFault {
        RecordFault::OutOfMemory
    }
}

/// What the triples say of the dataset of that IRI.
#[tactic(auto, unfolding(crate::specs::Records::description_of))]
pub fn describe(
    alloc: Global,
    graph: &Seq<Triple>,
    iri: &Text,
) -> Result<HarvestRecord, RecordFault>
    ensures record_is { IfOk result (λ r. description_of graph.now iri.now ≡ Ok r) }
    ensures fault { IfErr result (λ fault.
        (fault ≡ RecordFault.OutOfMemory) ⊎ (description_of graph.now iri.now ≡ Err fault)) }
{
    let graph = Graph::of(alloc, graph)?;
    describe_in(alloc, &graph, iri)
}

/// What the graph says of the dataset of that IRI. For many datasets of one graph this is quicker than `describe`,
/// which makes the graph each time.
pub fn describe_in(
    alloc: Global,
    graph: &Graph<'_>,
    iri: &Text,
) -> Result<HarvestRecord, RecordFault>
    ensures record_is { IfOk result (λ r. description_in graph.now iri.now ≡ Ok r) }
    ensures fault { IfErr result (λ fault.
        (fault ≡ RecordFault.OutOfMemory) ⊎ (description_in graph.now iri.now ≡ Err fault)) }
{
    let dataset = Term::Iri(iri.try_clone(alloc)?);
    describe_dataset(alloc, &Subject::of(graph, &dataset))
}

// What the graph says of the dataset, which an IRI names.
fn describe_dataset(alloc: Global, dataset: &Subject<'_, '_>) -> Result<HarvestRecord, RecordFault>
    ensures record_is { (iri : List ℕ) → dataset.now.1 ≡ Iri iri →
        IfOk result (λ r. description_in dataset.now.0 iri ≡ Ok r) }
    ensures fault { (iri : List ℕ) → dataset.now.1 ≡ Iri iri → IfErr result (λ fault.
        (fault ≡ RecordFault.OutOfMemory) ⊎ (description_in dataset.now.0 iri ≡ Err fault)) }
{
    if is_dataset(dataset) {
        titled(record_of(alloc, dataset)?)
    } else {
        Err(RecordFault::NotDescribed)
    }
}

// The record, if it has a title.
fn titled(described: HarvestRecord) -> Result<HarvestRecord, RecordFault>
    ensures { result ≡ titled described.title described }
{
    if described.title.is_empty() {
        Err(RecordFault::NoTitle)
    } else {
        Ok(described)
    }
}

// Whether the graph says that the subject is a dataset.
fn is_dataset(subject: &Subject<'_, '_>) -> bool
    ensures { result ≡ list_any (λ t. is_iri dcat_dataset_class t.object) (about subject.now.0 subject.now.1 rdf_type) }
{
    subject
        .about(TYPE)
        .iter()
        .any(|triple| is_iri(&triple.get().object, DATASET_CLASS))
}

// What the graph says of the dataset.
#[tactic(auto, unfolding(crate::specs::Records::record_in))]
fn record_of(alloc: Global, dataset: &Subject<'_, '_>) -> Result<HarvestRecord, AllocError>
    ensures { IfOk result (λ r. r ≡ record_in dataset.now.0 dataset.now.1) }
{
    let tags = tags_among(alloc, dataset.about(KEYWORD))?;
    let resources = resources_of(alloc, dataset)?;
    let (title, notes, license_id) = texts_of(alloc, dataset)?;
    Ok(HarvestRecord {
        title,
        notes,
        tags,
        modified: or_epoch(latest(dataset.about(MODIFIED))),
        license_id,
        resources,
    })
}

// The title, the description and the license.
fn texts_of(alloc: Global, dataset: &Subject<'_, '_>) -> Result<(Text, Text, Text), AllocError>
    ensures title { IfOk result (λ texts. texts.0 ≡ picked (about dataset.now.0 dataset.now.1 dct_title)) }
    ensures notes { IfOk result (λ texts. texts.1 ≡ picked (about dataset.now.0 dataset.now.1 dct_description)) }
    ensures license { IfOk result (λ texts.
        texts.2 ≡ or_empty (least_named (about dataset.now.0 dataset.now.1 dct_license))) }
{
    let title = Text::from_str(alloc, picked(dataset.about(TITLE)))?;
    let notes = Text::from_str(alloc, picked(dataset.about(DESCRIPTION)))?;
    let license = or_empty(least_named(dataset.about(LICENSE)));
    Ok((title, notes, Text::from_str(alloc, license)?))
}

// The moment, or 1970-01-01T00:00:00.
fn or_epoch(moment: Option<Moment>) -> Moment
    ensures { result ≡ or_epoch moment }
{
    match moment {
        Some(moment) => moment,
        None => Moment::from_seconds(0).unwrap(),
    }
}
