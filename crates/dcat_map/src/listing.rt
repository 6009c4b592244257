//! What the catalogues of a graph list.
ghost use Rattle.std.specs.Prelude.{◌≡◌, ◌∷◌, [], ◌++◌, ◌⊎◌, length, map, filter, Some, None, IfOk, IfErr, OnOk};
ghost use Rattle.std.specs.List.{filter_map, list_any};
ghost use Rattle.std.specs.List.Sorted.{IsStrictlySortedBy};
ghost use Rattle.dcat_map.specs.Sets.{ascending_set};
ghost use Rattle.dcat_map.specs.Terms.{text_cmp, term_cmp};
ghost use Rattle.dcat_map.specs.Graphs.{is_typed};
ghost use Rattle.dcat_map.specs.Listings.{entries_in, links_in, iri_of, is_unnamed, listing_in, catalogued, listing_of};
ghost use Rattle.dcat_map.specs.Vocabulary.{dcat_catalog};

use crate::graph::{Graph, is_typed};
use crate::sets::make_term_set;
use crate::subject::about;
use crate::vocabulary::{CATALOG_CLASS, DATASET};
use ntriples::{Borrowed, Term, Triple};
use portal_base::copy::TryClone;
use portal_base::seq::Seq;
use portal_base::text::Text;
use std::alloc::{AllocError, Global};
use thiserror::Error;

/// What catalogues list: the IRIs of datasets, each once and ascending by bytes, and how many others there are.
#[derive(Drop)]
pub struct Listing {
    pub iris: Seq<Text>,
    pub unnamed: u64,
}

/// Why there is no listing.
#[derive(Debug, Drop, Error, Clone, Copy, PartialEq, Eq)]
pub enum ListFault {
    #[error("the graph has no catalogue")]
    NoCatalog,
    #[error("out of memory")]
    OutOfMemory,
}

impl From<AllocError> for ListFault {
    ghost use Rattle.std.specs.Prelude.{◌≡◌};
    ghost use Rattle.dcat_map.specs.declared.listing.ListFault.TheVariants.{OutOfMemory};

    ghost from_gives = { λ _ fault. fault ≡ OutOfMemory };

    fn from(_refused: AllocError) -> ListFault {
        ListFault::OutOfMemory
    }
}

/// What the catalogues of the triples list.
#[tactic(auto, unfolding(crate::specs::Listings::listing_of))]
pub fn listed(alloc: Global, graph: &Seq<Triple>) -> Result<Listing, ListFault>
    ensures listing { IfOk result (λ listing. listing_of graph.now ≡ Some listing) }
    ensures fault { IfErr result (λ fault. (fault ≡ ListFault.OutOfMemory) ⊎
        ((fault ≡ ListFault.NoCatalog) × (listing_of graph.now ≡ None))) }
{
    let graph = Graph::of(alloc, graph)?;
    listed_in(alloc, &graph)
}

/// What the graph's catalogues list.
pub fn listed_in(alloc: Global, graph: &Graph<'_>) -> Result<Listing, ListFault>
    ensures listing { IfOk result (λ listing. catalogued graph.now ≡ Some listing) }
    ensures fault { IfErr result (λ fault. (fault ≡ ListFault.OutOfMemory) ⊎
        ((fault ≡ ListFault.NoCatalog) × (catalogued graph.now ≡ None))) }
{
    if !has_catalogue(graph) {
        return Err(ListFault::NoCatalog);
    }
    Ok(listing_from(alloc, graph)?)
}

// Whether the graph has a catalogue.
fn has_catalogue(graph: &Graph<'_>) -> bool
    ensures { result ≡ list_any (is_typed dcat_catalog) graph.now }
{
    graph
        .triples()
        .iter()
        .any(|triple| is_typed(triple.get(), CATALOG_CLASS))
}

// What the graph's catalogues list.
#[tactic(auto, unfolding(crate::specs::Listings::listing_in))]
fn listing_from(alloc: Global, graph: &Graph<'_>) -> Result<Listing, AllocError>
    ensures { IfOk result (λ listing. listing ≡ listing_in graph.now) }
{
    let entries = entries_of(alloc, graph)?;
    Ok(Listing {
        iris: iris_of(alloc, &entries)?,
        unnamed: count_unnamed(&entries),
    })
}

// What dcat:dataset leads to from some catalogue, each once.
#[tactic(auto, unfolding(crate::specs::Listings::entries_in))]
fn entries_of<'a>(alloc: Global, graph: &Graph<'a>) -> Result<Vec<Borrowed<'a, Term>>, AllocError>
    ensures { IfOk result (λ entries. entries.items ≡ entries_in graph.now) }
{
    let mut entries = links_of(alloc, graph)?;
    make_term_set(&mut entries);
    Ok(entries)
}

// What dcat:dataset leads to from each catalogue.
fn links_of<'a>(alloc: Global, graph: &Graph<'a>) -> Result<Vec<Borrowed<'a, Term>>, AllocError>
    ensures { IfOk result (λ links. links.items ≡ links_in graph.now graph.now) }
{
    let mut links = Vec::new(alloc);
    let triples = graph.triples();
    for triple in triples {
        push_links(&mut links, graph, triple.get())?;
    }
    Ok(links)
}

// Adds what dcat:dataset leads to from the triple's subject, where the triple says that it is a catalogue.
#[tactic(auto, unfolding(crate::specs::Listings::links_in, crate::specs::Listings::catalogues_in))]
fn push_links<'a>(
    links: &mut Vec<Borrowed<'a, Term>>,
    graph: &Graph<'a>,
    triple: &Triple,
) -> Result<(), AllocError>
    ensures { OnOk result (links.new.items ≡ links.old.items ++ links_in graph.now (triple.now ∷ [])) }
{
    if is_typed(triple, CATALOG_CLASS) {
        push_objects(links, about(graph, &triple.subject, DATASET))?;
    }
    Ok(())
}

// Adds the objects of the triples.
fn push_objects<'a>(
    objects: &mut Vec<Borrowed<'a, Term>>,
    triples: &[Borrowed<'a, Triple>],
) -> Result<(), AllocError>
    ensures { OnOk result (objects.new.items ≡ objects.old.items ++ map (λ t. t.object) triples.now) }
{
    for triple in triples {
        objects.push(Borrowed::new(&triple.get().object))?;
    }
    Ok(())
}

// The IRIs among the terms.
fn iris_of(alloc: Global, terms: &[Borrowed<'_, Term>]) -> Result<Seq<Text>, AllocError>
    ensures { IfOk result (λ iris. iris ≡ filter_map iri_of terms.now) }
{
    let mut iris = Vec::new(alloc);
    for term in terms {
        push_iri(alloc, &mut iris, term.get())?;
    }
    Ok(Seq::from(iris))
}

// Adds the IRI, if the term is one.
fn push_iri(alloc: Global, iris: &mut Vec<Text>, term: &Term) -> Result<(), AllocError>
    ensures { OnOk result (iris.new.items ≡ iris.old.items ++ filter_map iri_of (term.now ∷ [])) }
{
    if let Term::Iri(iri) = term {
        iris.push(iri.try_clone(alloc)?)?;
    }
    Ok(())
}

// How many of the terms are no IRIs.
fn count_unnamed(terms: &[Borrowed<'_, Term>]) -> u64
    ensures { result ≡ length (filter is_unnamed terms.now) }
{
    let count = terms.iter().filter(|term| is_unnamed(term.get())).count();
    count as u64
}

fn is_unnamed(term: &Term) -> bool
    ensures { result ≡ is_unnamed term.now }
{
    !matches!(term, Term::Iri(_))
}
