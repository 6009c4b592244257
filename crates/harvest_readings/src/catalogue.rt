//! What a catalogue's document gives.
ghost use Rattle.std.specs.Prelude.{◌≡◌, map, IfOk};
ghost use Rattle.dcat_map.specs.Graphs.{graph_of};
ghost use Rattle.harvest_readings.specs.Catalogues.{catalogue_in, catalogue_read, found_in, item_in};
ghost use Rattle.harvest_readings.specs.Documents.{graph_in};

use crate::document::triples_in;
use dcat_map::{Graph, ListFault, Listing, RecordFault, describe_in, listed_in};
use harvest_sources::{Cause, Found, Item, Reading};
use ntriples::Triple;
use portal_base::seq::Seq;
use portal_base::text::Text;
use std::alloc::{AllocError, Global};

/// What the catalogues of a document list (DCAT 3, section 6.3).
#[derive(Drop)]
pub struct Catalogue {
    /// The datasets that have an IRI, each once, ascending by the bytes of the IRIs.
    pub items: Seq<Item>,
    /// How many objects have no IRI.
    pub unnamed: u64,
}

/// Reads a catalogue's document. The cause is `NotNTriples` where a line isn't one of N-Triples, or else
/// `NoCatalog` where no triple says that there is a catalogue. It takes time for the document once, however
/// much that lists.
pub fn read_catalogue(alloc: Global, bytes: &[u8]) -> Result<Result<Catalogue, Cause>, AllocError>
    ensures { IfOk result (λ catalogue. catalogue ≡ catalogue_read (graph_in bytes.now)) }
{
    match triples_in(alloc, bytes)? {
        Ok(triples) => catalogue_in(alloc, &triples),
        Err(cause) => Ok(Err(cause)),
    }
}

// What the catalogues of the triples list.
fn catalogue_in(
    alloc: Global,
    triples: &Seq<Triple>,
) -> Result<Result<Catalogue, Cause>, AllocError>
    ensures { IfOk result (λ catalogue. catalogue ≡ catalogue_in (graph_of triples.now)) }
{
    let graph = Graph::of(alloc, triples)?;
    match listed_in(alloc, &graph) {
        Ok(listing) => Ok(Ok(catalogue_of(alloc, &graph, listing)?)),
        Err(ListFault::NoCatalog) => Ok(Err(Cause::NoCatalog)),
        Err(ListFault::OutOfMemory) => Err(AllocError),
    }
}

// What a listing of the graph gives.
fn catalogue_of(alloc: Global, graph: &Graph<'_>, listing: Listing) -> Result<Catalogue, AllocError>
    ensures { IfOk result (λ catalogue. catalogue
        ≡ record { items = map (item_in graph.now) listing.iris; unnamed = listing.unnamed }) }
{
    let Listing { iris, unnamed } = listing;
    let items = items_in(alloc, graph, iris)?;
    Ok(Catalogue { items, unnamed })
}

// The items of the IRIs that the graph's catalogues list.
fn items_in(alloc: Global, graph: &Graph<'_>, iris: Seq<Text>) -> Result<Seq<Item>, AllocError>
    ensures { IfOk result (λ items. items ≡ map (item_in graph.now) iris) }
{
    let mut items = Vec::with_capacity(alloc, iris.len())?;
    for iri in iris.into_vec() {
        let found = found_in(alloc, graph, &iri)?;
        items.push(Item { iri, found })?;
    }
    Ok(Seq::from(items))
}

// Where the description of a listed dataset is.
fn found_in(alloc: Global, graph: &Graph<'_>, iri: &Text) -> Result<Found, AllocError>
    ensures { IfOk result (λ found. found ≡ found_in graph.now iri.now) }
{
    match describe_in(alloc, graph, iri) {
        Ok(described) => Ok(Found::Here(Reading::Good(described))),
        Err(RecordFault::NotDescribed) => Ok(Found::Elsewhere),
        Err(RecordFault::NoTitle) => Ok(Found::Here(Reading::Bad(Cause::NoTitle))),
        Err(RecordFault::OutOfMemory) => Err(AllocError),
    }
}
