//! What a document of a dataset's own gives.
ghost use Rattle.std.specs.Prelude.{◌≡◌, IfOk};
ghost use Rattle.dcat_map.specs.Graphs.{graph_of};
ghost use Rattle.harvest_readings.specs.Catalogues.{object_read, reading_in};
ghost use Rattle.harvest_readings.specs.Documents.{graph_in};

use crate::document::triples_in;
use dcat_map::{RecordFault, describe};
use harvest_sources::{Cause, Reading};
use ntriples::Triple;
use portal_base::seq::Seq;
use portal_base::text::Text;
use std::alloc::{AllocError, Global};

/// Reads the document of the dataset of that IRI. The reading is bad with `NotNTriples` where a line isn't
/// one of N-Triples, and else with `NotDescribed` or `NoTitle` where the document gives no record.
pub fn read_object(alloc: Global, bytes: &[u8], iri: &Text) -> Result<Reading, AllocError>
    ensures { IfOk result (λ reading. reading ≡ object_read (graph_in bytes.now) iri.now) }
{
    match triples_in(alloc, bytes)? {
        Ok(triples) => reading_in(alloc, &triples, iri),
        Err(cause) => Ok(Reading::Bad(cause)),
    }
}

// What the triples say of the dataset of that IRI.
fn reading_in(alloc: Global, triples: &Seq<Triple>, iri: &Text) -> Result<Reading, AllocError>
    ensures { IfOk result (λ reading. reading ≡ reading_in (graph_of triples.now) iri.now) }
{
    match describe(alloc, triples, iri) {
        Ok(described) => Ok(Reading::Good(described)),
        Err(RecordFault::NotDescribed) => Ok(Reading::Bad(Cause::NotDescribed)),
        Err(RecordFault::NoTitle) => Ok(Reading::Bad(Cause::NoTitle)),
        Err(RecordFault::OutOfMemory) => Err(AllocError),
    }
}
