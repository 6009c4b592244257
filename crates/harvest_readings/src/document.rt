//! Documents in N-Triples (RDF 1.1 N-Triples, sections 2 and 7), and how one is fetched.
ghost use Rattle.std.specs.Prelude.{◌≡◌, ◌⊎◌, ◌≤◌, Ok, Err, IfOk, IfSome};
ghost use Rattle.portal_base.specs.Outside.{Rose};
ghost use Rattle.harvest_readings.specs.Documents.{triples_in};
ghost use Rattle.harvest_readings.specs.Harvests.{bytes_within};

use crate::laws::a_document_is_read_by_the_grammar;
use harvest_sources::Cause;
use ntriples::{NtFault, Triple, read};
use portal_base::outside::{FetchFault, Fetcher};
use portal_base::seq::Seq;
use portal_base::text::Text;
use std::alloc::{AllocError, Global};

/// The most bytes of a document: 64 MiB.
pub const MAX_DOCUMENT: usize = 67_108_864;

/// The triples of a document, or `NotNTriples` with the number of its first line that is none.
pub(crate) fn triples_in(
    alloc: Global,
    bytes: &[u8],
) -> Result<Result<Seq<Triple>, Cause>, AllocError>
    ensures { IfOk result (λ triples. triples ≡ triples_in bytes.now) }
{
    a_document_is_read_by_the_grammar();
    match read(alloc, bytes) {
        Ok(triples) => Ok(Ok(triples)),
        Err(NtFault::Line(number)) => Ok(Err(Cause::NotNTriples(number))),
        Err(NtFault::OutOfMemory) => Err(AllocError),
    }
}

/// Fetches the document at the location, or says why there is none of at most `MAX_DOCUMENT` bytes.
pub(crate) fn fetch<F: Fetcher>(
    alloc: Global,
    fetcher: &mut F,
    location: &Text,
) -> Result<Result<Seq<u8>, Cause>, AllocError>
    ensures told { IfSome (F.held fetcher.old) (λ documents. IfOk result (λ bytes.
        (bytes ≡ Err Cause.ReadFault) ⊎ (bytes ≡ bytes_within (documents location.now)))) }
    ensures fault { result ≡ Ok (Err Cause.ReadFault) → Rose (F.faults fetcher.old) (F.faults fetcher.new) }
    ensures counts { F.faults fetcher.old ≤ F.faults fetcher.new }
    ensures held { F.held fetcher.new ≡ F.held fetcher.old }
{
    match fetcher.fetch(alloc, location.as_str(), MAX_DOCUMENT) {
        Ok(bytes) => Ok(Ok(Seq::from(bytes))),
        Err(FetchFault::Failed) => Ok(Err(Cause::ReadFault)),
        Err(FetchFault::Missing) => Ok(Err(Cause::Missing)),
        Err(FetchFault::TooLong) => Ok(Err(Cause::TooLong)),
        Err(FetchFault::OutOfMemory) => Err(AllocError),
    }
}
