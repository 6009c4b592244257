//! The fetch of a document and what it gives.
ghost use Rattle.std.specs.Prelude.{◌≡◌, ◌≤◌, Bool, Ok, Err, IfOk, IfSome};
ghost use Rattle.portal_base.specs.Outside.{Rose};
ghost use Rattle.harvest_readings.specs.Harvests.{catalogue_at, object_at};

use crate::catalogue::{Catalogue, read_catalogue};
use crate::document::fetch;
use crate::object::read_object;
use harvest_sources::{Cause, Reading};
use portal_base::outside::Fetcher;
use portal_base::text::Text;
use std::alloc::{AllocError, Global};

/// Fetches the catalogue's document from the location, and reads it. The cause is `ReadFault` only where the
/// fetcher failed, `Missing` where it has no document there, and `TooLong` where that has more than
/// `MAX_DOCUMENT` bytes. The causes of `read_catalogue` follow.
pub fn fetch_catalogue<F: Fetcher>(
    alloc: Global,
    fetcher: &mut F,
    url: &Text,
) -> Result<Result<Catalogue, Cause>, AllocError>
    ensures told { IfSome (F.held fetcher.old) (λ documents. IfOk result (λ catalogue.
        (failed : Bool) × (catalogue ≡ catalogue_at documents failed url.now))) }
    ensures fault { result ≡ Ok (Err Cause.ReadFault) → Rose (F.faults fetcher.old) (F.faults fetcher.new) }
    ensures counts { F.faults fetcher.old ≤ F.faults fetcher.new }
    ensures held { F.held fetcher.new ≡ F.held fetcher.old }
{
    match fetch(alloc, fetcher, url)? {
        Ok(bytes) => read_catalogue(alloc, bytes.as_slice()),
        Err(cause) => Ok(Err(cause)),
    }
}

/// Fetches the document at a dataset's IRI, and reads what it says of the dataset. The causes of the fetch
/// are as with `fetch_catalogue`, and those of `read_object` follow.
pub fn fetch_object<F: Fetcher>(
    alloc: Global,
    fetcher: &mut F,
    iri: &Text,
) -> Result<Reading, AllocError>
    ensures told { IfSome (F.held fetcher.old) (λ documents. IfOk result (λ reading.
        (failed : Bool) × (reading ≡ object_at documents failed iri.now))) }
    ensures fault { result ≡ Ok (Reading.Bad Cause.ReadFault) →
        Rose (F.faults fetcher.old) (F.faults fetcher.new) }
    ensures counts { F.faults fetcher.old ≤ F.faults fetcher.new }
    ensures held { F.held fetcher.new ≡ F.held fetcher.old }
{
    match fetch(alloc, fetcher, iri)? {
        Ok(bytes) => read_object(alloc, bytes.as_slice(), iri),
        Err(cause) => Ok(Reading::Bad(cause)),
    }
}
