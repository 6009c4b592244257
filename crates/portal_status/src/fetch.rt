//! The fetch of a file from a location, or the status if it fails.
ghost use Rattle.std.specs.Prelude.{◌≡◌, ◌⊎◌, ◌++◌, ◌≤◌, length, codes, IfOk, IfErr};
ghost use Rattle.portal_base.specs.Outside.{HoldsAt};
ghost use Rattle.portal_status.specs.Fetch.{FailsToFetch, fetch_trace};

use crate::status::{Status, concat};
use portal_base::outside::{FetchFault, Fetcher};
use std::alloc::Global;

/// The most bytes of a portal file or a schema.
pub const LONGEST_FILE: usize = 16_777_216;

/// The status of a fetch that failed.
fn fetch_fault(alloc: Global, location: &str) -> Status
    ensures { (result ≡ Status.OutOfMemory) ⊎ (result ≡ Status.FetchFault (codes "cannot fetch " ++ location.now)) }
{
    match concat(alloc, "cannot fetch ", location) {
        Ok(text) => Status::FetchFault(text),
        Err(_refused) => Status::OutOfMemory,
    }
}

/// Fetches the bytes of the file at the location. If that fails, the status is `FetchFault` or `OutOfMemory`.
pub fn fetch_file<F: Fetcher>(
    alloc: Global,
    fetcher: &mut F,
    location: &str,
) -> Result<Vec<u8>, Status>
    ensures bytes { IfOk result (λ bytes. HoldsAt (F.held fetcher.old) location.now bytes.items) }
    ensures within { IfOk result (λ bytes. length bytes.items ≤ 16777216) }
    ensures fails { IfErr result (FailsToFetch
        (fetch_trace (F.held fetcher.old) (F.faults fetcher.old) (F.faults fetcher.new)) location.now) }
    ensures held { F.held fetcher.new ≡ F.held fetcher.old }
    ensures counts { F.faults fetcher.old ≤ F.faults fetcher.new }
{
    match fetcher.fetch(alloc, location, LONGEST_FILE) {
        Ok(bytes) => Ok(bytes),
        Err(FetchFault::OutOfMemory) => Err(Status::OutOfMemory),
        Err(FetchFault::Failed) => Err(fetch_fault(alloc, location)),
        Err(FetchFault::Missing) => Err(fetch_fault(alloc, location)),
        Err(FetchFault::TooLong) => Err(fetch_fault(alloc, location)),
    }
}
