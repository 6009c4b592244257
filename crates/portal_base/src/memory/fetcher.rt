//! A fetcher in memory.
ghost use Rattle.std.specs.Prelude.{◌≡◌, true, Some, Err, MatchOption, IfOk, IsOkUnless};
ghost use Rattle.std.specs.Option.{option_copied};
ghost use Rattle.portal_base.specs.Memory.{are_distinct, is_held, bytes_at, fetch_fault, after_fetch};

use super::plan::FaultPlan;
use crate::outside::{FetchFault, Fetcher};
use crate::seq::Seq;
use crate::text::Text;
use std::alloc::Global;
use std::marker::Model;

/// A fetcher over bytes in memory. Its contents are observable.
#[derive(Drop)]
pub struct MemoryFetcher {
    held: Seq<(Text, Seq<u8>)>,
    plan: FaultPlan,
}

impl Model for MemoryFetcher {
    ghost use Rattle.portal_base.specs.Memory.{FetcherState};

    ghost Value = { FetcherState };

    ghost view = { λ f. record { held = f.held; plan = f.plan } };
}

/// Whether all locations are different.
pub fn are_distinct(held: &[(Text, Seq<u8>)]) -> bool
    ensures { result ≡ are_distinct held.now }
{
    match held.split_first() {
        None => true,
        Some((entry, rest)) => !is_held(rest, entry.0.as_str()) && are_distinct(rest),
    }
}

// Whether the fetcher holds bytes at the location.
fn is_held(held: &[(Text, Seq<u8>)], location: &str) -> bool
    ensures { result ≡ is_held location.now held.now }
{
    held.iter().any(|entry| entry.0.as_str() == location)
}

// The bytes at the location.
fn bytes_at<'a>(held: &'a [(Text, Seq<u8>)], location: &str) -> Option<&'a Seq<u8>>
    ensures { option_copied result ≡ bytes_at held.now location.now }
{
    held.iter()
        .find(|entry| entry.0.as_str() == location)
        .map(|entry| &entry.1)
}

impl MemoryFetcher {
    /// A fetcher that holds these bytes, each at its location. It fails at the calls with these numbers, counted
    /// from 1.
    pub fn new(held: Seq<(Text, Seq<u8>)>, failing: Seq<u64>) -> MemoryFetcher
        requires { are_distinct held ≡ true }
        ensures { result ≡ record { held = held; plan = record { failing = failing; calls = 0; faults = 0 } } }
    {
        MemoryFetcher {
            held,
            plan: FaultPlan::new(failing),
        }
    }
}

impl Fetcher for MemoryFetcher {
    ghost use Rattle.std.specs.Prelude.{Some};
    ghost use Rattle.portal_base.specs.Memory.{bytes_at};

    ghost held = { λ f. Some (bytes_at f.held) };

    ghost faults = { λ f. f.plan.faults };

    /// Fails with `Failed` exactly at the planned calls. At the others the contents determine `Missing` and `TooLong`;
    /// `OutOfMemory` may come instead of the bytes.
    fn fetch(&mut self, alloc: Global, location: &str, limit: usize) -> Result<Vec<u8>, FetchFault>
        ensures fault { MatchOption (fetch_fault self.old location.now limit)
            (IsOkUnless result FetchFault.OutOfMemory)
            (λ fault. result ≡ Err fault) }
        ensures bytes { IfOk result (λ bytes. bytes_at self.old.held location.now ≡ Some bytes.items) }
        ensures after { self.new ≡ after_fetch self.old }
    {
        if self.plan.fails_next() {
            return Err(FetchFault::Failed);
        }
        let Some(bytes) = bytes_at(self.held.as_slice(), location) else {
            return Err(FetchFault::Missing);
        };
        if bytes.len() > limit {
            return Err(FetchFault::TooLong);
        }
        match bytes.as_slice().to_vec(alloc) {
            Ok(copy) => Ok(copy),
            Err(_) => Err(FetchFault::OutOfMemory),
        }
    }
}
