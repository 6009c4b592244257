//! A load by a schema file.
ghost use Rattle.std.specs.Prelude.{◌≡◌, ◌↔◌, ◌≤◌, ℕ, List, Some, codes};
ghost use Rattle.portal_base.specs.Outside.{Rose};
ghost use Rattle.portal_load.specs.SchemaFile.{LoadsFrom};
ghost use Rattle.portal_status.specs.Fetch.{fetch_trace};
ghost use Rattle.portal_serve.specs.Run.{device_trace, GaveTooMuch};

use crate::load::load;
use portal_base::caller::Caller;
use portal_base::outside::{Clock, Fetcher, Nonces, Sink, Source};
use portal_core::portal::Portal;
use portal_keeper::keeper::Keeper;
use portal_status::fetch::fetch_file;
use portal_status::status::Status;
use portal_words::LoadOptions;
use std::alloc::Global;

/// Loads the CSV on input into a new table, by the schema that is fetched from its location.
pub fn load_csv<S: Source, O: Sink, P: Keeper, F: Fetcher, C: Clock, N: Nonces>(
    alloc: Global,
    portal: &mut Portal<P>,
    options: LoadOptions,
    input: &mut S,
    output: &mut O,
    fetcher: &mut F,
    clock: &mut C,
    nonces: &mut N,
) -> Status
    ensures loads { LoadsFrom (fetch_trace (F.held fetcher.old) (F.faults fetcher.old) (F.faults fetcher.new)) options
        portal.old.state portal.new.state
        (device_trace (S.to_come input.old) (O.taken output.old) (C.given clock.old) (N.given nonces.old))
        (device_trace (S.to_come input.new) (O.taken output.new) (C.given clock.new) (N.given nonces.new)) result }
    ensures held { F.held fetcher.new ≡ F.held fetcher.old }
    ensures counts { F.faults fetcher.old ≤ F.faults fetcher.new }
    ensures read_fault { result ≡ Status.ReadFault → Rose (S.faults input.old) (S.faults input.new) }
    ensures write_fault { result ≡ Status.WriteFault → Rose (O.faults output.old) (O.faults output.new) }
    ensures keeper_fault { result ≡ Status.KeeperFault
        → Rose (P.faults portal.old.keeper) (P.faults portal.new.keeper) }
    ensures keeper_counts { P.faults portal.old.keeper ≤ P.faults portal.new.keeper }
    ensures too_much { (whole : List ℕ) → S.to_come input.old ≡ Some whole →
        ((result ≡ Status.DataFault (codes "input too long")) ↔ GaveTooMuch whole (S.to_come input.new)) }
{
    let LoadOptions {
        caller,
        resource,
        schema,
        ..
    } = options;
    match fetch_file(alloc, fetcher, schema.as_str()) {
        Ok(schema) => load(
            alloc,
            portal,
            &Caller::Named(caller),
            resource.as_str(),
            schema.as_slice(),
            input,
            output,
            clock,
            nonces,
        ),
        Err(status) => status,
    }
}
