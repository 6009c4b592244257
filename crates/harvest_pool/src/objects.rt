//! The objects of a round: each waiting object is claimed, and settled with what is read of it.
ghost use Rattle.std.specs.Prelude.{◌≡◌, ◌≤◌, Err, IfOk, is_ok};
ghost use Rattle.portal_base.specs.Outside.{Rose};
ghost use Rattle.harvest_sources.specs.declared.step.Step.TheVariants.{Claim};
ghost use Rattle.harvest_pool.specs.Made.{AnswersSteps};
ghost use Rattle.harvest_pool.specs.Rounds.{IsReadingOf, ObjectSettled, failed_to_settle, is_object, object_settled};
ghost use Rattle.harvest_pool.specs.Rounds.{steps_of_object};
ghost use Rattle.harvest_pool.specs.Working.{DoesAll, DoesOne, IsSettledWith};

use crate::making::make;
use crate::report::RoundFault;
use harvest_readings::fetch_object;
use harvest_sources::{Found, Item, Reading, Step, StepReply};
use portal_base::outside::Fetcher;
use portal_base::text::Text;
use portal_events::{Event, Reply};
use portal_hall::machine::Machine;
use std::alloc::{AllocError, Global};

/// Claims objects until none waits, and settles each.
pub(crate) fn settle_objects<M: Machine<Event = Event, Reply = Reply>, F: Fetcher>(
    alloc: Global,
    machine: &mut M,
    fetcher: &mut F,
) -> Result<(), RoundFault>
    requires { AnswersSteps M.step M.IsOutOfMemory M.IsFault }
    ensures work { DoesAll M.step steps_of_object Claim is_object (IsReadingOf (F.held fetcher.old))
        failed_to_settle (M.core machine.old) (M.core machine.new) (F.faults fetcher.old) (F.faults fetcher.new)
        (is_ok result) }
    ensures fault { result ≡ Err RoundFault.Keeper → Rose (M.faults machine.old) (M.faults machine.new) }
    ensures counts { M.faults machine.old ≤ M.faults machine.new }
    ensures fetches { F.faults fetcher.old ≤ F.faults fetcher.new }
    ensures held { F.held fetcher.new ≡ F.held fetcher.old }
{
    for _ in 0..u64::MAX {
        match make(machine, Step::Claim)? {
            StepReply::Object(job, item) => settle_object(alloc, machine, fetcher, job, item)?,
            _ => return Ok(()),
        }
    }
    Err(RoundFault::OutOfMemory)
}

/// Settles an object of the job with what is read of it.
fn settle_object<M: Machine<Event = Event, Reply = Reply>, F: Fetcher>(
    alloc: Global,
    machine: &mut M,
    fetcher: &mut F,
    job: Text,
    item: Item,
) -> Result<(), RoundFault>
    requires { AnswersSteps M.step M.IsOutOfMemory M.IsFault }
    ensures work { (o : ObjectSettled) × (o.job ≡ job) × (o.item ≡ item) ×
        DoesOne M.step object_settled (IsReadingOf (F.held fetcher.old)) failed_to_settle o
        (M.core machine.old) (M.core machine.new) (F.faults fetcher.old) (F.faults fetcher.new) (is_ok result) }
    ensures fault { result ≡ Err RoundFault.Keeper → Rose (M.faults machine.old) (M.faults machine.new) }
    ensures counts { M.faults machine.old ≤ M.faults machine.new }
    ensures fetches { F.faults fetcher.old ≤ F.faults fetcher.new }
    ensures held { F.held fetcher.new ≡ F.held fetcher.old }
{
    let Item { iri, found } = item;
    let reading = read_object(alloc, fetcher, &iri, found)?;
    make(machine, Step::Settle(job, iri, reading))?;
    Ok(())
}

/// What is read of the object of that IRI: what the catalogue's document says, or else what the document at the IRI does.
fn read_object<F: Fetcher>(
    alloc: Global,
    fetcher: &mut F,
    iri: &Text,
    found: Found,
) -> Result<Reading, AllocError>
    ensures reading { IfOk result (IsSettledWith (F.held fetcher.old) (F.faults fetcher.old) (F.faults fetcher.new)
        iri.now found) }
    ensures fetches { F.faults fetcher.old ≤ F.faults fetcher.new }
    ensures held { F.held fetcher.new ≡ F.held fetcher.old }
{
    match found {
        Found::Here(reading) => Ok(reading),
        Found::Elsewhere => fetch_object(alloc, fetcher, iri),
    }
}
