//! The catalogues of a round: each new job begins, and what is read of its source's catalogue is listed.
ghost use Rattle.std.specs.Prelude.{◌≡◌, ◌≤◌, ◌++◌, Err, OnOk, is_ok, option_to_list};
ghost use Rattle.portal_base.specs.Outside.{Rose};
ghost use Rattle.harvest_sources.specs.declared.step.Step.TheVariants.{Begin};
ghost use Rattle.harvest_pool.specs.Made.{AnswersSteps};
ghost use Rattle.harvest_pool.specs.Rounds.{CatalogueRead, IsCatalogueOf, catalogue_listed, failed_to_read, is_gather};
ghost use Rattle.harvest_pool.specs.Rounds.{report_of, reports_of_catalogues, step_of_catalogue, steps_of_catalogue};
ghost use Rattle.harvest_pool.specs.Working.{DoesAll, DoesOne};

use crate::making::make;
use crate::report::{RoundFault, push_report};
use harvest_readings::{Catalogue, fetch_catalogue};
use harvest_sources::{Cause, SourceReport, Step, StepReply};
use portal_base::outside::Fetcher;
use portal_base::text::Text;
use portal_events::{Event, Reply};
use portal_hall::machine::Machine;
use std::alloc::Global;

/// Begins jobs until none is new, and reads the catalogue of each. Adds the reports of the jobs that break.
pub(crate) fn read_catalogues<M: Machine<Event = Event, Reply = Reply>, F: Fetcher>(
    alloc: Global,
    machine: &mut M,
    fetcher: &mut F,
    reports: &mut Vec<SourceReport>,
) -> Result<(), RoundFault>
    requires { AnswersSteps M.step M.IsOutOfMemory M.IsFault }
    ensures work { (does : DoesAll M.step steps_of_catalogue Begin is_gather (IsCatalogueOf (F.held fetcher.old))
        failed_to_read (M.core machine.old) (M.core machine.new) (F.faults fetcher.old) (F.faults fetcher.new)
        (is_ok result)) ×
        OnOk result (reports.new.items ≡ reports.old.items ++ reports_of_catalogues does.work.done) }
    ensures fault { result ≡ Err RoundFault.Keeper → Rose (M.faults machine.old) (M.faults machine.new) }
    ensures counts { M.faults machine.old ≤ M.faults machine.new }
    ensures fetches { F.faults fetcher.old ≤ F.faults fetcher.new }
    ensures held { F.held fetcher.new ≡ F.held fetcher.old }
{
    for _ in 0..u64::MAX {
        match make(machine, Step::Begin)? {
            StepReply::Gather(job, url) => {
                read_catalogue(alloc, machine, fetcher, job, &url, reports)?
            }
            _ => return Ok(()),
        }
    }
    Err(RoundFault::OutOfMemory)
}

/// Reads the catalogue at the location, and lists it for the job. If it can't be read, the job breaks, and its report is
/// added.
fn read_catalogue<M: Machine<Event = Event, Reply = Reply>, F: Fetcher>(
    alloc: Global,
    machine: &mut M,
    fetcher: &mut F,
    job: Text,
    url: &Text,
    reports: &mut Vec<SourceReport>,
) -> Result<(), RoundFault>
    requires { AnswersSteps M.step M.IsOutOfMemory M.IsFault }
    ensures work { (c : CatalogueRead) × (c.job ≡ job) × (c.url ≡ url.now) ×
        DoesOne M.step catalogue_listed (IsCatalogueOf (F.held fetcher.old)) failed_to_read c
        (M.core machine.old) (M.core machine.new) (F.faults fetcher.old) (F.faults fetcher.new) (is_ok result) ×
        OnOk result (reports.new.items ≡ reports.old.items ++ option_to_list (report_of c.answer)) }
    ensures fault { result ≡ Err RoundFault.Keeper → Rose (M.faults machine.old) (M.faults machine.new) }
    ensures counts { M.faults machine.old ≤ M.faults machine.new }
    ensures fetches { F.faults fetcher.old ≤ F.faults fetcher.new }
    ensures held { F.held fetcher.new ≡ F.held fetcher.old }
{
    let read = fetch_catalogue(alloc, fetcher, url)?;
    let answer = make(machine, step_of_catalogue(job, read))?;
    push_report(reports, answer)?;
    Ok(())
}

/// The step that lists a catalogue for the job, or breaks the job if the catalogue can't be read.
fn step_of_catalogue(job: Text, read: Result<Catalogue, Cause>) -> Step
    ensures { result ≡ step_of_catalogue job read }
{
    match read {
        Ok(Catalogue { items, unnamed }) => Step::List(job, items, unnamed),
        Err(cause) => Step::Break(job, cause),
    }
}
