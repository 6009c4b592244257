//! The steps of a source at its place.
ghost use Rattle.std.specs.Prelude.{◌≡◌, IfOk, IsTrue, Some};
ghost use Rattle.std.specs.Option.{option_copied};
ghost use Rattle.harvest_sources.specs.Jobs.{blank_report, id_of_job};
ghost use Rattle.harvest_sources.specs.Sources.{open_job};
ghost use Rattle.harvest_sources.specs.Steps.{begun, broken, claimed, ended, has_new, listed, on_job, settled};
ghost use Rattle.harvest_sources.specs.declared.step.StepReply.TheVariants.{Already, Nothing, Object};
ghost use Rattle.harvest_stages.specs.Prepared.{IsPreparedAt, unlisted_job};

use crate::prepared::{PreparedStep, SourceStep, idle, step_at};
use harvest_sources::{
    Cause, Found, Item, Job, JobState, Outcome, SourceJobs, SourceReport, StepReply, job_id,
    listing_of,
};
use portal_base::copy::TryClone;
use portal_base::seq::Seq;
use portal_base::text::Text;
use std::alloc::{AllocError, Global};

/// Begins the new job of the source.
pub(crate) fn begin_at(
    alloc: Global,
    place: usize,
    source: &SourceJobs,
) -> Result<PreparedStep, AllocError>
    requires { IsTrue (has_new source.now.state) }
    ensures { IfOk result (IsPreparedAt place source.now.state (on_job Nothing begun (Some source.now.state))) }
{
    match source.open_job() {
        Some(job) => {
            let id = job_id(alloc, job.source.as_str(), job.number)?;
            let url = source.source().url.try_clone(alloc)?;
            Ok(step_at(place, SourceStep::Begin, StepReply::Gather(id, url)))
        }
        None => Ok(idle(StepReply::Nothing)),
    }
}

/// Keeps what the catalogue of the source's open job lists.
pub(crate) fn list_at(
    alloc: Global,
    place: usize,
    source: &SourceJobs,
    items: &Seq<Item>,
    unnamed: u64,
) -> Result<PreparedStep, AllocError>
    ensures { IfOk result (IsPreparedAt place source.now.state
        (on_job Already (listed items.now unnamed) (Some source.now.state))) }
{
    match unlisted_job(source) {
        Some(job) => {
            let items = items.try_clone(alloc)?;
            let listing = listing_of(alloc, &job.source, items, unnamed)?;
            Ok(step_at(place, SourceStep::List(listing), StepReply::Done))
        }
        None => Ok(idle(StepReply::Already)),
    }
}

/// Ends the source's open job, whose catalogue can't be read.
pub(crate) fn break_at(
    alloc: Global,
    place: usize,
    source: &SourceJobs,
    cause: Cause,
) -> Result<PreparedStep, AllocError>
    ensures { IfOk result (IsPreparedAt place source.now.state
        (on_job Already (broken cause) (Some source.now.state))) }
{
    match unlisted_job(source) {
        Some(job) => {
            let report = blank_report(alloc, &job.source, JobState::Broken(cause))?;
            let reply = StepReply::Ended(report);
            Ok(step_at(place, SourceStep::Break(cause), reply))
        }
        None => Ok(idle(StepReply::Already)),
    }
}

/// Claims the first waiting object of the source.
pub(crate) fn claim_at(
    alloc: Global,
    place: usize,
    source: &SourceJobs,
) -> Result<PreparedStep, AllocError>
    ensures { IfOk result (IsPreparedAt place source.now.state (on_job Nothing claimed (Some source.now.state))) }
{
    match source.open_job() {
        Some(job) => claim_for(alloc, place, source, job),
        None => Ok(idle(StepReply::Nothing)),
    }
}

/// Claims the first waiting object of the source, whose open job this is.
fn claim_for(
    alloc: Global,
    place: usize,
    source: &SourceJobs,
    job: &Job,
) -> Result<PreparedStep, AllocError>
    requires { open_job source.now.state ≡ Some job.now }
    ensures { IfOk result (IsPreparedAt place source.now.state (on_job Nothing claimed (Some source.now.state))) }
{
    match source.first_waiting() {
        Some((iri, found)) => {
            let reply = claim_reply(alloc, job, iri, found)?;
            Ok(step_at(place, SourceStep::Claim, reply))
        }
        None => Ok(idle(StepReply::Nothing)),
    }
}

/// Keeps what an object of the source came to.
pub(crate) fn settle_at(
    alloc: Global,
    place: usize,
    source: &SourceJobs,
    iri: &Text,
    outcome: Outcome,
) -> Result<PreparedStep, AllocError>
    ensures { IfOk result (IsPreparedAt place source.now.state
        (on_job Already (settled iri.now outcome) (Some source.now.state))) }
{
    if !source.is_unsettled(iri.as_str()) {
        return Ok(idle(StepReply::Already));
    }
    let iri = iri.try_clone(alloc)?;
    Ok(step_at(place, SourceStep::Settle(iri, outcome), StepReply::Done))
}

/// Ends the source's open job, all of whose objects are done.
pub(crate) fn end_at(
    alloc: Global,
    place: usize,
    source: &SourceJobs,
    deleted: u64,
) -> Result<PreparedStep, AllocError>
    ensures { IfOk result (IsPreparedAt place source.now.state
        (on_job Already (ended deleted) (Some source.now.state))) }
{
    if !source.is_settled() {
        return Ok(idle(StepReply::Already));
    }
    let report = source.finished_report(alloc, deleted)?;
    let reply = StepReply::Ended(report.try_clone(alloc)?);
    Ok(step_at(place, SourceStep::End(report), reply))
}

/// The running job of the source, if its catalogue isn't listed.
fn unlisted_job(source: &SourceJobs) -> Option<&Job>
    ensures { option_copied result ≡ unlisted_job source.now.state }
{
    let job = source.open_job()?;
    if job.is_running() && !source.is_listed() {
        Some(job)
    } else {
        None
    }
}

/// The answer to a claim of the object of this IRI.
fn claim_reply(alloc: Global, job: &Job, iri: &Text, found: &Found) -> Result<StepReply, AllocError>
    ensures { IfOk result (λ reply. reply ≡ Object (id_of_job job.now) (record { iri = iri.now; found = found.now })) }
{
    let id = job_id(alloc, job.source.as_str(), job.number)?;
    let iri = iri.try_clone(alloc)?;
    let found = found.try_clone(alloc)?;
    Ok(StepReply::Object(id, Item { iri, found }))
}

/// The report on a job in this state that has done nothing.
fn blank_report(alloc: Global, source: &Text, state: JobState) -> Result<SourceReport, AllocError>
    ensures { IfOk result (λ report. report ≡ blank_report source.now state) }
{
    Ok(SourceReport {
        source: source.try_clone(alloc)?,
        state,
        added: 0,
        updated: 0,
        unchanged: 0,
        deleted: 0,
        unnamed: 0,
        bad: Seq::new(alloc),
    })
}
