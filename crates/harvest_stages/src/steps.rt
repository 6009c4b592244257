//! A step of a harvest in two steps: `prepare` tells what it changes and makes its answer, and `commit` makes it.
ghost use Rattle.std.specs.Prelude.{◌≡◌, ◌++◌, IfOk, OnOk, find, is_some, option_map, option_to_list};
ghost use Rattle.std.specs.List.{flat_map};
ghost use Rattle.harvest_sources.specs.Jobs.{id_of_job};
ghost use Rattle.harvest_sources.specs.Sources.{AreSources, open_job, states};
ghost use Rattle.harvest_sources.specs.Steps.{begun, broken, claimed, count_deleted, ended, has_new, listed, on_job};
ghost use Rattle.harvest_sources.specs.Steps.{open_ids, outcome_of, renewals, settled, stepped, waiting_of, with_open_job};
ghost use Rattle.harvest_sources.specs.declared.step.StepReply.TheVariants.{Already, Nothing, Started};
ghost use Rattle.harvest_stages.specs.Prepared.{CanChange, IsPrepared, stepped_in};
ghost use Rattle.harvest_stages.specs.Stages.{sources_in};

use crate::located::{first_new, first_waiting, source_of_job};
use crate::prepared::{PreparedStep, StepChange, idle};
use crate::source_steps::{begin_at, break_at, claim_at, end_at, list_at, settle_at};
use crate::stages::Stages;
use harvest_sources::{Cause, Effect, Item, Outcome, Reading, SourceJobs, Step, StepReply, job_id};
use portal_base::seq::Seq;
use portal_base::text::Text;
use std::alloc::{AllocError, Global};

impl Stages {
    /// Prepares a step with its effect on the datasets of the source. The sources stay as they are.
    pub fn prepare(
        &mut self,
        alloc: Global,
        step: &Step,
        effect: Effect,
    ) -> Result<PreparedStep, AllocError>
        ensures same { sources_in self.new ≡ sources_in self.old }
        ensures step { IfOk result (λ prepared.
            stepped_in prepared (sources_in self.old) ≡ stepped step.now effect (sources_in self.old)) }
        ensures ready { IfOk result (λ prepared. CanChange prepared.change self.new) }
    {
        prepared_step(alloc, self.sources.as_slice(), step, effect)
    }
}

/// The step on these sources.
fn prepared_step(
    alloc: Global,
    sources: &[SourceJobs],
    step: &Step,
    effect: Effect,
) -> Result<PreparedStep, AllocError>
    requires { AreSources (states sources.now) }
    ensures { IfOk result (IsPrepared (states sources.now) (stepped step.now effect (states sources.now))) }
{
    match step {
        Step::NewRound => new_round(alloc, sources),
        Step::Begin => begin(alloc, sources),
        Step::List(job, items, unnamed) => list(alloc, sources, job, items, *unnamed),
        Step::Break(job, cause) => break_job(alloc, sources, job, *cause),
        Step::Claim => claim(alloc, sources),
        Step::Settle(job, iri, reading) => {
            let outcome = outcome_of(reading, effect);
            settle(alloc, sources, job, iri, outcome)
        }
        Step::End(job) => end(alloc, sources, job, count_deleted(effect)),
    }
}

// ---- each step

/// Begins a round.
fn new_round(alloc: Global, sources: &[SourceJobs]) -> Result<PreparedStep, AllocError>
    ensures { IfOk result (IsPrepared (states sources.now)
        (record { entries = flat_map renewals (states sources.now); reply = Started (open_ids (states sources.now)) })) }
{
    let ids = open_ids(alloc, sources)?;
    Ok(PreparedStep {
        change: StepChange::Renew,
        reply: StepReply::Started(ids),
    })
}

/// Begins the first new job.
fn begin(alloc: Global, sources: &[SourceJobs]) -> Result<PreparedStep, AllocError>
    requires { AreSources (states sources.now) }
    ensures { IfOk result (IsPrepared (states sources.now)
        (on_job Nothing begun (find has_new (states sources.now)))) }
{
    match first_new(sources) {
        Some((place, source)) => begin_at(alloc, place, source),
        None => Ok(idle(StepReply::Nothing)),
    }
}

/// Keeps what the catalogue of the job lists.
fn list(
    alloc: Global,
    sources: &[SourceJobs],
    job: &Text,
    items: &Seq<Item>,
    unnamed: u64,
) -> Result<PreparedStep, AllocError>
    requires { AreSources (states sources.now) }
    ensures { IfOk result (IsPrepared (states sources.now)
        (on_job Already (listed items.now unnamed) (with_open_job (states sources.now) job.now))) }
{
    match source_of_job(sources, job.as_str()) {
        Some((place, source)) => list_at(alloc, place, source, items, unnamed),
        None => Ok(idle(StepReply::Already)),
    }
}

/// Ends the job, whose catalogue can't be read.
fn break_job(
    alloc: Global,
    sources: &[SourceJobs],
    job: &Text,
    cause: Cause,
) -> Result<PreparedStep, AllocError>
    requires { AreSources (states sources.now) }
    ensures { IfOk result (IsPrepared (states sources.now)
        (on_job Already (broken cause) (with_open_job (states sources.now) job.now))) }
{
    match source_of_job(sources, job.as_str()) {
        Some((place, source)) => break_at(alloc, place, source, cause),
        None => Ok(idle(StepReply::Already)),
    }
}

/// Claims the first waiting object.
fn claim(alloc: Global, sources: &[SourceJobs]) -> Result<PreparedStep, AllocError>
    requires { AreSources (states sources.now) }
    ensures { IfOk result (IsPrepared (states sources.now)
        (on_job Nothing claimed (find (λ s. is_some (waiting_of s)) (states sources.now)))) }
{
    match first_waiting(sources) {
        Some((place, source)) => claim_at(alloc, place, source),
        None => Ok(idle(StepReply::Nothing)),
    }
}

/// Keeps what an object came to.
fn settle(
    alloc: Global,
    sources: &[SourceJobs],
    job: &Text,
    iri: &Text,
    outcome: Outcome,
) -> Result<PreparedStep, AllocError>
    requires { AreSources (states sources.now) }
    ensures { IfOk result (IsPrepared (states sources.now)
        (on_job Already (settled iri.now outcome) (with_open_job (states sources.now) job.now))) }
{
    match source_of_job(sources, job.as_str()) {
        Some((place, source)) => settle_at(alloc, place, source, iri, outcome),
        None => Ok(idle(StepReply::Already)),
    }
}

/// Ends the job, all of whose objects are done.
fn end(
    alloc: Global,
    sources: &[SourceJobs],
    job: &Text,
    deleted: u64,
) -> Result<PreparedStep, AllocError>
    requires { AreSources (states sources.now) }
    ensures { IfOk result (IsPrepared (states sources.now)
        (on_job Already (ended deleted) (with_open_job (states sources.now) job.now))) }
{
    match source_of_job(sources, job.as_str()) {
        Some((place, source)) => end_at(alloc, place, source, deleted),
        None => Ok(idle(StepReply::Already)),
    }
}

// ---- what a step gives

/// What an object comes to.
fn outcome_of(reading: &Reading, effect: Effect) -> Outcome
    ensures { result ≡ outcome_of reading.now effect }
{
    match reading {
        Reading::Bad(cause) => Outcome::Bad(*cause),
        Reading::Good(_) => match effect {
            Effect::Added => Outcome::Added,
            Effect::Updated => Outcome::Updated,
            Effect::Plain | Effect::Unchanged | Effect::Deleted(_) => Outcome::Unchanged,
        },
    }
}

/// How many datasets are deleted.
fn count_deleted(effect: Effect) -> u64
    ensures { result ≡ count_deleted effect }
{
    match effect {
        Effect::Deleted(count) => count,
        Effect::Plain | Effect::Added | Effect::Updated | Effect::Unchanged => 0,
    }
}

/// The ids of the open jobs, by their sources' names.
fn open_ids(alloc: Global, sources: &[SourceJobs]) -> Result<Seq<Text>, AllocError>
    ensures { IfOk result (λ ids. ids ≡ open_ids (states sources.now)) }
{
    let mut ids = Vec::new(alloc);
    for source in sources {
        push_open_id(alloc, source, &mut ids)?;
    }
    Ok(Seq::from(ids))
}

/// Adds the id of the source's open job, if it has one.
fn push_open_id(alloc: Global, source: &SourceJobs, ids: &mut Vec<Text>) -> Result<(), AllocError>
    ensures { OnOk result (ids.new.items
        ≡ ids.old.items ++ option_to_list (option_map id_of_job (open_job source.now.state))) }
{
    if let Some(job) = source.open_job() {
        let id = job_id(alloc, job.source.as_str(), job.number)?;
        ids.push(id)?;
    }
    Ok(())
}
