//! A round of harvests.
ghost use Rattle.std.specs.Prelude.{◌≡◌, ◌≤◌, ◌<◌, ℕ, Err, IfOk, IsSome, OnOk, None, length, map, slice_index_or};
ghost use Rattle.std.specs.List.{All, Contains};
ghost use Rattle.std.specs.List.Sorted.{IsPermutation, IsSorted};
ghost use Rattle.portal_base.specs.Outside.{Rose};
ghost use Rattle.harvest_results.specs.Effects.{HarvestState};
ghost use Rattle.harvest_sources.specs.Sources.{AreSources, open_job};
ghost use Rattle.harvest_pool.specs.Made.{AnswersSteps, StepsAsHarvests};
ghost use Rattle.harvest_pool.specs.Rounds.{jobs_started, report_cmp};
ghost use Rattle.harvest_pool.specs.Working.{IsRound};

use crate::catalogues::read_catalogues;
use crate::ends::end_jobs;
use crate::making::make;
use crate::objects::settle_objects;
use crate::report::{RoundFault, RoundReport};
use harvest_sources::{SourceReport, Step, StepReply};
use portal_base::outside::Fetcher;
use portal_base::seq::Seq;
use portal_base::text::Text;
use portal_events::{Event, Reply};
use portal_hall::machine::Machine;
use std::alloc::{AllocError, Global};

/// Makes a round of harvests on the machine: a new round begins, each new job reads its source's catalogue, each waiting
/// object is settled, and each job of the round ends. A job whose catalogue can't be read breaks. A fetch that fails is told
/// by its cause, and doesn't stop the round. After a fault what was done stays, and a later round goes on with the jobs that
/// haven't ended. For now one worker does all, with the first fetcher.
pub fn round<M: Machine<Event = Event, Reply = Reply>, F: Fetcher>(
    alloc: Global,
    machine: &mut M,
    fetchers: &mut Vec<F>,
    workers: u32,
) -> Result<RoundReport, RoundFault>
    requires machine { AnswersSteps M.step M.IsOutOfMemory M.IsFault }
    requires workers { (1 ≤ workers) × (workers ≤ 16) × (workers ≤ length fetchers.old.items) }
    ensures round { (d : F) → IsRound M.step (F.held (slice_index_or fetchers.old.items 0 d))
        (M.core machine.old) (M.core machine.new) (F.faults (slice_index_or fetchers.old.items 0 d))
        (F.faults (slice_index_or fetchers.new.items 0 d)) result }
    ensures ended { (view : M.Core → HarvestState) → StepsAsHarvests M.step view →
        AreSources (view (M.core machine.old)).sources →
        OnOk result (All (λ s. open_job s ≡ None) (view (M.core machine.new)).sources) }
    ensures reported { (view : M.Core → HarvestState) → StepsAsHarvests M.step view →
        AreSources (view (M.core machine.old)).sources →
        IfOk result (λ report. All (λ s. IsSome (open_job s) →
        Contains (map (λ r. r.source) report.sources) s.source.name) (view (M.core machine.old)).sources) }
    ensures fault { result ≡ Err RoundFault.Keeper → Rose (M.faults machine.old) (M.faults machine.new) }
    ensures counts { M.faults machine.old ≤ M.faults machine.new }
    ensures fetchers { length fetchers.new.items ≡ length fetchers.old.items }
    ensures held { (k : ℕ) (d : F) → k < length fetchers.old.items →
        F.held (slice_index_or fetchers.new.items k d) ≡ F.held (slice_index_or fetchers.old.items k d) }
    ensures fetches { (k : ℕ) (d : F) → k < length fetchers.old.items →
        F.faults (slice_index_or fetchers.old.items k d) ≤ F.faults (slice_index_or fetchers.new.items k d) }
{
    let _at_most = workers;
    round_by_one(alloc, machine, &mut fetchers[0])
}

/// A round by one worker with this fetcher.
fn round_by_one<M: Machine<Event = Event, Reply = Reply>, F: Fetcher>(
    alloc: Global,
    machine: &mut M,
    fetcher: &mut F,
) -> Result<RoundReport, RoundFault>
    requires { AnswersSteps M.step M.IsOutOfMemory M.IsFault }
    ensures round { IsRound M.step (F.held fetcher.old) (M.core machine.old) (M.core machine.new)
        (F.faults fetcher.old) (F.faults fetcher.new) result }
    ensures fault { result ≡ Err RoundFault.Keeper → Rose (M.faults machine.old) (M.faults machine.new) }
    ensures counts { M.faults machine.old ≤ M.faults machine.new }
    ensures fetches { F.faults fetcher.old ≤ F.faults fetcher.new }
    ensures held { F.held fetcher.new ≡ F.held fetcher.old }
{
    let jobs = jobs_started(alloc, make(machine, Step::NewRound)?);
    let mut reports = Vec::new(alloc);
    read_catalogues(alloc, machine, fetcher, &mut reports)?;
    settle_objects(alloc, machine, fetcher)?;
    end_jobs(machine, jobs, &mut reports)?;
    Ok(report_in_order(reports)?)
}

/// The ids of the jobs of the round that begins.
fn jobs_started(alloc: Global, start: StepReply) -> Seq<Text>
    ensures { result ≡ jobs_started start }
{
    match start {
        StepReply::Started(jobs) => jobs,
        _ => Seq::new(alloc),
    }
}

/// The report of a round whose jobs ended with these reports.
fn report_in_order(reports: Vec<SourceReport>) -> Result<RoundReport, AllocError>
    ensures reports { IfOk result (λ report. IsPermutation reports.items report.sources) }
    ensures order { IfOk result (λ report. IsSorted report_cmp report.sources) }
{
    let mut reports = reports;
    reports.sort_by(|report, other| report.source.cmp(&other.source))?;
    Ok(RoundReport {
        sources: Seq::from(reports),
    })
}
