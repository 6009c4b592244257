//! The sources and jobs restored from stored lists.
ghost use Rattle.std.specs.Prelude.{◌≡◌, ◌↔◌, ◌&&◌, ◌==◌, IfOk, IfSome, IsTrue, is_some, length, nat_le, not};
ghost use Rattle.std.specs.Prelude.{option_map};
ghost use Rattle.std.specs.List.{All, count_by};
ghost use Rattle.std.specs.List.Sorted.{IsPermutation, IsSortedBy};
ghost use Rattle.std.specs.Ordering.{is_lt};
ghost use Rattle.portal_base.specs.Ordered.{IsAscending, are_apart, ascending};
ghost use Rattle.harvest_sources.specs.Jobs.{is_open, job_cmp};
ghost use Rattle.harvest_sources.specs.Sources.{states};
ghost use Rattle.harvest_stages.specs.Groups.{HasOwnJobs, is_sound_group, state_of, states_of};
ghost use Rattle.harvest_stages.specs.Restored.{restored};
ghost use Rattle.harvest_stages.specs.Stages.{sources_in};

use crate::groups::{Group, groups_of, put_jobs};
use crate::places::in_order;
use crate::stages::Stages;
use harvest_sources::{HarvestSource, Job, SourceJobs};
use portal_base::seq::Seq;
use std::alloc::{AllocError, Global};

impl Stages {
    /// The sources with these jobs. The result is None exactly if two sources have the same name or one has none, a
    /// job's source isn't there or hasn't given the job's number, two jobs of a source have the same number or are open,
    /// a new job has done something, or a job runs.
    pub fn restore(
        alloc: Global,
        sources: Seq<HarvestSource>,
        jobs: Seq<Job>,
    ) -> Result<Option<Stages>, AllocError>
        requires { All (λ job. job.report.source ≡ job.source) jobs }
        ensures { IfOk result (λ stages. option_map sources_in stages ≡ restored sources jobs) }
    {
        let groups = groups_of(alloc, sources)?;
        let Some(mut groups) = in_order(groups) else {
            return Ok(None);
        };
        if !put_jobs(&mut groups, jobs)? {
            return Ok(None);
        }
        match sources_of(alloc, groups)? {
            Some(sources) => Ok(Some(Stages { sources })),
            None => Ok(None),
        }
    }
}

/// The sources with their jobs in order, if each is sound.
fn sources_of(alloc: Global, groups: Vec<Group>) -> Result<Option<Vec<SourceJobs>>, AllocError>
    requires { All HasOwnJobs groups.items }
    ensures { IfOk result (λ sources. option_map (λ s. states s.items) sources ≡ states_of groups.items) }
{
    let mut sources = Vec::with_capacity(alloc, groups.len())?;
    for group in groups {
        let Some(source) = source_of(group) else {
            return Ok(None);
        };
        sources.push(source)?;
    }
    Ok(Some(sources))
}

/// The source with its jobs in order, if it is sound.
fn source_of(group: Group) -> Option<SourceJobs>
    requires { HasOwnJobs group }
    ensures exactly { is_some result ≡ is_sound_group group }
    ensures state { IfSome result (λ source. source.state ≡ state_of group) }
{
    if !has_one_open(&group) {
        return None;
    }
    let Group { source, jobs } = group;
    let jobs = jobs_in_order(jobs)?;
    Some(SourceJobs::restored(source, jobs))
}

/// Whether the source has a name, and at most one of its jobs is open.
fn has_one_open(group: &Group) -> bool
    ensures { result
        ≡ (not (length group.now.source.name == 0) && nat_le (count_by is_open group.now.jobs) 1) }
{
    !group.source.name.is_empty() && count_open(group.jobs.as_slice()) <= 1
}

/// How many of the jobs are open.
fn count_open(jobs: &[Job]) -> usize
    ensures { result ≡ count_by is_open jobs.now }
{
    jobs.iter().filter(|job| job.is_open()).count()
}

/// The jobs in the order of their numbers, unless two have the same.
fn jobs_in_order(jobs: Seq<Job>) -> Option<Vec<Job>>
    ensures exactly { is_some result ≡ are_apart job_cmp jobs }
    ensures items { IfSome result (λ sorted. sorted.items ≡ ascending job_cmp jobs) }
{
    let jobs = sorted(jobs);
    if ascends(jobs.as_slice()) {
        Some(jobs)
    } else {
        None
    }
}

/// The jobs in the order of their numbers. Those with the same are in any order.
fn sorted(jobs: Seq<Job>) -> Vec<Job>
    ensures permutation { IsPermutation jobs result.items }
    ensures sorted { IsSortedBy (λ j k. is_lt (job_cmp j k)) result.items }
{
    let mut jobs = jobs.into_vec();
    jobs.sort_unstable_by(|first, second| first.number.cmp(&second.number));
    jobs
}

/// Whether each job's number is below the next one's.
fn ascends(jobs: &[Job]) -> bool
    ensures { IsTrue result ↔ IsAscending job_cmp jobs.now }
{
    jobs.is_sorted_by(|job, next| job.number < next.number)
}
