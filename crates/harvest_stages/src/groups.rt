//! Sources to which jobs are put, before they are restored.
ghost use Rattle.std.specs.Prelude.{◌≡◌, ◌<◌, ◌&&◌, IfOk, IfSome, IsTrue, MatchOption, OnOk, false, length, map};
ghost use Rattle.std.specs.Prelude.{nat_lt, slice_get, slice_set, true};
ghost use Rattle.std.specs.List.{HoldsAt, list_all};
ghost use Rattle.portal_base.specs.Ordered.{IsAscending};
ghost use Rattle.harvest_stages.specs.Groups.{group_cmp, sources_of, with_all_own, with_last, with_own, without_jobs};
ghost use Rattle.harvest_stages.specs.Restored.{counts_nothing, is_at_rest, is_of, is_restorable_job};

use crate::places::place_of;
use harvest_sources::{HarvestSource, Job, JobState, SourceReport};
use portal_base::ordered::{Key, Ordered};
use portal_base::seq::Seq;
use portal_base::text::Text;
use std::alloc::{AllocError, Global};
use std::cmp::Ordering;

/// A source with its jobs in any order.
#[derive(Drop)]
pub(crate) struct Group {
    pub source: HarvestSource,
    pub jobs: Seq<Job>,
}

impl Group {
    /// Puts the job after the others.
    fn put(&mut self, job: Job) -> Result<(), AllocError>
        ensures { OnOk result (self.new ≡ with_last job self.old) }
    {
        match self.jobs.push(job) {
            Ok(()) => Ok(()),
            Err(_) => Err(AllocError),
        }
    }
}

impl Ordered for Group {
    ghost use Rattle.harvest_stages.specs.Groups.{group_cmp, group_cmp_total};

    ghost order = { group_cmp };

    ghost total = { group_cmp_total };

    /// The order by the source's name.
    fn compare(&self, other: &Group) -> Ordering {
        self.source.name.cmp(&other.source.name)
    }
}

impl Key<Group> for Text {
    ghost use Rattle.harvest_stages.specs.Groups.{group_at, IsKey-group_at, IsMonotone-group_at};

    ghost at = { group_at };

    ghost is_key = { IsKey-group_at };

    ghost is_monotone = { IsMonotone-group_at };

    fn compare_item(&self, item: &Group) -> Ordering {
        item.source.name.cmp(self)
    }
}

/// The sources, without jobs.
pub(crate) fn groups_of(
    alloc: Global,
    sources: Seq<HarvestSource>,
) -> Result<Vec<Group>, AllocError>
    ensures { IfOk result (λ groups. groups.items ≡ map without_jobs sources) }
{
    sources
        .into_vec()
        .into_iter()
        .map(|source| Group {
            source,
            jobs: Seq::new(alloc),
        })
        .collect(alloc)
}

/// Puts each job to its source. The result says whether each can be restored.
pub(crate) fn put_jobs(groups: &mut Vec<Group>, jobs: Seq<Job>) -> Result<bool, AllocError>
    requires { IsAscending group_cmp groups.old.items }
    ensures fit { IfOk result (λ fit. fit ≡ list_all (is_restorable_job (sources_of groups.old.items)) jobs) }
    ensures put { IfOk result (λ fit. IsTrue fit → groups.new.items ≡ map (with_all_own jobs) groups.old.items) }
{
    for job in jobs.into_vec() {
        if !put_job(groups, job)? {
            return Ok(false);
        }
    }
    Ok(true)
}

/// Puts the job to its source. The result says whether it can be restored.
fn put_job(groups: &mut Vec<Group>, job: Job) -> Result<bool, AllocError>
    requires { IsAscending group_cmp groups.old.items }
    ensures fits { IfOk result (λ fits. fits ≡ is_restorable_job (sources_of groups.old.items) job) }
    ensures put { IfOk result (λ fits. IsTrue fits → groups.new.items ≡ map (with_own job) groups.old.items) }
{
    let Some(place) = place_for(groups.as_slice(), &job) else {
        return Ok(false);
    };
    put_last(groups, place, job)?;
    Ok(true)
}

/// Puts the job after the others of the source at this place.
fn put_last(groups: &mut Vec<Group>, place: usize, job: Job) -> Result<(), AllocError>
    requires { place < length groups.old.items }
    ensures { OnOk result (IfSome (slice_get groups.old.items place) (λ group.
        groups.new.items ≡ slice_set groups.old.items place (with_last job group))) }
{
    let group = &mut groups[place];
    group.put(job)
}

/// The place of the job's source, if the job can be restored.
fn place_for(groups: &[Group], job: &Job) -> Option<usize>
    requires { IsAscending group_cmp groups.now }
    ensures { MatchOption result (is_restorable_job (sources_of groups.now) job.now ≡ false)
        (λ place. (is_restorable_job (sources_of groups.now) job.now ≡ true) × (place < length groups.now)
        × HoldsAt (λ group. is_of group.source job.now ≡ true) groups.now place) }
{
    let place = place_of(groups, &job.source)?;
    if fits(&groups[place].source, job) {
        Some(place)
    } else {
        None
    }
}

/// Whether the source has given the job's number, and the job waits and has done nothing, or has ended.
fn fits(source: &HarvestSource, job: &Job) -> bool
    ensures { result ≡ (nat_lt job.now.number source.now.next_job && is_at_rest job.now) }
{
    job.number < source.next_job && is_at_rest(job)
}

/// Whether the job waits and has done nothing, or has ended.
fn is_at_rest(job: &Job) -> bool
    ensures { result ≡ is_at_rest job.now }
{
    match job.report.state {
        JobState::New => counts_nothing(&job.report),
        JobState::Running => false,
        JobState::Finished => true,
        JobState::Broken(_) => true,
    }
}

/// Whether the report counts nothing.
fn counts_nothing(report: &SourceReport) -> bool
    ensures { result ≡ counts_nothing report.now }
{
    report.added == 0
        && report.updated == 0
        && report.unchanged == 0
        && report.deleted == 0
        && report.unnamed == 0
        && report.bad.is_empty()
}
