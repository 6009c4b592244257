//! A source with its jobs and what the catalogue of its running job lists, as one value that steps change in place.
ghost use Rattle.std.specs.Prelude.{◌≡◌, ◌<◌, ◌+◌, ◌-◌, ◌^◌, IfOk, IfSome, IsTrue, None, OnOk, Some, is_some, length};
ghost use Rattle.std.specs.Prelude.{ℕ, option_copied, option_map, position, slice_get, slice_index_or, slice_set};
ghost use Rattle.std.specs.Prelude.{vec_len};
ghost use Rattle.harvest_sources.specs.declared.job.Job.{Job};
ghost use Rattle.portal_base.specs.Ordered.{IsAscending};
ghost use Rattle.harvest_sources.specs.Entries.{with_job, with_jobs_of, with_listing, with_new_job, with_texts};
ghost use Rattle.harvest_sources.specs.Jobs.{in_state, is_open, is_running_state, new_job, with_report};
ghost use Rattle.harvest_sources.specs.Listings.{finished_report, first_waiting, object_cmp, with_progress};
ghost use Rattle.harvest_sources.specs.Sources.{HasItsJobs, is_listed, open_job};
ghost use Rattle.harvest_sources.specs.Steps.{has_new, has_running, has_unsettled, is_settled, lists, renewed, waiting_of};
ghost use Rattle.harvest_sources.specs.declared.job.JobState.TheVariants.{Broken, Running};
ghost use Rattle.harvest_sources.specs.declared.listing.Progress.TheVariants.{Claimed, Done};

use crate::cause::Cause;
use crate::job::{Job, JobState, SourceReport};
use crate::listing::{Listing, Outcome};
use crate::objects::{
    are_done, finished_report, has_object, index_of, is_unsettled, settled, waiting_index,
    with_all_released, with_claimed,
};
use crate::source::HarvestSource;
use crate::step::Found;
use portal_base::copy::TryClone;
use portal_base::moment::Moment;
use portal_base::ordered::reserve;
use portal_base::seq::Seq;
use portal_base::text::Text;
use std::alloc::{AllocError, Global};
use std::marker::Model;

/// A source, its jobs ascending by number, and the listing of its running job. At most one job hasn't ended, and it is
/// found at once, as is the first object that waits. In contracts, `state` is the source with its jobs and its listing,
/// and `room` says whether one more job fits without an allocation.
#[derive(Drop)]
pub struct SourceJobs {
    source: HarvestSource,
    jobs: Vec<Job>,
    /// The index of the job that hasn't ended.
    current: Option<usize>,
    listing: Option<Listing>,
    /// The index of the first object of the listing that waits.
    waiting: Option<usize>,
}

impl Model for SourceJobs {
    ghost use Rattle.std.specs.Prelude.{nat_lt, vec_len, vec_capacity};
    ghost use Rattle.harvest_sources.specs.Sources.{AreTheirPlaces, SourceWithRoom};

    ghost Value = { SourceWithRoom };

    ghost view = { λ s. record {
      state = record { source = s.source; jobs = s.jobs.items; listing = s.listing };
      room = nat_lt (vec_len s.jobs) (vec_capacity s.jobs);
    } };

    ghost invariant = { λ s.
        AreTheirPlaces (record { source = s.source; jobs = s.jobs.items; listing = s.listing }) s.current s.waiting };
}

impl SourceJobs {
    /// The source without a job. It takes no memory.
    pub fn new(alloc: Global, source: HarvestSource) -> SourceJobs
        ensures { result.state ≡ with_jobs_of source None }
    {
        SourceJobs {
            source,
            jobs: Vec::new(alloc),
            current: None,
            listing: None,
            waiting: None,
        }
    }

    /// The source with these jobs. No catalogue is listed. It takes no memory.
    pub fn restored(source: HarvestSource, jobs: Vec<Job>) -> SourceJobs
        requires { HasItsJobs (record { source = source; jobs = jobs.items; listing = None }) }
        ensures { result.state ≡ record { source = source; jobs = jobs.items; listing = None } }
    {
        let current = open_index(jobs.as_slice());
        SourceJobs {
            source,
            jobs,
            current,
            listing: None,
            waiting: None,
        }
    }

    // ---- what there is

    pub fn source(&self) -> &HarvestSource
        ensures source { result.now ≡ self.now.state.source }
        ensures holds { HasItsJobs self.now.state }
    {
        &self.source
    }

    /// The jobs, ascending by number.
    pub fn jobs(&self) -> &[Job]
        ensures jobs { result.now ≡ self.now.state.jobs }
        ensures holds { HasItsJobs self.now.state }
    {
        self.jobs.as_slice()
    }

    /// What the catalogue of the running job lists, if it is listed.
    pub fn listing(&self) -> Option<&Listing>
        ensures listing { option_copied result ≡ self.now.state.listing }
        ensures holds { HasItsJobs self.now.state }
    {
        self.listing.as_ref()
    }

    /// The job that hasn't ended.
    pub fn open_job(&self) -> Option<&Job>
        ensures job { option_copied result ≡ open_job self.now.state }
        ensures holds { HasItsJobs self.now.state }
    {
        self.jobs.as_slice().get(self.current?)
    }

    /// The job of the greatest number.
    pub fn last_job(&self) -> Option<&Job>
        ensures { option_copied result ≡ slice_get self.now.state.jobs (length self.now.state.jobs - 1) }
    {
        self.jobs.as_slice().last()
    }

    /// Whether a job of the source is new.
    pub fn has_new(&self) -> bool
        ensures { result ≡ has_new self.now.state }
    {
        match self.open_job() {
            Some(job) => job.is_new(),
            None => false,
        }
    }

    /// Whether a job of the source runs.
    pub fn has_running(&self) -> bool
        ensures running { result ≡ has_running self.now.state }
        ensures holds { HasItsJobs self.now.state }
    {
        match self.open_job() {
            Some(job) => job.is_running(),
            None => false,
        }
    }

    /// Whether the source's catalogue is listed.
    pub fn is_listed(&self) -> bool
        ensures { result ≡ is_listed self.now.state }
    {
        self.listing.is_some()
    }

    // ---- changes of the source, and new jobs

    /// Gives the source this title and this location. It takes no memory.
    pub fn replace_texts(&mut self, title: Text, url: Text)
        ensures state { self.new.state ≡ with_texts title url self.old.state }
        ensures holds { HasItsJobs self.new.state }
    {
        self.source.title = title;
        self.source.url = url;
    }

    /// Makes room for one more job.
    pub fn reserve_job(&mut self) -> Result<(), AllocError>
        ensures room { OnOk result (IsTrue self.new.room) }
        ensures same { self.new.state ≡ self.old.state }
    {
        reserve(&mut self.jobs)
    }

    /// The next job of the source, made at this moment.
    pub fn next_job(&self, alloc: Global, created: Moment) -> Result<Job, AllocError>
        ensures { IfOk result (λ job. job
            ≡ new_job self.now.state.source.name self.now.state.source.next_job created) }
    {
        let source = self.source.name.try_clone(alloc)?;
        let reported = self.source.name.try_clone(alloc)?;
        Ok(Job {
            source,
            number: self.source.next_job,
            created,
            report: SourceReport {
                source: reported,
                state: JobState::New,
                added: 0,
                updated: 0,
                unchanged: 0,
                deleted: 0,
                unnamed: 0,
                bad: Seq::new(alloc),
            },
        })
    }

    /// Adds the next job. It takes no memory.
    pub fn add_job(&mut self, job: Job)
        requires ended { open_job self.old.state ≡ None }
        requires room { IsTrue self.old.room }
        requires number { self.old.state.source.next_job + 1 < 2 ^ 64 }
        requires job { job ≡ new_job self.old.state.source.name self.old.state.source.next_job job.created }
        ensures state { self.new.state ≡ with_new_job job self.old.state }
        ensures holds { HasItsJobs self.new.state }
    {
        self.source.next_job += 1;
        self.current = Some(self.jobs.len());
        self.jobs.push(job).unwrap();
    }

    // ---- steps of the open job

    /// Begins the new job. It takes no memory.
    pub fn begin(&mut self)
        requires { IsTrue (has_new self.old.state) }
        ensures state { IfSome (open_job self.old.state) (λ job.
            self.new.state ≡ with_job (in_state Running job) self.old.state) }
        ensures holds { HasItsJobs self.new.state }
    {
        self.set_state(JobState::Running);
    }

    /// Begins a new round: the claimed objects wait again, or the running job waits for its turn again. It takes no
    /// memory.
    pub fn renew(&mut self)
        ensures state { self.new.state ≡ renewed self.old.state }
        ensures holds { HasItsJobs self.new.state }
    {
        if self.is_listed() {
            self.release_all();
        } else if self.has_running() {
            self.set_state(JobState::New);
        }
    }

    /// Ends the running job, whose catalogue can't be read for this cause. It takes no memory.
    pub fn break_job(&mut self, cause: Cause)
        requires running { IsTrue (has_running self.old.state) }
        requires unlisted { self.old.state.listing ≡ None }
        ensures state { IfSome (open_job self.old.state) (λ job.
            self.new.state ≡ with_job (in_state (Broken cause) job) self.old.state) }
        ensures holds { HasItsJobs self.new.state }
    {
        self.set_state(JobState::Broken(cause));
    }

    /// Keeps what the catalogue of the running job lists. It takes no memory.
    pub fn list(&mut self, listing: Listing)
        requires running { IsTrue (has_running self.old.state) }
        requires unlisted { self.old.state.listing ≡ None }
        requires ascending { IsAscending object_cmp listing.objects }
        ensures state { self.new.state ≡ with_listing (Some listing) self.old.state }
        ensures holds { HasItsJobs self.new.state }
    {
        self.waiting = waiting_index(listing.objects.as_slice(), 0);
        keep(&mut self.listing, listing);
    }

    // ---- steps of objects

    /// The first waiting object: its IRI, and where it is described.
    pub fn first_waiting(&self) -> Option<(&Text, &Found)>
        ensures { option_map (λ item. record { iri = item.0.now; found = item.1.now }) result ≡ waiting_of self.now.state }
    {
        let listing = self.listing.as_ref()?;
        let object = listing.objects.at(self.waiting?);
        let found = object.progress.waiting()?;
        Some((&object.iri, found))
    }

    /// Claims the first waiting object. It takes no memory. The calls that claim all objects of a listing cost one walk
    /// over it.
    pub fn claim(&mut self)
        requires { IsTrue (is_some (waiting_of self.old.state)) }
        ensures state { IfSome self.old.state.listing (λ listing. IfSome (first_waiting listing) (λ item.
            self.new.state ≡ with_listing (Some (with_progress item.iri (Claimed item.found) listing)) self.old.state)) }
        ensures holds { HasItsJobs self.new.state }
    {
        if let Some(index) = self.waiting {
            if let Some(listing) = self.listing.take() {
                let listing = with_claimed(listing, index);
                self.waiting = waiting_index(listing.objects.as_slice(), index + 1);
                keep(&mut self.listing, listing);
            }
        }
    }

    /// Whether the catalogue is listed and has an object of this IRI, by a binary search.
    pub fn lists(&self, iri: &str) -> bool
        ensures { result ≡ lists iri.now self.now.state }
    {
        match &self.listing {
            Some(listing) => has_object(listing, iri),
            None => false,
        }
    }

    /// Whether the listing has an object of this IRI that isn't done.
    pub fn is_unsettled(&self, iri: &str) -> bool
        ensures { result ≡ has_unsettled iri.now self.now.state }
    {
        match &self.listing {
            Some(listing) => is_unsettled(listing, iri),
            None => false,
        }
    }

    /// Keeps what the object of this IRI came to. It takes no memory.
    pub fn settle(&mut self, iri: &str, outcome: Outcome)
        requires { IsTrue (has_unsettled iri.now self.old.state) }
        ensures state { IfSome self.old.state.listing (λ listing.
            self.new.state ≡ with_listing (Some (with_progress iri.now (Done outcome) listing)) self.old.state) }
        ensures holds { HasItsJobs self.new.state }
    {
        if let Some(listing) = self.listing.take() {
            let (listing, waiting) = settled(listing, self.waiting, iri, outcome);
            keep(&mut self.listing, listing);
            self.waiting = waiting;
        }
    }

    /// Whether the catalogue is listed and all its objects are done. It walks over the objects.
    pub fn is_settled(&self) -> bool
        ensures { result ≡ is_settled self.now.state }
    {
        match &self.listing {
            Some(listing) => are_done(listing.objects.as_slice()),
            None => false,
        }
    }

    // ---- the end of a job

    /// The report on the running job at its end, with so many datasets deleted.
    pub fn finished_report(&self, alloc: Global, deleted: u64) -> Result<SourceReport, AllocError>
        requires { IsTrue (is_listed self.now.state) }
        ensures { IfOk result (λ report. IfSome self.now.state.listing (λ listing.
            report ≡ finished_report self.now.state.source.name listing deleted)) }
    {
        match &self.listing {
            Some(listing) => finished_report(alloc, &self.source.name, listing, deleted),
            None => unreachable!(),
        }
    }

    /// Ends the running job, all of whose objects are done, with its report. It takes no memory.
    pub fn finish(&mut self, report: SourceReport)
        requires settled { IsTrue (is_settled self.old.state) }
        requires report { IfSome self.old.state.listing (λ listing.
            (deleted : ℕ) × (report ≡ finished_report self.old.state.source.name listing deleted)) }
        ensures state { IfSome (open_job self.old.state) (λ job.
            self.new.state ≡ with_listing None (with_job (with_report report job) self.old.state)) }
        ensures holds { HasItsJobs self.new.state }
    {
        if let Some(index) = self.current {
            put_report(&mut self.jobs, index, report);
            forget(&mut self.listing);
            self.current = None;
            self.waiting = None;
        }
    }

    /// Puts the open job into this state, in which it has done nothing.
    fn set_state(&mut self, state: JobState)
        requires { IsTrue (is_listed self.old.state) → IsTrue (is_running_state state) }
        ensures state { IfSome (open_job self.old.state) (λ job.
            self.new.state ≡ with_job (in_state state job) self.old.state) }
        ensures holds { HasItsJobs self.new.state }
    {
        if let Some(index) = self.current {
            self.jobs[index].report.state = state;
            self.current = state.is_open().then_some(index);
        }
    }

    /// Makes the claimed objects wait again.
    fn release_all(&mut self)
        requires { IsTrue (is_listed self.old.state) }
        ensures state { self.new.state ≡ renewed self.old.state }
        ensures holds { HasItsJobs self.new.state }
    {
        if let Some(listing) = self.listing.take() {
            let listing = with_all_released(listing);
            self.waiting = waiting_index(listing.objects.as_slice(), 0);
            keep(&mut self.listing, listing);
        }
    }
}

/// The index of the job that hasn't ended.
fn open_index(jobs: &[Job]) -> Option<usize>
    ensures { result ≡ position is_open jobs.now }
{
    jobs.iter().position(|job| job.is_open())
}

/// Keeps this listing in place of what is there.
fn keep(place: &mut Option<Listing>, listing: Listing)
    ensures { place.new ≡ Some listing }
{
    *place = Some(listing);
}

/// Leaves no listing.
fn forget(place: &mut Option<Listing>)
    ensures { place.new ≡ None }
{
    *place = None;
}

/// Replaces the report of the job at this index.
fn put_report(jobs: &mut Vec<Job>, index: usize, report: SourceReport)
    requires { index < vec_len jobs.old }
    ensures { (d : Job) → jobs.new.items
        ≡ slice_set jobs.old.items index (with_report report (slice_index_or jobs.old.items index d)) }
{
    let job = &mut jobs[index];
    job.report = report;
}
