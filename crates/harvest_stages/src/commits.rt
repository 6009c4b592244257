//! Changes of sources that are made. They take no memory.
ghost use Rattle.std.specs.Prelude.{◌≡◌, ◌<◌, IfSome, IsTrue, Some, is_none, length, option_map, slice_get, slice_set};
ghost use Rattle.std.specs.Prelude.{◌≢◌, [], false, vec_capacity, vec_len};
ghost use Rattle.std.specs.Option.{option_map_or};
ghost use Rattle.portal_base.specs.Ordered.{found};
ghost use Rattle.harvest_sources.specs.Entries.{changed_sources, source_fault, with_new_job, with_texts};
ghost use Rattle.harvest_sources.specs.Sources.{AreSources, HasItsJobs, SourceWithRoom, source_named, states, stored_at};
ghost use Rattle.harvest_sources.specs.declared.change.SourceChange.TheVariants.{Create, Update, Remove, AddJob};
ghost use Rattle.harvest_stages.specs.Ready.{CanAdd, IsReady, can_add, next_job_of};
ghost use Rattle.harvest_stages.specs.Stages.{sources_in};

use crate::changes::PreparedSource;
use crate::places::place_of;
use crate::stages::Stages;
use harvest_sources::{HarvestSource, Job, SourceChange, SourceJobs};
use portal_base::ordered::{drop_at, replace_or_put};
use portal_base::text::Text;

impl Stages {
    /// Makes a change that was prepared on these sources. It takes no memory.
    pub fn commit_change(&mut self, change: PreparedSource)
        requires { IsReady change self.old }
        ensures { sources_in self.new ≡ changed_sources change.change (sources_in self.old) }
    {
        let PreparedSource { change, job } = change;
        match change {
            SourceChange::Create(source) => put_source(&mut self.sources, source),
            SourceChange::Update(name, title, url) => {
                replace_texts(&mut self.sources, &name, title, url)
            }
            SourceChange::Remove(name) => drop_source(&mut self.sources, &name),
            SourceChange::AddJob(name, _) => match job {
                Some(job) => add_job(&mut self.sources, &name, job),
                None => unreachable!(),
            },
        }
    }
}

/// Adds the source.
fn put_source(sources: &mut Vec<SourceJobs>, source: HarvestSource)
    requires sources { AreSources (states sources.old.items) }
    requires named { source.name ≢ [] }
    requires free { IsTrue (is_none (source_fault (Create source) (states sources.old.items))) }
    requires room { vec_len sources.old < vec_capacity sources.old }
    ensures changed { states sources.new.items ≡ changed_sources (Create source) (states sources.old.items) }
    ensures sources { AreSources (states sources.new.items) }
{
    let source = SourceJobs::new(*sources.allocator(), source);
    replace_or_put(sources, source);
}

/// Gives the source of that name this title and this location.
fn replace_texts(sources: &mut Vec<SourceJobs>, name: &Text, title: Text, url: Text)
    requires sources { AreSources (states sources.old.items) }
    requires there { IsTrue (is_none (source_fault (Update name.now title url) (states sources.old.items))) }
    ensures changed { states sources.new.items ≡ changed_sources (Update name.now title url) (states sources.old.items) }
    ensures sources { AreSources (states sources.new.items) }
{
    match place_of(sources.as_slice(), name) {
        Some(place) => texts_at(sources, place, title, url),
        None => unreachable!(),
    }
}

/// Adds the job to the source of that name.
fn add_job(sources: &mut Vec<SourceJobs>, name: &Text, job: Job)
    requires sources { AreSources (states sources.old.items) }
    requires there { IsTrue (is_none (source_fault (AddJob name.now job.created) (states sources.old.items))) }
    requires room { IsTrue (option_map_or can_add (found (stored_at name.now) sources.old.items) false) }
    requires next { Some job
        ≡ option_map (next_job_of job.created) (source_named (states sources.old.items) name.now) }
    ensures changed { states sources.new.items ≡ changed_sources (AddJob name.now job.created) (states sources.old.items) }
    ensures sources { AreSources (states sources.new.items) }
{
    match place_of(sources.as_slice(), name) {
        Some(place) => job_at(sources, place, job),
        None => unreachable!(),
    }
}

/// Drops the source of that name, with its jobs.
fn drop_source(sources: &mut Vec<SourceJobs>, name: &Text)
    requires { AreSources (states sources.old.items) }
    ensures changed { states sources.new.items ≡ changed_sources (Remove name.now) (states sources.old.items) }
    ensures sources { AreSources (states sources.new.items) }
{
    drop_at(sources, name);
}

/// Gives the source at this place this title and this location.
fn texts_at(sources: &mut Vec<SourceJobs>, place: usize, title: Text, url: Text)
    requires { place < length sources.old.items }
    ensures { IfSome (slice_get sources.old.items place) (λ old. (new : SourceWithRoom)
        × (new.state ≡ with_texts title url old.state) × HasItsJobs new.state
        × (sources.new.items ≡ slice_set sources.old.items place new)) }
{
    let source = &mut sources[place];
    source.replace_texts(title, url);
}

/// Adds the job to the source at this place.
fn job_at(sources: &mut Vec<SourceJobs>, place: usize, job: Job)
    requires within { place < length sources.old.items }
    requires ready { IfSome (slice_get sources.old.items place) (λ old. CanAdd job old) }
    ensures { IfSome (slice_get sources.old.items place) (λ old. (new : SourceWithRoom)
        × (new.state ≡ with_new_job job old.state) × HasItsJobs new.state
        × (sources.new.items ≡ slice_set sources.old.items place new)) }
{
    let source = &mut sources[place];
    source.add_job(job);
}
