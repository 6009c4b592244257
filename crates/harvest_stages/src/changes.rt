//! A change of sources in two steps: `prepare_change` refuses it or makes room for it, and `commit_change` makes it.
ghost use Rattle.std.specs.Prelude.{◌≡◌, ◌<◌, Err, IfOk, IsOkUnless, IsTrue, MatchOption, OnOk, Some};
ghost use Rattle.std.specs.Prelude.{IfSome, false, is_none, is_some, length, option_map, slice_get, slice_set};
ghost use Rattle.std.specs.Option.{option_map_or};
ghost use Rattle.portal_base.specs.Ordered.{IsAscending, found};
ghost use Rattle.harvest_sources.specs.Entries.{fault_if_open, source_fault};
ghost use Rattle.harvest_sources.specs.Sources.{SourceWithRoom, source_cmp, source_named, states, stored_at};
ghost use Rattle.harvest_stages.specs.Ready.{IsNamed, IsReady, can_add, has_room, job_of_change, next_job_of};
ghost use Rattle.harvest_stages.specs.Stages.{sources_in};

use crate::places::{find_source, place_of};
use crate::stages::Stages;
use harvest_sources::{Job, SourceChange, SourceJobs, StageFault};
use portal_base::moment::Moment;
use portal_base::ordered::reserve;
use portal_base::text::Text;
use std::alloc::{AllocError, Global};
use std::marker::Model;

/// A change that isn't refused and for which there is room. In contracts, `change` is the change, and `job` the job that it
/// adds. Only `Stages::prepare_change` makes it.
#[derive(Drop)]
pub struct PreparedSource {
    pub(crate) change: SourceChange,
    pub(crate) job: Option<Job>,
}

impl Model for PreparedSource {
    ghost use Rattle.harvest_stages.specs.Ready.{PreparedChange};

    ghost Value = { PreparedChange };

    ghost view = { λ p. record { change = p.change; job = p.job } };
}

impl Stages {
    /// Prepares a change: refuses it, or makes room for it. The sources stay as they are. A new source's name may be in
    /// use. Every other change wants a source that is there and has no open job. A job whose source has no number for
    /// the job after it counts as out of memory.
    pub fn prepare_change(
        &mut self,
        alloc: Global,
        change: SourceChange,
    ) -> Result<PreparedSource, StageFault>
        requires { IsNamed change }
        ensures same { sources_in self.new ≡ sources_in self.old }
        ensures fault { MatchOption (source_fault change (sources_in self.old))
            (IsOkUnless result StageFault.OutOfMemory)
            (λ fault. result ≡ Err fault) }
        ensures change { IfOk result (λ prepared. prepared.change ≡ change) }
        ensures ready { IfOk result (λ prepared. IsReady prepared self.new) }
    {
        if let Some(fault) = self.fault_of(&change) {
            return Err(fault);
        }
        match self.make_ready(alloc, &change) {
            Ok(job) => Ok(PreparedSource { change, job }),
            Err(_) => Err(StageFault::OutOfMemory),
        }
    }

    /// Why the change isn't made, if it has a fault.
    fn fault_of(&self, change: &SourceChange) -> Option<StageFault>
        ensures { result ≡ source_fault change.now (sources_in self.now) }
    {
        match change {
            SourceChange::Create(source) => self
                .has_source(&source.name)
                .then_some(StageFault::SourceNameInUse),
            SourceChange::Update(name, _, _) => self.fault_if_open(name),
            SourceChange::Remove(name) => self.fault_if_open(name),
            SourceChange::AddJob(name, _) => self.fault_if_open(name),
        }
    }

    /// Whether a source has the name.
    fn has_source(&self, name: &Text) -> bool
        ensures { result ≡ is_some (source_named (sources_in self.now) name.now) }
    {
        find_source(self.sources.as_slice(), name).is_some()
    }

    /// The fault of naming a source that isn't there, or has an open job.
    fn fault_if_open(&self, name: &Text) -> Option<StageFault>
        ensures { result ≡ fault_if_open (source_named (sources_in self.now) name.now) }
    {
        match find_source(self.sources.as_slice(), name) {
            Some(source) => source
                .open_job()
                .is_some()
                .then_some(StageFault::NotFinished),
            None => Some(StageFault::UnknownSource),
        }
    }

    /// Makes room for what the change adds, and makes the job that it adds. The sources stay as they are.
    fn make_ready(
        &mut self,
        alloc: Global,
        change: &SourceChange,
    ) -> Result<Option<Job>, AllocError>
        requires { IsTrue (is_none (source_fault change.now (sources_in self.old))) }
        ensures same { sources_in self.new ≡ sources_in self.old }
        ensures room { OnOk result (IsTrue (has_room change.now self.new)) }
        ensures job { IfOk result (λ job. job ≡ job_of_change change.now (sources_in self.old)) }
    {
        match change {
            SourceChange::Create(_) => {
                reserve(&mut self.sources)?;
                Ok(None)
            }
            SourceChange::AddJob(name, created) => {
                let job = ready_job(alloc, &mut self.sources, name, *created)?;
                Ok(Some(job))
            }
            SourceChange::Update(_, _, _) => Ok(None),
            SourceChange::Remove(_) => Ok(None),
        }
    }
}

/// Makes the next job of the source of that name, and room for it.
fn ready_job(
    alloc: Global,
    sources: &mut Vec<SourceJobs>,
    name: &Text,
    created: Moment,
) -> Result<Job, AllocError>
    requires ascending { IsAscending source_cmp (states sources.old.items) }
    requires there { IsTrue (is_some (source_named (states sources.old.items) name.now)) }
    ensures same { states sources.new.items ≡ states sources.old.items }
    ensures room { OnOk result (IsTrue (option_map_or can_add (found (stored_at name.now) sources.new.items) false)) }
    ensures job { IfOk result (λ job.
        Some job ≡ option_map (next_job_of created) (source_named (states sources.old.items) name.now)) }
{
    match place_of(sources.as_slice(), name) {
        Some(place) => ready_at(alloc, sources, place, created),
        None => unreachable!(),
    }
}

/// Makes the next job of the source at this place, and room for it.
fn ready_at(
    alloc: Global,
    sources: &mut Vec<SourceJobs>,
    place: usize,
    created: Moment,
) -> Result<Job, AllocError>
    requires { place < length sources.old.items }
    ensures { IfSome (slice_get sources.old.items place) (λ old. (new : SourceWithRoom) × (new.state ≡ old.state)
        × (sources.new.items ≡ slice_set sources.old.items place new) × OnOk result (IsTrue (can_add new))
        × IfOk result (λ job. job ≡ next_job_of created old.state)) }
{
    let source = &mut sources[place];
    job_for(alloc, source, created)
}

/// Makes the next job of the source, and room for it.
fn job_for(alloc: Global, source: &mut SourceJobs, created: Moment) -> Result<Job, AllocError>
    ensures same { source.new.state ≡ source.old.state }
    ensures room { OnOk result (IsTrue (can_add source.new)) }
    ensures job { IfOk result (λ job. job ≡ next_job_of created source.old.state) }
{
    if source.source().next_job == u64::MAX {
        return Err(AllocError);
    }
    let job = source.next_job(alloc, created)?;
    source.reserve_job()?;
    Ok(job)
}
