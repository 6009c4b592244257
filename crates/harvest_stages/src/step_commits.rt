//! Steps that are made. They take no memory.
ghost use Rattle.std.specs.Prelude.{◌≡◌, ◌<◌, IfSome, length, map, slice_get, slice_set};
ghost use Rattle.std.specs.List.{All};
ghost use Rattle.harvest_sources.specs.Entries.{sources_after};
ghost use Rattle.harvest_sources.specs.Sources.{AreSources, HasItsJobs, SourceWithRoom, states};
ghost use Rattle.harvest_sources.specs.Steps.{renewed};
ghost use Rattle.harvest_stages.specs.Prepared.{CanChange, CanMake, CanStep, entries_at, entries_of_step, itself_after};
ghost use Rattle.harvest_stages.specs.Prepared.{stepped_in};
ghost use Rattle.harvest_stages.specs.Stages.{sources_in};

use crate::prepared::{PreparedStep, SourceStep, StepChange};
use crate::stages::Stages;
use harvest_sources::{SourceJobs, StepReply};

impl Stages {
    /// Makes a step that was prepared on these sources. It takes no memory.
    pub fn commit(&mut self, step: PreparedStep) -> StepReply
        requires { CanChange step.change self.old }
        ensures sources { sources_in self.new
            ≡ sources_after (stepped_in step (sources_in self.old)).entries (sources_in self.old) }
        ensures reply { result ≡ step.reply }
    {
        let PreparedStep { change, reply } = step;
        make(&mut self.sources, change);
        reply
    }
}

/// Makes the change.
fn make(sources: &mut Vec<SourceJobs>, change: StepChange)
    requires sources { AreSources (states sources.old.items) }
    requires ready { CanMake change (states sources.old.items) }
    ensures changed { states sources.new.items
        ≡ sources_after (entries_of_step change (states sources.old.items)) (states sources.old.items) }
    ensures sources { AreSources (states sources.new.items) }
{
    match change {
        StepChange::Nothing => {}
        StepChange::Renew => renew_all(sources.as_mut_slice()),
        StepChange::At(place, step) => change_at(sources, place, step),
    }
}

/// Begins a new round for each source.
fn renew_all(sources: &mut [SourceJobs])
    ensures state { states sources.new ≡ map renewed (states sources.old) }
    ensures holds { All HasItsJobs (states sources.new) }
{
    for source in sources.iter_mut() {
        source.renew();
    }
}

/// Makes the step of the source at this place.
fn change_at(sources: &mut Vec<SourceJobs>, place: usize, step: SourceStep)
    requires within { place < length sources.old.items }
    requires ready { IfSome (slice_get sources.old.items place) (λ old. CanStep step old.state × HasItsJobs old.state) }
    ensures { IfSome (slice_get sources.old.items place) (λ old. (new : SourceWithRoom)
        × (new.state ≡ itself_after (entries_at step old.state) old.state) × HasItsJobs new.state
        × (sources.new.items ≡ slice_set sources.old.items place new)) }
{
    let source = &mut sources[place];
    change_source(source, step);
}

/// Makes the step of the source.
fn change_source(source: &mut SourceJobs, step: SourceStep)
    requires ready { CanStep step source.old.state }
    requires holds { HasItsJobs source.old.state }
    ensures state { source.new.state ≡ itself_after (entries_at step source.old.state) source.old.state }
    ensures holds { HasItsJobs source.new.state }
{
    match step {
        SourceStep::Begin => source.begin(),
        SourceStep::Break(cause) => source.break_job(cause),
        SourceStep::List(listing) => source.list(listing),
        SourceStep::Claim => source.claim(),
        SourceStep::Settle(iri, outcome) => source.settle(iri.as_str(), outcome),
        SourceStep::End(report) => source.finish(report),
    }
}
