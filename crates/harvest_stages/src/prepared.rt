//! Steps of harvests that are prepared.
ghost use Rattle.std.specs.Prelude.{◌≡◌};
ghost use Rattle.harvest_stages.specs.declared.prepared.StepChange.TheVariants.{At, Nothing};

use harvest_sources::{Cause, Listing, Outcome, SourceReport, StepReply};
use portal_base::text::Text;
use std::marker::Model;

/// What a step changes of a source.
#[derive(Drop)]
pub enum SourceStep {
    /// Its new job begins.
    Begin,
    /// Its running job ends, since its catalogue can't be read.
    Break(Cause),
    /// Its catalogue is listed.
    List(Listing),
    /// Its first waiting object is claimed.
    Claim,
    /// What the object of this IRI came to.
    Settle(Text, Outcome),
    /// Its running job ends with this report.
    End(SourceReport),
}

/// What a step changes.
#[derive(Drop)]
pub enum StepChange {
    Nothing,
    /// A new round begins for each source.
    Renew,
    /// The source at this place.
    At(usize, SourceStep),
}

/// A step that can be made. In contracts, `change` is what it changes, and `reply` its answer. Only `Stages::prepare`
/// makes it.
#[derive(Drop)]
pub struct PreparedStep {
    pub(crate) change: StepChange,
    pub(crate) reply: StepReply,
}

impl Model for PreparedStep {
    ghost use Rattle.harvest_stages.specs.Prepared.{StepToMake};

    ghost Value = { StepToMake };

    ghost view = { λ p. record { change = p.change; reply = p.reply } };
}

impl PreparedStep {
    /// The answer of the step.
    pub fn reply(&self) -> &StepReply
        ensures { result.now ≡ self.now.reply }
    {
        &self.reply
    }
}

/// A step that changes nothing.
pub(crate) fn idle(reply: StepReply) -> PreparedStep
    ensures { result ≡ record { change = Nothing; reply = reply } }
{
    PreparedStep {
        change: StepChange::Nothing,
        reply,
    }
}

/// A step on the source at this place.
pub(crate) fn step_at(place: usize, step: SourceStep, reply: StepReply) -> PreparedStep
    ensures { result ≡ record { change = At place step; reply = reply } }
{
    PreparedStep {
        change: StepChange::At(place, step),
        reply,
    }
}
