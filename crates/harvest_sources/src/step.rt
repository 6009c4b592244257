//! The steps of a harvest, and what each is answered.

use crate::cause::Cause;
use crate::job::SourceReport;
use crate::reading::Reading;
use portal_base::copy::TryClone;
use portal_base::seq::Seq;
use portal_base::text::Text;
use std::alloc::{AllocError, Global};

/// Where the description of a listed dataset is.
#[derive(Drop)]
pub enum Found {
    /// In the catalogue's document, which gives this.
    Here(Reading),
    /// In a document of its own, at the dataset's IRI.
    Elsewhere,
}

impl TryClone for Found {
    fn try_clone(&self, alloc: Global) -> Result<Found, AllocError> {
        match self {
            Found::Here(reading) => Ok(Found::Here(reading.try_clone(alloc)?)),
            Found::Elsewhere => Ok(Found::Elsewhere),
        }
    }
}

/// A dataset that a catalogue lists.
#[derive(Drop)]
pub struct Item {
    pub iri: Text,
    pub found: Found,
}

impl TryClone for Item {
    fn try_clone(&self, alloc: Global) -> Result<Item, AllocError> {
        Ok(Item {
            iri: self.iri.try_clone(alloc)?,
            found: self.found.try_clone(alloc)?,
        })
    }
}

/// A step of a harvest. `job` is the id of a job.
#[derive(Drop)]
pub enum Step {
    /// Begins a round: what earlier rounds left undone waits again.
    NewRound,
    /// Begins the first new job.
    Begin,
    /// What the catalogue of the job lists, and how many objects of it have no IRI.
    List(Text, Seq<Item>, u64),
    /// The catalogue of the job can't be read.
    Break(Text, Cause),
    /// Claims the first waiting object.
    Claim,
    /// What was read of an object, by the job and the IRI.
    Settle(Text, Text, Reading),
    /// Ends the job, all of whose objects are done.
    End(Text),
}

/// The answer to a step.
#[derive(Drop)]
pub enum StepReply {
    /// The jobs of the round that begins.
    Started(Seq<Text>),
    /// The job that began, and where its catalogue is.
    Gather(Text, Text),
    /// The job of the object that was claimed, and the object.
    Object(Text, Item),
    /// No job is new, or no object waits.
    Nothing,
    Done,
    /// The job ended with this report.
    Ended(SourceReport),
    /// The job or the object isn't as the step needs it, and nothing changes.
    Already,
}

impl StepReply {
    ghost use Rattle.std.specs.Prelude.{◌≡◌};
    ghost use Rattle.harvest_sources.specs.Steps.{is_accepted};

    /// Whether the step was accepted as a change: there was something to do, and it wasn't done already.
    pub fn is_accepted(&self) -> bool
        ensures { result ≡ is_accepted self.now }
    {
        match self {
            StepReply::Nothing => false,
            StepReply::Already => false,
            _ => true,
        }
    }
}

/// What a step does to the datasets of the source.
#[derive(Clone, Copy)]
pub enum Effect {
    /// Nothing.
    Plain,
    Added,
    Updated,
    Unchanged,
    /// So many are deleted.
    Deleted(u64),
}
