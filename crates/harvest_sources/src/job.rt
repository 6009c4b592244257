//! The jobs of a source, each of which harvests its catalogue once.
ghost use Rattle.std.specs.Prelude.{◌≡◌, IfOk};
ghost use Rattle.harvest_sources.specs.Jobs.{is_open, is_open_state, is_new, is_running};

use crate::cause::Cause;
use portal_base::copy::TryClone;
use portal_base::moment::Moment;
use portal_base::seq::Seq;
use portal_base::text::Text;
use std::alloc::{AllocError, Global};

/// How far a job is.
#[derive(Clone, Copy)]
pub enum JobState {
    /// It waits for a round.
    New,
    Running,
    Finished,
    /// The catalogue couldn't be read, for this cause.
    Broken(Cause),
}

impl JobState {
    ghost use Rattle.harvest_sources.specs.ReportJson.{state_name};

    /// Its name in replies and in stored rows.
    pub fn name(self) -> &'static str
        ensures { result.now ≡ state_name self }
    {
        match self {
            JobState::New => "New",
            JobState::Running => "Running",
            JobState::Finished => "Finished",
            JobState::Broken(_) => "Broken",
        }
    }
}

/// What a job has done: zeros before its end.
#[derive(Drop)]
pub struct SourceReport {
    /// The name of the job's source.
    pub source: Text,
    pub state: JobState,
    /// Datasets under names that the source didn't have.
    pub added: u64,
    /// Datasets of the source that changed.
    pub updated: u64,
    /// Datasets of the source that the catalogue gives as they were.
    pub unchanged: u64,
    /// Datasets of the source whose IRIs the catalogue no longer lists.
    pub deleted: u64,
    /// Objects of the catalogue that have no IRI.
    pub unnamed: u64,
    /// The listed IRIs that gave no dataset, ascending by bytes, each with its cause.
    pub bad: Seq<(Text, Cause)>,
}

impl TryClone for SourceReport {
    fn try_clone(&self, alloc: Global) -> Result<SourceReport, AllocError> {
        Ok(SourceReport {
            source: self.source.try_clone(alloc)?,
            bad: copied_causes(alloc, &self.bad)?,
            state: self.state,
            added: self.added,
            updated: self.updated,
            unchanged: self.unchanged,
            deleted: self.deleted,
            unnamed: self.unnamed,
        })
    }
}

// The IRIs with their causes, copied.
fn copied_causes(alloc: Global, from: &Seq<(Text, Cause)>) -> Result<Seq<(Text, Cause)>, AllocError>
    ensures { IfOk result (λ copy. copy ≡ from.now) }
{
    let mut copy = Vec::new(alloc);
    for (iri, cause) in from.as_slice() {
        copy.push((iri.try_clone(alloc)?, *cause))?;
    }
    Ok(Seq::from(copy))
}

/// A job. Its id is its source's name, a dot, and its number.
#[derive(Drop)]
pub struct Job {
    /// The name of its source.
    pub source: Text,
    /// From 1, and different for each job of the source.
    pub number: u64,
    pub created: Moment,
    pub report: SourceReport,
}

impl JobState {
    /// Whether a job in this state hasn't ended.
    pub fn is_open(self) -> bool
        ensures { result ≡ is_open_state self }
    {
        match self {
            JobState::New | JobState::Running => true,
            JobState::Finished | JobState::Broken(_) => false,
        }
    }
}

impl Job {
    /// Whether it hasn't ended.
    pub fn is_open(&self) -> bool
        ensures { result ≡ is_open self.now }
    {
        self.report.state.is_open()
    }

    pub fn is_new(&self) -> bool
        ensures { result ≡ is_new self.now }
    {
        match self.report.state {
            JobState::New => true,
            JobState::Running | JobState::Finished | JobState::Broken(_) => false,
        }
    }

    pub fn is_running(&self) -> bool
        ensures { result ≡ is_running self.now }
    {
        match self.report.state {
            JobState::Running => true,
            JobState::New | JobState::Finished | JobState::Broken(_) => false,
        }
    }
}

impl TryClone for Job {
    fn try_clone(&self, alloc: Global) -> Result<Job, AllocError> {
        Ok(Job {
            source: self.source.try_clone(alloc)?,
            number: self.number,
            created: self.created,
            report: self.report.try_clone(alloc)?,
        })
    }
}
