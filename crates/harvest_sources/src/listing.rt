//! What the catalogue of a running job lists.
ghost use Rattle.std.specs.Prelude.{◌≡◌, option_and_then, option_copied};
ghost use Rattle.harvest_sources.specs.Listings.{came_to, cause_of, claimed_progress, is_added, is_done, is_unchanged};
ghost use Rattle.harvest_sources.specs.Listings.{is_updated, is_waiting, outcome_if_done, released, waits_at};

use crate::cause::Cause;
use crate::step::Found;
use portal_base::seq::Seq;
use portal_base::text::Text;

/// What an object of the catalogue came to.
#[derive(Clone, Copy)]
pub enum Outcome {
    /// Its dataset is new.
    Added,
    /// Its dataset changed.
    Updated,
    /// Its dataset is as it was.
    Unchanged,
    /// It gave no dataset.
    Bad(Cause),
}

/// How far an object is.
#[derive(Drop)]
pub enum Progress {
    /// A worker can claim it.
    Waiting(Found),
    /// A worker has claimed it.
    Claimed(Found),
    Done(Outcome),
}

/// An object that the catalogue lists.
#[derive(Drop)]
pub struct ListedObject {
    pub iri: Text,
    pub progress: Progress,
}

/// What the catalogue lists.
#[derive(Drop)]
pub struct Listing {
    /// Ascending by IRI, each IRI once.
    pub objects: Seq<ListedObject>,
    /// How many objects have no IRI.
    pub unnamed: u64,
}

impl Outcome {
    pub fn is_added(self) -> bool
        ensures { result ≡ is_added self }
    {
        matches!(self, Outcome::Added)
    }

    pub fn is_updated(self) -> bool
        ensures { result ≡ is_updated self }
    {
        matches!(self, Outcome::Updated)
    }

    pub fn is_unchanged(self) -> bool
        ensures { result ≡ is_unchanged self }
    {
        matches!(self, Outcome::Unchanged)
    }

    /// Why the object gave no dataset, if it gave none.
    pub fn cause(self) -> Option<Cause>
        ensures { result ≡ cause_of self }
    {
        match self {
            Outcome::Added | Outcome::Updated | Outcome::Unchanged => None,
            Outcome::Bad(cause) => Some(cause),
        }
    }
}

impl Progress {
    /// Where the object is described, if it waits.
    pub fn waiting(&self) -> Option<&Found>
        ensures { option_copied result ≡ waits_at self.now }
    {
        match self {
            Progress::Waiting(found) => Some(found),
            Progress::Claimed(_) | Progress::Done(_) => None,
        }
    }

    /// What the object came to, if it is done.
    pub fn outcome(&self) -> Option<Outcome>
        ensures { result ≡ outcome_if_done self.now }
    {
        match self {
            Progress::Waiting(_) | Progress::Claimed(_) => None,
            Progress::Done(outcome) => Some(*outcome),
        }
    }

    /// The progress after a claim: a waiting object is claimed.
    pub(crate) fn claimed(self) -> Progress
        ensures { result ≡ claimed_progress self }
    {
        match self {
            Progress::Waiting(found) => Progress::Claimed(found),
            other => other,
        }
    }

    /// The progress in a new round: a claimed object waits again.
    pub(crate) fn released(self) -> Progress
        ensures { result ≡ released self }
    {
        match self {
            Progress::Claimed(found) => Progress::Waiting(found),
            other => other,
        }
    }
}

impl ListedObject {
    /// Whether a worker can claim it.
    pub fn is_waiting(&self) -> bool
        ensures { result ≡ is_waiting self.now }
    {
        self.progress.waiting().is_some()
    }

    pub fn is_done(&self) -> bool
        ensures { result ≡ is_done self.now }
    {
        self.progress.outcome().is_some()
    }

    /// Whether it is done and its dataset is new.
    pub fn is_added(&self) -> bool
        ensures { result ≡ came_to is_added self.now }
    {
        match self.progress.outcome() {
            Some(outcome) => outcome.is_added(),
            None => false,
        }
    }

    /// Whether it is done and its dataset changed.
    pub fn is_updated(&self) -> bool
        ensures { result ≡ came_to is_updated self.now }
    {
        match self.progress.outcome() {
            Some(outcome) => outcome.is_updated(),
            None => false,
        }
    }

    /// Whether it is done and its dataset is as it was.
    pub fn is_unchanged(&self) -> bool
        ensures { result ≡ came_to is_unchanged self.now }
    {
        match self.progress.outcome() {
            Some(outcome) => outcome.is_unchanged(),
            None => false,
        }
    }

    /// Why it gave no dataset, if it is done and gave none.
    pub fn cause(&self) -> Option<Cause>
        ensures { result ≡ option_and_then cause_of (outcome_if_done self.now.progress) }
    {
        match self.progress.outcome() {
            Some(outcome) => outcome.cause(),
            None => None,
        }
    }
}
