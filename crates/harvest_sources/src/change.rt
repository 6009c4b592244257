//! Changes of sources.

use crate::source::HarvestSource;
use portal_base::moment::Moment;
use portal_base::text::Text;

/// A change of a source, or a new job for it.
#[derive(Drop)]
pub enum SourceChange {
    Create(HarvestSource),
    /// The source of that name gets this title and this location.
    Update(Text, Text, Text),
    /// The source of that name goes, with its jobs.
    Remove(Text),
    /// The source of that name gets a new job, which is made at the moment.
    AddJob(Text, Moment),
}

/// Why a change of a source isn't made.
#[derive(Clone, Copy)]
pub enum StageFault {
    /// A source has the name of the new one.
    SourceNameInUse,
    /// No source has that name.
    UnknownSource,
    /// A job of the source is new or running.
    NotFinished,
    OutOfMemory,
}
