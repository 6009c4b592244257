//! The sources of a portal with their jobs as one value, which changes and steps of harvests change.
#![tactic(auto)]

mod changes;
mod commits;
mod groups;
pub mod laws;
mod located;
mod places;
mod prepared;
mod reports;
mod restored;
mod source_steps;
mod stages;
mod step_commits;
mod steps;

pub use changes::PreparedSource;
pub use harvest_sources::{
    Cause, Effect, Found, HarvestSource, Item, Job, JobState, Reading, SourceChange, SourceJobs,
    SourceReport, StageFault, Step, StepReply,
};
pub use prepared::PreparedStep;
pub use stages::Stages;
