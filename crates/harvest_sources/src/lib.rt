//! The sources of harvests, their jobs, and the steps of a harvest.
#![tactic(auto)]

mod cause;
mod change;
mod job;
mod job_ids;
mod list;
mod listing;
mod objects;
mod order;
mod reading;
mod reports;
mod source;
mod source_jobs;
mod step;

pub use cause::Cause;
pub use change::{SourceChange, StageFault};
pub use job::{Job, JobState, SourceReport};
pub use job_ids::{is_job_id, job_id, split_job_id};
pub use list::listing_of;
pub use listing::{ListedObject, Listing, Outcome, Progress};
pub use reading::Reading;
pub use reports::report_json;
pub use source::HarvestSource;
pub use source_jobs::SourceJobs;
pub use step::{Effect, Found, Item, Step, StepReply};
