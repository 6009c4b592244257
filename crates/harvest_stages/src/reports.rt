//! Reports on jobs.
ghost use Rattle.std.specs.Prelude.{◌≡◌, IfOk};
ghost use Rattle.harvest_stages.specs.Stages.{last_report, report_in, sources_in};

use crate::places::find_source;
use crate::stages::Stages;
use harvest_sources::{SourceJobs, SourceReport};
use portal_base::copy::TryClone;
use portal_base::text::Text;
use std::alloc::{AllocError, Global};

impl Stages {
    /// The report on the last job of the source. The result is None exactly if there is no such source, or it has no job.
    pub fn report(&self, alloc: Global, source: &Text) -> Result<Option<SourceReport>, AllocError>
        ensures { IfOk result (λ report. report ≡ last_report source.now (sources_in self.now)) }
    {
        match find_source(self.sources.as_slice(), source) {
            Some(source) => report_of(alloc, source),
            None => Ok(None),
        }
    }
}

/// The report on the last job of the source, if it has one.
fn report_of(alloc: Global, source: &SourceJobs) -> Result<Option<SourceReport>, AllocError>
    ensures { IfOk result (λ report. report ≡ report_in source.now.state) }
{
    match source.last_job() {
        Some(job) => Ok(Some(job.report.try_clone(alloc)?)),
        None => Ok(None),
    }
}
