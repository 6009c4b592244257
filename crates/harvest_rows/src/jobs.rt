//! The rows of harvest jobs.
ghost use Rattle.std.specs.Prelude.{◌≡◌, IfOk};
ghost use Rattle.harvest_sources.specs.Jobs.{blank_report};
ghost use Rattle.harvest_sources.specs.declared.job.JobState.TheVariants.{New};
ghost use Rattle.harvest_rows.specs.Rows.{job_row, job_value, kept_report};

use harvest_sources::{Job, JobState, SourceReport, job_id, report_json};
use portal_base::copy::TryClone;
use portal_base::dictionary::Value;
use portal_base::json_value::Json;
use portal_base::moment::Moment;
use portal_base::seq::Seq;
use portal_base::text::Text;
use portal_keeper::row::{KeptRow, RowKind};
use std::alloc::{AllocError, Global};

/// The row of a job. Its key is the job's id. The row of a running job is that of a new one.
pub fn job_row(alloc: Global, job: &Job) -> Result<KeptRow, AllocError>
    ensures { IfOk result (λ row. row ≡ job_row job.now) }
{
    let value = kept_json(alloc, job)?;
    let body = value.text(alloc)?;
    let key = job_id(alloc, job.source.as_str(), job.number)?;
    Ok(KeptRow {
        kind: RowKind::Job,
        key,
        body,
    })
}

/// The body of a job's row.
fn kept_json(alloc: Global, job: &Job) -> Result<Json, AllocError>
    ensures { IfOk result (λ value. value ≡ job_value job.now.created (kept_report job.now)) }
{
    match job.report.state {
        JobState::Running => new_json(alloc, job),
        JobState::New | JobState::Finished | JobState::Broken(_) => {
            job_json(alloc, job.created, &job.report)
        }
    }
}

/// The body of the row of a job that has done nothing.
fn new_json(alloc: Global, job: &Job) -> Result<Json, AllocError>
    ensures { IfOk result (λ value. value ≡ job_value job.now.created (blank_report job.now.source New)) }
{
    let report = new_report(alloc, &job.source)?;
    job_json(alloc, job.created, &report)
}

/// The report on a new job of the source.
fn new_report(alloc: Global, source: &Text) -> Result<SourceReport, AllocError>
    ensures { IfOk result (λ report. report ≡ blank_report source.now New) }
{
    Ok(SourceReport {
        source: source.try_clone(alloc)?,
        state: JobState::New,
        added: 0,
        updated: 0,
        unchanged: 0,
        deleted: 0,
        unnamed: 0,
        bad: Seq::new(alloc),
    })
}

/// The value of a job that was created at the moment, with this report.
fn job_json(alloc: Global, created: Moment, report: &SourceReport) -> Result<Json, AllocError>
    ensures { IfOk result (λ value. value ≡ job_value created report.now) }
{
    let stats = report_json(alloc, report)?;
    Json::dictionary(
        alloc,
        [
            ("created", Value::Moment(created)),
            ("state", Value::Static(report.state.name())),
            ("stats", Value::Json(stats)),
        ],
    )
}
