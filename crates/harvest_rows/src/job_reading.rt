//! Harvest jobs that are read from their rows.
ghost use Rattle.std.specs.Prelude.{◌≡◌, ◌↔◌, IfOk, MatchOption, Some};
ghost use Rattle.harvest_sources.specs.declared.job.Job.{Job};
ghost use Rattle.harvest_rows.specs.Readings.{job_in, job_read, job_with, number_in_id};
ghost use Rattle.harvest_rows.specs.Rows.{IsJobBody, IsJobRow, IsWrittenAs};

use crate::body::json_read;
use crate::jobs::job_row;
use crate::keys::moment_of;
use crate::numbers::{bytes_from, number_spelled};
use crate::report_reading::report_in;
use harvest_sources::{Job, SourceReport};
use portal_base::copy::TryClone;
use portal_base::json_value::Json;
use portal_base::text::Text;
use portal_keeper::row::{KeptRow, RowKind};
use std::alloc::{AllocError, Global};

/// Reads the row of a job. The result is some job exactly if the row is the row of this job, which isn't running.
/// So it is none exactly if the row is the row of no job.
pub fn read_job(alloc: Global, row: &KeptRow) -> Result<Option<Job>, AllocError>
    ensures { IfOk result (λ found. (job : Job) → (found ≡ Some job) ↔ IsJobRow job row.now) }
{
    match row.kind {
        RowKind::Job => read_body(alloc, &row.key, &row.body),
        _ => Ok(None),
    }
}

/// Reads the body of the row of the job of that id.
fn read_body(alloc: Global, id: &Text, body: &Text) -> Result<Option<Job>, AllocError>
    ensures { IfOk result (λ found. (job : Job) → (found ≡ Some job) ↔ IsJobBody job id.now body.now) }
{
    match job_read(alloc, id, body)? {
        Some(job) => job_if_written(alloc, id, body, job),
        None => Ok(None),
    }
}

/// The job, if the key and the body are those of its row.
fn job_if_written(
    alloc: Global,
    id: &Text,
    body: &Text,
    job: Job,
) -> Result<Option<Job>, AllocError>
    ensures { IfOk result (λ found. MatchOption found
        (¬ IsWrittenAs job id.now body.now)
        (λ same. (same ≡ job) × IsWrittenAs job id.now body.now)) }
{
    let row = job_row(alloc, &job)?;
    if row.key == *id && *body == row.body {
        Ok(Some(job))
    } else {
        Ok(None)
    }
}

/// The job of that id which the body is read as, if the body is JSON and has a report.
fn job_read(alloc: Global, id: &Text, body: &Text) -> Result<Option<Job>, AllocError>
    ensures { IfOk result (λ found. found ≡ job_read id.now body.now) }
{
    match json_read(alloc, body)? {
        Some(value) => job_in(alloc, id, &value),
        None => Ok(None),
    }
}

/// The job of that id which the value is read as, if the value has a report.
fn job_in(alloc: Global, id: &Text, value: &Json) -> Result<Option<Job>, AllocError>
    ensures { IfOk result (λ found. found ≡ job_in id.now value.now) }
{
    match value.get("stats") {
        Some(stats) => {
            let report = report_in(alloc, stats)?;
            Ok(Some(job_with(alloc, id, value, report)?))
        }
        None => Ok(None),
    }
}

/// The job of that id with this report.
fn job_with(alloc: Global, id: &Text, value: &Json, report: SourceReport) -> Result<Job, AllocError>
    ensures { IfOk result (λ job. job ≡ job_with id.now value.now report) }
{
    Ok(Job {
        source: report.source.try_clone(alloc)?,
        number: number_in_id(&report.source, id),
        created: moment_of(value, "created"),
        report,
    })
}

/// The number in the id of a job of the source.
fn number_in_id(source: &Text, id: &Text) -> u64
    ensures { result ≡ number_in_id source.now id.now }
{
    let after_source = bytes_from(id.as_bytes(), source.len());
    number_spelled(bytes_from(after_source, 1))
}
