//! What the rows of sources and jobs in a store are rows of, which is read from all of them.
ghost use Rattle.std.specs.Prelude.{◌≡◌, ◌↔◌, IfOk, List, Some};
ghost use Rattle.std.specs.List.{AllZip};
ghost use Rattle.harvest_sources.specs.declared.job.Job.{Job};
ghost use Rattle.harvest_sources.specs.declared.source.HarvestSource.{HarvestSource};
ghost use Rattle.portal_keeper.specs.Rows.{AreInOrder};
ghost use Rattle.harvest_rows.specs.KeptHarvests.{AreHarvestRows};
ghost use Rattle.harvest_rows.specs.Rows.{IsJobRow, IsSourceRow};
ghost use Rattle.harvest_rows.specs.declared.kept_harvests.KeptHarvests.{KeptHarvests};

use crate::job_reading::read_job;
use crate::kept_parts::{are_in_order, split_after};
use crate::source_reading::read_source;
use harvest_sources::{HarvestSource, Job};
use portal_base::seq::Seq;
use portal_keeper::row::{KeptRow, RowKind};
use std::alloc::{AllocError, Global};

/// What the rows of sources and jobs in a store are rows of.
#[derive(Drop)]
pub struct KeptHarvests {
    /// The sources, in the order of their names.
    pub sources: Seq<HarvestSource>,
    /// The jobs, in the order of the bytes of their ids.
    pub jobs: Seq<Job>,
}

/// Reads all rows of sources and jobs. The result is some values exactly if the rows are those of these values. So it
/// is none if the rows are out of order, or if one of them is the row of no source and of no job.
pub fn read_rows(alloc: Global, rows: &[KeptRow]) -> Result<Option<KeptHarvests>, AllocError>
    ensures { IfOk result (λ found. (kept : KeptHarvests) → (found ≡ Some kept) ↔ AreHarvestRows kept rows.now) }
{
    if are_in_order(rows) {
        read_in_order(alloc, rows)
    } else {
        Ok(None)
    }
}

/// Reads rows that are in order.
fn read_in_order(alloc: Global, rows: &[KeptRow]) -> Result<Option<KeptHarvests>, AllocError>
    requires { AreInOrder rows.now }
    ensures { IfOk result (λ found. (kept : KeptHarvests) → (found ≡ Some kept) ↔ AreHarvestRows kept rows.now) }
{
    let (sources, jobs) = split_after(rows, RowKind::Source);
    let Some(sources) = read_sources(alloc, sources)? else {
        return Ok(None);
    };
    match read_jobs(alloc, jobs)? {
        Some(jobs) => Ok(Some(KeptHarvests { sources, jobs })),
        None => Ok(None),
    }
}

/// Reads the rows of sources.
fn read_sources(alloc: Global, rows: &[KeptRow]) -> Result<Option<Seq<HarvestSource>>, AllocError>
    ensures { IfOk result (λ found. (sources : List HarvestSource) →
        (found ≡ Some sources) ↔ AllZip IsSourceRow sources rows.now) }
{
    let mut sources = Vec::with_capacity(alloc, rows.len())?;
    for row in rows {
        let Some(source) = read_source(alloc, row)? else {
            return Ok(None);
        };
        sources.push(source)?;
    }
    Ok(Some(Seq::from(sources)))
}

/// Reads the rows of jobs.
fn read_jobs(alloc: Global, rows: &[KeptRow]) -> Result<Option<Seq<Job>>, AllocError>
    ensures { IfOk result (λ found. (jobs : List Job) → (found ≡ Some jobs) ↔ AllZip IsJobRow jobs rows.now) }
{
    let mut jobs = Vec::with_capacity(alloc, rows.len())?;
    for row in rows {
        let Some(job) = read_job(alloc, row)? else {
            return Ok(None);
        };
        jobs.push(job)?;
    }
    Ok(Some(Seq::from(jobs)))
}
