//! The changes of the rows of sources and of their jobs, and of the datasets that go with a source.
ghost use Rattle.std.specs.Prelude.{◌≡◌, ◌<◌, ◌^◌, ◌++◌, ◌+◌, ◌∷◌, [], IfOk, OnOk, map};
ghost use Rattle.harvest_rows.specs.Rows.{job_row, source_row};
ghost use Rattle.harvest_stages.specs.Stages.{sources_in};
ghost use Rattle.packages.specs.Shelf.{datasets_of};
ghost use Rattle.portal_state.specs.ChangedRows.{IsTypedSourceChange, changes_of_harvests, changes_of_new_job};
ghost use Rattle.portal_state.specs.ChangedRows.{changes_of_source, changes_of_sources, changes_of_texts};
ghost use Rattle.portal_state.specs.ChangedRows.{removal_of_dataset, removal_of_job, removals_of_source};
ghost use Rattle.portal_state.specs.EntriesOf.{datasets_gone};
ghost use Rattle.portal_state.specs.Parts.{AreGoneByName};

use crate::harvest::ids_gone;
use crate::row_changes::harvests::push_gone;
use crate::row_changes::push_between;
use harvest_rows::jobs::job_row;
use harvest_rows::sources::source_row;
use harvest_sources::{HarvestSource, Job, SourceChange, SourceJobs, job_id};
use harvest_stages::Stages;
use packages::shelf::Shelf;
use portal_base::copy::TryClone;
use portal_base::moment::Moment;
use portal_base::text::Text;
use portal_keeper::change::Change;
use portal_keeper::row::{KeptRow, RowKind};
use std::alloc::{AllocError, Global};

/// Adds the changes of rows for a change of the sources: those of the datasets that go with a source, and then those of
/// sources and jobs.
pub(crate) fn push_changes(
    alloc: Global,
    changes: &mut Vec<Change>,
    shelf: &Shelf,
    stages: &Stages,
    change: &SourceChange,
) -> Result<(), AllocError>
    requires by_name { AreGoneByName change.now (datasets_of shelf.now) }
    ensures changes { OnOk result (changes.new.items ≡ changes.old.items
        ++ changes_of_harvests change.now (sources_in stages.now) (datasets_of shelf.now)) }
    ensures typed { OnOk result (IsTypedSourceChange change.now (sources_in stages.now)) }
{
    push_datasets(alloc, changes, shelf, change)?;
    push_source_changes(alloc, changes, stages, change)
}

/// Adds the removals of the rows of the datasets that go with a source.
fn push_datasets(
    alloc: Global,
    changes: &mut Vec<Change>,
    shelf: &Shelf,
    change: &SourceChange,
) -> Result<(), AllocError>
    requires { AreGoneByName change.now (datasets_of shelf.now) }
    ensures { OnOk result (changes.new.items
        ≡ changes.old.items ++ map removal_of_dataset (datasets_gone change.now (datasets_of shelf.now))) }
{
    let ids = ids_gone(alloc, shelf, change)?;
    push_gone(alloc, changes, ids.as_slice())
}

/// Adds the changes of the rows of sources and jobs for a change of the sources.
fn push_source_changes(
    alloc: Global,
    changes: &mut Vec<Change>,
    stages: &Stages,
    change: &SourceChange,
) -> Result<(), AllocError>
    ensures changes { OnOk result
        (changes.new.items ≡ changes.old.items ++ changes_of_sources change.now (sources_in stages.now)) }
    ensures typed { OnOk result (IsTypedSourceChange change.now (sources_in stages.now)) }
{
    match change {
        SourceChange::Create(source) => push_source(alloc, changes, source),
        SourceChange::Update(name, title, url) => match stages.source(name) {
            Some(source) => push_texts(alloc, changes, source.source(), title, url),
            None => Ok(()),
        },
        SourceChange::Remove(name) => match stages.source(name) {
            Some(source) => push_removals(alloc, changes, source),
            None => Ok(()),
        },
        SourceChange::AddJob(name, created) => match stages.source(name) {
            Some(source) => push_new_job(alloc, changes, source, *created),
            None => Ok(()),
        },
    }
}

/// Adds the change that puts the row of a new source.
fn push_source(
    alloc: Global,
    changes: &mut Vec<Change>,
    source: &HarvestSource,
) -> Result<(), AllocError>
    ensures { OnOk result (changes.new.items ≡ changes.old.items ++ Change.Put (source_row source.now) ∷ []) }
{
    let row = source_row(alloc, source)?;
    changes.push(Change::Put(row))?;
    Ok(())
}

/// Adds what changes in the row of a source that gets this title and this location.
fn push_texts(
    alloc: Global,
    changes: &mut Vec<Change>,
    source: &HarvestSource,
    title: &Text,
    url: &Text,
) -> Result<(), AllocError>
    ensures { OnOk result (changes.new.items
        ≡ changes.old.items ++ changes_of_texts title.now url.now source.now) }
{
    let after = with_texts(alloc, source, title, url)?;
    push_change(alloc, changes, source, &after)
}

/// Adds what changes in the row of a source that becomes another one of the same name.
fn push_change(
    alloc: Global,
    changes: &mut Vec<Change>,
    before: &HarvestSource,
    after: &HarvestSource,
) -> Result<(), AllocError>
    ensures { OnOk result (changes.new.items
        ≡ changes.old.items ++ changes_of_source before.now after.now) }
{
    let before = source_row(alloc, before)?.body;
    let KeptRow { kind, key, body } = source_row(alloc, after)?;
    push_between(changes, kind, key, Some(before), Some(body))
}

/// The source with this title and this location.
fn with_texts(
    alloc: Global,
    source: &HarvestSource,
    title: &Text,
    url: &Text,
) -> Result<HarvestSource, AllocError>
    ensures { IfOk result (λ new. new ≡ record source.now { title = title.now; url = url.now }) }
{
    let mut copy = source.try_clone(alloc)?;
    copy.title = title.try_clone(alloc)?;
    copy.url = url.try_clone(alloc)?;
    Ok(copy)
}

/// Adds the removals of the rows of a source's jobs, and then of its own.
fn push_removals(
    alloc: Global,
    changes: &mut Vec<Change>,
    source: &SourceJobs,
) -> Result<(), AllocError>
    ensures { OnOk result (changes.new.items ≡ changes.old.items ++ removals_of_source source.now.state) }
{
    push_job_removals(alloc, changes, source.jobs())?;
    let name = source.source().name.try_clone(alloc)?;
    changes.push(Change::Remove(RowKind::Source, name))?;
    Ok(())
}

/// Adds the removals of the rows of these jobs.
fn push_job_removals(
    alloc: Global,
    changes: &mut Vec<Change>,
    jobs: &[Job],
) -> Result<(), AllocError>
    ensures { OnOk result (changes.new.items ≡ changes.old.items ++ map removal_of_job jobs.now) }
{
    for job in jobs {
        let id = job_id(alloc, job.source.as_str(), job.number)?;
        changes.push(Change::Remove(RowKind::Job, id))?;
    }
    Ok(())
}

/// Adds what changes in the row of a source that gives its next job a number, and the change that puts the row of that job.
fn push_new_job(
    alloc: Global,
    changes: &mut Vec<Change>,
    source: &SourceJobs,
    created: Moment,
) -> Result<(), AllocError>
    ensures changes { OnOk result
        (changes.new.items ≡ changes.old.items ++ changes_of_new_job created source.now.state) }
    ensures number { OnOk result (source.now.state.source.next_job + 1 < 2 ^ 64) }
{
    let numbered = with_next_job(alloc, source.source())?;
    push_change(alloc, changes, source.source(), &numbered)?;
    let job = source.next_job(alloc, created)?;
    push_job(alloc, changes, &job)
}

/// Adds the change that puts the row of a new job.
fn push_job(alloc: Global, changes: &mut Vec<Change>, job: &Job) -> Result<(), AllocError>
    ensures { OnOk result (changes.new.items ≡ changes.old.items ++ Change.Put (job_row job.now) ∷ []) }
{
    let row = job_row(alloc, job)?;
    changes.push(Change::Put(row))?;
    Ok(())
}

/// The source after its next job got a number.
fn with_next_job(alloc: Global, source: &HarvestSource) -> Result<HarvestSource, AllocError>
    ensures source { IfOk result (λ new. new ≡ record source.now { next_job = source.now.next_job + 1 }) }
    ensures number { OnOk result (source.now.next_job + 1 < 2 ^ 64) }
{
    let mut copy = source.try_clone(alloc)?;
    copy.next_job = copy.next_job.checked_add(1).ok_or(AllocError)?;
    Ok(copy)
}
