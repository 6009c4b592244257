//! The changes of rows for a step of a harvest: in those of datasets, and in that of a job that ends.
ghost use Rattle.std.specs.Prelude.{◌≡◌, ◌++◌, [], Some, IfOk, IfSome, IsTrue, OnOk, map};
ghost use Rattle.std.specs.Option.{option_copied, option_map_or};
ghost use Rattle.harvest_rows.specs.Rows.{job_row};
ghost use Rattle.harvest_sources.specs.Jobs.{id_of_job, with_report};
ghost use Rattle.harvest_sources.specs.Sources.{source_named};
ghost use Rattle.harvest_sources.specs.Steps.{is_accepted};
ghost use Rattle.harvest_stages.specs.Stages.{sources_in};
ghost use Rattle.packages.specs.Order.{dataset_cmp};
ghost use Rattle.packages.specs.Shelf.{datasets_of};
ghost use Rattle.portal_base.specs.Ordered.{IsAscending};
ghost use Rattle.portal_state.specs.ChangedRows.{changes_between, changes_if_open, changes_of_put, changes_of_reply};
ghost use Rattle.portal_state.specs.ChangedRows.{changes_of_report, changes_of_step, removal_at_id};
ghost use Rattle.portal_state.specs.Harvest.{harvest_change, state_after_step};
ghost use Rattle.portal_state.specs.KeptRows.{IsSized};
ghost use Rattle.portal_state.specs.Parts.{IsConsistent, IsPlaced, state_of};
ghost use Rattle.portal_state.specs.RowChanges.{step_row_changes};

use crate::parts::Parts;
use crate::row_changes::datasets::{push_put, push_removal};
use crate::row_changes::push_between;
use harvest_rows::jobs::job_row;
use harvest_sources::{Job, SourceReport, Step, StepReply};
use harvest_stages::Stages;
use packages::package::Package;
use packages::shelf::Shelf;
use portal_base::copy::TryClone;
use portal_base::seq::Seq;
use portal_base::text::Text;
use portal_keeper::change::Change;
use portal_keeper::row::{KeptRow, RowKind};
use std::alloc::{AllocError, Global};

impl Parts {
    /// The changes of the store's rows for an accepted step of a harvest, before it is made: those that change something, in
    /// the order of the step's entries. The step gets this answer, and drops the datasets with these ids. The put of this dataset,
    /// or of none, changes the same rows as the step's own put.
    pub(crate) fn step_row_changes(
        &self,
        alloc: Global,
        step: &Step,
        reply: &StepReply,
        put: Option<&Package>,
        gone: &Seq<Text>,
    ) -> Result<Seq<Change>, AllocError>
        requires consistent { IsConsistent self.now }
        requires sized { IsSized (state_of self.now) }
        requires accepted { IsTrue (is_accepted reply.now) }
        requires reply { reply.now ≡ (harvest_change step.now (state_of self.now)).reply }
        requires put { changes_of_put (option_copied put) (datasets_of self.now.shelf)
            ≡ changes_of_put (harvest_change step.now (state_of self.now)).put (datasets_of self.now.shelf) }
        requires placed { IfSome put (λ d. IsPlaced d.now.id self.now.shelf) }
        requires gone { gone.now ≡ map (λ d. d.id) (harvest_change step.now (state_of self.now)).gone }
        ensures changes { IfOk result (λ changes. changes ≡ step_row_changes step.now (state_of self.now)) }
        ensures sized { OnOk result (IsSized (state_after_step step.now (state_of self.now))) }
    {
        let mut changes = Vec::new(alloc);
        self.push_step_changes(alloc, &mut changes, reply, put, gone)?;
        Ok(Seq::from(changes))
    }

    /// Adds the changes of rows for a step that gets this answer, puts this dataset, and drops those with these ids.
    fn push_step_changes(
        &self,
        alloc: Global,
        changes: &mut Vec<Change>,
        reply: &StepReply,
        put: Option<&Package>,
        gone: &Seq<Text>,
    ) -> Result<(), AllocError>
        requires ascending { IsAscending dataset_cmp (datasets_of self.now.shelf) }
        requires placed { IfSome put (λ d. IsPlaced d.now.id self.now.shelf) }
        ensures { OnOk result (changes.new.items ≡ changes.old.items
            ++ changes_of_step (option_copied put.entry) gone.now reply.now (sources_in self.now.sources)
            (datasets_of self.now.shelf)) }
    {
        push_put_if(alloc, changes, &self.shelf, put)?;
        push_gone(alloc, changes, gone.as_slice())?;
        push_reply(alloc, changes, &self.sources, reply)
    }
}

/// Adds what changes in the row of a dataset that is put, if one is.
fn push_put_if(
    alloc: Global,
    changes: &mut Vec<Change>,
    shelf: &Shelf,
    put: Option<&Package>,
) -> Result<(), AllocError>
    requires ascending { IsAscending dataset_cmp (datasets_of shelf.now) }
    requires placed { IfSome put (λ d. IsPlaced d.now.id shelf.now) }
    ensures { OnOk result (changes.new.items
        ≡ changes.old.items ++ changes_of_put (option_copied put.entry) (datasets_of shelf.now)) }
{
    match put {
        Some(dataset) => push_put(alloc, changes, shelf, dataset),
        None => Ok(()),
    }
}

/// Adds the removals of the rows of the datasets with these ids.
pub(crate) fn push_gone(
    alloc: Global,
    changes: &mut Vec<Change>,
    ids: &[Text],
) -> Result<(), AllocError>
    ensures { OnOk result (changes.new.items ≡ changes.old.items ++ map removal_at_id ids.now) }
{
    for id in ids {
        push_removal(alloc, changes, id)?;
    }
    Ok(())
}

/// Adds what changes in the row of the job that a step with this answer ends.
fn push_reply(
    alloc: Global,
    changes: &mut Vec<Change>,
    stages: &Stages,
    reply: &StepReply,
) -> Result<(), AllocError>
    ensures { OnOk result (changes.new.items
        ≡ changes.old.items ++ changes_of_reply reply.now (sources_in stages.now)) }
{
    match reply {
        StepReply::Ended(report) => push_ended(alloc, changes, stages, report),
        StepReply::Started(_)
        | StepReply::Gather(_, _)
        | StepReply::Object(_, _)
        | StepReply::Nothing
        | StepReply::Done
        | StepReply::Already => Ok(()),
    }
}

/// Adds what changes in the row of the open job of the report's source, which gets this report.
fn push_ended(
    alloc: Global,
    changes: &mut Vec<Change>,
    stages: &Stages,
    report: &SourceReport,
) -> Result<(), AllocError>
    ensures { OnOk result (changes.new.items ≡ changes.old.items
        ++ changes_if_open report.now (source_named (sources_in stages.now) report.now.source)) }
{
    match stages.source(&report.source) {
        Some(source) => push_report_if(alloc, changes, source.open_job(), report),
        None => Ok(()),
    }
}

/// Adds what changes in the row of a job that gets this report, if there is one.
fn push_report_if(
    alloc: Global,
    changes: &mut Vec<Change>,
    job: Option<&Job>,
    report: &SourceReport,
) -> Result<(), AllocError>
    ensures { OnOk result (changes.new.items
        ≡ changes.old.items ++ option_map_or (changes_of_report report.now) (option_copied job.entry) []) }
{
    match job {
        Some(job) => push_report(alloc, changes, job, report),
        None => Ok(()),
    }
}

/// Adds what changes in the row of a job that gets this report.
fn push_report(
    alloc: Global,
    changes: &mut Vec<Change>,
    job: &Job,
    report: &SourceReport,
) -> Result<(), AllocError>
    ensures { OnOk result (changes.new.items ≡ changes.old.items ++ changes_of_report report.now job.now) }
{
    let after = with_report(alloc, job, report)?;
    push_change(alloc, changes, job, &after)
}

/// Adds what changes in the row of a job that becomes another one of the same id.
fn push_change(
    alloc: Global,
    changes: &mut Vec<Change>,
    before: &Job,
    after: &Job,
) -> Result<(), AllocError>
    ensures { OnOk result (changes.new.items ≡ changes.old.items
        ++ changes_between RowKind.Job (id_of_job after.now) (Some (job_row before.now).body)
        (Some (job_row after.now).body)) }
{
    let before = job_row(alloc, before)?.body;
    let KeptRow { kind, key, body } = job_row(alloc, after)?;
    push_between(changes, kind, key, Some(before), Some(body))
}

/// The job with this report.
fn with_report(alloc: Global, job: &Job, report: &SourceReport) -> Result<Job, AllocError>
    ensures { IfOk result (λ new. new ≡ with_report report.now job.now) }
{
    Ok(Job {
        source: job.source.try_clone(alloc)?,
        report: report.try_clone(alloc)?,
        number: job.number,
        created: job.created,
    })
}
