//! Laws of harvests as they happen, step by step. Each function has an empty body, and its contract is the
//! law.
ghost use Rattle.std.specs.Prelude.{◌≡◌, ℕ, List, IsTrue};
ghost use Rattle.harvest_results.specs.Counts.{bad_of, counts_in, counts_of};
ghost use Rattle.harvest_results.specs.Effects.{HarvestState, after_step, change_of_step};
ghost use Rattle.harvest_results.specs.Histories.{HarvestEvent, IsHarvest, KeepsItsNames, accepts};
ghost use Rattle.harvest_results.specs.Histories.{datasets_of, last_of, reading_by};
ghost use Rattle.harvest_results.specs.Readings.{is_whole};
ghost use Rattle.harvest_results.specs.Results.{datasets_after, datasets_afresh};
ghost use Rattle.harvest_sources.specs.declared.cause.Cause.{Cause};
ghost use Rattle.harvest_sources.specs.declared.job.SourceReport.{SourceReport};
ghost use Rattle.harvest_sources.specs.declared.source.HarvestSource.{HarvestSource};
ghost use Rattle.harvest_sources.specs.declared.step.Step.TheVariants.{Begin, Break, End};
ghost use Rattle.harvest_sources.specs.declared.step.StepReply.TheVariants.{Ended};

/// Whatever happens between the beginning of a job and its end, an ended job leaves of the source's datasets
/// what the reading that it gathered leaves of those from before it began.
pub fn an_ended_job_leaves_what_its_reading_says()
    ensures { (source : HarvestSource) (id : List ℕ) (before : HarvestState)
        (history : List (HarvestEvent × HarvestState)) → IsHarvest source id before history →
        IsTrue (accepts (last_of before history) (End id)) →
        datasets_of source (after_step (End id) (last_of before history))
        ≡ datasets_after (datasets_of source before) (reading_by source id before history) }
{}

/// A job whose catalogue can't be read leaves the datasets that the source had when it began.
pub fn a_broken_job_leaves_the_datasets()
    ensures { (source : HarvestSource) (id : List ℕ) (before : HarvestState)
        (history : List (HarvestEvent × HarvestState)) (cause : Cause) → IsHarvest source id before history →
        IsTrue (accepts (last_of before history) (Break id cause)) →
        datasets_of source (after_step (Break id cause) (last_of before history))
        ≡ datasets_of source before }
{}

/// An ended job that has read everything leaves the datasets of what it read, whatever was there before.
pub fn an_ended_job_that_read_all_leaves_what_it_read()
    ensures { (source : HarvestSource) (id : List ℕ) (before : HarvestState)
        (history : List (HarvestEvent × HarvestState)) → IsHarvest source id before history →
        IsTrue (accepts (last_of before history) (End id)) →
        IsTrue (is_whole (reading_by source id before history)) →
        datasets_of source (after_step (End id) (last_of before history))
        ≡ datasets_afresh (reading_by source id before history) }
{}

/// The report of an ended job counts what the reading that it gathered changes of the datasets from before it
/// began, if no other dataset has a name that the source gives. Its bad IRIs are those of the reading.
pub fn the_report_of_an_ended_job_counts()
    ensures counts { (source : HarvestSource) (id : List ℕ) (before : HarvestState)
        (history : List (HarvestEvent × HarvestState)) (report : SourceReport) →
        IsHarvest source id before history →
        KeepsItsNames source (after_step Begin before) history →
        (change_of_step (End id) (last_of before history)).reply ≡ Ended report →
        counts_in report ≡ counts_of (datasets_of source before) (reading_by source id before history) }
    ensures bad { (source : HarvestSource) (id : List ℕ) (before : HarvestState)
        (history : List (HarvestEvent × HarvestState)) (report : SourceReport) →
        IsHarvest source id before history →
        (change_of_step (End id) (last_of before history)).reply ≡ Ended report →
        report.bad ≡ bad_of (reading_by source id before history) }
{}
