//! Laws of harvests beside calls: over a whole history, whatever calls and other steps stand between. Each function has an
//! empty body, and its contract is the law.
ghost use Rattle.std.specs.Prelude.{◌≡◌, ◌≢◌, ◌++◌, ◌∷◌, [], ℕ, IsSome, IsTrue, List, filter, true};
ghost use Rattle.std.specs.List.{All, Contains};
ghost use Rattle.harvest_results.specs.Counts.{bad_of, counts_in, counts_of};
ghost use Rattle.harvest_results.specs.Effects.{is_of_source};
ghost use Rattle.harvest_results.specs.Readings.{is_whole};
ghost use Rattle.harvest_results.specs.Results.{datasets_after, datasets_afresh};
ghost use Rattle.harvest_sources.specs.Sources.{source_named};
ghost use Rattle.harvest_sources.specs.declared.cause.Cause.{Cause};
ghost use Rattle.harvest_sources.specs.declared.job.SourceReport.{SourceReport};
ghost use Rattle.harvest_sources.specs.declared.source.HarvestSource.{HarvestSource};
ghost use Rattle.harvest_sources.specs.declared.step.Step.{Step};
ghost use Rattle.harvest_sources.specs.declared.step.Step.TheVariants.{Begin, Break, End};
ghost use Rattle.harvest_sources.specs.declared.step.StepReply.TheVariants.{Ended};
ghost use Rattle.portal_calls.specs.declared.call.Call.{Call};
ghost use Rattle.portal_events.specs.declared.event.Event.{Event};
ghost use Rattle.portal_hall.specs.History.{replay};
ghost use Rattle.portal_state.specs.Harvest.{harvest_change, state_after_step};
ghost use Rattle.portal_core.specs.HarvestHistory.{IsLastBegin, NoneRuns, accepts_step, after_begin, harvested_in};
ghost use Rattle.portal_core.specs.HarvestHistory.{reading_since};
ghost use Rattle.portal_state.specs.State.{State};
ghost use Rattle.portal_state.specs.Step.{call_step, step_of};
ghost use Rattle.portal_state.specs.Valid.{IsValid};

/// Each job that ends or breaks in a history, before which no job runs, has begun in it: there is a last place where it
/// begins.
pub fn a_job_that_ends_has_begun()
    ensures ended { (state : State) (events : List Event) (id : List ℕ) → IsValid state → NoneRuns state →
        IsTrue (accepts_step (End id) (replay step_of state events)) →
        (before after : List Event) × (source : HarvestSource) ×
        (events ≡ before ++ Event.Harvest Begin ∷ after) ×
        IsLastBegin source id (replay step_of state before) after }
    ensures broken { (state : State) (events : List Event) (id : List ℕ) (cause : Cause) →
        IsValid state → NoneRuns state →
        IsTrue (accepts_step (Break id cause) (replay step_of state events)) →
        (before after : List Event) × (source : HarvestSource) ×
        (events ≡ before ++ Event.Harvest Begin ∷ after) ×
        IsLastBegin source id (replay step_of state before) after }
{}

/// Whatever calls and other steps stand between, an ended job leaves of its source's datasets what the reading that its steps
/// made up leaves of those that stood where it last began.
pub fn an_ended_job_leaves_what_its_reading_says()
    ensures { (state : State) (events : List Event) (source : HarvestSource) (id : List ℕ) →
        IsValid state → IsLastBegin source id state events →
        IsTrue (accepts_step (End id) (after_begin state events)) →
        harvested_in source (state_after_step (End id) (after_begin state events))
        ≡ datasets_after (harvested_in source state) (reading_since source id state events) }
{}

/// An ended job that has read everything leaves the datasets of what it read, whatever was there before.
pub fn an_ended_job_that_read_all_leaves_what_it_read()
    ensures { (state : State) (events : List Event) (source : HarvestSource) (id : List ℕ) →
        IsValid state → IsLastBegin source id state events →
        IsTrue (accepts_step (End id) (after_begin state events)) →
        IsTrue (is_whole (reading_since source id state events)) →
        harvested_in source (state_after_step (End id) (after_begin state events))
        ≡ datasets_afresh (reading_since source id state events) }
{}

/// A job whose catalogue can't be read leaves the datasets that its source had where it last began.
pub fn a_broken_job_leaves_the_datasets()
    ensures { (state : State) (events : List Event) (source : HarvestSource) (id : List ℕ) (cause : Cause) →
        IsValid state → IsLastBegin source id state events →
        IsTrue (accepts_step (Break id cause) (after_begin state events)) →
        harvested_in source (state_after_step (Break id cause) (after_begin state events))
        ≡ harvested_in source state }
{}

/// The report of an ended job counts what its reading changes of the datasets that stood where it last began, and its bad
/// IRIs are those of the reading.
pub fn the_report_of_an_ended_job_counts()
    ensures counts { (state : State) (events : List Event) (source : HarvestSource) (id : List ℕ)
        (report : SourceReport) → IsValid state → IsLastBegin source id state events →
        (harvest_change (End id) (after_begin state events)).reply ≡ Ended report →
        counts_in report ≡ counts_of (harvested_in source state) (reading_since source id state events) }
    ensures bad { (state : State) (events : List Event) (source : HarvestSource) (id : List ℕ)
        (report : SourceReport) → IsValid state → IsLastBegin source id state events →
        (harvest_change (End id) (after_begin state events)).reply ≡ Ended report →
        report.bad ≡ bad_of (reading_since source id state events) }
{}

/// No call changes what was harvested from a source that still stands after it: nobody edits or purges a harvested dataset.
pub fn no_call_changes_what_was_harvested()
    ensures { (state : State) (call : Call) (name : List ℕ) → IsValid state → name ≢ [] →
        IsSome (source_named (call_step state call).core.sources name) →
        filter (is_of_source name) (call_step state call).core.datasets
        ≡ filter (is_of_source name) state.datasets }
{}

/// A step of a harvest changes sources, jobs and datasets alone, and is charged to nobody.
pub fn a_step_changes_sources_and_datasets_alone()
    ensures people { (step : Step) (state : State) → (state_after_step step state).people ≡ state.people }
    ensures tables { (step : Step) (state : State) → (state_after_step step state).tables ≡ state.tables }
    ensures quotas { (step : Step) (state : State) → (state_after_step step state).quota_used ≡ state.quota_used }
{}
