//! Laws of the answers. Each function has an empty body, and its contract is the law.
ghost use Rattle.std.specs.Prelude.{◌≡◌, ℕ, ℤ, List, None};
ghost use Rattle.portal_base.specs.declared.caller.Caller.{Caller};
ghost use Rattle.org_roles.specs.PeopleLists.{PeopleLists};
ghost use Rattle.portal_calls.specs.Answer.{AcceptsOnly, AcceptsNothing};
ghost use Rattle.portal_calls.specs.declared.topic.HarvestAction.{HarvestAction};
ghost use Rattle.visibility.specs.CallView.{CallView};
ghost use Rattle.visibility.specs.View.{people_seen};
ghost use Rattle.portal_base.specs.Ordered.{IsAscending};
ghost use Rattle.harvest_sources.specs.Entries.{source_fault};
ghost use Rattle.harvest_sources.specs.Sources.{SourceState, source_cmp};
ghost use Rattle.harvest_sources.specs.declared.change.SourceChange.TheVariants.{Update, Remove, AddJob};
ghost use Rattle.harvest_answers.specs.Answers.{answer_to_action, answer_to_job_show, answer_to_source_list};
ghost use Rattle.harvest_answers.specs.Answers.{answer_to_source_show};
ghost use Rattle.harvest_answers.specs.Fit.{IsFitSource};
ghost use Rattle.harvest_answers.specs.View.{sources_seen};

/// Among the sources that a caller sees, it sees all.
pub fn seeing_twice_is_seeing_once()
    ensures { (caller : Caller) (people : PeopleLists) (sources : List SourceState) →
        sources_seen caller (people_seen caller people) (sources_seen caller people sources)
        ≡ sources_seen caller people sources }
{}

/// The changes that the answers accept can be made, given the caller's view and the sources that it sees, and
/// the caller has the right to make them.
pub fn what_is_accepted_is_fit()
    ensures { (action : HarvestAction) (view : CallView) (sources : List SourceState) →
        AcceptsOnly (IsFitSource view sources) (answer_to_action action view sources) }
{}

/// The answers to reads accept no change.
pub fn a_reading_accepts_nothing()
    ensures source_show { (view : CallView) (sources : List SourceState) →
        AcceptsNothing (answer_to_source_show view sources) }
    ensures source_list { (sources : List SourceState) → AcceptsNothing (answer_to_source_list sources) }
    ensures job_show { (view : CallView) (sources : List SourceState) →
        AcceptsNothing (answer_to_job_show view sources) }
{}

/// A change of a source that has no fault among the sources that its caller sees has none among all sources.
/// Only the name of a new source may be in use by one that the caller doesn't see.
pub fn what_fits_the_view_fits_all()
    ensures update { (caller : Caller) (people : PeopleLists) (sources : List SourceState) (name title url : List ℕ) →
        IsAscending source_cmp sources →
        source_fault (Update name title url) (sources_seen caller people sources) ≡ None →
        source_fault (Update name title url) sources ≡ None }
    ensures remove { (caller : Caller) (people : PeopleLists) (sources : List SourceState) (name : List ℕ) →
        IsAscending source_cmp sources →
        source_fault (Remove name) (sources_seen caller people sources) ≡ None →
        source_fault (Remove name) sources ≡ None }
    ensures add_job { (caller : Caller) (people : PeopleLists) (sources : List SourceState) (name : List ℕ) (at : ℤ) →
        IsAscending source_cmp sources →
        source_fault (AddJob name at) (sources_seen caller people sources) ≡ None →
        source_fault (AddJob name at) sources ≡ None }
{}
