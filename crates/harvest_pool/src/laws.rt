//! Laws of rounds. Each function has an empty body, and its contract is the law.
ghost use Rattle.std.specs.Prelude.{◌≡◌, ◌≤◌, ◌+◌, IsSome, List, None, Some, count_by, length, map, sum_by};
ghost use Rattle.std.specs.List.{All, Contains};
ghost use Rattle.std.specs.List.Sorted.{IsPermutation, IsSorted};
ghost use Rattle.harvest_readings.specs.Harvests.{Documents};
ghost use Rattle.harvest_results.specs.Effects.{HarvestState};
ghost use Rattle.harvest_sources.specs.Sources.{AreSources, open_job};
ghost use Rattle.harvest_sources.specs.declared.job.SourceReport.{SourceReport};
ghost use Rattle.harvest_pool.specs.Bounds.{most_steps};
ghost use Rattle.harvest_pool.specs.Made.{AreAnswered, state_after};
ghost use Rattle.harvest_pool.specs.Rounds.{IsCatalogueOf, IsReadingOf, IsWhole, Round, failed_to_read, failed_to_settle};
ghost use Rattle.harvest_pool.specs.Rounds.{report_cmp, reports_of_round, steps_of_round};
ghost use Rattle.harvest_pool.specs.WholeRounds.{IsAtRest, after_round, failures_in, failures_told, round_reports};

/// A whole round leaves no job open: each one that was new or running has ended or is broken.
pub fn a_whole_round_leaves_no_open_job()
    ensures { (state : HarvestState) (round : Round) → AreSources state.sources → IsWhole round →
        AreAnswered (steps_of_round round) state →
        All (λ s. open_job s ≡ None) (state_after (steps_of_round round) state).sources }
{}

/// A whole round reports each source that had an open job when it began.
pub fn a_whole_round_reports_each_job()
    ensures { (state : HarvestState) (round : Round) → AreSources state.sources → IsWhole round →
        AreAnswered (steps_of_round round) state →
        All (λ s. IsSome (open_job s) →
        Contains (map (λ report. report.source) (reports_of_round round)) s.source.name) state.sources }
{}

/// A whole round makes few steps: each new job begins once, each waiting object is claimed once, and each job ends once.
pub fn a_whole_round_makes_few_steps()
    ensures { (state : HarvestState) (round : Round) → AreSources state.sources → IsWhole round →
        AreAnswered (steps_of_round round) state →
        length (steps_of_round round) ≤ most_steps state round }
{}

/// What a whole round by one worker leaves and reports follows from what was there, from the documents, and from which
/// fetches failed, of which the reports tell. Each source that has a new job is harvested once, whatever the order of the
/// steps, and everything else stays.
pub fn a_whole_round_does_what_the_documents_say()
    ensures left { (documents : Documents) (before : HarvestState) (round : Round) (reports : List SourceReport) →
        IsAtRest before → IsWhole round → AreAnswered (steps_of_round round) before →
        All (IsCatalogueOf (Some documents)) round.catalogues.done →
        All (IsReadingOf (Some documents)) round.objects.done →
        IsPermutation (reports_of_round round) reports → IsSorted report_cmp reports →
        state_after (steps_of_round round) before ≡ after_round documents (failures_told reports) before }
    ensures reported { (documents : Documents) (before : HarvestState) (round : Round) (reports : List SourceReport) →
        IsAtRest before → IsWhole round → AreAnswered (steps_of_round round) before →
        All (IsCatalogueOf (Some documents)) round.catalogues.done →
        All (IsReadingOf (Some documents)) round.objects.done →
        IsPermutation (reports_of_round round) reports → IsSorted report_cmp reports →
        reports ≡ round_reports documents (failures_told reports) before }
{}

/// The reports of a whole round by one worker tell of as many failed fetches as there were in it: of catalogues, and of
/// datasets' own documents.
pub fn the_reports_of_a_whole_round_tell_its_failures()
    ensures { (documents : Documents) (before : HarvestState) (round : Round) (reports : List SourceReport) →
        IsAtRest before → IsWhole round → AreAnswered (steps_of_round round) before →
        All (IsCatalogueOf (Some documents)) round.catalogues.done →
        All (IsReadingOf (Some documents)) round.objects.done → IsPermutation (reports_of_round round) reports →
        sum_by failures_in reports
        ≡ count_by failed_to_read round.catalogues.done + count_by failed_to_settle round.objects.done }
{}
