//! Laws of what is restored. Each function has an empty body, and its contract is the law.
ghost use Rattle.std.specs.Prelude.{◌≡◌, List, Some, map};
ghost use Rattle.std.specs.List.{All};
ghost use Rattle.std.specs.List.Sorted.{IsPermutation};
ghost use Rattle.portal_base.specs.Ordered.{ascending};
ghost use Rattle.harvest_sources.specs.Sources.{AreSources, SourceState};
ghost use Rattle.harvest_sources.specs.declared.job.Job.{Job};
ghost use Rattle.harvest_sources.specs.declared.source.HarvestSource.{HarvestSource};
ghost use Rattle.harvest_stages.specs.AtRest.{IsAtRest, all_jobs, at_rest, bare_sources};
ghost use Rattle.harvest_stages.specs.Restored.{name_cmp, restored};

/// What is restored from sources and jobs is those sources, in the order of their names, with just those jobs. It is as
/// sources with their jobs always are. No job runs, and no catalogue is listed.
pub fn what_is_restored_is_sound()
    ensures sound { (sources : List HarvestSource) (jobs : List Job) (made : List SourceState) →
        All (λ job. job.report.source ≡ job.source) jobs → restored sources jobs ≡ Some made → AreSources made }
    ensures rest { (sources : List HarvestSource) (jobs : List Job) (made : List SourceState) →
        All (λ job. job.report.source ≡ job.source) jobs → restored sources jobs ≡ Some made → All IsAtRest made }
    ensures order { (sources : List HarvestSource) (jobs : List Job) (made : List SourceState) →
        All (λ job. job.report.source ≡ job.source) jobs → restored sources jobs ≡ Some made →
        bare_sources made ≡ ascending name_cmp sources }
    ensures jobs { (sources : List HarvestSource) (jobs : List Job) (made : List SourceState) →
        All (λ job. job.report.source ≡ job.source) jobs → restored sources jobs ≡ Some made →
        IsPermutation jobs (all_jobs made) }
{}

/// Sources in which no job runs and no catalogue is listed are restored from what they hold, with the jobs in any order.
pub fn sources_at_rest_are_restored()
    ensures { (sources : List SourceState) (jobs : List Job) →
        AreSources sources → All IsAtRest sources → IsPermutation jobs (all_jobs sources) →
        restored (bare_sources sources) jobs ≡ Some sources }
{}

/// Sources that come to rest are still as sources with their jobs always are. Then no job runs, and no catalogue is
/// listed.
pub fn sources_come_to_rest()
    ensures sound { (sources : List SourceState) → AreSources sources → AreSources (map at_rest sources) }
    ensures rest { (sources : List SourceState) → All IsAtRest (map at_rest sources) }
{}
