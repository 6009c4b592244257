//! The sources that steps change, and their places.
ghost use Rattle.std.specs.Prelude.{◌≡◌, ◌<◌, IfSome, IsTrue, Some, find, is_some, length, option_map, position};
ghost use Rattle.std.specs.Prelude.{slice_get};
ghost use Rattle.harvest_sources.specs.Sources.{AreSources, states};
ghost use Rattle.harvest_sources.specs.Steps.{has_new, waiting_of, with_open_job};

use crate::places::place_of;
use harvest_sources::{SourceJobs, is_job_id, split_job_id};

/// The first source with a new job, and its place.
pub(crate) fn first_new(sources: &[SourceJobs]) -> Option<(usize, &SourceJobs)>
    ensures source { option_map (λ found. found.1.now.state) result ≡ find has_new (states sources.now) }
    ensures place { IfSome result (λ found. slice_get (states sources.now) found.0 ≡ Some found.1.now.state) }
    ensures new { IfSome result (λ found. IsTrue (has_new found.1.now.state)) }
{
    let place = new_place(sources)?;
    Some((place, &sources[place]))
}

/// The first source with a waiting object, and its place.
pub(crate) fn first_waiting(sources: &[SourceJobs]) -> Option<(usize, &SourceJobs)>
    ensures source { option_map (λ found. found.1.now.state) result
        ≡ find (λ s. is_some (waiting_of s)) (states sources.now) }
    ensures place { IfSome result (λ found. slice_get (states sources.now) found.0 ≡ Some found.1.now.state) }
{
    let place = waiting_place(sources)?;
    Some((place, &sources[place]))
}

/// The source whose open job has this id, and its place. The source is found by a binary search.
pub(crate) fn source_of_job<'a>(
    sources: &'a [SourceJobs],
    id: &str,
) -> Option<(usize, &'a SourceJobs)>
    requires { AreSources (states sources.now) }
    ensures source { option_map (λ found. found.1.now.state) result ≡ with_open_job (states sources.now) id.now }
    ensures place { IfSome result (λ found. slice_get (states sources.now) found.0 ≡ Some found.1.now.state) }
{
    let (name, _) = split_job_id(id)?;
    let place = place_of(sources, &name)?;
    let source = &sources[place];
    let job = source.open_job()?;
    if is_job_id(id, job.source.as_str(), job.number) {
        Some((place, source))
    } else {
        None
    }
}

/// The place of the first source with a new job.
fn new_place(sources: &[SourceJobs]) -> Option<usize>
    ensures place { result ≡ position (λ s. has_new s.state) sources.now }
    ensures within { IfSome result (λ place. place < length sources.now) }
{
    sources.iter().position(|source| source.has_new())
}

/// The place of the first source with a waiting object.
fn waiting_place(sources: &[SourceJobs]) -> Option<usize>
    ensures place { result ≡ position (λ s. is_some (waiting_of s.state)) sources.now }
    ensures within { IfSome result (λ place. place < length sources.now) }
{
    sources
        .iter()
        .position(|source| source.first_waiting().is_some())
}
