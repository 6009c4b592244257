//! The sources and the jobs that calls name, among those that the caller sees. A key that names nothing stops
//! the call with its refusal.
ghost use Rattle.std.specs.Prelude.{◌≡◌, ℕ, List, Some, find, option_and_then, option_copied, option_map};
ghost use Rattle.std.specs.Str.{bytes_eq};
ghost use Rattle.portal_calls.specs.Stop.{Finds};
ghost use Rattle.visibility.specs.CallView.{context_view};
ghost use Rattle.harvest_sources.specs.Jobs.{id_of_job, job_id};
ghost use Rattle.harvest_sources.specs.Sources.{AreSources, source_named, states};
ghost use Rattle.harvest_answers.specs.Lookup.{administered_source, job_given, job_named, source_at};
ghost use Rattle.harvest_answers.specs.View.{seen_part, seen_state, sources_for};

use harvest_sources::{Job, SourceJobs, is_job_id, split_job_id};
use portal_base::ordered::find_in_order;
use portal_calls::answer::{Denial, Kind, key_denial, required_text};
use portal_calls::stop::Stop;
use std::alloc::Global;
use visibility::context::CallContext;

// ---- sources

/// The source, if the caller sees it.
#[tactic(auto, using(visibility::proofs::ViewLemmas::administers_seen))]
pub fn if_seen<'a>(context: &CallContext<'_>, source: &'a SourceJobs) -> Option<&'a SourceJobs>
    ensures { option_map seen_state (option_copied result)
        ≡ seen_part context.now.viewer.people context.now.viewer.caller source.now.state }
{
    if context.viewer.administers(&source.source().owner_org) {
        Some(source)
    } else {
        None
    }
}

/// The source of that name, if the caller sees it. It is found by a binary search among all sources.
fn find_source<'a>(
    context: &CallContext<'_>,
    sources: &'a [SourceJobs],
    name: &str,
) -> Option<&'a SourceJobs>
    requires { AreSources (states sources.now) }
    ensures { option_map seen_state (option_copied result)
        ≡ source_named (sources_for context.now sources.now) name.now }
{
    match find_in_order(sources, &name) {
        Some(found) => if_seen(context, found),
        None => None,
    }
}

/// The source that a key of the body names.
pub fn source_at<'a>(
    alloc: Global,
    context: &CallContext<'_>,
    sources: &'a [SourceJobs],
    key: &'static str,
) -> Result<&'a SourceJobs, Stop>
    requires { AreSources (states sources.now) }
    ensures { Finds result (λ s. seen_state s.now)
        (source_at key.now (context_view context.now) (sources_for context.now sources.now)) }
{
    match required_text(&context.call.request.body, key) {
        Ok(name) => match find_source(context, sources, name.as_str()) {
            Some(source) => Ok(source),
            None => Err(Stop::Refused(Denial::NotFound(Kind::HarvestSource))),
        },
        Err(fault) => Err(Stop::Refused(key_denial(alloc, key, fault)?)),
    }
}

/// The same, for a change that needs the right to administer the source's organization. Whoever sees a source has it.
pub fn administered_source<'a>(
    alloc: Global,
    context: &CallContext<'_>,
    sources: &'a [SourceJobs],
    key: &'static str,
) -> Result<&'a SourceJobs, Stop>
    requires { AreSources (states sources.now) }
    ensures { Finds result (λ s. seen_state s.now)
        (administered_source key.now (context_view context.now) (sources_for context.now sources.now)) }
{
    source_at(alloc, context, sources, key)
}

// ---- jobs

/// The name of the source in a job's id: what precedes the last dot.
fn source_part(id: &str) -> Option<&str>
    ensures { (source : List ℕ) (number : ℕ) → job_id source number ≡ id.now → option_copied result ≡ Some source }
{
    match split_job_id(id) {
        Some((source, _)) => Some(source),
        None => None,
    }
}

/// The source's job of that id.
fn job_in<'a>(source: &'a SourceJobs, id: &str) -> Option<&'a Job>
    ensures { option_copied result ≡ find (λ job. bytes_eq (id_of_job job) id.now) source.now.state.jobs }
{
    source.jobs().iter().find(|job| has_id(job, id))
}

/// The job of that id of a source, if there is the source.
fn job_of<'a>(source: Option<&'a SourceJobs>, id: &str) -> Option<&'a Job>
    ensures { option_copied result ≡ option_and_then
        (λ s. find (λ job. bytes_eq (id_of_job job) id.now) s.jobs)
        (option_map seen_state (option_copied source.entry)) }
{
    match source {
        Some(source) => job_in(source, id),
        None => None,
    }
}

/// Whether this is the job's id.
fn has_id(job: &Job, id: &str) -> bool
    ensures { result ≡ bytes_eq (id_of_job job.now) id.now }
{
    is_job_id(id, job.source.as_str(), job.number)
}

/// The job of that id, if the caller sees its source.
fn find_job<'a>(context: &CallContext<'_>, sources: &'a [SourceJobs], id: &str) -> Option<&'a Job>
    requires { AreSources (states sources.now) }
    ensures { option_copied result ≡ job_named (sources_for context.now sources.now) id.now }
{
    match source_part(id) {
        Some(name) => job_of(find_source(context, sources, name), id),
        None => None,
    }
}

/// The job that the key `id` names.
pub fn job_given<'a>(
    alloc: Global,
    context: &CallContext<'_>,
    sources: &'a [SourceJobs],
) -> Result<&'a Job, Stop>
    requires { AreSources (states sources.now) }
    ensures { Finds result (λ job. job.now)
        (job_given (context_view context.now) (sources_for context.now sources.now)) }
{
    match required_text(&context.call.request.body, "id") {
        Ok(id) => match find_job(context, sources, id.as_str()) {
            Some(job) => Ok(job),
            None => Err(Stop::Refused(Denial::NotFound(Kind::HarvestJob))),
        },
        Err(fault) => Err(Stop::Refused(key_denial(alloc, "id", fault)?)),
    }
}
