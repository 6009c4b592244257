//! The answers to calls on sources of harvests and their jobs.
//!
//! Each function finds the source or the job, checks the right, reads the body and gives the change. Its
//! answer is a function of the call, of the caller's view, and of the sources that the caller sees. A refusal
//! stops it.
ghost use Rattle.std.specs.Prelude.{◌≡◌, IfOk, codes};
ghost use Rattle.portal_calls.specs.Stop.{Answers};
ghost use Rattle.portal_calls.specs.declared.answer.Answer.{Answer};
ghost use Rattle.visibility.specs.CallView.{context_view};
ghost use Rattle.harvest_sources.specs.Sources.{AreSources, states};
ghost use Rattle.harvest_sources.specs.declared.change.SourceChange.{SourceChange};
ghost use Rattle.harvest_answers.specs.Answers.{accepted_creation, accepted_update, answer_to_action};
ghost use Rattle.harvest_answers.specs.Answers.{answer_to_job_show, answer_to_source_create, answer_to_source_delete};
ghost use Rattle.harvest_answers.specs.Answers.{answer_to_source_list, answer_to_source_show, answer_to_source_update};
ghost use Rattle.harvest_answers.specs.Answers.{answer_to_job_create, job_of_call};
ghost use Rattle.harvest_answers.specs.Dictionary.{job_dictionary};
ghost use Rattle.harvest_answers.specs.View.{sources_for, sources_seen};

use crate::bodies::{read_creation, read_update, unfinished_errors};
use crate::dictionary::{job_json, source_json, sources_json};
use crate::lookup::{administered_source, job_given, source_at};
use crate::rights::may_create_source;
use harvest_sources::{HarvestSource, SourceChange, SourceJobs};
use portal_base::copy::TryClone;
use portal_base::json_value::Json;
use portal_calls::answer::{Answer, Right};
use portal_calls::stop::{Stop, answer_or_refusal, authorize, validate_change};
use portal_calls::topic::HarvestAction;
use std::alloc::{AllocError, Global};
use visibility::context::CallContext;

/// The answer to a call of this action. `sources` are all sources of the portal, in the order of their names.
/// The answer depends only on those that the caller sees.
pub fn answer(
    alloc: Global,
    action: HarvestAction,
    context: &CallContext<'_>,
    sources: &[SourceJobs],
) -> Result<Answer<SourceChange>, AllocError>
    requires { AreSources (states sources.now) }
    ensures { IfOk result (λ answer. answer ≡ answer_to_action action (context_view context.now)
        (sources_seen context.now.viewer.caller context.now.viewer.people (states sources.now))) }
{
    answer_or_refusal(answer_to_action(alloc, action, context, sources))
}

/// The answer to a call of this action, or the stop before it.
fn answer_to_action(
    alloc: Global,
    action: HarvestAction,
    context: &CallContext<'_>,
    sources: &[SourceJobs],
) -> Result<Answer<SourceChange>, Stop>
    requires { AreSources (states sources.now) }
    ensures { Answers result
        (answer_to_action action (context_view context.now) (sources_for context.now sources.now)) }
{
    match action {
        HarvestAction::HarvestSourceCreate => source_create(alloc, context),
        HarvestAction::HarvestSourceUpdate => source_update(alloc, context, sources),
        HarvestAction::HarvestSourceDelete => source_delete(alloc, context, sources),
        HarvestAction::HarvestSourceShow => source_show(alloc, context, sources),
        HarvestAction::HarvestSourceList => source_list(alloc, context, sources),
        HarvestAction::HarvestJobCreate => job_create(alloc, context, sources),
        HarvestAction::HarvestJobShow => job_show(alloc, context, sources),
    }
}

// ---- sources

/// The answer to a `harvest_source_create`.
fn source_create(alloc: Global, context: &CallContext<'_>) -> Result<Answer<SourceChange>, Stop>
    ensures { Answers result (answer_to_source_create (context_view context.now)) }
{
    authorize(may_create_source(context), Right::AdministerOrganization)?;
    let (faults, source) = read_creation(alloc, context)?;
    validate_change(context.quota, faults)?;
    Ok(accept_creation(alloc, source)?)
}

/// The answer that creates the source.
fn accept_creation(alloc: Global, source: HarvestSource) -> Result<Answer<SourceChange>, AllocError>
    ensures { IfOk result (λ answer. answer ≡ accepted_creation source) }
{
    let shown = source_json(alloc, &source)?;
    Ok(Answer::Accepted(shown, SourceChange::Create(source)))
}

/// The answer to a `harvest_source_update`.
fn source_update(
    alloc: Global,
    context: &CallContext<'_>,
    sources: &[SourceJobs],
) -> Result<Answer<SourceChange>, Stop>
    requires { AreSources (states sources.now) }
    ensures { Answers result
        (answer_to_source_update (context_view context.now) (sources_for context.now sources.now)) }
{
    let old = administered_source(alloc, context, sources, "id")?;
    let (faults, source) = read_update(alloc, &context.call.request.body, old)?;
    validate_change(context.quota, faults)?;
    Ok(accept_update(alloc, source)?)
}

/// The answer that gives the source of this name this title and this location.
fn accept_update(alloc: Global, source: HarvestSource) -> Result<Answer<SourceChange>, AllocError>
    ensures { IfOk result (λ answer. answer ≡ accepted_update source) }
{
    let shown = source_json(alloc, &source)?;
    let change = SourceChange::Update(source.name, source.title, source.url);
    Ok(Answer::Accepted(shown, change))
}

/// The answer to a `harvest_source_delete`.
fn source_delete(
    alloc: Global,
    context: &CallContext<'_>,
    sources: &[SourceJobs],
) -> Result<Answer<SourceChange>, Stop>
    requires { AreSources (states sources.now) }
    ensures { Answers result
        (answer_to_source_delete (context_view context.now) (sources_for context.now sources.now)) }
{
    let old = administered_source(alloc, context, sources, "id")?;
    let faults = unfinished_errors(alloc, "id", old)?;
    validate_change(context.quota, faults)?;
    let name = old.source().name.try_clone(alloc)?;
    Ok(Answer::Accepted(Json::Null, SourceChange::Remove(name)))
}

/// The answer to a `harvest_source_show`.
fn source_show(
    alloc: Global,
    context: &CallContext<'_>,
    sources: &[SourceJobs],
) -> Result<Answer<SourceChange>, Stop>
    requires { AreSources (states sources.now) }
    ensures { Answers result
        (answer_to_source_show (context_view context.now) (sources_for context.now sources.now)) }
{
    let found = source_at(alloc, context, sources, "id")?;
    Ok(Answer::Shown(source_json(alloc, found.source())?))
}

/// The answer to a `harvest_source_list`.
fn source_list(
    alloc: Global,
    context: &CallContext<'_>,
    sources: &[SourceJobs],
) -> Result<Answer<SourceChange>, Stop>
    ensures { Answers result (answer_to_source_list (sources_for context.now sources.now)) }
{
    Ok(Answer::Shown(Json::List(sources_json(alloc, context, sources)?)))
}

// ---- jobs

/// The answer to a `harvest_job_create`.
fn job_create(
    alloc: Global,
    context: &CallContext<'_>,
    sources: &[SourceJobs],
) -> Result<Answer<SourceChange>, Stop>
    requires { AreSources (states sources.now) }
    ensures { Answers result
        (answer_to_job_create (context_view context.now) (sources_for context.now sources.now)) }
{
    let found = administered_source(alloc, context, sources, "source_id")?;
    let faults = unfinished_errors(alloc, "source_id", found)?;
    validate_change(context.quota, faults)?;
    Ok(accept_job(alloc, context, found)?)
}

/// The answer that gives the source its next job.
fn accept_job(
    alloc: Global,
    context: &CallContext<'_>,
    found: &SourceJobs,
) -> Result<Answer<SourceChange>, AllocError>
    ensures { IfOk result (λ answer. answer ≡ Answer.Accepted
        (job_dictionary (job_of_call (context_view context.now) found.now.state.source))
        (SourceChange.AddJob found.now.state.source.name context.now.call.now.moment)) }
{
    let moment = context.call.moment;
    let job = found.next_job(alloc, moment)?;
    let shown = job_json(alloc, &job)?;
    Ok(Answer::Accepted(shown, SourceChange::AddJob(job.source, moment)))
}

/// The answer to a `harvest_job_show`.
fn job_show(
    alloc: Global,
    context: &CallContext<'_>,
    sources: &[SourceJobs],
) -> Result<Answer<SourceChange>, Stop>
    requires { AreSources (states sources.now) }
    ensures { Answers result
        (answer_to_job_show (context_view context.now) (sources_for context.now sources.now)) }
{
    let job = job_given(alloc, context, sources)?;
    Ok(Answer::Shown(job_json(alloc, job)?))
}
