//! The dictionaries of sources and jobs.
ghost use Rattle.std.specs.Prelude.{◌≡◌, ◌++◌, [], IfOk, OnOk, map};
ghost use Rattle.std.specs.List.{cons_option, filter_map};
ghost use Rattle.harvest_answers.specs.Dictionary.{job_dictionary, seen_dictionary, source_dictionary};
ghost use Rattle.harvest_answers.specs.View.{sources_for};

use crate::lookup::if_seen;
use harvest_sources::{HarvestSource, Job, SourceJobs, job_id, report_json};
use portal_base::dictionary::Value;
use portal_base::json_value::Json;
use portal_base::seq::Seq;
use std::alloc::{AllocError, Global};
use visibility::context::CallContext;

/// The dictionary of a source.
pub fn source_json(alloc: Global, source: &HarvestSource) -> Result<Json, AllocError>
    ensures { IfOk result (λ json. json ≡ source_dictionary source.now) }
{
    Json::dictionary(
        alloc,
        [
            ("id", Value::Text(&source.name)),
            ("name", Value::Text(&source.name)),
            ("owner_org", Value::Text(&source.owner_org)),
            ("title", Value::Text(&source.title)),
            ("url", Value::Text(&source.url)),
        ],
    )
}

/// The dictionary of the source, if the caller sees it.
fn seen_json(
    alloc: Global,
    context: &CallContext<'_>,
    source: &SourceJobs,
) -> Result<Option<Json>, AllocError>
    ensures { IfOk result (λ json. json
        ≡ seen_dictionary context.now.viewer.people context.now.viewer.caller source.now) }
{
    match if_seen(context, source) {
        Some(seen) => Ok(Some(source_json(alloc, seen.source())?)),
        None => Ok(None),
    }
}

/// The dictionaries of the sources that the caller sees, in the order of their names. It walks the sources
/// once.
#[tactic(auto, using(crate::proofs::ViewLemmas::dictionaries_listed))]
pub fn sources_json(
    alloc: Global,
    context: &CallContext<'_>,
    sources: &[SourceJobs],
) -> Result<Seq<Json>, AllocError>
    ensures { IfOk result (λ list. list
        ≡ map (λ s. source_dictionary s.source) (sources_for context.now sources.now)) }
{
    seen_sources_json(alloc, context, sources)
}

/// The dictionaries of those sources that the caller sees.
fn seen_sources_json(
    alloc: Global,
    context: &CallContext<'_>,
    sources: &[SourceJobs],
) -> Result<Seq<Json>, AllocError>
    ensures { IfOk result (λ list. list
        ≡ filter_map (seen_dictionary context.now.viewer.people context.now.viewer.caller) sources.now) }
{
    let mut list = Vec::new(alloc);
    for source in sources {
        let item = seen_json(alloc, context, source)?;
        push_some(&mut list, item)?;
    }
    Ok(Seq::from(list))
}

/// Adds an item, if there is one.
fn push_some(list: &mut Vec<Json>, item: Option<Json>) -> Result<(), AllocError>
    ensures { OnOk result (list.new.items ≡ list.old.items ++ cons_option item []) }
{
    if let Some(item) = item {
        list.push(item)?;
    }
    Ok(())
}

/// The dictionary of a job, with what it has done.
pub fn job_json(alloc: Global, job: &Job) -> Result<Json, AllocError>
    ensures { IfOk result (λ json. json ≡ job_dictionary job.now) }
{
    let id = job_id(alloc, job.source.as_str(), job.number)?;
    let stats = report_json(alloc, &job.report)?;
    Json::dictionary(
        alloc,
        [
            ("created", Value::Moment(job.created)),
            ("id", Value::Json(Json::Text(id))),
            ("source_id", Value::Text(&job.source)),
            ("state", Value::Static(job.report.state.name())),
            ("stats", Value::Json(stats)),
        ],
    )
}
