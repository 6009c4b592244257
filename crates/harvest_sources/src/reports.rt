//! The dictionary of a report on a job.
ghost use Rattle.std.specs.Prelude.{◌≡◌, IfOk, map};
ghost use Rattle.harvest_sources.specs.ReportJson.{bad_dictionary, report_dictionary, state_cause_text};

use crate::cause::Cause;
use crate::job::{JobState, SourceReport};
use portal_base::dictionary::Value;
use portal_base::json_value::Json;
use portal_base::seq::Seq;
use portal_base::text::Text;
use std::alloc::{AllocError, Global};

/// The dictionary of a report.
pub fn report_json(alloc: Global, report: &SourceReport) -> Result<Json, AllocError>
    ensures { IfOk result (λ json. json ≡ report_dictionary report.now) }
{
    let bad = bad_list(alloc, &report.bad)?;
    let cause = cause_text(alloc, report.state)?;
    Json::dictionary(
        alloc,
        [
            ("added", Value::Whole(report.added as usize)),
            ("bad", Value::List(bad)),
            ("cause", Value::Json(Json::Text(cause))),
            ("deleted", Value::Whole(report.deleted as usize)),
            ("source", Value::Text(&report.source)),
            ("state", Value::Static(report.state.name())),
            ("unchanged", Value::Whole(report.unchanged as usize)),
            ("unnamed", Value::Whole(report.unnamed as usize)),
            ("updated", Value::Whole(report.updated as usize)),
        ],
    )
}

/// The text of the cause of a broken job, and the empty text for any other.
fn cause_text(alloc: Global, state: JobState) -> Result<Text, AllocError>
    ensures { IfOk result (λ text. text ≡ state_cause_text state) }
{
    match state {
        JobState::Broken(cause) => cause.text(alloc),
        JobState::New | JobState::Running | JobState::Finished => Ok(Text::new(alloc)),
    }
}

/// The dictionaries of the IRIs that gave no dataset.
fn bad_list(alloc: Global, bad: &Seq<(Text, Cause)>) -> Result<Seq<Json>, AllocError>
    ensures { IfOk result (λ list. list ≡ map bad_dictionary bad.now) }
{
    let mut list = Vec::with_capacity(alloc, bad.len())?;
    for (iri, cause) in bad.as_slice() {
        list.push(bad_json(alloc, iri, *cause)?)?;
    }
    Ok(Seq::from(list))
}

/// The dictionary of an IRI that gave no dataset for this cause.
fn bad_json(alloc: Global, iri: &Text, cause: Cause) -> Result<Json, AllocError>
    ensures { IfOk result (λ json. json ≡ bad_dictionary (iri.now, cause)) }
{
    let cause = cause.text(alloc)?;
    Json::dictionary(
        alloc,
        [
            ("cause", Value::Json(Json::Text(cause))),
            ("iri", Value::Text(iri)),
        ],
    )
}
