//! Steps of harvests in a file of calls: `harvest STEP BODY => ANSWER`.
use cases::Buffer;
use harvest_records::{Distribution, HarvestRecord};
use harvest_sources::{Cause, Found, Item, Reading, Step, StepReply, report_json};
use portal_base::copy::TryClone;
use portal_base::json_value::Json;
use portal_base::kinds::{count_in, list_in, text_in, texts_in};
use portal_base::moment::Moment;
use portal_base::seq::Seq;
use portal_base::text::Text;
use std::alloc::Global;

// ---- a step

/// The text at the key of the body.
fn text_at(alloc: Global, body: &Json, key: &str) -> Option<Text> {
    text_in(body.get(key)?)?.try_clone(alloc).ok()
}

/// The text at the key of the body, or the empty text.
fn text_or_empty(alloc: Global, body: &Json, key: &str) -> Text {
    match text_at(alloc, body, key) {
        Some(text) => text,
        None => Text::new(alloc),
    }
}

/// The count at the key of the body, or 0.
fn count_or_zero(body: &Json, key: &str) -> u64 {
    match body.get(key).and_then(count_in) {
        Some(count) => u64::try_from(count).unwrap_or(0),
        None => 0,
    }
}

/// The cause of that name, `NotNTriples LINE` with the number of the line.
fn cause_named(name: &str) -> Option<Cause> {
    match name {
        "ReadFault" => Some(Cause::ReadFault),
        "Missing" => Some(Cause::Missing),
        "TooLong" => Some(Cause::TooLong),
        "NoCatalog" => Some(Cause::NoCatalog),
        "NotDescribed" => Some(Cause::NotDescribed),
        "NoTitle" => Some(Cause::NoTitle),
        "SameName" => Some(Cause::SameName),
        _ => {
            let (_, line) = name.split_once("NotNTriples ")?;
            Some(Cause::NotNTriples(line.parse::<u64>().ok()?))
        }
    }
}

/// The cause at the key `cause` of the body.
fn cause_in(body: &Json) -> Option<Cause> {
    cause_named(text_in(body.get("cause")?)?.as_str())
}

/// The moment at the key `modified`, or the first second of 1970.
fn modified_in(body: &Json) -> Option<Moment> {
    match body.get("modified") {
        Some(value) => Moment::read(text_in(value)?.as_str()),
        None => Moment::from_seconds(0),
    }
}

/// The texts at the key `tags`, or none.
fn tags_in(alloc: Global, body: &Json) -> Option<Seq<Text>> {
    match body.get("tags") {
        Some(value) => texts_in(alloc, value).ok()?,
        None => Some(Seq::new(alloc)),
    }
}

/// The file or the service of an item of `resources`.
fn distribution_in(alloc: Global, value: &Json) -> Distribution {
    Distribution {
        url: text_or_empty(alloc, value, "url"),
        name: text_or_empty(alloc, value, "name"),
        format: text_or_empty(alloc, value, "format"),
        mimetype: text_or_empty(alloc, value, "mimetype"),
        description: text_or_empty(alloc, value, "description"),
    }
}

/// The files and services at the key `resources`, or none.
fn resources_in(alloc: Global, body: &Json) -> Option<Seq<Distribution>> {
    let mut resources = Vec::new(alloc);
    if let Some(value) = body.get("resources") {
        for item in list_in(value)?.as_slice() {
            resources.push(distribution_in(alloc, item)).ok()?;
        }
    }
    Some(Seq::from(resources))
}

/// The record of a body with a title.
fn record_in(alloc: Global, body: &Json) -> Option<HarvestRecord> {
    let modified = modified_in(body)?;
    let title = text_at(alloc, body, "title")?;
    let tags = tags_in(alloc, body)?;
    let resources = resources_in(alloc, body)?;
    Some(HarvestRecord {
        title,
        notes: text_or_empty(alloc, body, "notes"),
        tags,
        modified,
        license_id: text_or_empty(alloc, body, "license_id"),
        resources,
    })
}

/// The reading of a body: bad where it has a cause, else the record.
fn reading_in(alloc: Global, body: &Json) -> Option<Reading> {
    match cause_in(body) {
        Some(cause) => Some(Reading::Bad(cause)),
        None => Some(Reading::Good(record_in(alloc, body)?)),
    }
}

/// Where the item is described: here, if it has a reading.
fn found_in(alloc: Global, item: &Json) -> Found {
    match reading_in(alloc, item) {
        Some(reading) => Found::Here(reading),
        None => Found::Elsewhere,
    }
}

/// The items at the key `items`.
fn items_in(alloc: Global, body: &Json) -> Option<Seq<Item>> {
    let mut items = Vec::new(alloc);
    for item in list_in(body.get("items")?)?.as_slice() {
        let iri = text_at(alloc, item, "iri")?;
        let found = found_in(alloc, item);
        items.push(Item { iri, found }).ok()?;
    }
    Some(Seq::from(items))
}

/// The step of that word on the job that the body names.
fn step_of_job(alloc: Global, word: &str, body: &Json) -> Option<Step> {
    let job = text_at(alloc, body, "job")?;
    match word {
        "list" => Some(Step::List(job, items_in(alloc, body)?, count_or_zero(body, "unnamed"))),
        "break" => Some(Step::Break(job, cause_in(body)?)),
        "settle" => {
            let iri = text_at(alloc, body, "iri")?;
            Some(Step::Settle(job, iri, reading_in(alloc, body)?))
        }
        "end" => Some(Step::End(job)),
        _ => None,
    }
}

/// The step of that word and body, if it is one.
pub fn step_of(alloc: Global, word: &str, body: &Json) -> Option<Step> {
    match word {
        "new_round" => Some(Step::NewRound),
        "begin" => Some(Step::Begin),
        "claim" => Some(Step::Claim),
        _ => step_of_job(alloc, word, body),
    }
}

// ---- an answer

/// Writes the text of a cause.
fn push_cause(alloc: Global, text: &mut Buffer, cause: Cause) {
    match cause.text(alloc) {
        Ok(name) => text.push(name.as_str()),
        Err(_) => text.run_out(),
    }
}

/// Writes where an object is described, with its title or with the cause for which it has none.
fn push_found(alloc: Global, text: &mut Buffer, found: &Found) {
    match found {
        Found::Here(Reading::Good(description)) => {
            text.push_all(&["here ", description.title.as_str()]);
        }
        Found::Here(Reading::Bad(cause)) => {
            text.push("here ");
            push_cause(alloc, text, *cause);
        }
        Found::Elsewhere => text.push("elsewhere"),
    }
}

/// Writes the word and the ids of the jobs.
fn push_started(text: &mut Buffer, jobs: &[Text]) {
    text.push("started");
    for job in jobs {
        text.push_all(&[" ", job.as_str()]);
    }
}

/// Writes the answer to a step.
pub fn push_answer(alloc: Global, text: &mut Buffer, answer: &StepReply) {
    match answer {
        StepReply::Started(jobs) => push_started(text, jobs.as_slice()),
        StepReply::Gather(job, url) => text.push_all(&["gather ", job.as_str(), " ", url.as_str()]),
        StepReply::Object(job, item) => {
            text.push_all(&["object ", job.as_str(), " ", item.iri.as_str(), " "]);
            push_found(alloc, text, &item.found);
        }
        StepReply::Nothing => text.push("nothing"),
        StepReply::Done => text.push("done"),
        StepReply::Ended(report) => match report_json(alloc, report) {
            Ok(json) => push_ended(alloc, text, &json),
            Err(_) => text.run_out(),
        },
        StepReply::Already => text.push("already"),
    }
}

/// Writes the word and the report of a job that ended.
fn push_ended(alloc: Global, text: &mut Buffer, report: &Json) {
    text.push("ended ");
    match report.text(alloc) {
        Ok(json) => text.push(json.as_str()),
        Err(_) => text.run_out(),
    }
}
