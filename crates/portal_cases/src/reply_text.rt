//! Replies in the words of a file of calls.
use crate::steps::push_answer;
use cases::Buffer;
use portal_base::json_value::Json;
use portal_base::seq::Seq;
use portal_base::text::Text;
use portal_calls::answer::{Kind, Right};
use portal_core::event::{Refusal, Reply};
use std::alloc::Global;

/// Writes the JSON text of the value.
fn push_json(alloc: Global, text: &mut Buffer, value: &Json) {
    match value.text(alloc) {
        Ok(json) => text.push(json.as_str()),
        Err(_) => text.run_out(),
    }
}

/// Writes what a value has at the positions that the part names: of a dictionary the keys of the part, of a list with
/// as many items as the part each item so, and all of another value.
#[cycle(part)]
fn push_part(alloc: Global, text: &mut Buffer, part: &Json, value: &Json) {
    match (part, value) {
        (Json::Map(members), Json::Map(_)) => {
            text.push("{");
            push_members(alloc, text, members, value);
            text.push("}");
        }
        (Json::List(parts), Json::List(items)) if parts.len() == items.len() => {
            text.push("[");
            push_items(alloc, text, parts, items);
            text.push("]");
        }
        _ => push_json(alloc, text, value),
    }
}

#[cycle(part)]
fn push_members(alloc: Global, text: &mut Buffer, members: &Seq<(Text, Json)>, value: &Json) {
    for (key, part) in members.as_slice() {
        text.push(" ");
        text.push(key.as_str());
        text.push(":");
        match value.get(key.as_str()) {
            Some(member) => push_part(alloc, text, part, member),
            None => text.push("absent"),
        }
    }
}

#[cycle(part)]
fn push_items(alloc: Global, text: &mut Buffer, parts: &Seq<Json>, items: &Seq<Json>) {
    for (part, item) in parts.as_slice().iter().zip(items.as_slice().iter()) {
        text.push(" ");
        push_part(alloc, text, part, item);
    }
}

fn kind_text(kind: Kind) -> &'static str {
    match kind {
        Kind::Dataset => "dataset",
        Kind::Resource => "resource",
        Kind::Organization => "organization",
        Kind::Table => "table",
        Kind::HarvestSource => "harvest source",
        Kind::HarvestJob => "harvest job",
    }
}

fn right_text(right: Right) -> &'static str {
    match right {
        Right::CreateDataset => "create dataset",
        Right::EditDataset => "edit dataset",
        Right::PurgeDataset => "purge dataset",
        Right::CreateOrganization => "create organization",
        Right::AdministerOrganization => "administer organization",
    }
}

/// Writes the errors of keys, each as `KEY: MESSAGE`.
fn push_errors(text: &mut Buffer, errors: &[(Text, Text)]) {
    text.push("refused");
    for (key, message) in errors {
        text.push("; ");
        text.push(key.as_str());
        text.push(": ");
        text.push(message.as_str());
    }
}

fn push_refusal(text: &mut Buffer, refusal: &Refusal) {
    match refusal {
        Refusal::NotFound(kind) => {
            text.push("not found: ");
            text.push(kind_text(*kind));
        }
        Refusal::NotAuthorized(right) => {
            text.push("not authorized: ");
            text.push(right_text(*right));
        }
        Refusal::Validation(errors) => push_errors(text, errors.as_slice()),
        Refusal::NameInUse(key) => {
            text.push("in use: ");
            text.push(key.as_str());
        }
        Refusal::KeeperFault => text.push("store failed"),
        Refusal::OutOfMemory => text.push("out of memory"),
    }
}

/// Writes the word and the value: all of it, or what it has at the positions of the part, where there is one.
fn push_value(alloc: Global, text: &mut Buffer, word: &str, part: Option<&Json>, value: &Json) {
    text.push(word);
    match part {
        None => {
            text.push(" ");
            push_json(alloc, text, value);
        }
        Some(part) => {
            text.push(" .. ");
            push_part(alloc, text, part, value);
        }
    }
}

/// The part of a value that is expected, where the reply is expected as `WORD .. PART`.
pub fn part_in(alloc: Global, expected: &str) -> Option<Json> {
    let (_, part) = expected.split_once(" .. ")?;
    Json::read(alloc, part.as_bytes()).ok()
}

/// Writes an expected reply, and its part as that of a reply is written.
pub fn push_expected(alloc: Global, text: &mut Buffer, expected: &str, part: Option<&Json>) {
    match (part, expected.split_once(" .. ")) {
        (Some(part), Some((word, _))) => push_value(alloc, text, word, Some(part), part),
        _ => text.push(expected),
    }
}

/// Writes a reply.
pub fn push_reply(alloc: Global, text: &mut Buffer, part: Option<&Json>, reply: &Reply) {
    match reply {
        Reply::Accepted(value) => push_value(alloc, text, "accepted", part, value),
        Reply::Shown(value) => push_value(alloc, text, "shown", part, value),
        Reply::Refused(refusal) => push_refusal(text, refusal),
        Reply::Harvest(answer) => push_answer(alloc, text, answer),
    }
}
