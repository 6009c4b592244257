//! The value of a body's key `k`, read by its kind.
use crate::json::json_of;
use cases::{Buffer, Case};
use portal_base::json_value::Json;
use portal_base::kinds::{
    KindFault, count_at, dictionary_at, list_at, required, short_text_at, text_at, texts_at,
    truth_at, whole_at,
};
use portal_base::seq::Seq;
use portal_base::text::Text;
use std::alloc::{AllocError, Global};
use std::{fmt, io};

const KEY: &str = "k";

/// Writes the text in quotation marks.
fn push_text(
    answer: &mut Buffer,
    found: Result<Option<&Text>, KindFault>,
) -> Result<(), KindFault> {
    match found? {
        Some(text) => answer.push_all(&["\"", text.as_str(), "\""]),
        None => answer.push("absent"),
    }
    Ok(())
}

fn push_required_text(answer: &mut Buffer, body: &Json) -> Result<(), KindFault> {
    let text = required(text_at(body, KEY)?)?;
    push_text(answer, Ok(Some(text)))
}

/// Writes each text in angle brackets.
fn push_texts(
    answer: &mut Buffer,
    found: Result<Option<Seq<Text>>, KindFault>,
) -> Result<(), KindFault> {
    let Some(texts) = found? else {
        answer.push("absent");
        return Ok(());
    };
    for text in texts.as_slice() {
        answer.push("<");
        answer.push(text.as_str());
        answer.push(">");
    }
    Ok(())
}

/// Writes the value, and what it counts.
fn push_value<T: fmt::Display + Drop>(
    answer: &mut Buffer,
    found: Result<Option<T>, KindFault>,
    unit: &str,
) -> Result<(), KindFault> {
    match found? {
        Some(value) => {
            answer.push_value(&value);
            answer.push(unit);
        }
        None => answer.push("absent"),
    }
    Ok(())
}

/// How many items the list has.
fn count_of<T>(found: Result<Option<&Seq<T>>, KindFault>) -> Result<Option<usize>, KindFault> {
    match found {
        Ok(Some(items)) => Ok(Some(items.len())),
        Ok(None) => Ok(None),
        Err(fault) => Err(fault),
    }
}

/// Writes the value of the body's key as that kind.
fn push_kind(
    alloc: Global,
    answer: &mut Buffer,
    kind: &str,
    body: &Json,
) -> Result<Result<(), KindFault>, AllocError> {
    let pushed = match kind {
        "text" => push_text(answer, text_at(body, KEY)),
        "text, no bytes" => push_text(answer, short_text_at(body, KEY, 0)),
        "text, 5 bytes" => push_text(answer, short_text_at(body, KEY, 5)),
        "text, 2000 bytes" => push_text(answer, short_text_at(body, KEY, 2000)),
        "required text" => push_required_text(answer, body),
        "whole" => push_value(answer, whole_at(body, KEY), ""),
        "whole from 0" => push_value(answer, count_at(body, KEY), ""),
        "truth" => push_value(answer, truth_at(body, KEY), ""),
        "texts" => push_texts(answer, texts_at(alloc, body, KEY)?),
        "list" => push_value(answer, count_of(list_at(body, KEY)), " items"),
        "dictionary" => push_value(answer, count_of(dictionary_at(body, KEY)), " entries"),
        _ => push_value(answer, Ok(Some("no kind")), ""),
    };
    Ok(pushed)
}

/// A kind and a body: its key `k` as that kind, or the key's error.
pub fn value(alloc: Global, case: &Case, answer: &mut Buffer) -> io::Result<()> {
    let body = json_of(alloc, case.bytes(1))?;
    if let Err(fault) = push_kind(alloc, answer, case.text(0)?, &body)? {
        answer.push(fault.message(alloc)?.as_str());
    }
    Ok(())
}
