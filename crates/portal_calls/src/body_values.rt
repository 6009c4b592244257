//! The values at a body's keys, or their defaults. A value of another kind counts as absent, and its key gets an error.
ghost use Rattle.std.specs.Prelude.{◌≡◌, IfOk, OnOk};
ghost use Rattle.portal_base.specs.KeyErrors.{kind_message, with_error, error_if};
ghost use Rattle.portal_base.specs.Kinds.{count_at, dictionary_at, message_of, text_at, texts_at, truth_at, whole_at};
ghost use Rattle.portal_calls.specs.BodyValues.{count_or, dictionary_or_empty, text_or, texts_or_none, truth_or, whole_or};

use portal_base::copy::TryClone;
use portal_base::json_value::Json;
use portal_base::key_errors::KeyErrors;
use portal_base::kinds::{
    KindFault, count_at, dictionary_at, text_at, texts_at, truth_at, whole_at,
};
use portal_base::seq::Seq;
use portal_base::text::Text;
use std::alloc::{AllocError, Global};

/// Adds the error of a key whose value is of another kind.
fn add_kind_error(
    alloc: Global,
    faults: &mut KeyErrors,
    key: &'static str,
    fault: KindFault,
) -> Result<(), AllocError>
    ensures { OnOk result (faults.new ≡ with_error key.now (message_of fault) faults.old) }
{
    let message = fault.message(alloc)?;
    faults.add_error(Text::from_static(key), message)
}

/// The number at a key, or the default: a whole number from 0. A larger one than the last of a u64 counts as that. Adds the
/// key's error.
pub fn count_or(
    alloc: Global,
    faults: &mut KeyErrors,
    body: &Json,
    key: &'static str,
    default: u64,
) -> Result<u64, AllocError>
    ensures count { IfOk result (λ count. count ≡ count_or default key.now body.now) }
    ensures errors { OnOk result (faults.new ≡ error_if key.now (kind_message (count_at key.now body.now)) faults.old) }
{
    match faults.check(alloc, key, count_at(body, key))? {
        Some(Some(count)) => Ok(u64::try_from(count).unwrap_or(u64::MAX)),
        _ => Ok(default),
    }
}

/// The whole number at a key, or the default. Adds the key's error.
pub fn whole_or(
    alloc: Global,
    faults: &mut KeyErrors,
    body: &Json,
    key: &'static str,
    default: i128,
) -> Result<i128, AllocError>
    ensures whole { IfOk result (λ whole. whole ≡ whole_or default key.now body.now) }
    ensures errors { OnOk result (faults.new ≡ error_if key.now (kind_message (whole_at key.now body.now)) faults.old) }
{
    match faults.check(alloc, key, whole_at(body, key))? {
        Some(Some(whole)) => Ok(whole),
        _ => Ok(default),
    }
}

/// The truth value at a key, or the default. Adds the key's error.
pub fn truth_or(
    alloc: Global,
    faults: &mut KeyErrors,
    body: &Json,
    key: &'static str,
    default: bool,
) -> Result<bool, AllocError>
    ensures truth { IfOk result (λ truth. truth ≡ truth_or default key.now body.now) }
    ensures errors { OnOk result (faults.new ≡ error_if key.now (kind_message (truth_at key.now body.now)) faults.old) }
{
    match faults.check(alloc, key, truth_at(body, key))? {
        Some(Some(truth)) => Ok(truth),
        _ => Ok(default),
    }
}

/// The text at a key, or the default. Adds the key's error.
pub fn text_or(
    alloc: Global,
    faults: &mut KeyErrors,
    body: &Json,
    key: &'static str,
    default: &'static str,
) -> Result<Text, AllocError>
    ensures text { IfOk result (λ text. text ≡ text_or default.now key.now body.now) }
    ensures errors { OnOk result (faults.new ≡ error_if key.now (kind_message (text_at key.now body.now)) faults.old) }
{
    match text_at(body, key) {
        Ok(Some(text)) => text.try_clone(alloc),
        Ok(None) => Ok(Text::from_static(default)),
        Err(fault) => {
            add_kind_error(alloc, faults, key, fault)?;
            Ok(Text::from_static(default))
        }
    }
}

/// The texts at a key, if the body has it. Adds the key's error.
pub fn texts_or_none(
    alloc: Global,
    faults: &mut KeyErrors,
    body: &Json,
    key: &'static str,
) -> Result<Option<Seq<Text>>, AllocError>
    ensures texts { IfOk result (λ texts. texts ≡ texts_or_none key.now body.now) }
    ensures errors { OnOk result (faults.new ≡ error_if key.now (kind_message (texts_at key.now body.now)) faults.old) }
{
    let read = texts_at(alloc, body, key)?;
    match faults.check(alloc, key, read)? {
        Some(texts) => Ok(texts),
        None => Ok(None),
    }
}

/// The dictionary at a key, or an empty one. Adds the key's error.
pub fn dictionary_or_empty(
    alloc: Global,
    faults: &mut KeyErrors,
    body: &Json,
    key: &'static str,
) -> Result<Json, AllocError>
    ensures dictionary { IfOk result (λ dictionary. dictionary ≡ dictionary_or_empty key.now body.now) }
    ensures errors { OnOk result
        (faults.new ≡ error_if key.now (kind_message (dictionary_at key.now body.now)) faults.old) }
{
    match dictionary_at(body, key) {
        Ok(Some(entries)) => Ok(Json::Map(entries.try_clone(alloc)?)),
        Ok(None) => Ok(Json::Map(Seq::new(alloc))),
        Err(fault) => {
            add_kind_error(alloc, faults, key, fault)?;
            Ok(Json::Map(Seq::new(alloc)))
        }
    }
}
