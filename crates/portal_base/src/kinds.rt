//! The values of a body's keys, read by their kinds.
//!
//! A function that reads a value (`text_in`) returns it as that kind, or `None`. A function that reads a key
//! (`text_at`) returns `None` if the key is absent, and otherwise the value or its first fault: the kind is checked
//! before the bound. `required` refuses an absent key.
ghost use Rattle.std.specs.Prelude.{◌≡◌, ◌<◌, ◌∷◌, ◌++◌, [], IfOk, OnOk, IfNone, IfSome, filter, length};
ghost use Rattle.std.specs.Option.{option_copied};
ghost use Rattle.std.specs.Result.{result_map_both};
ghost use Rattle.portal_base.specs.Kinds.{present, text_in, list_in, dictionary_in, is_digits, digits_spelled};
ghost use Rattle.portal_base.specs.Kinds.{whole_spelled, whole_in, count_in, truth_spelled, truth_in, trimmed_start};
ghost use Rattle.portal_base.specs.Kinds.{trimmed_end, trimmed, is_nonempty, texts_spelled, all_of, texts_in, text_at};
ghost use Rattle.portal_base.specs.Kinds.{whole_at, count_at, truth_at, texts_at, list_at, dictionary_at};
ghost use Rattle.portal_base.specs.Kinds.{short_text_at, required, message_of};

use crate::characters::has_only_digits;
use crate::json_value::Json;
use crate::seq::Seq;
use crate::text::Text;
use std::alloc::{AllocError, Global};

/// Why a key of a body is refused.
#[derive(Clone, Copy, Debug, PartialEq, Eq)]
pub enum KindFault {
    /// The key is absent, or its value is null.
    Missing,
    NotText,
    /// The value is not a whole number, or it is below 0.
    NotWholeFromZero,
    NotWhole,
    NotTruth,
    NotTexts,
    NotList,
    NotDictionary,
    /// The text has more bytes of UTF-8 than this.
    Longer(usize),
}

impl KindFault {
    /// The message for the caller. Only that of `Longer` takes memory.
    pub fn message(&self, alloc: Global) -> Result<Text, AllocError>
        ensures { IfOk result (λ text. text ≡ message_of self.now) }
    {
        let words = match self {
            KindFault::Missing => "Missing value",
            KindFault::NotText => "Must be text",
            KindFault::NotWholeFromZero => "Must be a whole number from 0",
            KindFault::NotWhole => "Must be a whole number",
            KindFault::NotTruth => "Must be a truth value",
            KindFault::NotTexts => "Must be a list of texts",
            KindFault::NotList => "Must be a list",
            KindFault::NotDictionary => "Must be a dictionary",
            KindFault::Longer(longest) => return longer_than(alloc, *longest),
        };
        Ok(Text::from_static(words))
    }
}

fn longer_than(alloc: Global, longest: usize) -> Result<Text, AllocError>
    ensures { IfOk result (λ text. text ≡ message_of (KindFault.Longer longest)) }
{
    let string = format!(in alloc; "Longer than {longest} bytes")?;
    Ok(Text::from(string))
}

// ---- values

/// The value of a dictionary's key. A null value counts as absent.
pub fn present<'a>(body: &'a Json, key: &str) -> Option<&'a Json>
    ensures { option_copied result ≡ present key.now body.now }
{
    match body.get(key) {
        Some(Json::Null) => None,
        found => found,
    }
}

/// The value as a text.
pub fn text_in(value: &Json) -> Option<&Text>
    ensures { option_copied result ≡ text_in value.now }
{
    match value {
        Json::Text(text) => Some(text),
        _ => None,
    }
}

/// The items of a list.
pub fn list_in(value: &Json) -> Option<&Seq<Json>>
    ensures { option_copied result ≡ list_in value.now }
{
    match value {
        Json::List(items) => Some(items),
        _ => None,
    }
}

/// The entries of a dictionary.
pub fn dictionary_in(value: &Json) -> Option<&Seq<(Text, Json)>>
    ensures { option_copied result ≡ dictionary_in value.now }
{
    match value {
        Json::Map(entries) => Some(entries),
        _ => None,
    }
}

/// A whole number, or a text of an optional `-` and 1 to 18 ASCII digits.
pub fn whole_in(value: &Json) -> Option<i128>
    ensures { result ≡ whole_in value.now }
{
    match value {
        Json::Whole(number) => Some(*number),
        Json::Text(text) => whole_spelled(text.as_str()),
        _ => None,
    }
}

/// The value as `whole_in` reads it, if it is not negative.
pub fn count_in(value: &Json) -> Option<u128>
    ensures { result ≡ count_in value.now }
{
    match u128::try_from(whole_in(value)?) {
        Ok(number) => Some(number),
        Err(_) => None,
    }
}

/// A truth value, or one of the texts `true`, `True`, `1`, `false`, `False` and `0`.
pub fn truth_in(value: &Json) -> Option<bool>
    ensures { result ≡ truth_in value.now }
{
    match value {
        Json::Truth(truth) => Some(*truth),
        Json::Text(text) => truth_spelled(text.as_str()),
        _ => None,
    }
}

/// A list of texts, unchanged; or the parts of one text between its commas. Spaces and tabs around a part are dropped,
/// and so are empty parts.
pub fn texts_in(alloc: Global, value: &Json) -> Result<Option<Seq<Text>>, AllocError>
    ensures { IfOk result (λ texts. texts ≡ texts_in value.now) }
{
    match value {
        Json::Text(text) => Ok(Some(texts_spelled(alloc, text.as_str())?)),
        Json::List(items) => all_texts(alloc, items.as_slice()),
        _ => Ok(None),
    }
}

// Parses a whole number.
fn whole_spelled(text: &str) -> Option<i128>
    ensures { result ≡ whole_spelled text.now }
{
    match text.strip_prefix('-') {
        Some(digits) => Some(-i128::from(digits_spelled(digits)?)),
        None => Some(i128::from(digits_spelled(text)?)),
    }
}

/// The number that 1 to 18 digits spell. It is none for any other text.
pub fn digits_spelled(text: &str) -> Option<u64>
    ensures { result ≡ digits_spelled text.now }
{
    if !is_digits(text) {
        return None;
    }
    text.parse::<u64>().ok()
}

// Whether the text is 1 to 18 digits.
fn is_digits(text: &str) -> bool
    ensures { result ≡ is_digits text.now }
{
    !text.is_empty() && text.len() <= 18 && has_only_digits(text.as_bytes())
}

// Parses a truth value.
fn truth_spelled(text: &str) -> Option<bool>
    ensures { result ≡ truth_spelled text.now }
{
    match text {
        "true" | "True" | "1" => Some(true),
        "false" | "False" | "0" => Some(false),
        _ => None,
    }
}

// The items, if all are texts.
fn all_texts(alloc: Global, items: &[Json]) -> Result<Option<Seq<Text>>, AllocError>
    ensures { IfOk result (λ texts. texts ≡ all_of text_in items.now) }
{
    let mut texts = Vec::new(alloc);
    for item in items {
        let Some(text) = text_in(item) else {
            return Ok(None);
        };
        texts.push(Text::from_str(alloc, text.as_str())?)?;
    }
    Ok(Some(Seq::from(texts)))
}

// Splits a text at its commas, trims the parts and drops the empty ones.
fn texts_spelled(alloc: Global, text: &str) -> Result<Seq<Text>, AllocError>
    ensures { IfOk result (λ texts. texts ≡ texts_spelled text.now) }
{
    let mut texts = Vec::new(alloc);
    for part in text.split(',') {
        push_part(alloc, &mut texts, trimmed(part))?;
    }
    Ok(Seq::from(texts))
}

// Adds the part if it is not empty.
fn push_part(alloc: Global, texts: &mut Vec<Text>, part: &str) -> Result<(), AllocError>
    ensures { OnOk result (texts.new.items ≡ texts.old.items ++ filter is_nonempty (part.now ∷ [])) }
{
    if !part.is_empty() {
        texts.push(Text::from_str(alloc, part)?)?;
    }
    Ok(())
}

// The text without the spaces and tabs at both ends.
fn trimmed(text: &str) -> &str
    ensures { result.now ≡ trimmed text.now }
{
    trimmed_end(trimmed_start(text))
}

// The text without the spaces and tabs at its start.
fn trimmed_start(text: &str) -> &str
    ensures { result.now ≡ trimmed_start text.now }
{
    let mut rest = text;
    while let Some(after) = strip_leading_blank(rest) {
        rest = after;
    }
    rest
}

// The text without the spaces and tabs at its end.
fn trimmed_end(text: &str) -> &str
    ensures { result.now ≡ trimmed_end text.now }
{
    let mut rest = text;
    while let Some(before) = strip_trailing_blank(rest) {
        rest = before;
    }
    rest
}

// The text after one leading space or tab.
fn strip_leading_blank(text: &str) -> Option<&str>
    ensures none { IfNone result (trimmed_start text.now ≡ text.now) }
    ensures some { IfSome result (λ rest. trimmed_start text.now ≡ trimmed_start rest.now) }
    ensures shorter { IfSome result (λ rest. length rest.now < length text.now) }
{
    match text.strip_prefix(' ') {
        Some(rest) => Some(rest),
        None => text.strip_prefix('\t'),
    }
}

// The text before one trailing space or tab.
fn strip_trailing_blank(text: &str) -> Option<&str>
    ensures none { IfNone result (trimmed_end text.now ≡ text.now) }
    ensures some { IfSome result (λ rest. trimmed_end text.now ≡ trimmed_end rest.now) }
    ensures shorter { IfSome result (λ rest. length rest.now < length text.now) }
{
    match text.strip_suffix(' ') {
        Some(rest) => Some(rest),
        None => text.strip_suffix('\t'),
    }
}

// ---- keys of a body

/// The text of a key, if the key is present.
pub fn text_at<'a>(body: &'a Json, key: &str) -> Result<Option<&'a Text>, KindFault>
    ensures { result_map_both option_copied (λ fault. fault) result ≡ text_at key.now body.now }
{
    match present(body, key) {
        None => Ok(None),
        Some(value) => match text_in(value) {
            Some(text) => Ok(Some(text)),
            None => Err(KindFault::NotText),
        },
    }
}

/// The text of a key, of at most `longest` bytes of UTF-8, if the key is present.
pub fn short_text_at<'a>(
    body: &'a Json,
    key: &str,
    longest: usize,
) -> Result<Option<&'a Text>, KindFault>
    ensures { result_map_both option_copied (λ fault. fault) result ≡ short_text_at longest key.now body.now }
{
    match text_at(body, key) {
        Ok(Some(text)) if longest < text.len() => Err(KindFault::Longer(longest)),
        found => found,
    }
}

/// The whole number of a key, if the key is present.
pub fn whole_at(body: &Json, key: &str) -> Result<Option<i128>, KindFault>
    ensures { result ≡ whole_at key.now body.now }
{
    match present(body, key) {
        None => Ok(None),
        Some(value) => match whole_in(value) {
            Some(number) => Ok(Some(number)),
            None => Err(KindFault::NotWhole),
        },
    }
}

/// The whole number of a key, which is not negative, if the key is present.
pub fn count_at(body: &Json, key: &str) -> Result<Option<u128>, KindFault>
    ensures { result ≡ count_at key.now body.now }
{
    match present(body, key) {
        None => Ok(None),
        Some(value) => match count_in(value) {
            Some(number) => Ok(Some(number)),
            None => Err(KindFault::NotWholeFromZero),
        },
    }
}

/// The truth value of a key, if the key is present.
pub fn truth_at(body: &Json, key: &str) -> Result<Option<bool>, KindFault>
    ensures { result ≡ truth_at key.now body.now }
{
    match present(body, key) {
        None => Ok(None),
        Some(value) => match truth_in(value) {
            Some(truth) => Ok(Some(truth)),
            None => Err(KindFault::NotTruth),
        },
    }
}

/// The texts of a key, if the key is present. The outer error is `AllocError`, if memory runs out.
pub fn texts_at(
    alloc: Global,
    body: &Json,
    key: &str,
) -> Result<Result<Option<Seq<Text>>, KindFault>, AllocError>
    ensures { IfOk result (λ texts. texts ≡ texts_at key.now body.now) }
{
    match present(body, key) {
        None => Ok(Ok(None)),
        Some(value) => match texts_in(alloc, value)? {
            Some(texts) => Ok(Ok(Some(texts))),
            None => Ok(Err(KindFault::NotTexts)),
        },
    }
}

/// The list of a key, if the key is present.
pub fn list_at<'a>(body: &'a Json, key: &str) -> Result<Option<&'a Seq<Json>>, KindFault>
    ensures { result_map_both option_copied (λ fault. fault) result ≡ list_at key.now body.now }
{
    match present(body, key) {
        None => Ok(None),
        Some(value) => match list_in(value) {
            Some(items) => Ok(Some(items)),
            None => Err(KindFault::NotList),
        },
    }
}

/// The entries of the dictionary of a key, if the key is present.
pub fn dictionary_at<'a>(
    body: &'a Json,
    key: &str,
) -> Result<Option<&'a Seq<(Text, Json)>>, KindFault>
    ensures { result_map_both option_copied (λ fault. fault) result ≡ dictionary_at key.now body.now }
{
    match present(body, key) {
        None => Ok(None),
        Some(value) => match dictionary_in(value) {
            Some(entries) => Ok(Some(entries)),
            None => Err(KindFault::NotDictionary),
        },
    }
}

/// The value of a key, or `Missing` if it is absent.
pub fn required<T>(found: Option<T>) -> Result<T, KindFault>
    ensures { result ≡ required found }
{
    match found {
        Some(value) => Ok(value),
        None => Err(KindFault::Missing),
    }
}
