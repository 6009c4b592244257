//! Reads the values of a descriptor's keys that are specific to descriptors. Those that every body has are in
//! portal_base.
ghost use Rattle.std.specs.Prelude.{◌≡◌, ◌∷◌, [], IfOk};
ghost use Rattle.std.specs.Option.{option_copied};
ghost use Rattle.portal_base.specs.Kinds.{present, text_in, list_in};
ghost use Rattle.table_schema.specs.Values.{is_map, truth_in, all_of, texts_in, names_in, or_default};

use crate::listed::ListedTexts;
use portal_base::json_value::Json;
use portal_base::kinds::{list_in, present, text_in};
use portal_base::seq::Seq;
use portal_base::text::Text;
use std::alloc::{AllocError, Global};

pub(crate) fn is_map(value: &Json) -> bool
    ensures { result ≡ is_map value.now }
{
    match value {
        Json::Map(_) => true,
        _ => false,
    }
}

fn truth_in(value: &Json) -> Option<bool>
    ensures { result ≡ truth_in value.now }
{
    match value {
        Json::Truth(truth) => Some(*truth),
        _ => None,
    }
}

/// The truth value of a key, or `otherwise` if the key is absent. Returns none for another value.
pub(crate) fn truth_at(value: &Json, key: &str, otherwise: bool) -> Option<bool>
    ensures { result ≡ or_default truth_in otherwise (present key.now value.now) }
{
    match present(value, key) {
        Some(value) => truth_in(value),
        None => Some(otherwise),
    }
}

fn texts_of(alloc: Global, items: &[Json]) -> Result<Option<Seq<Text>>, AllocError>
    ensures { IfOk result (λ texts. texts ≡ all_of text_in items.now) }
{
    let mut texts = Vec::new(alloc);
    for item in items {
        let Some(text) = text_in(item) else {
            return Ok(None);
        };
        texts.push(Text::from_str(alloc, text.as_str())?)?;
    }
    Ok(Some(Seq::from(texts)))
}

/// Reads a list of texts, in which texts are found by halving. Returns none for another value.
pub(crate) fn listed_in(alloc: Global, value: &Json) -> Result<Option<ListedTexts>, AllocError>
    ensures { IfOk result (λ texts. texts ≡ texts_in value.now) }
{
    match texts_in(alloc, value)? {
        Some(texts) => Ok(Some(ListedTexts::of_texts(alloc, texts)?)),
        None => Ok(None),
    }
}

// Reads a list of texts. Returns none for another value.
fn texts_in(alloc: Global, value: &Json) -> Result<Option<Seq<Text>>, AllocError>
    ensures { IfOk result (λ texts. texts ≡ texts_in value.now) }
{
    match list_in(value) {
        Some(items) => texts_of(alloc, items.as_slice()),
        None => Ok(None),
    }
}

/// Reads a text, or a list of texts. Returns none for another value.
pub(crate) fn names_in(alloc: Global, value: &Json) -> Result<Option<Seq<Text>>, AllocError>
    ensures { IfOk result (λ names. names ≡ names_in value.now) }
{
    match value {
        Json::Text(text) => Ok(Some(one_text(alloc, text)?)),
        Json::List(items) => texts_of(alloc, items.as_slice()),
        _ => Ok(None),
    }
}

fn one_text(alloc: Global, text: &Text) -> Result<Seq<Text>, AllocError>
    ensures { IfOk result (λ texts. texts ≡ text.now ∷ []) }
{
    let mut texts = Vec::new(alloc);
    texts.push(Text::from_str(alloc, text.as_str())?)?;
    Ok(Seq::from(texts))
}
