//! Reads the items of a query's text.
ghost use Rattle.std.specs.Prelude.{◌≡◌, ◌<◌, ◌++◌, ◌∷◌, [], IfNone, IfOk, IfSome, OnOk, encode_utf8_all, length, map};
ghost use Rattle.std.specs.Prelude.{option_to_list};
ghost use Rattle.std.specs.Str.{chars};
ghost use Rattle.search_index.specs.Reading.{item_of_tests, item_of_text, item_of_value, item_texts, items_of};
ghost use Rattle.search_index.specs.Reading.{prefix_tests, terms_of_value, tests_of, unquoted_item};
ghost use Rattle.search_index.specs.declared.item.Test.TheVariants.{Term};

use crate::cut::{Mark, after_first, after_sign, named_field, opens_quote, split_item, value_text};
use crate::field::Field;
use crate::item::{Item, Test};
use crate::terms::{push_value, push_words};
use portal_base::seq::Seq;
use portal_base::text::Text;
use std::alloc::{AllocError, Global};

/// The characters of a text.
fn characters_of(alloc: Global, text: &str) -> Result<Vec<char>, AllocError>
    ensures { IfOk result (λ characters. characters.items ≡ chars text.now) }
{
    text.chars().collect(alloc)
}

/// The text with these characters.
fn text_of(alloc: Global, characters: &[char]) -> Result<Text, AllocError>
    ensures { IfOk result (λ text. text ≡ encode_utf8_all characters.now) }
{
    let text: String = characters.iter().copied().collect(alloc)?;
    Ok(Text::from(text))
}

/// The terms of a value: those of its words, or the one of the whole value.
fn terms_of_value(
    alloc: Global,
    field: Field,
    value: &Text,
    is_prefix: bool,
) -> Result<Vec<Text>, AllocError>
    ensures { IfOk result (λ terms. terms.items ≡ terms_of_value field value.now is_prefix) }
{
    let mut terms = Vec::new(alloc);
    if field.has_words() {
        push_words(alloc, &mut terms, field, value.as_str())?;
    } else if is_prefix || !value.is_empty() {
        push_value(alloc, &mut terms, field, value)?;
    }
    Ok(terms)
}

/// The tests for these terms.
fn term_tests(alloc: Global, terms: Vec<Text>) -> Result<Vec<Test>, AllocError>
    ensures { IfOk result (λ tests. tests.items ≡ map Term terms.items) }
{
    terms.into_iter().map(Test::Term).collect(alloc)
}

/// The tests for these terms, the last of which is a prefix.
#[tactic(auto, using(crate::proofs::ReadingLemmas::prefix_tests_of_last))]
fn prefix_tests(alloc: Global, mut terms: Vec<Text>) -> Result<Vec<Test>, AllocError>
    ensures { IfOk result (λ tests. tests.items ≡ prefix_tests terms.items) }
{
    match terms.pop() {
        Some(last) => {
            let mut tests = term_tests(alloc, terms)?;
            tests.push(Test::Prefix(last))?;
            Ok(tests)
        }
        None => Ok(Vec::new(alloc)),
    }
}

/// The tests for these terms. As a prefix the last of them becomes a prefix.
fn tests_of(alloc: Global, terms: Vec<Text>, is_prefix: bool) -> Result<Vec<Test>, AllocError>
    ensures { IfOk result (λ tests. tests.items ≡ tests_of terms.items is_prefix) }
{
    if is_prefix {
        prefix_tests(alloc, terms)
    } else {
        term_tests(alloc, terms)
    }
}

/// An item with these tests, unless there is none.
fn item_of_tests(is_excluding: bool, tests: Vec<Test>) -> Option<Item>
    ensures { result ≡ item_of_tests is_excluding tests.items }
{
    if tests.is_empty() {
        return None;
    }
    Some(Item {
        is_excluding,
        tests: Seq::from(tests),
    })
}

/// The item that asks for this value in this field.
fn item_of_value(
    alloc: Global,
    is_excluding: bool,
    field: Field,
    value: &[char],
    is_prefix: bool,
) -> Result<Option<Item>, AllocError>
    ensures { IfOk result (λ item. item ≡ item_of_value is_excluding field value.now is_prefix) }
{
    let value = text_of(alloc, value)?;
    let terms = terms_of_value(alloc, field, &value, is_prefix)?;
    let tests = tests_of(alloc, terms, is_prefix)?;
    Ok(item_of_tests(is_excluding, tests))
}

/// The item of a value without double quotes. An asterisk at its end makes it a prefix.
fn unquoted_item(
    alloc: Global,
    is_excluding: bool,
    field: Field,
    value: &[char],
) -> Result<Option<Item>, AllocError>
    ensures { IfOk result (λ item. item ≡ unquoted_item is_excluding field value.now) }
{
    match value {
        [front @ .., '*'] => item_of_value(alloc, is_excluding, field, front, true),
        _ => item_of_value(alloc, is_excluding, field, value, false),
    }
}

/// The item that a text is, unless it is dropped. A plus or a minus may be before it. The minus excludes.
fn item_of_text(alloc: Global, text: &[char]) -> Result<Option<Item>, AllocError>
    ensures { IfOk result (λ item. item ≡ item_of_text text.now) }
{
    let is_excluding = matches!(text, ['-', ..]);
    let body = after_sign(text);
    let field = named_field(body).unwrap_or(Field::Anywhere);
    let value = value_text(body);
    if opens_quote(body) {
        let value = Mark::Quote.until(after_first(value));
        item_of_value(alloc, is_excluding, field, value, false)
    } else {
        unquoted_item(alloc, is_excluding, field, value)
    }
}

/// Adds the item that a text is, unless it is dropped.
fn push_item(alloc: Global, items: &mut Vec<Item>, text: &[char]) -> Result<(), AllocError>
    ensures { OnOk result (items.new.items ≡ items.old.items ++ option_to_list (item_of_text text.now)) }
{
    if let Some(item) = item_of_text(alloc, text)? {
        items.push(item)?;
    }
    Ok(())
}

/// The text of the first item, and what follows it, unless there is only white space.
#[tactic(auto, using(crate::proofs::CutLemmas::from_begins, crate::proofs::GrammarLemmas::reading_turns))]
fn next_item(text: &[char]) -> Option<(&[char], &[char])>
    ensures none { IfNone result (item_texts text.now ≡ []) }
    ensures some { IfSome result (λ found. item_texts text.now ≡ found.0.now ∷ item_texts found.1.now) }
    ensures shorter { IfSome result (λ found. length found.1.now < length text.now) }
{
    let start = Mark::Nonblank.from(text);
    if start.is_empty() {
        return None;
    }
    Some(split_item(start))
}

/// Adds the items of a query's text.
#[tactic(auto, using(crate::proofs::ReadingLemmas::one_more_item))]
pub(crate) fn push_items(alloc: Global, items: &mut Vec<Item>, text: &str) -> Result<(), AllocError>
    ensures { OnOk result (items.new.items ≡ items.old.items ++ items_of text.now) }
{
    let characters = characters_of(alloc, text)?;
    let mut rest = characters.as_slice();
    while let Some((item, after)) = next_item(rest) {
        push_item(alloc, items, item)?;
        rest = after;
    }
    Ok(())
}
