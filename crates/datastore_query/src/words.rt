//! Words: which rows have each word of a query as a token of a cell.
ghost use Rattle.std.specs.Prelude.{◌≡◌, ◌++◌, All, IfOk, OnOk, flat_map};
ghost use Rattle.std.specs.List.{list_all, list_any};
ghost use Rattle.std.specs.List.Sorted.{IsSorted};
ghost use Rattle.std.specs.Cmp.Lexicographic.{slice_cmp};
ghost use Rattle.std.specs.Ordering.{nat_cmp};
ghost use Rattle.std.specs.Str.{bytes_eq, chars};
ghost use Rattle.portal_base.specs.Tokens.{token_of_word, tokens};
ghost use Rattle.table_schema.specs.Printed.{IsValue};
ghost use Rattle.datastore_query.specs.Repeats.{PassAlike};
ghost use Rattle.datastore_query.specs.Words.{cell_tokens, has_word, has_words, row_tokens};

use crate::ascii_words::{has_ascii_token, starts_with_digit};
use caseless::default_case_fold_str;
use datastore_table::Row;
use portal_base::characters::is_word_character;
use portal_base::copy::TryClone;
use portal_base::text::Text;
use portal_base::tokens::tokens;
use std::alloc::{AllocError, Global};
use std::marker::Model;
use table_schema::{Cell, cell_text};

/// The count of words up to which a row is looked through for each of them, and its tokens aren't put in order.
const FEW_WORDS: usize = 3;

/// The words of a query, each once and in ascending order. Contracts see them as the query has them.
#[derive(Drop)]
pub(crate) struct WordSet<'a> {
    words: &'a [Text],
    once: Vec<Text>,
}

impl<'a> Model for WordSet<'a> {
    ghost use Rattle.std.specs.Prelude.{ℕ, List};
    ghost use Rattle.datastore_query.specs.Repeats.{PassAlike};

    ghost Value = { List (List ℕ) };

    ghost view = { λ set. set.words.now };

    ghost invariant = { λ set. PassAlike set.words.now set.once.items };
}

// Copies of the words.
fn copies(alloc: Global, words: &[Text]) -> Result<Vec<Text>, AllocError>
    ensures { IfOk result (λ copies. copies.items ≡ words.now) }
{
    let mut copies = Vec::with_capacity(alloc, words.len())?;
    for word in words {
        copies.push(word.try_clone(alloc)?)?;
    }
    Ok(copies)
}

// Each of the words once, in ascending order.
fn once(mut words: Vec<Text>) -> Vec<Text>
    ensures { PassAlike words.items result.items }
{
    words.sort_unstable();
    words.dedup();
    words
}

impl<'a> WordSet<'a> {
    pub(crate) fn of(alloc: Global, words: &'a [Text]) -> Result<WordSet<'a>, AllocError>
        ensures { IfOk result (λ set. set ≡ words.now) }
    {
        let once = once(copies(alloc, words)?);
        Ok(WordSet { words, once })
    }
}

// Adds the tokens of a cell's text.
fn push_tokens(alloc: Global, found: &mut Vec<Text>, cell: &Cell) -> Result<(), AllocError>
    requires { IsValue cell.now }
    ensures { OnOk result (found.new.items ≡ found.old.items ++ cell_tokens cell.now) }
{
    let text = cell_text(alloc, cell)?;
    for token in tokens(alloc, text.as_str())?.into_vec() {
        found.push(token)?;
    }
    Ok(())
}

// The tokens of a row's cells.
fn row_tokens(alloc: Global, row: &Row) -> Result<Vec<Text>, AllocError>
    requires { All IsValue row.now.cells }
    ensures { IfOk result (λ found. found.items ≡ row_tokens row.now) }
{
    let mut found = Vec::new(alloc);
    for cell in row.cells.as_slice() {
        push_tokens(alloc, &mut found, cell)?;
    }
    Ok(found)
}

// Whether a word of a text, or nothing between two separators, has this token.
fn is_token_of(alloc: Global, word: &str, token: &str) -> Result<bool, AllocError>
    ensures { IfOk result (λ is. is ≡ has_word (token_of_word (chars word.now)) token.now) }
{
    if word.is_empty() {
        return Ok(false);
    }
    let folded = default_case_fold_str(alloc, word)?;
    Ok(folded.as_str() == token)
}

// Whether the text has this token. Its words are read one after another into the buffer, and folded.
fn has_folded_token(
    alloc: Global,
    buffer: &mut String,
    text: &str,
    token: &str,
) -> Result<bool, AllocError>
    ensures { IfOk result (λ has. has ≡ has_word (tokens text.now) token.now) }
{
    buffer.clear();
    for character in text.chars() {
        if is_word_character(character) {
            buffer.push(character)?;
        } else {
            if is_token_of(alloc, buffer.as_str(), token)? {
                return Ok(true);
            }
            buffer.clear();
        }
    }
    is_token_of(alloc, buffer.as_str(), token)
}

// Whether the text has this token. An ASCII text is looked through where it is.
fn has_token(
    alloc: Global,
    buffer: &mut String,
    text: &str,
    token: &str,
) -> Result<bool, AllocError>
    ensures { IfOk result (λ has. has ≡ has_word (tokens text.now) token.now) }
{
    if text.is_ascii() {
        return Ok(has_ascii_token(text.as_bytes(), token.as_bytes()));
    }
    has_folded_token(alloc, buffer, text, token)
}

// Whether the cell has this token. A whole number is printed only where the token begins with a digit.
fn cell_has(
    alloc: Global,
    buffer: &mut String,
    cell: &Cell,
    token: &str,
) -> Result<bool, AllocError>
    requires { IsValue cell.now }
    ensures { IfOk result (λ has. has ≡ has_word (cell_tokens cell.now) token.now) }
{
    match cell {
        Cell::Text(text) => has_token(alloc, buffer, text.as_str(), token),
        Cell::Int(_) if !starts_with_digit(token.as_bytes()) => Ok(false),
        other => {
            let text = cell_text(alloc, other)?;
            has_token(alloc, buffer, text.as_str(), token)
        }
    }
}

// Whether one of the row's cells has this token.
fn row_has(alloc: Global, buffer: &mut String, row: &Row, token: &str) -> Result<bool, AllocError>
    requires { All IsValue row.now.cells }
    ensures { IfOk result (λ has. has ≡ has_word (row_tokens row.now) token.now) }
{
    for cell in row.cells.as_slice() {
        if cell_has(alloc, buffer, cell, token)? {
            return Ok(true);
        }
    }
    Ok(false)
}

// Whether the row has each of the words. It looks through the row for each of them.
fn has_each(alloc: Global, words: &[Text], row: &Row) -> Result<bool, AllocError>
    requires { All IsValue row.now.cells }
    ensures { IfOk result (λ has. has ≡ list_all (has_word (row_tokens row.now)) words.now) }
{
    let mut buffer = String::new(alloc);
    for word in words {
        if !row_has(alloc, &mut buffer, row, word.as_str())? {
            return Ok(false);
        }
    }
    Ok(true)
}

// Whether the word is among the tokens, which are in order. It is found by halving.
fn has_word_in_order(found: &[Text], word: &Text) -> bool
    requires { IsSorted (slice_cmp nat_cmp) found.now }
    ensures { result ≡ has_word found.now word.now }
{
    found.binary_search(word).is_ok()
}

fn are_all_found_in_order(found: &[Text], words: &[Text]) -> bool
    requires { IsSorted (slice_cmp nat_cmp) found.now }
    ensures { result ≡ list_all (has_word found.now) words.now }
{
    words.iter().all(|word| has_word_in_order(found, word))
}

// Puts the tokens in order, and looks each of the words up among them.
#[tactic(auto, using(crate::proofs::WordLemmas::has_words_sorted))]
fn are_all_found_sorted(mut found: Vec<Text>, words: &[Text]) -> bool
    ensures { result ≡ list_all (has_word found.items) words.now }
{
    found.sort_unstable();
    are_all_found_in_order(found.as_slice(), words)
}

/// Whether a row has each of these words among the tokens of its cells.
pub(crate) fn has_words(alloc: Global, words: &WordSet, row: &Row) -> Result<bool, AllocError>
    requires { All IsValue row.now.cells }
    ensures { IfOk result (λ found. found ≡ has_words words.now row.now) }
{
    let once = words.once.as_slice();
    if once.is_empty() {
        return Ok(true);
    }
    if once.len() <= FEW_WORDS {
        return has_each(alloc, once, row);
    }
    Ok(are_all_found_sorted(row_tokens(alloc, row)?, once))
}
