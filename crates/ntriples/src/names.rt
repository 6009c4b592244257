//! Labels of blank nodes, and language tags.
ghost use Rattle.std.specs.Prelude.{◌≡◌, ◌<◌, ◌∷◌, ◌++◌, true, false, length, string_bytes, OnOk, IfOk, IfNone, IfSome};
ghost use Rattle.std.specs.Char.{encode_utf8};
ghost use Rattle.std.specs.Str.{chars};
ghost use Rattle.ntriples.specs.Reading.{Gives, onto, prepended, character, following};
ghost use Rattle.ntriples.specs.Parsing.{is_in, begins_in, tag_part, run, some_of, subtags_from, langtag, label_rest};
ghost use Rattle.ntriples.specs.Parsing.{blank_node_label};

use crate::characters::{is_digit, is_letter, is_pn_chars, is_pn_chars_u};
use crate::fault::Refusal;
use crate::text::{after, first, strip};
use portal_base::split::split_first;
use portal_base::text::Text;
use std::alloc::{AllocError, Global};

/// A class of characters of which names are made.
#[derive(Clone, Copy, Debug, PartialEq, Eq)]
pub(crate) enum Class {
    /// Of the primary tag of a language.
    Letters,
    /// Of a subtag.
    Alphanumerics,
    /// PN_CHARS.
    Label,
    Dots,
}

impl Class {
    fn allows(self, character: char) -> bool
        ensures { result ≡ is_in self character }
    {
        match self {
            Class::Letters => is_letter(character),
            Class::Alphanumerics => is_letter(character) || is_digit(character),
            Class::Label => is_pn_chars(character),
            Class::Dots => character == '.',
        }
    }

    fn begins(self, text: &str) -> bool
        ensures { result ≡ begins_in self (chars text.now) }
    {
        match split_first(text) {
            Some((character, _)) => self.allows(character),
            None => false,
        }
    }

    // The first character, where it is of this class, and the text after it.
    fn split(self, text: &str) -> Option<(char, &str)>
        ensures none { IfNone result (begins_in self (chars text.now) ≡ false) }
        ensures some { IfSome result (λ x. is_in self x.0 ≡ true) }
        ensures parts { IfSome result (λ x. chars text.now ≡ x.0 ∷ chars x.1.now) }
    {
        let (character, rest) = split_first(text)?;
        if self.allows(character) {
            Some((character, rest))
        } else {
            None
        }
    }

    // The text after the characters of this class at the start.
    fn skip(self, text: &str) -> &str
        ensures { chars result.now ≡ (run self (chars text.now)).1 }
    {
        let mut rest = text;
        while let Some((_, following)) = self.split(rest) {
            rest = following;
        }
        rest
    }

    // Adds the characters of this class at the start, and gives the text after them.
    fn push<'a>(self, value: &mut String, text: &'a str) -> Result<&'a str, AllocError>
        ensures { IfOk result (λ rest. (string_bytes value.new, chars rest.now)
            ≡ onto (string_bytes value.old) (run self (chars text.now))) }
    {
        let mut rest = text;
        while let Some((character, following)) = self.split(rest) {
            value.push(character)?;
            rest = following;
        }
        Ok(rest)
    }
}

// Adds one part of a tag, which has at least one character, and gives the text after it.
#[tactic(auto, using(crate::proofs::NameLemmas::tag_part_some, crate::proofs::NameLemmas::tag_part_none))]
fn push_part<'a>(value: &mut String, part: Class, text: &'a str) -> Result<&'a str, Refusal>
    ensures { Gives (λ rest. (string_bytes value.new, chars rest.now)) result
        (prepended (string_bytes value.old) (tag_part part (chars text.now))) }
{
    if part.begins(text) {
        Ok(part.push(value, text)?)
    } else {
        Err(Refusal::Malformed)
    }
}

// Adds subtags, each with its hyphen, and gives the text after them.
fn push_subtags<'a>(value: &mut String, text: &'a str) -> Result<&'a str, Refusal>
    ensures { Gives (λ rest. (string_bytes value.new, chars rest.now)) result
        (prepended (string_bytes value.old) (subtags_from 0 (chars text.now))) }
{
    let mut rest = text;
    while let Some(following) = strip(rest, '-') {
        value.push('-')?;
        rest = push_part(value, Class::Alphanumerics, following)?;
    }
    Ok(rest)
}

/// LANGTAG after its `@`.
#[tactic(auto, unfolding(crate::specs::Parsing::langtag))]
pub(crate) fn langtag(alloc: Global, text: &str) -> Result<(Text, &str), Refusal>
    ensures { Gives (λ x. (x.0, chars x.1.now)) result (langtag (chars text.now)) }
{
    let mut tag = String::new(alloc);
    let rest = push_part(&mut tag, Class::Letters, text)?;
    let rest = push_subtags(&mut tag, rest)?;
    Ok((Text::from(tag), rest))
}

// Adds PN_CHARS and dots up to the last PN_CHARS, and gives the text after them.
fn push_label<'a>(value: &mut String, text: &'a str) -> Result<&'a str, AllocError>
    ensures { IfOk result (λ rest. (string_bytes value.new, chars rest.now)
        ≡ onto (string_bytes value.old) (label_rest (chars text.now))) }
{
    let mut rest = text;
    while let Some((character, following)) = Class::Label.split(Class::Dots.skip(rest)) {
        Class::Dots.push(value, rest)?;
        value.push(character)?;
        rest = following;
    }
    Ok(rest)
}

/// BLANK_NODE_LABEL. The label is what follows `_:`.
#[tactic(auto, unfolding(crate::specs::Parsing::blank_node_label))]
pub(crate) fn blank_node_label(alloc: Global, text: &str) -> Result<(Text, &str), Refusal>
    ensures { Gives (λ x. (x.0, chars x.1.now)) result (blank_node_label (chars text.now)) }
{
    let rest = after(text, '_')?;
    let rest = after(rest, ':')?;
    let (character, rest) = first(rest)?;
    if !is_pn_chars_u(character) && !is_digit(character) {
        return Err(Refusal::Malformed);
    }
    Ok(label_from(alloc, character, rest)?)
}

// The label that begins with the character, and the text after it.
fn label_from(alloc: Global, character: char, text: &str) -> Result<(Text, &str), AllocError>
    ensures { IfOk result (λ x. (x.0, chars x.1.now) ≡ onto (encode_utf8 character) (label_rest (chars text.now))) }
{
    let mut label = String::new(alloc);
    label.push(character)?;
    let rest = push_label(&mut label, text)?;
    Ok((Text::from(label), rest))
}
