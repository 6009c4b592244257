//! What is between an opening and a closing character: IRIs, and the lexical forms of literals.
ghost use Rattle.std.specs.Prelude.{◌≡◌, ◌<◌, ◌^◌, IfOk};
ghost use Rattle.std.specs.Str.{chars};
ghost use Rattle.ntriples.specs.Reading.{Gives, character};
ghost use Rattle.ntriples.specs.Parsing.{hex, hex2, hex4, scalar, short_code, long_code, uchar, literal_escape};
ghost use Rattle.ntriples.specs.Grammar.{echar};
ghost use Rattle.ntriples.specs.Parsing.{closing, is_unescaped, escape, escaped_character, quoted_character};
ghost use Rattle.ntriples.specs.Parsing.{quoted, iriref};

use crate::characters::is_iri_character;
use crate::fault::Refusal;
use crate::text::{after, first};
use portal_base::text::Text;
use std::alloc::Global;

/// What is quoted.
#[derive(Clone, Copy, Debug, PartialEq, Eq)]
pub(crate) enum QuoteKind {
    Iri,
    Literal,
}

// A hexadecimal digit.
#[tactic(auto, unfolding(crate::specs::Parsing::hex))]
fn hex(text: &str) -> Result<(u32, &str), Refusal>
    ensures digit { Gives (λ x. (x.0, chars x.1.now)) result (hex (chars text.now)) }
    ensures below { IfOk result (λ x. x.0 < 16) }
{
    let (character, rest) = first(text)?;
    match character.to_digit(16) {
        Some(digit) => Ok((digit, rest)),
        None => Err(Refusal::Malformed),
    }
}

// The number of two digits.
#[tactic(auto, unfolding(crate::specs::Parsing::hex2))]
fn hex2(text: &str) -> Result<(u32, &str), Refusal>
    ensures number { Gives (λ x. (x.0, chars x.1.now)) result (hex2 (chars text.now)) }
    ensures below { IfOk result (λ x. x.0 < 2 ^ 8) }
{
    let (first, rest) = hex(text)?;
    let (second, rest) = hex(rest)?;
    Ok((16 * first + second, rest))
}

// The number of four digits.
#[tactic(auto, unfolding(crate::specs::Parsing::hex4))]
fn hex4(text: &str) -> Result<(u32, &str), Refusal>
    ensures number { Gives (λ x. (x.0, chars x.1.now)) result (hex4 (chars text.now)) }
    ensures below { IfOk result (λ x. x.0 < 2 ^ 16) }
{
    let (high, rest) = hex2(text)?;
    let (low, rest) = hex2(rest)?;
    Ok((256 * high + low, rest))
}

fn scalar(code: u32, rest: &str) -> Result<(char, &str), Refusal>
    ensures { Gives (λ x. (x.0, chars x.1.now)) result (scalar code (chars rest.now)) }
{
    match char::from_u32(code) {
        Some(character) => Ok((character, rest)),
        None => Err(Refusal::Malformed),
    }
}

#[tactic(auto, unfolding(crate::specs::Parsing::short_code))]
fn short_code(text: &str) -> Result<(char, &str), Refusal>
    ensures { Gives (λ x. (x.0, chars x.1.now)) result (short_code (chars text.now)) }
{
    let (code, rest) = hex4(text)?;
    scalar(code, rest)
}

#[tactic(auto, unfolding(crate::specs::Parsing::long_code))]
fn long_code(text: &str) -> Result<(char, &str), Refusal>
    ensures { Gives (λ x. (x.0, chars x.1.now)) result (long_code (chars text.now)) }
{
    let (high, rest) = hex4(text)?;
    let (low, rest) = hex4(rest)?;
    scalar(65536 * high + low, rest)
}

// UCHAR after its backslash.
#[tactic(auto, unfolding(crate::specs::Parsing::uchar))]
fn uchar(text: &str) -> Result<(char, &str), Refusal>
    ensures { Gives (λ x. (x.0, chars x.1.now)) result (uchar (chars text.now)) }
{
    let (character, rest) = first(text)?;
    if character == 'u' {
        short_code(rest)
    } else if character == 'U' {
        long_code(rest)
    } else {
        Err(Refusal::Malformed)
    }
}

// What ECHAR stands for, by the character after its backslash.
#[tactic(auto, unfolding(crate::specs::Grammar::echar))]
fn echar(character: char) -> Option<char>
    ensures { result ≡ echar character }
{
    match character {
        't' => Some('\t'),
        'b' => Some('\u{8}'),
        'n' => Some('\n'),
        'r' => Some('\r'),
        'f' => Some('\u{C}'),
        '"' => Some('"'),
        '\'' => Some('\''),
        '\\' => Some('\\'),
        _ => None,
    }
}

// ECHAR or UCHAR after the backslash.
#[tactic(auto, unfolding(crate::specs::Parsing::literal_escape))]
fn literal_escape(text: &str) -> Result<(char, &str), Refusal>
    ensures { Gives (λ x. (x.0, chars x.1.now)) result (literal_escape (chars text.now)) }
{
    let (character, rest) = first(text)?;
    match echar(character) {
        Some(character) => Ok((character, rest)),
        None => uchar(text),
    }
}

impl QuoteKind {
    fn closing(self) -> char
        ensures { result ≡ closing self }
    {
        match self {
            QuoteKind::Iri => '>',
            QuoteKind::Literal => '"',
        }
    }

    // Whether the character may stand for itself.
    fn is_unescaped(self, character: char) -> bool
        ensures { result ≡ is_unescaped self character }
    {
        match self {
            QuoteKind::Iri => is_iri_character(character),
            QuoteKind::Literal => character != '\n' && character != '\r',
        }
    }

    // What an escape stands for, after its backslash.
    fn escape(self, text: &str) -> Result<(char, &str), Refusal>
        ensures { Gives (λ x. (x.0, chars x.1.now)) result (escape self (chars text.now)) }
    {
        match self {
            QuoteKind::Iri => uchar(text),
            QuoteKind::Literal => literal_escape(text),
        }
    }
}

// What an escape of what is quoted stands for, after its backslash.
fn escaped_character(kind: QuoteKind, text: &str) -> Result<(Option<char>, &str), Refusal>
    ensures { Gives (λ x. (x.0, chars x.1.now)) result (escaped_character kind (chars text.now)) }
{
    let (character, rest) = kind.escape(text)?;
    Ok((Some(character), rest))
}

// The next character of what is quoted, or none at the closing one.
#[tactic(auto, unfolding(crate::specs::Parsing::quoted_character))]
fn quoted_character(kind: QuoteKind, text: &str) -> Result<(Option<char>, &str), Refusal>
    ensures { Gives (λ x. (x.0, chars x.1.now)) result (quoted_character kind (chars text.now)) }
{
    let (character, rest) = first(text)?;
    if character == kind.closing() {
        Ok((None, rest))
    } else if character == '\\' {
        escaped_character(kind, rest)
    } else if kind.is_unescaped(character) {
        Ok((Some(character), rest))
    } else {
        Err(Refusal::Malformed)
    }
}

/// What is quoted, after the opening character and up to the closing one, with each escape replaced by the
/// character that it stands for.
pub(crate) fn quoted(alloc: Global, kind: QuoteKind, text: &str) -> Result<(Text, &str), Refusal>
    ensures { Gives (λ x. (x.0, chars x.1.now)) result (quoted kind (chars text.now)) }
{
    let mut value = String::new(alloc);
    let mut rest = text;
    loop {
        let (next, following) = quoted_character(kind, rest)?;
        match next {
            Some(character) => value.push(character)?,
            None => return Ok((Text::from(value), following)),
        }
        rest = following;
    }
}

/// IRIREF.
#[tactic(auto, unfolding(crate::specs::Parsing::iriref))]
pub(crate) fn iriref(alloc: Global, text: &str) -> Result<(Text, &str), Refusal>
    ensures { Gives (λ x. (x.0, chars x.1.now)) result (iriref (chars text.now)) }
{
    let rest = after(text, '<')?;
    quoted(alloc, QuoteKind::Iri, rest)
}
