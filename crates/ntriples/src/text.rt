//! One character at a time of a text.
ghost use Rattle.std.specs.Prelude.{◌≡◌, ◌∷◌, ◌<◌, [], length, None, Some, IfNone, IfSome};
ghost use Rattle.std.specs.Str.{chars};
ghost use Rattle.ntriples.specs.Reading.{Gives, character, following, skip_blanks};

use crate::fault::Refusal;
use portal_base::split::split_first;

// The first character, and the text after it.
pub(crate) fn first(text: &str) -> Result<(char, &str), Refusal>
    ensures { Gives (λ x. (x.0, chars x.1.now)) result (character (chars text.now)) }
{
    match split_first(text) {
        Some(found) => Ok(found),
        None => Err(Refusal::Malformed),
    }
}

// The text after this character, where the text begins with it.
pub(crate) fn strip(text: &str, expected: char) -> Option<&str>
    ensures none { IfNone result (following expected (chars text.now) ≡ None) }
    ensures some { IfSome result (λ rest. following expected (chars text.now) ≡ Some (chars rest.now)) }
{
    let (character, rest) = split_first(text)?;
    (character == expected).then_some(rest)
}

// The text after this character.
pub(crate) fn after(text: &str, expected: char) -> Result<&str, Refusal>
    ensures { Gives (λ x. chars x.now) result (following expected (chars text.now)) }
{
    match strip(text, expected) {
        Some(rest) => Ok(rest),
        None => Err(Refusal::Malformed),
    }
}

// The text after a space or a tab.
#[tactic(auto, unfolding(crate::specs::Reading::skip_blanks))]
fn after_blank(text: &str) -> Option<&str>
    ensures none { IfNone result (skip_blanks (chars text.now) ≡ chars text.now) }
    ensures some { IfSome result (λ rest. skip_blanks (chars text.now) ≡ skip_blanks (chars rest.now)) }
    ensures shorter { IfSome result (λ rest. length (chars rest.now) < length (chars text.now)) }
{
    let (character, rest) = split_first(text)?;
    if character == ' ' || character == '\t' {
        Some(rest)
    } else {
        None
    }
}

// The text without the spaces and tabs at the start.
pub(crate) fn skip_blanks(text: &str) -> &str
    ensures { chars result.now ≡ skip_blanks (chars text.now) }
{
    let mut rest = text;
    while let Some(following) = after_blank(rest) {
        rest = following;
    }
    rest
}
