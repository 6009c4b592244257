//! The characters that may separate the parts of a number: `decimalChar` and `groupChar` (Table Schema v1, "number").
ghost use Rattle.std.specs.Prelude.{◌≡◌};
ghost use Rattle.std.specs.Str.{chars};
ghost use Rattle.lexical_forms.specs.Separator.{is_separator, separator_of};

use crate::number::{is_digit, is_exponent_mark, is_sign};
use crate::split::split_first;

/// The separator that the text consists of, or none if the text isn't a single character that may be a separator. A
/// separator is no digit, no sign and neither `e` nor `E`.
pub fn separator_of(text: &str) -> Option<char>
    ensures { result ≡ separator_of (chars text.now) }
{
    let (character, rest) = split_first(text)?;
    match split_first(rest) {
        None if is_separator(character) => Some(character),
        _ => None,
    }
}

fn is_separator(character: char) -> bool
    ensures { result ≡ is_separator character }
{
    !is_digit(character) && !is_sign(character) && !is_exponent_mark(character)
}
