//! The values of options.
ghost use Rattle.std.specs.Prelude.{◌≡◌, ◌≤◌, ◌&&◌, ◌<◌, nat_lt, nat_le, length, option_map, Some, None, IfOk, IfSome};
ghost use Rattle.std.specs.Prelude.{IsErrOf};
ghost use Rattle.portal_words.specs.Commands.{is_number, is_text, required_text_for, number_for, number_in};
ghost use Rattle.portal_words.specs.Commands.{number_of_digits, text_for};

use crate::command::WordsFault;
use portal_base::characters::has_only_digits;
use portal_base::text::Text;
use std::alloc::Global;

/// Whether the text is a value: neither empty nor a dash alone.
fn is_text(value: &str) -> bool
    ensures { result ≡ is_text value.now }
{
    !value.is_empty() && value != "-"
}

/// The text of an optional option.
pub fn text_of(alloc: Global, value: Option<&str>) -> Result<Option<Text>, WordsFault>
    ensures ok { IfOk result (λ text. text_for (option_map (λ v. v.now) value.entry) ≡ Some text) }
    ensures bad { IsErrOf result WordsFault.BadWords → text_for (option_map (λ v. v.now) value.entry) ≡ None }
{
    let Some(value) = value else {
        return Ok(None);
    };
    if !is_text(value) {
        return Err(WordsFault::BadWords);
    }
    Ok(Some(Text::from_str(alloc, value)?))
}

/// The text of a required option.
pub fn required_text_of(alloc: Global, value: Option<&str>) -> Result<Text, WordsFault>
    ensures ok { IfOk result (λ text. required_text_for (option_map (λ v. v.now) value.entry) ≡ Some text) }
    ensures bad { IsErrOf result WordsFault.BadWords
        → required_text_for (option_map (λ v. v.now) value.entry) ≡ None }
{
    match text_of(alloc, value)? {
        Some(text) => Ok(text),
        None => Err(WordsFault::BadWords),
    }
}

/// Whether the text is 1 to 10 digits.
fn is_number(value: &str) -> bool
    ensures { result ≡ is_number value.now }
{
    !value.is_empty() && value.len() <= 10 && has_only_digits(value.as_bytes())
}

/// The number that 1 to 10 digits spell.
fn number_of_digits(value: &str) -> Option<u64>
    ensures { result ≡ number_of_digits value.now }
{
    if !is_number(value) {
        return None;
    }
    value.parse::<u64>().ok()
}

/// The number, if it is from `least` to `most`.
fn number_in(least: u64, most: u64, value: &str) -> Option<u64>
    ensures { result ≡ number_in least most value.now }
{
    let number = number_of_digits(value)?;
    if least <= number && number <= most {
        Some(number)
    } else {
        None
    }
}

/// The number of an option, from `least` to `most`, or the default if the option is absent.
pub fn number_of(least: u64, most: u64, default: u64, value: Option<&str>) -> Option<u64>
    ensures number { result ≡ number_for least most default (option_map (λ v. v.now) value.entry) }
    ensures within { least ≤ default → default ≤ most → IfSome result (λ number. (least ≤ number) × (number ≤ most)) }
{
    match value {
        Some(value) => number_in(least, most, value),
        None => Some(default),
    }
}
