//! Columns of fixed widths: a text is never cut, and a shorter one is filled up with spaces.
ghost use Rattle.std.specs.Prelude.{◌≡◌, ◌++◌, OnOk, decimal, map, replicate, string_bytes};
ghost use Rattle.std.specs.List.{flat_map};
ghost use Rattle.portal_reports.specs.Columns.{left, line, right};

use itoa::Buffer;
use std::alloc::AllocError;

/// The places of a column of numbers.
const PLACES: usize = 10;

/// Adds spaces.
fn push_spaces(text: &mut String, count: usize) -> Result<(), AllocError>
    ensures { OnOk result (string_bytes text.new ≡ string_bytes text.old ++ replicate count 32) }
{
    for _ in 0..count {
        text.push(' ')?;
    }
    Ok(())
}

/// Adds a word at the left of a column of this width.
fn push_left(text: &mut String, width: usize, word: &str) -> Result<(), AllocError>
    ensures { OnOk result (string_bytes text.new ≡ string_bytes text.old ++ left width word.now) }
{
    text.push_str(word)?;
    push_spaces(text, width.saturating_sub(word.len()))
}

/// Adds a word at the right of a column of numbers.
fn push_right(text: &mut String, word: &str) -> Result<(), AllocError>
    ensures { OnOk result (string_bytes text.new ≡ string_bytes text.old ++ right word.now) }
{
    push_spaces(text, PLACES.saturating_sub(word.len()))?;
    text.push_str(word)
}

/// Adds a number at the right of a column of numbers.
fn push_number(text: &mut String, number: u128) -> Result<(), AllocError>
    ensures { OnOk result (string_bytes text.new ≡ string_bytes text.old ++ right (decimal number)) }
{
    let mut buffer = Buffer::new();
    push_right(text, buffer.format(number))
}

/// Adds titles in columns of numbers.
fn push_titles(text: &mut String, titles: &[&'static str]) -> Result<(), AllocError>
    ensures { OnOk result (string_bytes text.new
        ≡ string_bytes text.old ++ flat_map right (map (λ title. title.now) titles.now)) }
{
    for title in titles {
        push_right(text, title)?;
    }
    Ok(())
}

/// Adds numbers in columns of numbers.
fn push_numbers(text: &mut String, numbers: &[u128]) -> Result<(), AllocError>
    ensures { OnOk result (string_bytes text.new
        ≡ string_bytes text.old ++ flat_map right (map decimal numbers.now)) }
{
    for number in numbers {
        push_number(text, *number)?;
    }
    Ok(())
}

/// Adds a line of titles, the first in a column of this width.
pub(crate) fn push_header(
    text: &mut String,
    width: usize,
    first: &str,
    titles: &[&'static str],
) -> Result<(), AllocError>
    ensures { OnOk result (string_bytes text.new
        ≡ string_bytes text.old ++ line width first.now (map (λ title. title.now) titles.now)) }
{
    push_left(text, width, first)?;
    push_titles(text, titles)?;
    text.push('\n')
}

/// Adds a line with a name, in a column of this width, and numbers.
pub(crate) fn push_line(
    text: &mut String,
    width: usize,
    name: &str,
    numbers: &[u128],
) -> Result<(), AllocError>
    ensures { OnOk result (string_bytes text.new
        ≡ string_bytes text.old ++ line width name.now (map decimal numbers.now)) }
{
    push_left(text, width, name)?;
    push_numbers(text, numbers)?;
    text.push('\n')
}
