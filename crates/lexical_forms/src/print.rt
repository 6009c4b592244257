//! Prints numbers.
ghost use Rattle.std.specs.Prelude.{◌≡◌, ◌<◌, ◌+◌, ◌^◌, ◌++◌, ◌∷◌, [], IfOk, OnOk, Some, string_bytes, unsigned_abs};
ghost use Rattle.std.specs.Str.{chars};
ghost use Rattle.lexical_forms.specs.Number.{number_reading, default_spelling};
ghost use Rattle.lexical_forms.specs.NumberText.{fraction_text, number_text};

use std::alloc::{AllocError, Global};
use std::fmt::Write;

/// The count of billionths in one.
const BILLION: u128 = 1_000_000_000;

/// The text of a number that is given in billionths, without trailing zeros. It reads back as the same number.
pub fn number_text(alloc: Global, billionths: i128) -> Result<String, AllocError>
    requires { unsigned_abs billionths < 10 ^ 27 }
    ensures text { IfOk result (λ text. string_bytes text ≡ number_text billionths) }
    ensures back { IfOk result (λ text. number_reading default_spelling (chars (string_bytes text)) ≡ Some billionths) }
{
    let mut text = String::new(alloc);
    if billionths < 0 {
        text.push('-')?;
    }
    let size = billionths.unsigned_abs();
    let whole = size / BILLION;
    write!(text, "{whole}")?;
    push_fraction(&mut text, (size % BILLION) as u32)?;
    Ok(text)
}

// Appends the decimal point and the fraction without its trailing zeros. Appends nothing for a fraction of zero.
fn push_fraction(text: &mut String, billionths: u32) -> Result<(), AllocError>
    requires { billionths < 10 ^ 9 }
    ensures { OnOk result (string_bytes text.new ≡ string_bytes text.old ++ fraction_text billionths) }
{
    if billionths == 0 {
        return Ok(());
    }
    text.push('.')?;
    let mut rest = billionths;
    let mut unit: u32 = 100_000_000;
    while rest != 0 {
        push_digit(text, (rest / unit) as u8)?;
        rest %= unit;
        unit = unit / 10;
    }
    Ok(())
}

/// Appends a decimal digit.
pub fn push_digit(text: &mut String, digit: u8) -> Result<(), AllocError>
    requires { digit < 10 }
    ensures { OnOk result (string_bytes text.new ≡ string_bytes text.old ++ (48 + digit) ∷ []) }
{
    text.push((b'0' + digit) as char)
}
