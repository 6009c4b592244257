//! Parses the texts of whole numbers and of numbers (Table Schema v1, "integer" and "number").
ghost use Rattle.std.specs.Prelude.{◌≡◌, ◌+◌, ◌<◌, ◌^◌, true, false, length, IfSome, IfNone, Some, option_map};
ghost use Rattle.std.specs.Str.{chars};
ghost use Rattle.lexical_forms.specs.Digits.{is_negative, unsigned, signed, is_digit, is_sign, from_first, until_last};
ghost use Rattle.lexical_forms.specs.Number.{integer_reading, integer_text_reading, number_reading};
ghost use Rattle.lexical_forms.specs.Number.{number_text_reading, numeric_part};
ghost use Rattle.lexical_forms.specs.Number.{begins_number, is_same_character, is_point, unsigned_reading, parts_of};
ghost use Rattle.lexical_forms.specs.Number.{begins_with_digit, is_exponent_mark, i64_only};
ghost use Rattle.lexical_forms.specs.Significand.{IsDigitsValue, IsLimitedValue, IsExponentOf, IsRead, TakesWhole};
ghost use Rattle.lexical_forms.specs.Significand.{TakesFraction, TakesDigits, ends_whole_part};

mod significand;

use crate::form::NumberForm;
use crate::split::{split_first, split_last};
use significand::Significand;

/// Parses a text as an integer of 64 bits. If `bare` is false, the characters around the number are ignored. Returns
/// none if the text is no such integer.
pub fn parse_integer(bare: bool, text: &str) -> Option<i64>
    ensures { result ≡ integer_reading bare (chars text.now) }
{
    parse_integer_text(numeric_part(bare, None, text))
}

// Parses an optional sign and digits, with nothing around them.
#[tactic(auto, unfolding(crate::specs::Number::integer_text_reading))]
fn parse_integer_text(text: &str) -> Option<i64>
    ensures { result ≡ integer_text_reading (chars text.now) }
{
    let negative = is_negative(text);
    let magnitude = digits_value(without_sign(text))?;
    signed_i64(negative, magnitude)
}

// The number with its sign, if it fits an `i64`.
fn signed_i64(negative: bool, magnitude: u64) -> Option<i64>
    ensures { result ≡ i64_only (signed negative magnitude) }
{
    let number = if negative {
        -i128::from(magnitude)
    } else {
        i128::from(magnitude)
    };
    match i64::try_from(number) {
        Ok(number) => Some(number),
        Err(_) => None,
    }
}

// The number that the digits of the text spell, if the text is one or more digits and the number is below 2^64.
fn digits_value(text: &str) -> Option<u64>
    ensures { IsDigitsValue (chars text.now) result }
{
    if text.is_empty() {
        return None;
    }
    let mut value: u64 = 0;
    let mut rest = text;
    while let Some((character, after)) = split_first(rest) {
        let digit = digit_of(character)?;
        value = value.checked_mul(10)?.checked_add(u64::from(digit))?;
        rest = after;
    }
    Some(value)
}

/// Parses a text as a number and returns it in billionths. Returns none if the text isn't a number in this spelling,
/// if the number isn't a whole number of billionths, or if its magnitude isn't below 10^27 billionths.
pub fn parse_number(form: NumberForm, text: &str) -> Option<i128>
    ensures { result ≡ number_reading form (chars text.now) }
{
    parse_number_text(form, numeric_part(form.bare, Some(form.decimal), text))
}

// Parses a number with nothing around it.
#[tactic(auto, unfolding(crate::specs::Number::number_text_reading))]
fn parse_number_text(form: NumberForm, text: &str) -> Option<i128>
    ensures { result ≡ number_text_reading form (chars text.now) }
{
    let billionths = parse_unsigned_number(form, without_sign(text))?;
    if is_negative(text) {
        Some(-(billionths as i128))
    } else {
        Some(billionths as i128)
    }
}

// Parses a number without a sign.
fn parse_unsigned_number(form: NumberForm, text: &str) -> Option<u128>
    ensures value { result ≡ unsigned_reading form (parts_of form (chars text.now)) }
{
    let (digits, rest) = take_whole(form, text)?;
    let (all, rest) = take_fraction(form, digits, rest)?;
    let exponent = exponent_of(rest)?;
    if all.count == 0 {
        return None;
    }
    all.billionths((all.count - digits.count) as i128, exponent)
}

// Reads the digits of the whole part, and returns the text after it.
fn take_whole(form: NumberForm, text: &str) -> Option<(Significand, &str)>
    ensures { TakesWhole form (chars text.now) (option_map (λ x. (x.0, chars x.1.now)) result) }
{
    let mut digits = Significand::new();
    let mut after_digit = false;
    let mut rest = text;
    while let Some((character, after)) = split_first(rest) {
        if let Some(digit) = digit_of(character) {
            digits = digits.push(digit)?;
            after_digit = true;
        } else if ends_whole_part(form, character) {
            break;
        } else if is_same_character(form.group, character)
            && after_digit
            && begins_with_digit(after)
        {
            after_digit = false;
        } else {
            return None;
        }
        rest = after;
    }
    Some((digits, rest))
}

// Appends the digits of the fraction, if the text starts with one, and returns the text after it.
fn take_fraction(form: NumberForm, digits: Significand, text: &str) -> Option<(Significand, &str)>
    requires read { IsRead digits }
    requires room { digits.count + length (chars text.now) < 2 ^ 64 }
    ensures { TakesFraction form digits (chars text.now) (option_map (λ x. (x.0, chars x.1.now)) result) }
{
    match split_first(text) {
        Some((character, after)) if is_point(form, character) => take_digits(digits, after),
        _ => Some((digits, text)),
    }
}

// Appends the digits at the start of the text, and returns the text after them.
fn take_digits(before: Significand, text: &str) -> Option<(Significand, &str)>
    requires read { IsRead before }
    requires room { before.count + length (chars text.now) < 2 ^ 64 }
    ensures { TakesDigits before (chars text.now) (option_map (λ x. (x.0, chars x.1.now)) result) }
{
    let mut digits = before;
    let mut rest = text;
    while let Some((character, after)) = split_first(rest) {
        if is_exponent_mark(character) {
            break;
        }
        digits = digits.push(digit_of(character)?)?;
        rest = after;
    }
    Some((digits, rest))
}

// The exponent of a text that is empty or starts with `e` or `E`. An exponent beyond the limit becomes the limit.
fn exponent_of(text: &str) -> Option<i128>
    ensures { IsExponentOf (chars text.now) result }
{
    let Some((character, after)) = split_first(text) else {
        return Some(0);
    };
    if !is_exponent_mark(character) {
        return None;
    }
    let magnitude = limited_value(without_sign(after))? as i128;
    if is_negative(after) {
        Some(-magnitude)
    } else {
        Some(magnitude)
    }
}

/// The limit of exponents. It is above every count of characters, so an exponent of this size decides the result alone.
const EXPONENT_LIMIT: u128 = 1 << 100;

// The smaller of the limit and the number that the digits of the text spell, if the text is one or more digits.
fn limited_value(text: &str) -> Option<u128>
    ensures { IsLimitedValue (chars text.now) result }
{
    if text.is_empty() {
        return None;
    }
    let mut value: u128 = 0;
    let mut rest = text;
    while let Some((character, after)) = split_first(rest) {
        let digit = digit_of(character)?;
        value = EXPONENT_LIMIT.min(value * 10 + u128::from(digit));
        rest = after;
    }
    Some(value)
}

// The part of the text that is parsed: all of it if `bare`, and otherwise the text without the characters around the
// number.
fn numeric_part(bare: bool, decimal: Option<char>, text: &str) -> &str
    ensures { chars result.now ≡ numeric_part bare decimal (chars text.now) }
{
    if bare {
        text
    } else {
        until_last_digit(from_first(decimal, text))
    }
}

// The text from the first character on that may begin a number.
fn from_first(decimal: Option<char>, text: &str) -> &str
    ensures { chars result.now ≡ from_first (begins_number decimal) (chars text.now) }
{
    let mut rest = text;
    while let Some((character, after)) = split_first(rest) {
        if begins_number(decimal, character) {
            break;
        }
        rest = after;
    }
    rest
}

// The text up to its last digit.
fn until_last_digit(text: &str) -> &str
    ensures { chars result.now ≡ until_last is_digit (chars text.now) }
{
    let mut rest = text;
    while let Some((before, character)) = split_last(rest) {
        if is_digit(character) {
            break;
        }
        rest = before;
    }
    rest
}

fn begins_number(decimal: Option<char>, character: char) -> bool
    ensures { result ≡ begins_number decimal character }
{
    is_digit(character) || is_sign(character) || is_same_character(decimal, character)
}

// Whether the character ends the whole part of a number.
fn ends_whole_part(form: NumberForm, character: char) -> bool
    ensures { result ≡ ends_whole_part form character }
{
    is_point(form, character) || is_exponent_mark(character)
}

// Whether the character is the decimal point before a fraction.
fn is_point(form: NumberForm, character: char) -> bool
    ensures { result ≡ is_point form character }
{
    character == form.decimal && !is_digit(character) && !is_exponent_mark(character)
}

fn is_same_character(expected: Option<char>, character: char) -> bool
    ensures { result ≡ is_same_character expected character }
{
    match expected {
        Some(expected) => character == expected,
        None => false,
    }
}

pub(crate) fn is_sign(character: char) -> bool
    ensures { result ≡ is_sign character }
{
    character == '+' || character == '-'
}

pub(crate) fn is_exponent_mark(character: char) -> bool
    ensures { result ≡ is_exponent_mark character }
{
    character == 'e' || character == 'E'
}

pub(crate) fn is_digit(character: char) -> bool
    ensures { result ≡ is_digit character }
{
    '0' <= character && character <= '9'
}

// The value of a digit.
fn digit_of(character: char) -> Option<u8>
    ensures none { IfNone result (is_digit character ≡ false) }
    ensures some { IfSome result (λ digit. (is_digit character ≡ true) × (character ≡ digit + 48) × (digit < 10)) }
{
    if is_digit(character) {
        Some((character as u32 - 48) as u8)
    } else {
        None
    }
}

fn begins_with_digit(text: &str) -> bool
    ensures { result ≡ begins_with_digit (chars text.now) }
{
    match split_first(text) {
        Some((character, _)) => is_digit(character),
        None => false,
    }
}

fn is_negative(text: &str) -> bool
    ensures { result ≡ is_negative (chars text.now) }
{
    match split_first(text) {
        Some((character, _)) => character == '-',
        None => false,
    }
}

// The text without its leading sign, if it has one.
fn without_sign(text: &str) -> &str
    ensures { chars result.now ≡ unsigned (chars text.now) }
{
    match split_first(text) {
        Some((character, after)) if is_sign(character) => after,
        _ => text,
    }
}
