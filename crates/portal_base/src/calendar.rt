//! Parsers of dates, times of day, years and year-months. Every parser of a date or a time uses these.
ghost use Rattle.std.specs.Prelude.{◌≡◌, ◌+◌, ◌<◌, IfSome, IsTrue, slice_index, length};
ghost use Rattle.std.specs.Char.{is_ascii_digit};
ghost use Rattle.portal_base.specs.Calendar.{date_reading, day_in, day_number, has_month, minute_reading, second_in, time_reading};
ghost use Rattle.portal_base.specs.Calendar.{year_reading, yearmonth_reading};
ghost use Rattle.portal_base.specs.MomentReading.{fits_form, fits_character, has_day, has_time, number_at, year_in};

use jiff::civil::Date;

/// Parses a date `YYYY-MM-DD` (ISO 8601, section 5.2.1.1) as the number of days since 1970-01-01. The result is `None`
/// if the text has another form or the calendar lacks the date.
#[tactic(auto, unfolding(crate::specs::Calendar::date_reading))]
pub fn date_of(text: &[u8]) -> Option<i32>
    ensures { result ≡ date_reading text.now }
{
    if !fits(b"0000-00-00", text) {
        return None;
    }
    day_number(year_at_start(text), number_at(text, 5), number_at(text, 8))
}

// The number of days from 1970-01-01 to the date, if the calendar has it.
fn day_number(year: u16, month: u8, day: u8) -> Option<i32>
    requires year { year < 10000 }
    requires month { month < 100 }
    requires day { day < 100 }
    ensures { result ≡ day_number year month day }
{
    match Date::new(year as i16, month as i8, day as i8) {
        Ok(date) => Some(date.to_plain().to_unix_epoch_day()),
        Err(_) => None,
    }
}

/// Parses a time of day `hh:mm:ss` (ISO 8601, section 5.3.1.1) as the number of seconds since midnight. The hour 24 and
/// the second 60 are refused.
#[tactic(auto, unfolding(crate::specs::Calendar::time_reading))]
pub fn second_of(text: &[u8]) -> Option<u32>
    ensures { result ≡ time_reading text.now }
{
    if !fits(b"00:00:00", text) {
        return None;
    }
    let hour = u32::from(number_at(text, 0));
    let minute = u32::from(number_at(text, 3));
    let second = u32::from(number_at(text, 6));
    if hour < 24 && minute < 60 && second < 60 {
        Some(hour * 3600 + minute * 60 + second)
    } else {
        None
    }
}

/// Parses a time of day `hh:mm` (ISO 8601, section 5.3.1.2) as the number of minutes since midnight.
#[tactic(auto, unfolding(crate::specs::Calendar::minute_reading))]
pub fn minute_of(text: &[u8]) -> Option<u32>
    ensures value { result ≡ minute_reading text.now }
    ensures bound { IfSome result (λ minute. minute < 1440) }
{
    if !fits(b"00:00", text) {
        return None;
    }
    let hour = u32::from(number_at(text, 0));
    let minute = u32::from(number_at(text, 3));
    if hour < 24 && minute < 60 {
        Some(hour * 60 + minute)
    } else {
        None
    }
}

/// Parses a year `YYYY` (ISO 8601, section 5.2.1.2).
#[tactic(auto, unfolding(crate::specs::Calendar::year_reading))]
pub fn year_of(text: &[u8]) -> Option<u16>
    ensures { result ≡ year_reading text.now }
{
    if fits(b"0000", text) {
        Some(year_at_start(text))
    } else {
        None
    }
}

/// Parses a year and a month `YYYY-MM` (ISO 8601, section 5.2.1.2).
#[tactic(auto, unfolding(crate::specs::Calendar::yearmonth_reading))]
pub fn year_month_of(text: &[u8]) -> Option<(u16, u8)>
    ensures { result ≡ yearmonth_reading text.now }
{
    if !fits(b"0000-00", text) {
        return None;
    }
    let month = number_at(text, 5);
    if 1 <= month && month <= 12 {
        Some((year_at_start(text), month))
    } else {
        None
    }
}

// Whether the text has the form. A 0 in the form matches any digit.
fn fits(form: &[u8], text: &[u8]) -> bool
    ensures { result ≡ fits_form form.now text.now }
{
    if text.len() != form.len() {
        return false;
    }
    for position in 0..form.len() {
        if !fits_character(form[position], text[position]) {
            return false;
        }
    }
    true
}

fn fits_character(form_byte: u8, byte: u8) -> bool
    ensures { result ≡ fits_character form_byte byte }
{
    if form_byte == b'0' {
        byte >= b'0' && byte <= b'9'
    } else {
        byte == form_byte
    }
}

// The number that two digits spell. The first digit is at the position.
fn number_at(text: &[u8], position: usize) -> u8
    requires within { position + 1 < length text.now }
    requires tens { IsTrue (is_ascii_digit (slice_index text.now position)) }
    requires units { IsTrue (is_ascii_digit (slice_index text.now (position + 1))) }
    ensures number { result ≡ number_at position text.now }
    ensures bound { result < 100 }
{
    (text[position] - b'0') * 10 + (text[position + 1] - b'0')
}

// The number that the first four digits spell.
fn year_at_start(text: &[u8]) -> u16
    requires within { 3 < length text.now }
    requires first { IsTrue (is_ascii_digit (slice_index text.now 0)) }
    requires second { IsTrue (is_ascii_digit (slice_index text.now 1)) }
    requires third { IsTrue (is_ascii_digit (slice_index text.now 2)) }
    requires fourth { IsTrue (is_ascii_digit (slice_index text.now 3)) }
    ensures year { result ≡ year_in text.now }
    ensures bound { result < 10000 }
{
    u16::from(number_at(text, 0)) * 100 + u16::from(number_at(text, 2))
}
