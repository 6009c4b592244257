//! Moments of the calendar, in whole seconds of UTC.
ghost use Rattle.std.specs.Prelude.{◌≡◌, ◌↔◌, IsSome, IfSome, IfOk, Some};
ghost use Rattle.jiff.specs.Words.{civil_seconds};
ghost use Rattle.portal_base.specs.Calendar.{moment_at};
ghost use Rattle.portal_base.specs.Moment.{IsMoment};
ghost use Rattle.portal_base.specs.MomentReading.{moment_reading};
ghost use Rattle.portal_base.specs.MomentText.{IsMomentText, moment_text};

use crate::calendar::{date_of, second_of};
use crate::text::Text;
use jiff::SignedDuration;
use jiff::civil::{DateTime, Time, date};
use std::alloc::{AllocError, Global};
use std::marker::Model;

/// 0000-01-01T00:00:00.
const FIRST_SECOND: i64 = -62_167_219_200;

/// 9999-12-31T23:59:59.
const LAST_SECOND: i64 = 253_402_300_799;

/// A moment in whole seconds, from 0000-01-01T00:00:00 to 9999-12-31T23:59:59 UTC. A contract sees it as the
/// number of seconds since 1970-01-01T00:00:00, on the calendar of ISO 8601 without leap seconds.
#[derive(Clone, Copy, PartialEq, Eq, PartialOrd, Ord)]
pub struct Moment {
    seconds: i64,
}

impl Model for Moment {
    ghost use Rattle.std.specs.Prelude.{ℤ};
    ghost use Rattle.portal_base.specs.Moment.{IsMoment};

    ghost Value = { ℤ };

    ghost view = { λ m. m.seconds };

    ghost invariant = { λ m. IsMoment m.seconds };

    ghost inverse = { λ z. record { seconds = z } };
}

impl Moment {
    /// The moment `seconds` seconds after 1970-01-01T00:00:00, if its year is 0000 to 9999.
    pub fn from_seconds(seconds: i64) -> Option<Moment>
        ensures within { IsSome result ↔ IsMoment seconds }
        ensures same { IfSome result (λ moment. moment ≡ seconds) }
    {
        if seconds >= FIRST_SECOND && seconds <= LAST_SECOND {
            Some(Moment { seconds })
        } else {
            None
        }
    }

    /// The moment of a date `YYYY-MM-DD` and a time `hh:mm:ss` (ISO 8601, sections 5.2.1.1 and 5.3.1.1). The result is
    /// `None` if either cannot be read.
    pub fn at(date: &[u8], time: &[u8]) -> Option<Moment>
        ensures { result ≡ moment_at date.now time.now }
    {
        let day = date_of(date)?;
        let second = second_of(time)?;
        Moment::from_seconds(i64::from(day) * 86_400 + i64::from(second))
    }

    /// Reads a moment `YYYY-MM-DDThh:mm:ss` (ISO 8601, section 5.4.2.1). Other forms, and dates and times that do not
    /// exist, are refused. Each moment has exactly one text.
    pub fn read(text: &str) -> Option<Moment>
        ensures { result ≡ moment_reading text.now }
    {
        let bytes = text.as_bytes();
        if bytes.len() != 19 || bytes[10] != b'T' {
            return None;
        }
        Moment::at(&bytes[..10], &bytes[11..])
    }

    /// Seconds since 1970-01-01T00:00:00.
    pub fn seconds(&self) -> i64
        ensures { result ≡ self.now }
    {
        self.seconds
    }

    /// The moment as `YYYY-MM-DDThh:mm:ss` (ISO 8601, section 5.4.2.1), in UTC without a zone designator.
    pub fn text(&self, alloc: Global) -> Result<Text, AllocError>
        ensures text { IfOk result (λ text. text ≡ moment_text self.now) }
        ensures civil { IfOk result (λ text. IsMomentText self.now text) }
        ensures back { IfOk result (λ text. moment_reading text ≡ Some self.now) }
    {
        let civil = civil_of(*self);
        let string = format!(in alloc; "{civil}")?;
        Ok(Text::from(string))
    }
}

/// The date and time of day of the moment.
fn civil_of(moment: Moment) -> DateTime
    ensures within { IsMoment moment }
    ensures second { civil_seconds result ≡ moment }
    ensures no_fraction { result.time.subsec_nanosecond ≡ 0 }
{
    let start = date(1970, 1, 1).to_datetime(Time::midnight());
    start
        .checked_add(SignedDuration::from_secs(moment.seconds))
        .unwrap()
}
