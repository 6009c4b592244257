//! Dates and times as literals.
ghost use Rattle.std.specs.Prelude.{◌≡◌, ◌≤◌, length, pos, ◌≤ℤ◌, ◌-ℤ◌, neg_ℤ, IfSome, option_map, take, drop};
ghost use Rattle.std.specs.Char.{is_ascii_digit};
ghost use Rattle.std.specs.List.{prefix_len};
ghost use Rattle.std.specs.Ordering.{flip_args, int_cmp};
ghost use Rattle.dcat_map.specs.Instants.{skip_digits, skip_fraction, offset_size, offset, zone_offset};
ghost use Rattle.dcat_map.specs.Instants.{if_moment, instant_in, instant_of, instant, moment_of, latest};
ghost use Rattle.dcat_map.specs.Sets.{lesser_of};

use ntriples::{Borrowed, Term, Triple};
use portal_base::calendar::minute_of;
use portal_base::moment::Moment;

// The count of leading digits.
fn digit_count(bytes: &[u8]) -> usize
    ensures count { result ≡ prefix_len is_ascii_digit bytes.now }
    ensures within { result ≤ length bytes.now }
{
    bytes
        .iter()
        .take_while(|byte| byte.is_ascii_digit())
        .count()
}

// What follows the leading digits, of which there must be one.
fn skip_digits(bytes: &[u8]) -> Option<&[u8]>
    ensures { option_map (λ x. x.now) result ≡ skip_digits bytes.now }
{
    let count = digit_count(bytes);
    if count > 0 {
        let (_, rest) = bytes.split_at(count);
        Some(rest)
    } else {
        None
    }
}

// What follows the fraction of a second, if there is one.
#[tactic(auto, unfolding(crate::specs::Instants::skip_fraction))]
fn skip_fraction(bytes: &[u8]) -> Option<&[u8]>
    ensures { option_map (λ x. x.now) result ≡ skip_fraction bytes.now }
{
    match bytes {
        [b'.', rest @ ..] => skip_digits(rest),
        _ => Some(bytes),
    }
}

// The seconds of an offset of hours and minutes.
fn offset_size(bytes: &[u8]) -> Option<i64>
    ensures value { result ≡ option_map pos (offset_size bytes.now) }
    ensures small { IfSome result (λ size. (pos 0 ≤ℤ size) × (size ≤ℤ pos 86400)) }
{
    let minute = minute_of(bytes)?;
    Some(i64::from(minute) * 60)
}

// The seconds by which the offset is ahead of UTC.
#[tactic(auto, unfolding(crate::specs::Instants::offset))]
fn offset(bytes: &[u8]) -> Option<i64>
    ensures value { result ≡ offset bytes.now }
    ensures small { IfSome result (λ utc_offset. (neg_ℤ (pos 86400) ≤ℤ utc_offset) × (utc_offset ≤ℤ pos 86400)) }
{
    match bytes {
        [] | [b'Z'] => Some(0),
        [b'+', rest @ ..] => offset_size(rest),
        [b'-', rest @ ..] => {
            let size = offset_size(rest)?;
            Some(-size)
        }
        _ => None,
    }
}

// The offset from UTC after the fraction of a second, if there is one.
fn zone_offset(bytes: &[u8]) -> Option<i64>
    ensures value { result ≡ zone_offset bytes.now }
    ensures small { IfSome result (λ utc_offset. (neg_ℤ (pos 86400) ≤ℤ utc_offset) × (utc_offset ≤ℤ pos 86400)) }
{
    offset(skip_fraction(bytes)?)
}

// The moment in UTC of a local one whose offset is ahead by these seconds.
fn in_utc(local: Moment, utc_offset: i64) -> Option<Moment>
    requires { (neg_ℤ (pos 86400) ≤ℤ utc_offset) × (utc_offset ≤ℤ pos 86400) }
    ensures { result ≡ if_moment (local -ℤ utc_offset) }
{
    Moment::from_seconds(local.seconds() - utc_offset)
}

// The moment of a date, a time of day, and what follows it.
#[tactic(auto, unfolding(crate::specs::Instants::instant_in))]
fn instant_in(date: &[u8], time: &[u8], rest: &[u8]) -> Option<Moment>
    ensures { result ≡ instant_in date.now time.now rest.now }
{
    let local = Moment::at(date, time)?;
    in_utc(local, zone_offset(rest)?)
}

// The bytes before the position, and those from it on. A shorter text is all before.
fn cut(bytes: &[u8], place: usize) -> (&[u8], &[u8])
    ensures front { result.0.now ≡ take place bytes.now }
    ensures rest { result.1.now ≡ drop place bytes.now }
{
    bytes.split_at(place.min(bytes.len()))
}

// The moment of a date and what follows it.
#[tactic(auto, unfolding(crate::specs::Instants::instant_of))]
fn instant_of(date: &[u8], rest: &[u8]) -> Option<Moment>
    ensures { result ≡ instant_of date.now rest.now }
{
    match rest {
        [] => Moment::at(date, b"00:00:00"),
        [b'T', timed @ ..] => {
            let (time, zone) = cut(timed, 8);
            instant_in(date, time, zone)
        }
        _ => None,
    }
}

// The moment that the text gives.
fn instant(bytes: &[u8]) -> Option<Moment>
    ensures { result ≡ instant bytes.now }
{
    let (date, rest) = cut(bytes, 10);
    instant_of(date, rest)
}

// The moment that the literal gives.
fn moment_of(term: &Term) -> Option<Moment>
    ensures { result ≡ moment_of term.now }
{
    match term {
        Term::Literal(text, _, _) => instant(text.as_bytes()),
        _ => None,
    }
}

// The later of the moments that are there.
fn later(best: Option<Moment>, other: Option<Moment>) -> Option<Moment>
    ensures { result ≡ lesser_of (flip_args int_cmp) best other }
{
    match (best, other) {
        (Some(best), Some(other)) => Some(if best < other { other } else { best }),
        (None, other) => other,
        (best, None) => best,
    }
}

/// The latest moment that one of the objects gives.
pub(crate) fn latest(triples: &[Borrowed<'_, Triple>]) -> Option<Moment>
    ensures { result ≡ latest triples.now }
{
    let mut best = None;
    for triple in triples {
        best = later(best, moment_of(&triple.get().object));
    }
    best
}
