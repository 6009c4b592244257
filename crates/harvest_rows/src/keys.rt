//! The values of a dictionary's keys, by their kinds. A key that is absent, or that has a value of another kind,
//! is read as a default: empty, zero, or 1970-01-01T00:00:00.
ghost use Rattle.std.specs.Prelude.{◌≡◌, pos};
ghost use Rattle.dataset_rows.specs.Reading.{items_of, items_or_none, moment_of, text_of, text_or_empty};
ghost use Rattle.harvest_rows.specs.Readings.{number_of, number_or_zero};

use portal_base::json_value::Json;
use portal_base::moment::Moment;

// ---- values by kind

#[tactic(auto, unfolding(dataset_rows::specs::Reading::text_or_empty))]
fn text_or_empty(value: &Json) -> &str
    ensures { result.now ≡ text_or_empty value.now }
{
    match value {
        Json::Text(text) => text.as_str(),
        _ => "",
    }
}

fn items_or_none(value: &Json) -> &[Json]
    ensures { result.now ≡ items_or_none value.now }
{
    match value {
        Json::List(items) => items.as_slice(),
        _ => &[],
    }
}

/// The number, if it is a `u64`, or zero.
fn number_or_zero(value: &Json) -> u64
    ensures { result ≡ number_or_zero value.now }
{
    match value {
        Json::Whole(number) => u64::try_from(*number).unwrap_or(0),
        _ => 0,
    }
}

// ---- the values of keys

#[tactic(auto, unfolding(dataset_rows::specs::Reading::text_of))]
pub(crate) fn text_of<'a>(value: &'a Json, key: &str) -> &'a str
    ensures { result.now ≡ text_of key.now value.now }
{
    match value.get(key) {
        Some(found) => text_or_empty(found),
        None => "",
    }
}

#[tactic(auto, unfolding(dataset_rows::specs::Reading::items_of))]
pub(crate) fn items_of<'a>(value: &'a Json, key: &str) -> &'a [Json]
    ensures { result.now ≡ items_of key.now value.now }
{
    match value.get(key) {
        Some(found) => items_or_none(found),
        None => &[],
    }
}

#[tactic(auto, unfolding(crate::specs::Readings::number_of))]
pub(crate) fn number_of(value: &Json, key: &str) -> u64
    ensures { result ≡ number_of key.now value.now }
{
    match value.get(key) {
        Some(found) => number_or_zero(found),
        None => 0,
    }
}

#[tactic(auto, unfolding(dataset_rows::specs::Reading::moment_of))]
pub(crate) fn moment_of(value: &Json, key: &str) -> Moment
    ensures { result ≡ moment_of key.now value.now }
{
    match Moment::read(text_of(value, key)) {
        Some(moment) => moment,
        None => moment_by_default(),
    }
}

/// 1970-01-01T00:00:00.
fn moment_by_default() -> Moment
    ensures { result ≡ pos 0 }
{
    Moment::from_seconds(0).unwrap()
}
