//! The values of a row's keys, by their kinds. A key that is absent, or that has a value of another kind, is read as a
//! default: empty, false, zero, active or 1970-01-01T00:00:00.
ghost use Rattle.std.specs.Prelude.{◌≡◌, pos};
ghost use Rattle.dataset_rows.specs.Reading.{text_or_empty, items_or_none, truth_or_false, number_or_zero, state_named};
ghost use Rattle.dataset_rows.specs.Reading.{text_of, items_of, truth_of, number_of, moment_of};

use packages::package::State;
use portal_base::json_value::Json;
use portal_base::moment::Moment;

// ---- values by kind

#[tactic(auto, unfolding(crate::specs::Reading::text_or_empty))]
pub fn text_or_empty(value: &Json) -> &str
    ensures { result.now ≡ text_or_empty value.now }
{
    match value {
        Json::Text(text) => text.as_str(),
        _ => "",
    }
}

fn items_or_none(value: &Json) -> &[Json]
    ensures { result.now ≡ items_or_none value.now }
{
    match value {
        Json::List(items) => items.as_slice(),
        _ => &[],
    }
}

fn truth_or_false(value: &Json) -> bool
    ensures { result ≡ truth_or_false value.now }
{
    match value {
        Json::Truth(truth) => *truth,
        _ => false,
    }
}

/// The number, if it is a `u32`, or zero.
fn number_or_zero(value: &Json) -> u32
    ensures { result ≡ number_or_zero value.now }
{
    match value {
        Json::Whole(number) => u32::try_from(*number).unwrap_or(0),
        _ => 0,
    }
}

/// The state with that name, or active.
pub fn state_named(name: &str) -> State
    ensures { result ≡ state_named name.now }
{
    if name == "draft" {
        State::Draft
    } else if name == "deleted" {
        State::Deleted
    } else {
        State::Active
    }
}

// ---- the values of keys

#[tactic(auto, unfolding(crate::specs::Reading::text_of))]
pub fn text_of<'a>(row: &'a Json, key: &str) -> &'a str
    ensures { result.now ≡ text_of key.now row.now }
{
    match row.get(key) {
        Some(value) => text_or_empty(value),
        None => "",
    }
}

#[tactic(auto, unfolding(crate::specs::Reading::items_of))]
pub fn items_of<'a>(row: &'a Json, key: &str) -> &'a [Json]
    ensures { result.now ≡ items_of key.now row.now }
{
    match row.get(key) {
        Some(value) => items_or_none(value),
        None => &[],
    }
}

#[tactic(auto, unfolding(crate::specs::Reading::truth_of))]
pub fn truth_of(row: &Json, key: &str) -> bool
    ensures { result ≡ truth_of key.now row.now }
{
    match row.get(key) {
        Some(value) => truth_or_false(value),
        None => false,
    }
}

#[tactic(auto, unfolding(crate::specs::Reading::number_of))]
pub fn number_of(row: &Json, key: &str) -> u32
    ensures { result ≡ number_of key.now row.now }
{
    match row.get(key) {
        Some(value) => number_or_zero(value),
        None => 0,
    }
}

#[tactic(auto, unfolding(crate::specs::Reading::moment_of))]
pub fn moment_of(row: &Json, key: &str) -> Moment
    ensures { result ≡ moment_of key.now row.now }
{
    match Moment::read(text_of(row, key)) {
        Some(moment) => moment,
        None => moment_by_default(),
    }
}

/// 1970-01-01T00:00:00.
pub fn moment_by_default() -> Moment
    ensures { result ≡ pos 0 }
{
    Moment::from_seconds(0).unwrap()
}
