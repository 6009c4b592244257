//! Causes and states that are read from their texts.
ghost use Rattle.std.specs.Prelude.{◌≡◌, drop};
ghost use Rattle.harvest_rows.specs.Readings.{cause_named, number_spelled, state_from};

use crate::numbers::{bytes_from, number_spelled};
use harvest_sources::{Cause, JobState};

/// How many bytes the text of a bad line has before its number.
const BEFORE_LINE: usize = 12;

/// The cause of that text.
#[tactic(auto, unfolding(crate::specs::Readings::cause_named))]
pub(crate) fn cause_named(text: &str) -> Cause
    ensures { result ≡ cause_named text.now }
{
    match text {
        "ReadFault" => Cause::ReadFault,
        "Missing" => Cause::Missing,
        "TooLong" => Cause::TooLong,
        "NoCatalog" => Cause::NoCatalog,
        "NotDescribed" => Cause::NotDescribed,
        "NoTitle" => Cause::NoTitle,
        "SameName" => Cause::SameName,
        _ => Cause::NotNTriples(line_in(text)),
    }
}

/// The number of the line in the text of a bad line.
fn line_in(text: &str) -> u64
    ensures { result ≡ number_spelled (drop 12 text.now) }
{
    number_spelled(bytes_from(text.as_bytes(), BEFORE_LINE))
}

/// The state of that name, with the cause of that text. A state of another name is read as new.
#[tactic(auto, unfolding(crate::specs::Readings::state_from))]
pub(crate) fn state_from(name: &str, cause: &str) -> JobState
    ensures { result ≡ state_from name.now cause.now }
{
    match name {
        "Finished" => JobState::Finished,
        "Broken" => JobState::Broken(cause_named(cause)),
        _ => JobState::New,
    }
}
