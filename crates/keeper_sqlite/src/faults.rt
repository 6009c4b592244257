//! The faults of the keeper, and their count.
ghost use Rattle.std.specs.Prelude.{◌≡◌};
ghost use Rattle.keeper_sqlite.specs.Faults.{fault_of, faults_after};

use portal_keeper::change::KeepFault;
use sqlite::{Error, ErrorCode};

/// The fault for an error of SQLite. Want of memory has a fault of its own, and every other cause is a failure.
pub(crate) fn fault_of(error: Error) -> KeepFault
    ensures { result ≡ fault_of error }
{
    match error {
        Error::SqliteFailure(ErrorCode::OutOfMemory) => KeepFault::OutOfMemory,
        _ => KeepFault::Failed,
    }
}

/// The count of faults after a call with this outcome: one more after a failure, up to the maximum of a `u64`.
pub(crate) fn faults_after<T>(faults: u64, outcome: &Result<T, KeepFault>) -> u64
    ensures { result ≡ faults_after faults outcome.now }
{
    match outcome {
        Err(KeepFault::Failed) => faults.saturating_add(1),
        _ => faults,
    }
}
