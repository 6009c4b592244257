//! Why there is no store.
ghost use Rattle.std.specs.Prelude.{◌≡◌};
ghost use Rattle.portal_store.specs.Opening.{open_fault};

use sqlite::{Error as SqliteError, ErrorCode};
use thiserror::Error;

/// Why a store wasn't opened, or its location wasn't read.
#[derive(Clone, Copy, Debug, PartialEq, Eq, Error)]
pub enum StoreFault {
    /// The location is unfit, or the host or SQLite refused.
    #[error("the store failed")]
    Failed,
    #[error("out of memory")]
    OutOfMemory,
}

/// The fault for an error of SQLite. Want of memory has a fault of its own, and every other cause is a failure.
pub(crate) fn open_fault(error: SqliteError) -> StoreFault
    ensures { result ≡ open_fault error }
{
    match error {
        SqliteError::SqliteFailure(ErrorCode::OutOfMemory) => StoreFault::OutOfMemory,
        _ => StoreFault::Failed,
    }
}
