//! Changes of the rows of a store, and why a keeper doesn't make them.
use crate::row::{KeptRow, RowKind};
use portal_base::copy::TryClone;
use portal_base::text::Text;
use std::alloc::{AllocError, Global};
use thiserror::Error;

/// A change of one row.
#[derive(Drop)]
pub enum Change {
    /// Puts the row, in place of the row of its kind and key, if there is one.
    Put(KeptRow),
    /// Removes the row of that kind and key, if there is one.
    Remove(RowKind, Text),
}

impl TryClone for Change {
    fn try_clone(&self, alloc: Global) -> Result<Change, AllocError> {
        match self {
            Change::Put(row) => Ok(Change::Put(row.try_clone(alloc)?)),
            Change::Remove(kind, key) => Ok(Change::Remove(*kind, key.try_clone(alloc)?)),
        }
    }
}

/// Why a keeper gave no rows, or made no change.
#[derive(Clone, Copy, Debug, PartialEq, Eq, Error)]
pub enum KeepFault {
    /// The keeper failed. Its count of faults rose, or is at the maximum of a `u64`.
    #[error("the store failed")]
    Failed,
    #[error("out of memory")]
    OutOfMemory,
}
