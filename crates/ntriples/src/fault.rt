//! Why bytes are no document.

use std::alloc::{AllocError, AllocFailed};
use thiserror::Error;

/// Why bytes are not read.
#[derive(Debug, Drop, Error, Clone, Copy, PartialEq, Eq)]
pub enum NtFault {
    /// The first line, counted from 1, that is not of the grammar.
    #[error("line {0} is not N-Triples")]
    Line(u64),
    #[error("out of memory")]
    OutOfMemory,
}

impl From<AllocError> for NtFault {
    ghost use Rattle.std.specs.Prelude.{◌≡◌};
    ghost use Rattle.ntriples.specs.declared.fault.NtFault.TheVariants.{OutOfMemory};

    ghost from_gives = { λ _ fault. fault ≡ OutOfMemory };

    fn from(_refused: AllocError) -> NtFault {
        NtFault::OutOfMemory
    }
}

/// Why a production is not read.
#[derive(Debug, Clone, Copy, PartialEq, Eq)]
pub(crate) enum Refusal {
    /// The text doesn't begin with one.
    Malformed,
    OutOfMemory,
}

impl From<AllocError> for Refusal {
    ghost use Rattle.std.specs.Prelude.{◌≡◌};
    ghost use Rattle.ntriples.specs.declared.fault.Refusal.TheVariants.{OutOfMemory};

    ghost from_gives = { λ _ refusal. refusal ≡ OutOfMemory };

    fn from(_refused: AllocError) -> Refusal {
        Refusal::OutOfMemory
    }
}
