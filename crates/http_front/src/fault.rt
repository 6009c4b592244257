//! Why nothing was received.
use portal_base::outside::Failed;
use std::alloc::AllocError;

/// Why no request was received.
#[derive(Clone, Copy, Debug, PartialEq, Eq)]
pub enum FrontFault {
    /// No head of a request can be read, or a Content-Length in it isn't one number.
    BadHead,
    /// A POST says no length, or has a coding of its body.
    NoLength,
    /// The body is longer than `LONGEST_BODY`.
    TooLong,
    /// The path is no action's.
    NoRoute,
    /// The method isn't GET or POST, or it is GET for an action that changes something.
    Method,
    /// The input ended before the request did.
    EndedEarly,
    /// The link's count of faults rose.
    LinkFault,
    OutOfMemory,
}

impl From<Failed> for FrontFault {
    ghost use Rattle.std.specs.Prelude.{◌≡◌};
    ghost use Rattle.http_front.specs.declared.fault.FrontFault.TheVariants.{LinkFault};

    ghost from_gives = { λ _ fault. fault ≡ LinkFault };

    fn from(_failed: Failed) -> FrontFault {
        FrontFault::LinkFault
    }
}

impl From<AllocError> for FrontFault {
    ghost use Rattle.std.specs.Prelude.{◌≡◌};
    ghost use Rattle.http_front.specs.declared.fault.FrontFault.TheVariants.{OutOfMemory};

    ghost from_gives = { λ _ fault. fault ≡ OutOfMemory };

    fn from(_refused: AllocError) -> FrontFault {
        FrontFault::OutOfMemory
    }
}
