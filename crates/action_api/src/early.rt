//! Faults of a call that come before the portal answers it.
use portal_base::json_value::JsonFault;
use portal_base::text::Text;
use std::alloc::AllocError;

/// Why there is no request.
#[derive(Drop)]
pub enum Early {
    /// The body is longer than `LONGEST_BODY`.
    TooLong,
    /// The body is no JSON, or no dictionary.
    NotJson,
    /// The body is JSON with a number that is neither an `i64` nor a `u64`.
    Fraction,
    /// No action has this name.
    UnknownAction(Text),
    /// Memory ran out.
    OutOfMemory,
}

impl From<AllocError> for Early {
    ghost use Rattle.std.specs.Prelude.{◌≡◌};
    ghost use Rattle.action_api.specs.declared.early.Early.TheVariants.{OutOfMemory};

    ghost from_gives = { λ _ early. early ≡ OutOfMemory };

    fn from(_refused: AllocError) -> Early {
        Early::OutOfMemory
    }
}

impl From<JsonFault> for Early {
    ghost use Rattle.std.specs.Prelude.{◌≡◌};
    ghost use Rattle.action_api.specs.Request.{early_of};

    ghost from_gives = { λ fault early. early ≡ early_of fault };

    fn from(fault: JsonFault) -> Early {
        match fault {
            JsonFault::NotJson => Early::NotJson,
            JsonFault::Fraction => Early::Fraction,
            JsonFault::OutOfMemory => Early::OutOfMemory,
        }
    }
}
