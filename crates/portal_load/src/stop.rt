//! Why a load stops before its end, and why one of its calls isn't granted.
use portal_base::text::Text;
use std::alloc::AllocError;

/// Why a call of a load wasn't granted.
#[derive(Drop)]
pub enum CallFault {
    /// The reply has another status than 200.
    Refused,
    /// Output failed.
    WriteFault,
    /// The keeper failed.
    KeeperFault,
    OutOfMemory,
}

impl From<AllocError> for CallFault {
    ghost use Rattle.std.specs.Prelude.{◌≡◌};
    ghost use Rattle.portal_load.specs.declared.stop.CallFault.TheVariants.{OutOfMemory};

    ghost from_gives = { λ _ fault. fault ≡ OutOfMemory };

    fn from(_refused: AllocError) -> CallFault {
        CallFault::OutOfMemory
    }
}

/// Why a load stopped.
#[derive(Drop)]
pub enum LoadStop {
    /// Input failed.
    ReadFault,
    /// Output failed.
    WriteFault,
    /// The keeper failed.
    KeeperFault,
    OutOfMemory,
    /// The schema or the CSV has a fault, or input gave more than 2^40 bytes. The text says which.
    DataFault(Text),
    /// The reply to a call has another status than 200.
    Refused,
}

impl From<CallFault> for LoadStop {
    ghost use Rattle.std.specs.Prelude.{◌≡◌};
    ghost use Rattle.portal_load.specs.Stop.{stop_for_fault};

    ghost from_gives = { λ fault stop. stop ≡ stop_for_fault fault };

    fn from(fault: CallFault) -> LoadStop {
        match fault {
            CallFault::Refused => LoadStop::Refused,
            CallFault::WriteFault => LoadStop::WriteFault,
            CallFault::KeeperFault => LoadStop::KeeperFault,
            CallFault::OutOfMemory => LoadStop::OutOfMemory,
        }
    }
}
