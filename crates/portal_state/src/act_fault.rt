//! Why an event comes to no step.
use portal_keeper::change::KeepFault;
use std::alloc::AllocError;

/// Why an event comes to no step. The state is as before.
#[derive(Clone, Copy, Debug, PartialEq, Eq)]
pub enum ActFault {
    /// The keeper failed to change the rows of the store.
    Keeper,
    OutOfMemory,
}

impl From<AllocError> for ActFault {
    ghost use Rattle.std.specs.Prelude.{◌≡◌};
    ghost use Rattle.portal_state.specs.declared.act_fault.ActFault.TheVariants.{OutOfMemory};

    ghost from_gives = { λ _ fault. fault ≡ OutOfMemory };

    fn from(_refused: AllocError) -> ActFault {
        ActFault::OutOfMemory
    }
}

impl From<KeepFault> for ActFault {
    ghost use Rattle.std.specs.Prelude.{◌≡◌};
    ghost use Rattle.portal_state.specs.Faults.{act_fault};

    ghost from_gives = { λ refused fault. fault ≡ act_fault refused };

    fn from(fault: KeepFault) -> ActFault {
        match fault {
            KeepFault::Failed => ActFault::Keeper,
            KeepFault::OutOfMemory => ActFault::OutOfMemory,
        }
    }
}
