//! What a portal is opened with, and why that fails.
use org_roles::entry::{Membership, Org, User};
use portal_base::seq::Seq;
use portal_keeper::change::KeepFault;
use portal_keeper::row::KeptRow;
use std::alloc::AllocError;

/// A role of a user in an organization, in an opening.
pub type Role0 = Membership;

/// The users, organizations and roles that a portal is opened with.
#[derive(Drop)]
pub struct Opening {
    pub users: Seq<User>,
    pub orgs: Seq<Org>,
    pub roles: Seq<Role0>,
}

/// Why opening a portal failed.
#[derive(Drop)]
pub enum OpenFault {
    /// The keeper failed.
    Keeper,
    /// These rows of the store are those of no state.
    BadRows(Seq<KeptRow>),
    OutOfMemory,
}

impl From<AllocError> for OpenFault {
    ghost use Rattle.std.specs.Prelude.{◌≡◌};
    ghost use Rattle.portal_state.specs.declared.opening.OpenFault.TheVariants.{OutOfMemory};

    ghost from_gives = { λ _ fault. fault ≡ OutOfMemory };

    fn from(_refused: AllocError) -> OpenFault {
        OpenFault::OutOfMemory
    }
}

impl From<KeepFault> for OpenFault {
    ghost use Rattle.std.specs.Prelude.{◌≡◌};
    ghost use Rattle.portal_state.specs.Faults.{open_fault};

    ghost from_gives = { λ refused fault. fault ≡ open_fault refused };

    fn from(fault: KeepFault) -> OpenFault {
        match fault {
            KeepFault::Failed => OpenFault::Keeper,
            KeepFault::OutOfMemory => OpenFault::OutOfMemory,
        }
    }
}
