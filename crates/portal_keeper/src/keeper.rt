//! The trait of the device that keeps the rows of a portal.
//!
//! As for the other devices, the ghost members of the trait are what is observable of a keeper. Its rows are none for a
//! keeper whose rows are not observable, and then no clause claims anything of them. The count of faults is always
//! observable.
ghost use Rattle.std.specs.Prelude.{◌≤◌, ℕ, List, Option, IfOk, OnOk, OnErr, IsErrOf};
ghost use Rattle.portal_base.specs.Outside.{Rose};
ghost use Rattle.portal_keeper.specs.declared.row.KeptRow.{KeptRow};
ghost use Rattle.portal_keeper.specs.Keeping.{ShowsOrder, Shows, KeepsRows, ChangesRows};

use crate::change::{Change, KeepFault};
use crate::row::KeptRow;
use portal_base::seq::Seq;
use std::alloc::Global;

/// A keeper of rows: a map from a kind and a key to a body. It may cease to be observable at any call, as a store does
/// that somebody else writes to. It begins to be observable at a `load` alone.
pub trait Keeper {
    /// The rows in order, where they are observable.
    ghost rows: { Self → Option (List KeptRow) };

    /// The number of faults so far, up to the maximum of a `u64`.
    ghost faults: { Self → ℕ };

    /// The rows, ascending by kind and key. The call doesn't change them.
    fn load(&mut self, alloc: Global) -> Result<Seq<KeptRow>, KeepFault>
        ensures ordered { ShowsOrder (rows self.new) }
        ensures was_ordered { ShowsOrder (rows self.old) }
        ensures rows { IfOk result (λ loaded. Shows (rows self.old) loaded) }
        ensures kept { IfOk result (λ loaded. Shows (rows self.new) loaded) }
        ensures refused { OnErr result (KeepsRows (rows self.old) (rows self.new)) }
        ensures failed { IsErrOf result KeepFault.Failed → Rose (faults self.old) (faults self.new) }
        ensures counts { faults self.old ≤ faults self.new };

    /// Makes the changes, one after the other. After an error none of them is made.
    fn apply(&mut self, alloc: Global, changes: &Seq<Change>) -> Result<(), KeepFault>
        ensures ordered { ShowsOrder (rows self.new) }
        ensures was_ordered { ShowsOrder (rows self.old) }
        ensures changed { OnOk result (ChangesRows (rows self.old) changes.now (rows self.new)) }
        ensures refused { OnErr result (KeepsRows (rows self.old) (rows self.new)) }
        ensures failed { IsErrOf result KeepFault.Failed → Rose (faults self.old) (faults self.new) }
        ensures counts { faults self.old ≤ faults self.new };
}
