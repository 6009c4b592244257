//! The faults of a query.

use portal_base::seq::Seq;
use portal_base::text::Text;
use std::alloc::AllocError;

/// Why a query can't be read.
#[derive(Debug, Drop)]
pub enum QueryFault {
    /// The name and the message of each faulty part, in the order `fields`, `filters`, `sort`.
    Fields(Seq<(Text, Text)>),
    OutOfMemory,
}

impl From<AllocError> for QueryFault {
    ghost use Rattle.std.specs.Prelude.{◌≡◌};
    ghost use Rattle.datastore_query.specs.declared.fault.QueryFault.TheVariants.{OutOfMemory};

    ghost from_gives = { λ _ fault. fault ≡ OutOfMemory };

    fn from(_refused: AllocError) -> QueryFault {
        QueryFault::OutOfMemory
    }
}
