//! The portal of a run: opened over the store's keeper, and handed back with it.
ghost use Rattle.std.specs.Prelude.{◌≡◌, ◌≤◌, [], IfErr, IfOk, IfSome, IsTrue};
ghost use Rattle.portal_state.specs.KeptRows.{kept_rows};
ghost use Rattle.portal_state.specs.Opened.{is_opening};
ghost use Rattle.portal_state.specs.PortalValue.{IsOpenedOver};
ghost use Rattle.portal_state.specs.Valid.{IsValid};
ghost use Rattle.portal_keeper.specs.Keeping.{Shows};
ghost use Rattle.portal_start.specs.OverStore.{FailsToOpen, status_for_opening, store_trace};

use harvest_pool::{RoundFault, RoundReport};
use portal_base::seq::Seq;
use portal_core::portal::{OpenFault, Opening, Portal};
use portal_keeper::keeper::Keeper;
use portal_status::status::Status;
use std::alloc::Global;

/// How a run ended, and the keeper that it was given.
#[derive(Drop)]
pub struct Ended<P> {
    pub status: Status,
    pub keeper: P,
    /// The answers of the run's rounds of harvests, in order.
    pub rounds: Seq<Result<RoundReport, RoundFault>>,
}

/// The status for a portal that isn't opened.
fn status_of_opening(fault: OpenFault) -> Status
    ensures { result ≡ status_for_opening fault }
{
    match fault {
        OpenFault::Keeper => Status::KeeperFault,
        OpenFault::BadRows(_) => Status::StoredRows,
        OpenFault::OutOfMemory => Status::OutOfMemory,
    }
}

/// Opens the portal over the keeper.
pub fn open_portal<P: Keeper>(
    alloc: Global,
    keeper: P,
    opening: &Opening,
) -> Result<Portal<P>, Ended<P>>
    requires { IsTrue (is_opening opening.now) }
    ensures opened { IfOk result
        (λ portal. IfSome (P.rows keeper) (λ rows. IsOpenedOver opening.now rows portal.state)) }
    ensures counts { IfOk result (λ portal. P.faults keeper ≤ P.faults portal.keeper) }
    ensures fails { IfErr result (λ ended. FailsToOpen
        (store_trace (P.rows keeper) (P.faults keeper) (P.rows ended.keeper) (P.faults ended.keeper)) ended.status) }
    ensures counted { IfErr result (λ ended. P.faults keeper ≤ P.faults ended.keeper) }
    ensures no_rounds { IfErr result (λ ended. ended.rounds ≡ []) }
{
    match Portal::open(alloc, keeper, opening) {
        Ok(portal) => Ok(portal),
        Err((fault, keeper)) => Err(Ended {
            status: status_of_opening(fault),
            keeper,
            rounds: Seq::new(alloc),
        }),
    }
}

/// Ends a run with this status and these answers of its rounds, and hands the portal's keeper back.
pub fn end_with<P: Keeper>(
    portal: Portal<P>,
    status: Status,
    rounds: Seq<Result<RoundReport, RoundFault>>,
) -> Ended<P>
    ensures status { result.status ≡ status }
    ensures rounds { result.rounds ≡ rounds }
    ensures keeper { result.keeper ≡ portal.keeper }
    ensures valid { IsValid portal.state }
    ensures rows { Shows (P.rows result.keeper) (kept_rows portal.state) }
{
    Ended {
        status,
        keeper: portal.into_keeper(),
        rounds,
    }
}
