//! Serving a desk: one link after another. Each goes back to the listener before the next is accepted.
ghost use Rattle.std.specs.Prelude.{◌≡◌, ◌≤◌, false};
ghost use Rattle.portal_links.specs.Desk.{desk_trace};
ghost use Rattle.portal_links.specs.Written.{link_trace};
ghost use Rattle.portal_serve.specs.Desk.{ServesDesk, ServesNext};

use crate::serve::serve_link;
use portal_base::outside::{Clock, Desk, Failed, Listener, Nonces};
use portal_core::portal::Portal;
use portal_keeper::keeper::Keeper;
use portal_links::tokens::Tokens;
use std::alloc::Global;

/// Serves the next link, and returns whether there was one.
fn serve_next<P: Keeper, L: Listener, C: Clock, N: Nonces>(
    alloc: Global,
    portal: &mut Portal<P>,
    tokens: &Tokens,
    desk: &mut Desk<L, C, N>,
) -> Result<bool, Failed>
    requires home { L.is_out desk.old.listener ≡ false }
    ensures home { L.is_out desk.new.listener ≡ false }
    ensures next { ServesNext (λ peer. link_trace (L.Peer.to_come peer) (L.Peer.taken peer) (L.Peer.faults peer))
        tokens.now portal.old.state
        (desk_trace (L.to_come desk.old.listener) (L.taken_back desk.old.listener) (L.count desk.old.listener)
        (L.is_at_end desk.old.listener) (L.faults desk.old.listener) (C.given desk.old.clock) (N.given desk.old.nonces))
        (desk_trace (L.to_come desk.new.listener) (L.taken_back desk.new.listener) (L.count desk.new.listener)
        (L.is_at_end desk.new.listener) (L.faults desk.new.listener) (C.given desk.new.clock) (N.given desk.new.nonces))
        portal.new.state result }
    ensures keeper_counts { P.faults portal.old.keeper ≤ P.faults portal.new.keeper }
    ensures counts { L.faults desk.old.listener ≤ L.faults desk.new.listener }
{
    let mut peer = match desk.listener.accept() {
        Ok(Some(peer)) => peer,
        Ok(None) => return Ok(false),
        Err(failed) => return Err(failed),
    };
    let moment = desk.clock.now();
    let nonce = desk.nonces.next();
    let _served = serve_link(alloc, portal, tokens, &mut peer, moment, nonce);
    desk.listener.finish(peer);
    Ok(true)
}

/// Serves the desk's links one after another, at most `limit` of them, and gives each back to the listener. It fails
/// where the listener's count of faults rose.
pub fn serve_desk<P: Keeper, L: Listener, C: Clock, N: Nonces>(
    alloc: Global,
    portal: &mut Portal<P>,
    tokens: &Tokens,
    desk: &mut Desk<L, C, N>,
    limit: u64,
) -> Result<(), Failed>
    requires home { L.is_out desk.old.listener ≡ false }
    ensures home { L.is_out desk.new.listener ≡ false }
    ensures served { ServesDesk (λ peer. link_trace (L.Peer.to_come peer) (L.Peer.taken peer) (L.Peer.faults peer))
        tokens.now portal.old.state limit
        (desk_trace (L.to_come desk.old.listener) (L.taken_back desk.old.listener) (L.count desk.old.listener)
        (L.is_at_end desk.old.listener) (L.faults desk.old.listener) (C.given desk.old.clock) (N.given desk.old.nonces))
        (desk_trace (L.to_come desk.new.listener) (L.taken_back desk.new.listener) (L.count desk.new.listener)
        (L.is_at_end desk.new.listener) (L.faults desk.new.listener) (C.given desk.new.clock) (N.given desk.new.nonces))
        portal.new.state result }
    ensures keeper_counts { P.faults portal.old.keeper ≤ P.faults portal.new.keeper }
    ensures counts { L.faults desk.old.listener ≤ L.faults desk.new.listener }
{
    for _ in 0..limit {
        match serve_next(alloc, portal, tokens, desk) {
            Ok(true) => {}
            Ok(false) => return Ok(()),
            Err(failed) => return Err(failed),
        }
    }
    Ok(())
}
