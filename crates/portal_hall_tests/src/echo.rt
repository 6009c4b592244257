//! A machine with the portal's events, and links that a pass of a hall over it serves.
ghost use Rattle.std.specs.Prelude.{◌≡◌};
ghost use Rattle.portal_hall.specs.Passes.{IsPassOf, room_of};

use portal_base::json_value::Json;
use portal_base::moment::Moment;
use portal_base::nonce::Nonce;
use portal_base::outside::Link;
use portal_events::{Event, Reply};
use portal_hall::hall::Hall;
use portal_hall::machine::Machine;
use portal_hall::pass::Pass;
use portal_links::serve::serve_link;
use portal_links::tokens::Tokens;
use portal_links::written::Served;
use std::alloc::Global;
use std::sync::Wait;

/// A machine that shows `true` for each event, and accepts none.
#[derive(Drop)]
pub struct Echo;

impl Machine for Echo {
    ghost use Rattle.std.specs.Prelude.{⊤};
    ghost use Rattle.portal_hall_tests.specs.Echoing.{echo_step};

    type Event = Event;

    type Reply = Reply;

    ghost Core = { ⊤ };

    ghost core = { λ _. tt };

    ghost faults = { λ _. 0 };

    ghost step = { echo_step };

    ghost IsOutOfMemory = { λ _. ⊥ };

    ghost IsFault = { λ _. ⊥ };

    fn act(&mut self, _event: &Event) -> (Reply, bool) {
        (Reply::Shown(Json::Truth(true)), false)
    }
}

/// Serves one link by the pass.
pub fn serve_by_pass<K: Link, R: Wait>(
    alloc: Global,
    rt: &R,
    hall: &Hall<Echo>,
    pass: &mut Pass<Echo>,
    tokens: &Tokens,
    link: &mut K,
    moment: Moment,
) -> (Served, Option<u64>)
    requires { IsPassOf hall.now pass.old }
    ensures { IsPassOf hall.now pass.new × (room_of pass.new ≡ room_of pass.old) }
{
    serve_link(alloc, rt, hall, pass, tokens, link, moment, Nonce(1))
}
