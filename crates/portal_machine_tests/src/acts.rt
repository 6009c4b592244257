//! Acts in a hall over a machine with the portal's events. They are generic over it: the borrow checker doesn't cover them over
//! a portal of one keeper.
ghost use Rattle.std.specs.Prelude.{◌≡◌};
ghost use Rattle.portal_hall.specs.Passes.{IsPassOf, room_of};

use portal_events::{Event, Reply};
use portal_hall::acted::Acted;
use portal_hall::hall::Hall;
use portal_hall::machine::Machine;
use portal_hall::pass::Pass;
use std::sync::Wait;

/// The machine's reply, the length of the history at the reply, and the event's index in it, if it was accepted.
#[derive(Drop)]
pub struct Outcome {
    pub reply: Reply,
    pub front: u64,
    pub entry: Option<u64>,
}

/// The outcome of the event, if there was memory for it in the history.
pub fn act<R: Wait, M: Machine<Event = Event, Reply = Reply>>(
    rt: &R,
    hall: &Hall<M>,
    pass: &mut Pass<M>,
    event: Event,
) -> Option<Outcome>
    requires { IsPassOf hall.now pass.old }
    ensures { IsPassOf hall.now pass.new × (room_of pass.new ≡ room_of pass.old) }
{
    match hall.act(rt, pass, event) {
        Acted::Done {
            reply,
            front,
            entry,
        } => Some(Outcome {
            reply,
            front,
            entry,
        }),
        Acted::OutOfMemory(_) => None,
    }
}
