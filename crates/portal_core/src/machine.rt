//! The portal as a machine, which a hall runs for many threads, one event at a time.
use crate::portal::Portal;
use portal_events::{Event, Reply};
use portal_hall::machine::Machine;
use portal_keeper::keeper::Keeper;

impl<K: Keeper> Machine for Portal<K> {
    ghost use Rattle.std.specs.Prelude.{◌≡◌};
    ghost use Rattle.portal_events.specs.declared.event.Refusal.TheVariants.{KeeperFault, OutOfMemory};
    ghost use Rattle.portal_events.specs.declared.event.Reply.TheVariants.{Refused};
    ghost use Rattle.portal_state.specs.State.{State};
    ghost use Rattle.portal_state.specs.Step.{step_of};

    type Event = Event;

    type Reply = Reply;

    ghost Core = { State };

    ghost core = { λ portal. portal.state };

    ghost faults = { λ portal. K.faults portal.keeper };

    ghost step = { step_of };

    ghost IsOutOfMemory = { λ reply. reply ≡ Refused OutOfMemory };

    ghost IsFault = { λ reply. reply ≡ Refused KeeperFault };

    /// Makes the step of the event, as `Portal::act` does. The event is accepted if the reply is that a change was made.
    fn act(&mut self, event: &Event) -> (Reply, bool) {
        let reply = Portal::act(self, event);
        let is_accepted = reply.is_change();
        (reply, is_accepted)
    }
}

/// Compiles for what can go to another thread.
fn goes_to_threads<T: Send>() {}

/// Compiles for what several threads can read.
fn is_shared_by_threads<T: Sync>() {}

/// A portal can go to another thread if its keeper can.
pub fn a_portal_goes_to_threads<K: Keeper + Send>() {
    goes_to_threads::<Portal<K>>()
}

/// Several threads can read a portal if they can read its keeper.
pub fn a_portal_is_shared_by_threads<K: Keeper + Sync>() {
    is_shared_by_threads::<Portal<K>>()
}
