//! The outcome of an act.
ghost use Rattle.std.specs.Prelude.{◌≡◌};

use crate::machine::Machine;

/// The outcome of an event.
#[derive(Drop)]
pub enum Acted<M: Machine> {
    /// The machine replied. `front` is the length of the history at the reply, and `entry` the event's index in it, from
    /// 0, if it was accepted.
    Done {
        reply: M::Reply,
        front: u64,
        entry: Option<u64>,
    },
    /// Out of memory: the history couldn't grow. The event is returned, and the machine wasn't called.
    OutOfMemory(M::Event),
}

impl<M: Machine> Acted<M> {
    ghost use Rattle.portal_hall.specs.Passes.{events_of};

    /// The count of events that it added to the history.
    pub(crate) fn events(&self) -> u64
        ensures { result ≡ events_of self.now }
    {
        match self {
            Acted::Done {
                reply: _,
                front: _,
                entry: Some(_),
            } => 1,
            _ => 0,
        }
    }
}
