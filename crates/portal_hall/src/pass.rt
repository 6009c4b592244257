//! A pass of a hall.
use crate::board::HallSeat;
use crate::machine::Machine;

/// A caller's leave to act in a hall.
#[derive(Drop)]
pub struct Pass<M: Machine> {
    pub(crate) seat: HallSeat<M, M::Event>,
    pub(crate) room: u32,
}

impl<M: Machine> Pass<M> {
    ghost use Rattle.std.specs.Prelude.{◌≡◌};
    ghost use Rattle.portal_hall.specs.Passes.{room_of};

    /// The count of the hall's seats that the pass has.
    pub fn room(&self) -> u32
        ensures { result ≡ room_of self.now }
    {
        self.room
    }
}
