//! Parts of the hall's calls.
ghost use Rattle.std.specs.Prelude.{◌≡◌, ◌<◌, [], IsSomeAnd, IfSome};
ghost use Rattle.portal_hall.specs.Turns.{kept_of, given_of};
ghost use Rattle.portal_hall.specs.Passes.{Rests};

use crate::board::{HallSeat, HeldMachine, Room, SplitRoom};
use crate::hall::Hall;
use crate::machine::Machine;

// Splits this count of seats off a seat, for a new one.
pub(crate) fn split_room<M: Machine, B: Room>(
    hall: &Hall<M>,
    seat: &mut HallSeat<M, M::Event>,
    room: u32,
) -> HallSeat<M, M::Event>
    requires seat { Rests hall.now seat.old }
    requires room { (room ≡ B.room) × (0 < room) × (room < seat.old.me.0.room) }
    ensures same { (seat.new.table_id ≡ seat.old.table_id) × (seat.new.id ≡ seat.old.id) }
    ensures kept { seat.new.me ≡ (kept_of room seat.old.me.0, []) }
    ensures given { (result.table_id ≡ seat.old.table_id) × (result.me ≡ (given_of room seat.old.me.0, [])) }
{
    hall.table.shared.split_seat::<SplitRoom<B>>(seat)
}

// The machine of a hall that couldn't be opened.
pub(crate) fn machine_of<M: Machine>(held: Option<HeldMachine<M, M::Event>>) -> M
    requires { IsSomeAnd held (λ h. h.history.items ≡ []) }
    ensures { IfSome held (λ h. result ≡ h.machine) }
{
    let HeldMachine { machine, history } = held.unwrap();
    history.destroy_empty();
    machine
}
