//! One turn: a ticket is drawn, the turn is waited for, the machine is taken out of the slot and put back, and the
//! turn is passed on.
use crate::board::{Draw, HallSeat, HeldMachine, LENGTH, Lengthen, Look, NEXT, PassOn, SERVED};
use crate::gates::Patience;
use crate::hall::Hall;
use crate::machine::Machine;
use std::sync::Wait;

impl<M: Machine> Hall<M> {
    ghost use Rattle.std.specs.Prelude.{◌≡◌, ℕ, ◌+◌, ◌%◌, ◌^◌, ◌<◌, ◌≤◌, length, [], ◌∷◌, None, Some};
    ghost use Rattle.portal_hall.specs.declared.board.Stage.TheVariants.{Waiting};
    ghost use Rattle.portal_hall.specs.Turns.{HasTurn};
    ghost use Rattle.portal_hall.specs.Passes.{opening, Rests, Begun, Ended, MayEnd};

    // Waits for the turn, and takes the content of the slot.
    pub(crate) fn begin<R: Wait>(
        &self,
        rt: &R,
        seat: &mut HallSeat<M, M::Event>,
    ) -> HeldMachine<M, M::Event>
        requires { Rests self.now seat.old }
        ensures { Begun M.core M.faults M.step self.now seat.old seat.new result }
    {
        let ticket = self.draw(seat);
        self.wait(rt, seat, ticket);
        self.take(seat)
    }

    // Draws a ticket.
    fn draw(&self, seat: &mut HallSeat<M, M::Event>) -> u64
        requires { Rests self.now seat.old }
        ensures same { (seat.new.table_id ≡ seat.old.table_id) × (seat.new.id ≡ seat.old.id) }
        ensures ticket { (t : ℕ) × (result ≡ t % 2 ^ 64)
            × (seat.new.me ≡ (record seat.old.me.0 { stage = Waiting t }, [])) }
    {
        self.table.shared.fetch_add::<Draw>(seat, NEXT, 1)
    }

    // Waits until the ticket is served.
    fn wait<R: Wait>(&self, rt: &R, seat: &mut HallSeat<M, M::Event>, ticket: u64)
        requires table { seat.old.table_id ≡ self.now.table.shared.table_id }
        requires ticket { (t : ℕ) × (ticket ≡ t % 2 ^ 64) × (seat.old.me.0.stage ≡ Waiting t) }
        requires hand { (seat.old.me.1 ≡ []) × (0 < seat.old.me.0.room) }
        ensures same { (seat.new.table_id ≡ seat.old.table_id) × (seat.new.id ≡ seat.old.id) }
        ensures turn { (t : ℕ) × HasTurn M.core M.faults M.step seat.old.me t seat.new.me }
    {
        let gate = self.gates.of_ticket(ticket);
        let mut patience = Patience::new();
        for _ in rt.forever() {
            let served = self.table.shared.load::<Look<M>>(seat, SERVED);
            if served == ticket {
                return;
            }
            patience.wait(rt, gate, ticket.wrapping_sub(served));
        }
        unreachable!()
    }

    // Takes the content of the slot.
    fn take(&self, seat: &mut HallSeat<M, M::Event>) -> HeldMachine<M, M::Event>
        requires table { seat.old.table_id ≡ self.now.table.shared.table_id }
        requires full { (held : HeldMachine M M.Event) × (seat.old.me.1 ≡ (0, Some held) ∷ []) }
        ensures same { (seat.new.table_id ≡ seat.old.table_id) × (seat.new.id ≡ seat.old.id) }
        ensures held { (seat.old.me.1 ≡ (0, Some result) ∷ []) × (seat.new.me ≡ (seat.old.me.0, (0, None) ∷ [])) }
    {
        self.table.shared.exchange(seat, 0, None).unwrap()
    }

    // Returns the machine and its history, which has grown by `more` events, to the slot, and passes the turn on.
    pub(crate) fn end(
        &self,
        seat: &mut HallSeat<M, M::Event>,
        held: HeldMachine<M, M::Event>,
        more: u64,
    )
        requires { MayEnd M.core M.faults M.step self.now more seat.old held }
        ensures { Ended M.core M.faults M.step more seat.old seat.new held }
    {
        let shared = &self.table.shared;
        let nothing = shared.exchange(seat, 0, Some(held));
        let None = nothing else { unreachable!() };
        shared.fetch_add::<Lengthen<M>>(seat, LENGTH, more);
        let served = shared.fetch_add::<PassOn>(seat, SERVED, 1);
        self.gates.of_ticket(served.wrapping_add(1)).open();
    }
}
