//! A machine on which its passes act in turn.
ghost use Rattle.std.specs.Prelude.{◌≡◌};

use crate::acted::Acted;
use crate::board::{Board, Check, HeldMachine, JoinSeats, SERVED, WORDS};
use crate::gates::Gates;
use crate::machine::Machine;
use crate::parts::{machine_of, split_room};
use crate::pass::Pass;
use atomic_table::{Refused, Table};
use portal_base::seq::Seq;
use std::alloc::Global;
use std::marker::Brand;
use std::snapshot::Snapshot;
use std::sync::Wait;

/// A machine with the history of the events that it accepted.
#[derive(Drop)]
pub struct Hall<M: Machine> {
    pub(crate) table: Board<M, M::Event>,
    pub(crate) gates: Gates,
    ghost sized: { (table.shared.table_id.words ≡ 48) × (table.shared.table_id.slots ≡ 1) },
}

impl<M: Machine> Hall<M> {
    ghost use Rattle.std.specs.Prelude.{◌≡◌, ℕ, ◌+◌, ◌%◌, ◌^◌, ◌<◌, ◌≤◌, length, [], ◌∷◌, ◌++◌, max, IfOk, IfErr};
    ghost use Rattle.portal_hall.specs.History.{Begins, once_below, replay, IsLegal, times};
    ghost use Rattle.portal_hall.specs.Turns.{longer};
    ghost use Rattle.portal_hall.specs.Passes.{opening, seats_of, room_of, seen, own, mark, OwnsAll, IsPassOf};
    ghost use Rattle.portal_hall.specs.Passes.{IsEntry, IsRefusal, IfEntry, IfNoEntry, IfOutOfMemory, added_by};

    /// Opens a hall over the machine, with a pass that has all its seats, 1 to 64. Out of memory, it returns the machine.
    pub fn open(alloc: Global, machine: M, seats: u32) -> Result<(Hall<M>, Pass<M>), M>
        requires { (1 ≤ seats) × (seats ≤ 64) }
        ensures hall { IfOk result (λ r. (opening r.0 ≡ machine) × (seats_of r.0 ≡ seats)) }
        ensures pass { IfOk result (λ r. IsPassOf r.0 r.1 × (room_of r.1 ≡ seats)) }
        ensures nothing { IfOk result (λ r. (seen r.1 ≡ []) × (own r.1 ≡ []) × (mark r.1 ≡ M.faults machine)) }
        ensures all { IfOk result (λ r. OwnsAll r.0 r.1) }
        ensures back { IfErr result (λ back. back ≡ machine) }
    {
        let about = (Snapshot::of(&machine), seats);
        let held = HeldMachine {
            machine,
            history: Vec::new(alloc),
        };
        let mut slots = Vec::new(alloc);
        if let Err(refused) = slots.push(Some(held)) {
            slots.destroy_empty();
            return Err(machine_of(refused.value));
        }
        match Table::new(alloc, &[0; WORDS], slots, &about) {
            Ok((table, seat)) => {
                let gates = Gates::new();
                Ok((Hall { table, gates }, Pass { seat, room: seats }))
            }
            Err(Refused { mut slots }) => {
                let held = slots.pop().unwrap();
                slots.destroy_empty();
                Err(machine_of(held))
            }
        }
    }

    /// Waits for the pass's turn, and calls the machine with the event. The reply is the machine's after all the events
    /// that the pass has then seen, or, if the event is accepted, just before it.
    pub fn act<R: Wait>(&self, rt: &R, pass: &mut Pass<M>, event: M::Event) -> Acted<M>
        requires { IsPassOf self.now pass.old }
        ensures pass { IsPassOf self.now pass.new × (room_of pass.new ≡ room_of pass.old) }
        ensures seen { Begins (seen pass.old) (seen pass.new) }
        ensures entry { IfEntry result (λ reply front k. (front ≡ length (seen pass.new))
            × (own pass.new ≡ own pass.old ++ k ∷ [])
            × IsEntry M.step (M.core (opening self.now)) (seen pass.old) (seen pass.new) event reply front k) }
        ensures no_entry { IfNoEntry result (λ reply front. (front ≡ length (seen pass.new))
            × (own pass.new ≡ own pass.old)
            × IsRefusal M.step M.IsOutOfMemory M.IsFault (replay M.step (M.core (opening self.now)) (seen pass.new))
            event reply (mark pass.old) (mark pass.new)) }
        ensures back { IfOutOfMemory result (λ back. (back ≡ event) × (own pass.new ≡ own pass.old)) }
        ensures mark { mark pass.old ≤ mark pass.new }
        ensures all { OwnsAll self.now pass.new }
        ensures alone { room_of pass.old ≡ seats_of self.now
            → seen pass.new ≡ seen pass.old ++ added_by result event }
    {
        let mut held = self.begin(rt, &mut pass.seat);
        let acted = held.act_and_record(event);
        let more = acted.events();
        self.end(&mut pass.seat, held, more);
        acted
    }

    /// Moves this count of seats to a new pass, which has seen as much of the history and owns none of its events.
    pub fn split(&self, pass: &mut Pass<M>, room: u32) -> Pass<M>
        requires pass { IsPassOf self.now pass.old }
        requires room { (1 ≤ room) × (room < room_of pass.old) }
        ensures pass { IsPassOf self.now pass.new × (room_of pass.new + room ≡ room_of pass.old) }
        ensures kept { (seen pass.new ≡ seen pass.old) × (own pass.new ≡ own pass.old)
            × (mark pass.new ≡ mark pass.old) }
        ensures given { IsPassOf self.now result × (room_of result ≡ room) }
        ensures copied { (seen result ≡ seen pass.old) × (own result ≡ []) × (mark result ≡ mark pass.old) }
    {
        let seat = split_room::<M, Brand>(self, &mut pass.seat, room);
        pass.room -= room;
        Pass { seat, room }
    }

    /// Joins another pass to this one, with its seats and with what it has seen and owns.
    pub fn join(&self, pass: &mut Pass<M>, other: Pass<M>)
        requires pass { IsPassOf self.now pass.old }
        requires other { IsPassOf self.now other }
        ensures pass { IsPassOf self.now pass.new × (room_of pass.new ≡ room_of pass.old + room_of other) }
        ensures seen { seen pass.new ≡ longer (seen pass.old) (seen other) }
        ensures begins { Begins (seen pass.old) (seen pass.new) × Begins (seen other) (seen pass.new) }
        ensures own { own pass.new ≡ own pass.old ++ own other }
        ensures apart { (x : ℕ) → times x (own pass.new) ≤ 1 }
        ensures mark { mark pass.new ≡ max (mark pass.old) (mark other) }
        ensures all { OwnsAll self.now pass.new }
    {
        let Pass { seat, room } = other;
        self.table
            .shared
            .join_seat::<JoinSeats>(&mut pass.seat, seat);
        self.table.shared.load::<Check>(&mut pass.seat, SERVED);
        pass.room += room;
    }

    /// Ends the hall by the pass that has all its seats. Returns the machine and the history.
    pub fn close(self, pass: Pass<M>) -> (M, Seq<M::Event>)
        requires pass { IsPassOf self pass }
        requires all { room_of pass ≡ seats_of self }
        ensures seen { Begins (seen pass) result.1 }
        ensures own { (x : ℕ) → times x (own pass) ≡ once_below x (length result.1) }
        ensures legal { IsLegal M.step (M.core (opening self)) result.1 }
        ensures core { M.core result.0 ≡ replay M.step (M.core (opening self)) result.1 }
        ensures mark { mark pass ≤ M.faults result.0 }
    {
        let Hall { table, gates: _ } = self;
        let Pass { seat, room: _ } = pass;
        let mut closed = table.close_with(seat);
        let held = closed.take(0);
        closed.free();
        let HeldMachine { machine, history } = held.unwrap();
        (machine, Seq::from(history))
    }
}
