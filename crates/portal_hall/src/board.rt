//! The table that the passes of a hall share, and the effect of each step on it.
ghost use Rattle.portal_hall.specs.Turns.{drew, looked, lengthened, passed, checked, joined, empty_view};

use crate::machine::Machine;
use atomic_table::{Join, Play, Seat, Split, Table, TableRule};
use std::alloc::Global;
use std::collections::LinkedList;
use std::marker::{Brand, PhantomData};
use std::snapshot::Snapshot;

/// The count of the table's words. Three are used, each on cache lines of its own, since different threads write them.
pub(crate) const WORDS: usize = 48;

/// The word of the next ticket to be drawn.
pub(crate) const NEXT: usize = 8;

/// The word of the ticket whose turn it is.
pub(crate) const SERVED: usize = 24;

/// The word of the length of the history.
pub(crate) const LENGTH: usize = 40;

/// The content of the slot: a machine, and the events that it accepted, in order.
#[derive(Drop)]
pub struct HeldMachine<M, E> {
    pub machine: M,
    pub history: Vec<E>,
}

/// Whether a seat has a ticket, and whether it is its turn. Ticket numbers have no upper bound.
pub enum Stage {
    Resting,
    Waiting(u64),
    Acting(u64),
}

/// What a seat knows of the hall. It stands in contracts alone, and no value of it is made.
pub struct View<M, E> {
    /// The machine that the hall was opened with. A view that another view has joined has none.
    pub opening: Option<M>,
    /// The count of the hall's seats.
    pub seats: u64,
    pub stage: Stage,
    /// A prefix of the history.
    pub seen: LinkedList<E>,
    /// The indexes in the history of the events that its own calls added.
    pub own: LinkedList<u64>,
    /// A count of faults that the machine has reached.
    pub mark: u64,
    pub room: u64,
    /// What each of the two views had seen that were joined to this one.
    pub left_seen: LinkedList<E>,
    pub right_seen: LinkedList<E>,
}

/// The rule of the table.
pub struct InTurn<M> {
    machine: PhantomData<M>,
}

impl<M: Machine> TableRule<Option<HeldMachine<M, M::Event>>, View<M, M::Event>, (Snapshot<M>, u32)>
    for InTurn<M> {
    ghost use Rattle.portal_hall.specs.Turns.{Kept, starting};

    ghost holds = { λ key. Kept M.core M.faults M.step key.0.value key.1 };

    ghost first = { λ key. starting M.faults key.0.value key.1 };
}

pub type Board<M, E> = Table<
    Option<HeldMachine<M, E>>,
    View<M, E>,
    (Snapshot<M>, u32),
    InTurn<M>,
    Global,
>;

pub type HallSeat<M, E> = Seat<Option<HeldMachine<M, E>>, View<M, E>>;

pub struct Draw;

impl<M, E> Play<Option<HeldMachine<M, E>>, View<M, E>> for Draw {
    ghost then = { drew };
}

pub struct Look<M> {
    machine: PhantomData<M>,
}

impl<M: Machine> Play<Option<HeldMachine<M, M::Event>>, View<M, M::Event>> for Look<M> {
    ghost then = { looked M.core M.faults M.step };
}

pub struct Lengthen<M> {
    machine: PhantomData<M>,
}

impl<M: Machine> Play<Option<HeldMachine<M, M::Event>>, View<M, M::Event>> for Lengthen<M> {
    ghost then = { lengthened M.core M.faults M.step };
}

pub struct PassOn;

impl<M, E> Play<Option<HeldMachine<M, E>>, View<M, E>> for PassOn {
    ghost then = { passed };
}

pub struct Check;

impl<M, E> Play<Option<HeldMachine<M, E>>, View<M, E>> for Check {
    ghost then = { checked };
}

/// The count of seats that a pass gives to another.
pub trait Room {
    ghost use Rattle.std.specs.Prelude.{ℕ};

    ghost room: { ℕ };
}

pub struct SplitRoom<B> {
    room: PhantomData<B>,
}

impl<M, E, B: Room> Split<View<M, E>> for SplitRoom<B> {
    ghost use Rattle.portal_hall.specs.Turns.{kept_of, given_of};

    ghost left = { kept_of B.room };

    ghost right = { given_of B.room };
}

pub struct JoinSeats;

impl<M, E> Join<View<M, E>> for JoinSeats {
    ghost both = { joined };

    ghost spent = { empty_view };
}

impl Room for Brand {
    ghost room = { 0 };
}
