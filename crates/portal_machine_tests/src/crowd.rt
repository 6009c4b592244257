//! Threads that create datasets.
ghost use Rattle.std.specs.Prelude.{◌≡◌, All, IsSomeAnd, length};
ghost use Rattle.portal_hall.specs.Passes.{IsPassOf, room_of};

use crate::acts::act;
use crate::calls::create_dataset;
use crate::crew::{Crew, Slot};
use portal_base::moment::Moment;
use portal_core::portal::Portal;
use portal_events::{Event, Reply};
use portal_hall::hall::Hall;
use portal_hall::machine::Machine;
use portal_hall::pass::Pass;
use portal_keeper::memory::MemoryKeeper;
use std::alloc::Global;
use std::array;
use std::sync::Wait;
use std::sync::atomic::AtomicU64;
use std::sync::atomic::Ordering::SeqCst;
use std::thread::{Threads, for_each_mut};

/// The entries of four threads: for each of the first hundred indexes of the history the count of entries there, and the count
/// of the entries of each thread.
#[derive(Drop)]
pub struct Entries {
    at_index: [AtomicU64; 100],
    of_thread: [AtomicU64; 4],
}

impl Entries {
    pub fn new() -> Entries {
        Entries {
            at_index: array::from_fn(|_| AtomicU64::new(0)),
            of_thread: array::from_fn(|_| AtomicU64::new(0)),
        }
    }

    /// Counts an entry of the thread at that index of the history.
    fn count(&self, thread: usize, index: u64) {
        if let Some(count) = self.at_index.get(index as usize) {
            let _ = count.fetch_add(1, SeqCst);
        }
        if let Some(count) = self.of_thread.get(thread) {
            let _ = count.fetch_add(1, SeqCst);
        }
    }

    /// Whether each index has one entry, and each thread 25.
    pub fn are_shared_out(&self) -> bool {
        self.at_index.iter().all(|count| count.load(SeqCst) == 1)
            && self.of_thread.iter().all(|count| count.load(SeqCst) == 25)
    }
}

/// Creates the 25 datasets of that thread, and counts their entries.
fn create_datasets<R: Wait, M: Machine<Event = Event, Reply = Reply>>(
    rt: &R,
    alloc: Global,
    hall: &Hall<M>,
    pass: &mut Pass<M>,
    moment: Moment,
    thread: usize,
    entries: &Entries,
)
    requires { IsPassOf hall.now pass.old }
    ensures { IsPassOf hall.now pass.new × (room_of pass.new ≡ room_of pass.old) }
{
    let first = (thread as u64).saturating_mul(25);
    for number in first..first.saturating_add(25) {
        if let Some(index) = create(rt, alloc, hall, pass, moment, number) {
            entries.count(thread, index);
        }
    }
}

/// Creates the dataset with that number, with a nonce of the same number, and returns its index in the history.
fn create<R: Wait, M: Machine<Event = Event, Reply = Reply>>(
    rt: &R,
    alloc: Global,
    hall: &Hall<M>,
    pass: &mut Pass<M>,
    moment: Moment,
    number: u64,
) -> Option<u64>
    requires { IsPassOf hall.now pass.old }
    ensures { IsPassOf hall.now pass.new × (room_of pass.new ≡ room_of pass.old) }
{
    let Ok(event) = create_dataset(alloc, moment, number, number) else {
        return None;
    };
    match act(rt, hall, pass, event) {
        Some(outcome) => outcome.entry,
        None => None,
    }
}

/// The portal after four threads with a pass each over one hall of it, and the count of events that it accepted.
pub fn after_crowd<R: Threads + Wait + Sync>(
    rt: &R,
    alloc: Global,
    portal: Portal<MemoryKeeper>,
    moment: Moment,
    entries: &Entries,
) -> Option<(Portal<MemoryKeeper>, usize)> {
    let (hall, mut crew) = Crew::over(alloc, portal)?;
    create_in_threads(rt, alloc, &hall, &mut crew, moment, entries);
    crew.leave(hall)
}

/// Each pass of the crew creates 25 datasets, in a thread of its own.
fn create_in_threads<R: Threads + Wait + Sync>(
    rt: &R,
    alloc: Global,
    hall: &Hall<Portal<MemoryKeeper>>,
    crew: &mut Crew<Portal<MemoryKeeper>>,
    moment: Moment,
    entries: &Entries,
)
    requires { All (λ slot. IsSomeAnd slot (λ pass. IsPassOf hall.now pass × (room_of pass ≡ 1))) crew.old.slots.items }
    ensures held { All (λ slot. IsSomeAnd slot (λ pass. IsPassOf hall.now pass × (room_of pass ≡ 1))) crew.new.slots.items }
    ensures count { length crew.new.slots.items ≡ length crew.old.slots.items }
{
    create_in_slots(rt, alloc, hall, crew.slots.as_mut_slice(), moment, entries)
}

/// The pass of each slot creates 25 datasets, in a thread of its own. It is generic over the machine, so that what threads can
/// send is shown of passes and of a portal apart.
fn create_in_slots<R: Threads + Wait + Sync, M: Machine<Event = Event, Reply = Reply> + Send>(
    rt: &R,
    alloc: Global,
    hall: &Hall<M>,
    slots: &mut [Slot<M>],
    moment: Moment,
    entries: &Entries,
)
    requires { All (λ slot. IsSomeAnd slot (λ pass. IsPassOf hall.now pass × (room_of pass ≡ 1))) slots.old }
    ensures { All (λ slot. IsSomeAnd slot (λ pass. IsPassOf hall.now pass × (room_of pass ≡ 1))) slots.new }
{
    for_each_mut(
        rt,
        slots,
        4,
        &|thread: usize, slot: &mut Slot<M>|
            requires { IsSomeAnd slot.old (λ pass. IsPassOf hall.now pass × (room_of pass ≡ 1)) }
            ensures { IsSomeAnd slot.new (λ pass. IsPassOf hall.entry.now pass × (room_of pass ≡ 1)) }
        {
            if let Some(pass) = slot {
                create_datasets(rt, alloc, hall, pass, moment, thread, entries)
            }
        },
    );
}
