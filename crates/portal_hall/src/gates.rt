//! Gates, at which threads sleep until their turns come. There is a gate for each ticket modulo 64, and a hall has at most 64
//! tickets out, so no two threads sleep at one gate.
//!
//! No clause speaks of them: a thread takes its turn where it finds its ticket served, whatever made it look.
use crossbeam_utils::CachePadded;
use std::sync::Wait;
use std::sync::atomic::AtomicU64;
use std::sync::atomic::Ordering::SeqCst;
use std::{array, thread};

/// The most seats of a hall.
const COUNT: usize = 64;

/// How often the thread whose turn is next yields before it sleeps.
const YIELDS: u32 = 20;

/// The word of a gate while a thread sleeps there or is about to.
const CLOSED: u64 = 1;

/// The word of a gate otherwise.
const OPEN: u64 = 0;

/// The place at which the thread with one ticket sleeps. Its word has cache lines of its own, since different threads write the
/// words of different gates.
#[derive(Drop)]
pub(crate) struct Gate {
    word: CachePadded<AtomicU64>,
}

impl Gate {
    fn new() -> Gate {
        Gate {
            word: CachePadded::new(AtomicU64::new(OPEN)),
        }
    }

    /// Says that the caller is about to sleep here. It looks whether its ticket is served once more before it does.
    fn close(&self) {
        self.word.store(CLOSED, SeqCst);
    }

    /// Sleeps until the gate is opened, unless it was since the caller closed it. It may also return for no reason.
    fn sleep<R: Wait>(&self, rt: &R) {
        self.word.park(rt, CLOSED as u32);
    }

    /// Wakes the thread that sleeps here, if there is one. Its ticket is served before.
    pub(crate) fn open(&self) {
        if self.word.load(SeqCst) == CLOSED {
            self.word.store(OPEN, SeqCst);
            self.word.wake_one();
        }
    }
}

/// The gates of a hall.
#[derive(Drop)]
pub(crate) struct Gates {
    gates: [Gate; COUNT],
}

impl Gates {
    pub(crate) fn new() -> Gates {
        Gates {
            gates: array::from_fn(|_| Gate::new()),
        }
    }

    /// The gate of a ticket.
    pub(crate) fn of_ticket(&self, ticket: u64) -> &Gate {
        &self.gates[(ticket % COUNT as u64) as usize]
    }
}

/// How a thread has waited since it drew its ticket.
#[derive(Drop)]
pub(crate) struct Patience {
    yields: u32,
    has_closed: bool,
}

impl Patience {
    pub(crate) fn new() -> Patience {
        Patience {
            yields: 0,
            has_closed: false,
        }
    }

    /// Waits a little, between two looks whether the ticket is served: yields if one turn is before the caller's, and from the
    /// twenty-first time on or with more turns before it closes the gate, and sleeps there after the next look.
    pub(crate) fn wait<R: Wait>(&mut self, rt: &R, gate: &Gate, turns_before: u64) {
        if self.has_closed {
            gate.sleep(rt);
            self.has_closed = false;
        } else if turns_before == 1 && self.yields < YIELDS {
            self.yields += 1;
            thread::yield_now();
        } else {
            gate.close();
            self.has_closed = true;
        }
    }
}
