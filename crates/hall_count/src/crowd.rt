//! Threads that act on one counter, in a hall and under a lock.
ghost use Rattle.std.specs.Prelude.{◌≡◌, ◌≤◌};
ghost use Rattle.std.specs.Thread.{IsSync};
ghost use Rattle.portal_hall.specs.Passes.{IsPassOf, room_of};

use crate::counter::Counter;
use crate::toil::Toil;
use portal_hall::acted::Acted;
use portal_hall::hall::Hall;
use portal_hall::machine::Machine;
use portal_hall::pass::Pass;
use std::sync::{Mutex, Wait};
use std::thread::{Threads, join};

/// What each thread does: how often it adds 1, and the work that it does after each addition.
#[derive(Clone, Copy)]
pub struct Task {
    pub acts: u64,
    pub toil: Toil,
}

/// Adds 1 as often as the task says, in one thread.
fn act_often<R: Wait>(
    rt: &R,
    hall: &Hall<Counter>,
    mut pass: Pass<Counter>,
    task: Task,
) -> Pass<Counter>
    requires { IsPassOf hall.now pass }
    ensures { IsPassOf hall.now result × (room_of result ≡ room_of pass) }
{
    let Task { acts, mut toil } = task;
    for _ in 0..acts {
        let _ = hall.act(rt, &mut pass, 1);
        toil.once();
        if toil.is_nothing() {
            break;
        }
    }
    pass
}

/// Each of `threads` threads does the task with a pass of its own, and all the passes are joined again.
#[cycle(in_hall)]
pub fn act_in_hall<R: Threads + Wait + Sync>(
    rt: &R,
    hall: &Hall<Counter>,
    mut pass: Pass<Counter>,
    task: Task,
    threads: u32,
) -> Pass<Counter>
    requires pass { IsPassOf hall.now pass }
    requires threads { (1 ≤ threads) × (threads ≤ room_of pass) }
    ensures { IsPassOf hall.now result × (room_of result ≡ room_of pass) }
{
    if threads == 1 {
        return act_often(rt, hall, pass, task);
    }
    let half = threads / 2;
    let rest = threads - half;
    let other = hall.split(&mut pass, half);
    let (mut one, two) = join(
        rt,
        move || -> Pass<Counter>
            requires { IsSync R.row × IsPassOf hall.now pass × (1 ≤ rest) × (rest ≤ room_of pass) }
            ensures { IsPassOf hall.entry.now result × (room_of result ≡ room_of pass) }
        { act_in_hall(rt, hall, pass, task, rest) },
        move || -> Pass<Counter>
            requires { IsSync R.row × IsPassOf hall.now other × (1 ≤ half) × (half ≤ room_of other) }
            ensures { IsPassOf hall.entry.now result × (room_of result ≡ room_of other) }
        { act_in_hall(rt, hall, other, task, half) },
    );
    hall.join(&mut one, two);
    one
}

/// Adds 1 as often as the task says, in one thread.
fn lock_often<R: Wait>(rt: &R, counter: &Mutex<Counter>, task: Task) {
    let Task { acts, mut toil } = task;
    for _ in 0..acts {
        let (_, _) = counter.lock(rt).act(&1);
        toil.once();
        if toil.is_nothing() {
            break;
        }
    }
}

/// Each of `threads` threads does the task under the lock.
#[cycle(under_lock)]
pub fn act_under_lock<R: Threads + Wait + Sync>(
    rt: &R,
    counter: &Mutex<Counter>,
    task: Task,
    threads: u32,
) {
    if threads <= 1 {
        return lock_often(rt, counter, task);
    }
    let half = threads / 2;
    let rest = threads - half;
    join(
        rt,
        ||
            requires { IsSync R.row }
        { act_under_lock(rt, counter, task, rest) },
        ||
            requires { IsSync R.row }
        { act_under_lock(rt, counter, task, half) },
    );
}
