//! Adds 1 to a counter from several threads, in a hall or under a lock, and prints what the counter has then. The
//! words are `hall` or `lock`, how many threads (1 to 64), how many additions each makes, and, if it isn't 0, how many rounds
//! of work each addition takes, and each thread does after each of its additions.
#![tactic(auto)]

mod counter;
mod crowd;
mod toil;

use counter::Counter;
use crowd::{Task, act_in_hall, act_under_lock};
use portal_hall::hall::Hall;
use std::alloc::Global;
use std::process::ExitCode;
use std::sync::{Mutex, Wait};
use std::thread::Threads;
use std::{env, io};
use toil::Toil;

/// What the words ask.
#[derive(Drop)]
struct Asked {
    keeper: Keeper,
    threads: u32,
    task: Task,
}

/// What keeps the counter for one thread at a time.
#[derive(Drop)]
enum Keeper {
    Hall,
    Lock,
}

/// What the words ask, or none where they are out of form.
fn words_of(rt: &(impl env::Env + Alloc<A = Global>)) -> Option<Asked> {
    let mut words = env::args(rt).ok()?.skip(1);
    let kind = words.next()?;
    let threads = words.next()?.as_str().parse::<u32>().ok()?;
    let acts = words.next()?.as_str().parse::<u64>().ok()?;
    let rounds = match words.next() {
        Some(word) => word.as_str().parse::<u32>().ok()?,
        None => 0,
    };
    let keeper = match kind.as_str() {
        "hall" => Keeper::Hall,
        "lock" => Keeper::Lock,
        _ => return None,
    };
    Some(Asked {
        keeper,
        threads,
        task: Task {
            acts,
            toil: Toil::new(rounds),
        },
    })
}

/// A counter whose additions take the work of the task.
fn counter_for(task: &Task) -> Counter {
    Counter {
        total: 0,
        toil: task.toil,
    }
}

/// The total and the length of the history after all additions in a hall.
fn counted_in_hall<R: Threads + Wait + Sync>(
    rt: &R,
    alloc: Global,
    threads: u32,
    task: Task,
) -> Option<u64> {
    if threads == 0 || threads > 64 {
        return None;
    }
    let (hall, pass) = Hall::open(alloc, counter_for(&task), threads).ok()?;
    let pass = act_in_hall(rt, &hall, pass, task, threads);
    let (counter, history) = hall.close(pass);
    if history.len() as u64 == counter.total && !counter.toil.is_nothing() {
        Some(counter.total)
    } else {
        None
    }
}

/// The total after all additions under a lock.
fn counted_under_lock<R: Threads + Wait + Sync>(rt: &R, threads: u32, task: Task) -> Option<u64> {
    let counter = Mutex::new(counter_for(&task));
    act_under_lock(rt, &counter, task, threads);
    let counter = counter.into_inner();
    if counter.toil.is_nothing() {
        None
    } else {
        Some(counter.total)
    }
}

fn main(rt: HostRuntime) -> io::Result<ExitCode> {
    let Some(asked) = words_of(&rt) else {
        eprintln!(rt; "the words are hall or lock, threads, acts and rounds")?;
        return Ok(ExitCode::FAILURE);
    };
    let total = match asked.keeper {
        Keeper::Hall => counted_in_hall(&rt, rt.alloc(), asked.threads, asked.task),
        Keeper::Lock => counted_under_lock(&rt, asked.threads, asked.task),
    };
    match total {
        Some(total) => {
            println!(rt; "{total}")?;
            Ok(ExitCode::SUCCESS)
        }
        None => Ok(ExitCode::FAILURE),
    }
}
