//! Threads that create names.
ghost use Rattle.std.specs.Prelude.{◌≡◌, ◌≤◌, ◌<◌, ◌+◌, ◌^◌};
ghost use Rattle.std.specs.Thread.{IsSync};
ghost use Rattle.portal_hall.specs.Passes.{IsPassOf, room_of};

use crate::shelf::{Event, Reply, Shelf};
use portal_hall::acted::Acted;
use portal_hall::hall::Hall;
use portal_hall::pass::Pass;
use std::alloc::Global;
use std::sync::Wait;
use std::thread::{Threads, join};

/// A pass, and the indexes in the history of the names that it created, as far as there was memory.
#[derive(Drop)]
pub struct Made {
    pub pass: Pass<Shelf>,
    pub indexes: Vec<u64>,
}

/// Creates 25 names from `first` on.
pub fn create_names<R: Wait>(
    rt: &R,
    alloc: Global,
    hall: &Hall<Shelf>,
    mut pass: Pass<Shelf>,
    first: u64,
) -> Made
    requires pass { IsPassOf hall.now pass }
    requires first { first < 2 ^ 32 }
    ensures { IsPassOf hall.now result.pass × (room_of result.pass ≡ room_of pass) }
{
    let mut indexes = Vec::new(alloc);
    for name in first..first + 25 {
        if let Some(index) = create(rt, hall, &mut pass, name) {
            let _ = indexes.push(index);
        }
    }
    Made { pass, indexes }
}

/// Creates a name, and returns its index in the history.
pub fn create<R: Wait>(rt: &R, hall: &Hall<Shelf>, pass: &mut Pass<Shelf>, name: u64) -> Option<u64>
    requires { IsPassOf hall.now pass.old }
    ensures { IsPassOf hall.now pass.new × (room_of pass.new ≡ room_of pass.old) }
{
    match hall.act(rt, pass, Event::Create(name)) {
        Acted::Done {
            reply: Reply::Created,
            front: _,
            entry,
        } => entry,
        _ => None,
    }
}

/// Two threads create 25 names each.
pub fn create_by_two<R: Threads + Wait + Sync>(
    rt: &R,
    alloc: Global,
    hall: &Hall<Shelf>,
    one: Pass<Shelf>,
    two: Pass<Shelf>,
    first: u64,
) -> (Made, Made)
    requires passes { IsPassOf hall.now one × IsPassOf hall.now two }
    requires first { first < 2 ^ 31 }
    ensures one { IsPassOf hall.now result.0.pass × (room_of result.0.pass ≡ room_of one) }
    ensures two { IsPassOf hall.now result.1.pass × (room_of result.1.pass ≡ room_of two) }
{
    join(
        rt,
        move || -> Made
            requires { IsPassOf hall.now one × (first < 2 ^ 31) }
            ensures { IsPassOf hall.entry.now result.pass × (room_of result.pass ≡ room_of one) }
        { create_names(rt, alloc, hall, one, first) },
        move || -> Made
            requires { IsPassOf hall.now two × (first < 2 ^ 31) }
            ensures { IsPassOf hall.entry.now result.pass × (room_of result.pass ≡ room_of two) }
        { create_names(rt, alloc, hall, two, first + 25) },
    )
}

/// Splits the pass until each has room 1, creates a name with each, and joins them all again.
pub fn spread<R: Wait>(rt: &R, hall: &Hall<Shelf>, mut pass: Pass<Shelf>, first: u64) -> Pass<Shelf>
    requires pass { IsPassOf hall.now pass }
    requires room { (0 < room_of pass) × (first + room_of pass < 2 ^ 64) }
    ensures { IsPassOf hall.now result × (room_of result ≡ room_of pass) }
{
    let room = pass.room();
    if room == 1 {
        let _ = create(rt, hall, &mut pass, first);
        return pass;
    }
    let half = room / 2;
    let other = hall.split(&mut pass, half);
    let mut one = spread(rt, hall, pass, first);
    let two = spread(rt, hall, other, first + u64::from(room - half));
    hall.join(&mut one, two);
    one
}
