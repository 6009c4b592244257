//! Two passes that act in turn.
ghost use Rattle.std.specs.Prelude.{◌≡◌};
ghost use Rattle.portal_hall.specs.Passes.{IsPassOf, room_of};

use crate::acts::{Outcome, act};
use crate::calls::{create_dataset, show_dataset};
use portal_base::moment::Moment;
use portal_events::{Event, Refusal, Reply};
use portal_hall::hall::Hall;
use portal_hall::machine::Machine;
use portal_hall::pass::Pass;
use std::alloc::Global;
use std::sync::Wait;

/// The machine after two passes over one hall of it, the count of events that it accepted, and whether the passes saw one
/// history. It is generic over the machine, so that what becomes of a hall is shown once and of no portal's parts.
pub fn after_pair<R: Wait, M: Machine<Event = Event, Reply = Reply> + Drop>(
    rt: &R,
    alloc: Global,
    machine: M,
    moment: Moment,
) -> Option<(M, usize, bool)> {
    let (hall, mut one) = Hall::open(alloc, machine, 2).ok()?;
    let mut two = hall.split(&mut one, 1);
    let is_one_history = see_one_history(rt, alloc, &hall, &mut one, &mut two, moment);
    hall.join(&mut one, two);
    let (machine, history) = hall.close(one);
    Some((machine, history.len(), is_one_history == Some(true)))
}

/// Whether the dataset that the first pass creates is the history's first event, and the second pass sees it: it is shown
/// there, and its name is in use. `None` if memory runs out.
fn see_one_history<R: Wait, M: Machine<Event = Event, Reply = Reply>>(
    rt: &R,
    alloc: Global,
    hall: &Hall<M>,
    one: &mut Pass<M>,
    two: &mut Pass<M>,
    moment: Moment,
) -> Option<bool>
    requires one { IsPassOf hall.now one.old }
    requires two { IsPassOf hall.now two.old }
    ensures one { IsPassOf hall.now one.new × (room_of one.new ≡ room_of one.old) }
    ensures two { IsPassOf hall.now two.new × (room_of two.new ≡ room_of two.old) }
{
    let create = create_dataset(alloc, moment, 7, 1).ok()?;
    let is_created = is_first_entry(&act(rt, hall, one, create));
    let show = show_dataset(alloc, moment, 7).ok()?;
    let is_shown = is_shown_after_one(&act(rt, hall, two, show));
    let create_again = create_dataset(alloc, moment, 7, 2).ok()?;
    let is_taken = is_name_in_use_after_one(&act(rt, hall, two, create_again));
    Some(is_created && is_shown && is_taken)
}

/// Whether the event was accepted, as the history's first.
fn is_first_entry(outcome: &Option<Outcome>) -> bool {
    match outcome {
        Some(outcome) => {
            let is_accepted = matches!(outcome.reply, Reply::Accepted(_));
            is_accepted && outcome.front == 1 && outcome.entry == Some(0)
        }
        None => false,
    }
}

/// Whether the portal showed something, where the history had one event.
fn is_shown_after_one(outcome: &Option<Outcome>) -> bool {
    match outcome {
        Some(outcome) => {
            let is_shown = matches!(outcome.reply, Reply::Shown(_));
            is_shown && outcome.front == 1 && outcome.entry.is_none()
        }
        None => false,
    }
}

/// Whether the portal refused a name that is in use, where the history had one event.
fn is_name_in_use_after_one(outcome: &Option<Outcome>) -> bool {
    match outcome {
        Some(outcome) => {
            let is_taken = is_name_in_use(&outcome.reply);
            is_taken && outcome.front == 1 && outcome.entry.is_none()
        }
        None => false,
    }
}

/// Whether the reply says that a name is in use.
fn is_name_in_use(reply: &Reply) -> bool {
    match reply {
        Reply::Refused(Refusal::NameInUse(key)) => key.as_str() == "name",
        _ => false,
    }
}
