//! A portal, and the moments and numbers of the calls on it.
use crate::opening::opened;
use crate::people::caller_of;
use crate::steps::step_of;
use harvest_sources::Step;
use portal_base::caller::Caller;
use portal_base::counted::{CountNonces, ScriptClock};
use portal_base::json_value::Json;
use portal_base::nonce::Nonce;
use portal_base::outside::{Clock, Nonces};
use portal_calls::action::Action;
use portal_calls::call::{Call, Request};
use portal_core::event::{Event, Reply};
use portal_core::portal::Portal;
use portal_keeper::memory::MemoryKeeper;
use std::alloc::Global;
use std::io;

/// A line of a file of calls.
#[derive(Clone, Copy)]
pub struct Line<'a> {
    pub caller: &'a str,
    pub action: &'a str,
    pub body: &'a str,
    pub expected: &'a str,
}

impl<'a> Line<'a> {
    /// The words of a line, if it has the form `CALLER ACTION BODY => REPLY`.
    pub fn read(text: &'a str) -> Option<Line<'a>> {
        let (call, expected) = text.split_once(" => ")?;
        let (caller, request) = call.split_once(' ')?;
        let (action, body) = request.split_once(' ')?;
        Some(Line {
            caller,
            action,
            body,
            expected,
        })
    }
}

/// The words before the mark, and the number after it, where there is one.
fn split_number(words: &str, mark: char) -> Option<(&str, Option<u64>)> {
    match words.split_once(mark) {
        None => Some((words, None)),
        Some((before, number)) => Some((before, Some(number.parse::<u64>().ok()?))),
    }
}

/// The request of a line, if it is one of an action.
fn request_of(alloc: Global, line: Line<'_>) -> Option<Request> {
    let action = Action::named(line.action)?;
    let body = Json::read(alloc, line.body.as_bytes()).ok()?;
    Some(Request { action, body })
}

/// The step of a line, if it is one.
fn step_of_line(alloc: Global, line: Line<'_>) -> Option<Step> {
    let body = Json::read(alloc, line.body.as_bytes()).ok()?;
    step_of(alloc, line.action, &body)
}

/// A portal, and what draws the moments and numbers of the calls on it.
#[derive(Drop)]
pub struct Session {
    portal: Portal<MemoryKeeper>,
    clock: ScriptClock,
    nonces: CountNonces,
}

impl Session {
    /// The portal that each file of calls begins with.
    pub fn new(alloc: Global) -> io::Result<Session> {
        Ok(Session {
            portal: opened(alloc)?,
            clock: ScriptClock::new(),
            nonces: CountNonces::new(),
        })
    }

    /// The reply to a call of that caller and of that size in bytes, at the next moment and with the next number.
    pub fn act(&mut self, caller: Caller, request: Request, size: u64) -> Reply {
        let event = Event::Call(Call {
            caller,
            request,
            size,
            moment: self.clock.now(),
            nonce: self.nonces.next(),
        });
        self.portal.act(&event)
    }

    /// The number of a call: the given one, else the next.
    fn nonce(&mut self, given: Option<u64>) -> Nonce {
        match given {
            Some(number) => Nonce(u128::from(number)),
            None => self.nonces.next(),
        }
    }

    /// The call of a line at the next moment, if it is one of an action. Its caller is `NAME`, or `NAME/SIZE` where the
    /// line gives the size of the call; with `#NUMBER` after it, the line gives the number that is drawn.
    fn call_of(&mut self, alloc: Global, line: Line<'_>) -> Option<Call> {
        let (words, number) = split_number(line.caller, '#')?;
        let (name, size) = split_number(words, '/')?;
        let caller = caller_of(alloc, name).ok()?;
        let request = request_of(alloc, line)?;
        Some(Call {
            caller,
            request,
            size: size.unwrap_or(line.body.len() as u64),
            moment: self.clock.now(),
            nonce: self.nonce(number),
        })
    }

    /// The reply to the event of a line, if it is a call of an action or a step of a harvest.
    pub fn work(&mut self, alloc: Global, line: Line<'_>) -> Option<Reply> {
        let event = match line.caller {
            "harvest" => Event::Harvest(step_of_line(alloc, line)?),
            _ => Event::Call(self.call_of(alloc, line)?),
        };
        Some(self.portal.act(&event))
    }
}
