//! A listener in memory.
ghost use Rattle.std.specs.Prelude.{◌≡◌, ◌↔◌, [], true, false, length, slice_get, IsTrue, IsErr, IfOk};
ghost use Rattle.portal_base.specs.Counted.{next_count};
ghost use Rattle.portal_base.specs.Memory.{is_failing, after_accept, after_finish};

use super::link::MemoryLink;
use super::plan::FaultPlan;
use crate::outside::{Failed, Listener};
use crate::seq::Seq;
use std::alloc::{AllocError, Global};
use std::collections::VecDeque;
use std::marker::Model;

/// A listener over links in memory. The links still to come and those taken back are observable. Its plan counts the
/// calls of `accept`.
#[derive(Drop)]
pub struct MemoryListener {
    to_come: VecDeque<MemoryLink>,
    // This has room for every link.
    taken_back: Vec<MemoryLink>,
    is_out: bool,
    plan: FaultPlan,
}

impl Model for MemoryListener {
    ghost use Rattle.std.specs.Prelude.{◌≤◌, ◌+◌, if◌then◌else◌, vec_len};
    ghost use Rattle.std.specs.Vec.{vec_capacity};
    ghost use Rattle.std.specs.VecDeque.{deque_len};
    ghost use Rattle.portal_base.specs.Memory.{ListenerState};

    ghost Value = { ListenerState };

    ghost view = { λ l. record {
      to_come = l.to_come.items;
      taken_back = l.taken_back.items;
      is_out = l.is_out;
      plan = l.plan;
    } };

    ghost invariant = { λ l. vec_len l.taken_back + (if l.is_out then 1 else 0) + deque_len l.to_come
        ≤ vec_capacity l.taken_back };
}

impl MemoryListener {
    /// A listener that gives these links. It fails at the calls of `accept` with these numbers, counted from 1.
    pub fn new(
        alloc: Global,
        links: Seq<MemoryLink>,
        failing: Seq<u64>,
    ) -> Result<MemoryListener, AllocError>
        ensures { IfOk result (λ listener. listener ≡ record {
          to_come = links;
          taken_back = [];
          is_out = false;
          plan = record { failing = failing; calls = 0; faults = 0 };
        }) }
    {
        let taken_back = Vec::with_capacity(alloc, links.len())?;
        Ok(MemoryListener {
            to_come: VecDeque::from(links.into_vec()),
            taken_back,
            is_out: false,
            plan: FaultPlan::new(failing),
        })
    }

    /// The links taken back so far, in order.
    pub fn taken_back(&self) -> &[MemoryLink]
        ensures { result.now ≡ self.now.taken_back }
    {
        self.taken_back.as_slice()
    }
}

impl Listener for MemoryListener {
    ghost use Rattle.std.specs.Prelude.{Some, length};
    ghost use Rattle.portal_base.specs.Memory.{is_empty, ends_where_empty};

    type Peer = MemoryLink;

    ghost is_out = { λ l. l.is_out };

    ghost is_at_end = { λ l. is_empty l.to_come };

    ghost count = { λ l. length l.taken_back };

    ghost to_come = { λ l. Some l.to_come };

    ghost taken_back = { λ l. Some l.taken_back };

    ghost faults = { λ l. l.plan.faults };

    /// Gives the links in order, and fails only at a planned call.
    fn accept(&mut self) -> Result<Option<MemoryLink>, Failed>
        requires { self.old.is_out ≡ false }
        ensures fails { IsErr result ↔ IsTrue (is_failing self.old.plan) }
        ensures link { IfOk result (λ link. link ≡ slice_get self.old.to_come 0) }
        ensures after { self.new ≡ after_accept self.old }
    {
        if self.plan.fails_next() {
            return Err(Failed);
        }
        let link = self.to_come.pop_front();
        self.is_out = link.is_some();
        Ok(link)
    }

    fn finish(&mut self, peer: MemoryLink)
        requires { self.old.is_out ≡ true }
        ensures after { self.new ≡ after_finish self.old peer }
        ensures count { length self.new.taken_back ≡ next_count (length self.old.taken_back) }
    {
        self.taken_back.push(peer).unwrap();
        self.is_out = false;
    }

    ghost ends = { λ l. ends_where_empty l.to_come };
}
