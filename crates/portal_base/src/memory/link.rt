//! A link in memory.
ghost use Rattle.std.specs.Prelude.{◌≡◌, ◌↔◌, ◌++◌, [], length, take, drop, min, IsTrue, IsErr, IfOk, OnErr};
ghost use Rattle.portal_base.specs.Memory.{sink_state, is_failing, refuses, after_link_read, after_link_write};

use super::buffers::{InputBuffer, OutputBuffer};
use super::plan::FaultPlan;
use crate::outside::{Failed, Link};
use crate::seq::Seq;
use std::alloc::{AllocError, Global};
use std::marker::Model;

/// A link in memory, which gives bytes and has room for a fixed number of them. The bytes still to come and the bytes
/// taken are observable. Its plan counts reads and writes together.
#[derive(Drop)]
pub struct MemoryLink {
    input: InputBuffer,
    output: OutputBuffer,
    plan: FaultPlan,
}

impl Model for MemoryLink {
    ghost use Rattle.portal_base.specs.Memory.{LinkState};

    ghost Value = { LinkState };

    ghost view = { λ l. record { to_come = l.input; taken = l.output.taken; room = l.output.room; plan = l.plan } };
}

impl MemoryLink {
    /// A link that gives these bytes and has room for `room` bytes. It fails at the calls with these numbers, counted
    /// from 1.
    pub fn new(
        alloc: Global,
        bytes: Seq<u8>,
        room: usize,
        failing: Seq<u64>,
    ) -> Result<MemoryLink, AllocError>
        ensures { IfOk result (λ link. link ≡ record {
          to_come = bytes;
          taken = [];
          room = room;
          plan = record { failing = failing; calls = 0; faults = 0 };
        }) }
    {
        let output = OutputBuffer::new(alloc, room)?;
        Ok(MemoryLink {
            input: InputBuffer::new(bytes),
            output,
            plan: FaultPlan::new(failing),
        })
    }

    /// The bytes taken so far.
    pub fn taken(&self) -> &[u8]
        ensures { result.now ≡ self.now.taken }
    {
        self.output.taken()
    }
}

impl Link for MemoryLink {
    ghost use Rattle.std.specs.Prelude.{Some};

    ghost to_come = { λ l. Some l.to_come };

    ghost taken = { λ l. Some l.taken };

    ghost faults = { λ l. l.plan.faults };

    /// Gives as many bytes as fit, and fails only at a planned call.
    fn read(&mut self, into: &mut [u8]) -> Result<usize, Failed>
        ensures fails { IsErr result ↔ IsTrue (is_failing self.old.plan) }
        ensures count { IfOk result (λ count. count ≡ min (length into.old) (length self.old.to_come)) }
        ensures bytes { IfOk result
            (λ count. into.new ≡ take count self.old.to_come ++ drop count into.old) }
        ensures kept { OnErr result (into.new ≡ into.old) }
        ensures after { self.new ≡ after_link_read self.old (length into.old) }
    {
        if self.plan.fails_next() {
            return Err(Failed);
        }
        Ok(self.input.give(into))
    }

    /// Takes as many bytes as there is room for. It fails at a planned call, or if no room is left.
    fn write(&mut self, piece: &[u8]) -> Result<usize, Failed>
        ensures fails { IsErr result ↔ IsTrue (refuses (sink_state self.old)) }
        ensures count { IfOk result (λ count. count ≡ min self.old.room (length piece.now)) }
        ensures after { self.new ≡ after_link_write self.old piece.now }
    {
        if self.plan.refuses_next(self.output.room()) {
            return Err(Failed);
        }
        Ok(self.output.take(piece))
    }
}
