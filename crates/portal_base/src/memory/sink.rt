//! A sink in memory.
ghost use Rattle.std.specs.Prelude.{◌≡◌, ◌↔◌, [], length, min, IsTrue, IsErr, IfOk};
ghost use Rattle.portal_base.specs.Memory.{refuses, after_write};

use super::buffers::OutputBuffer;
use super::plan::FaultPlan;
use crate::outside::{Failed, Sink};
use crate::seq::Seq;
use std::alloc::{AllocError, Global};
use std::marker::Model;

/// A sink in memory, with room for a fixed number of bytes. The bytes taken are observable.
#[derive(Drop)]
pub struct MemorySink {
    output: OutputBuffer,
    plan: FaultPlan,
}

impl Model for MemorySink {
    ghost use Rattle.portal_base.specs.Memory.{SinkState};

    ghost Value = { SinkState };

    ghost view = { λ s. record { taken = s.output.taken; room = s.output.room; plan = s.plan } };
}

impl MemorySink {
    /// A sink with room for `room` bytes. It fails at the calls with these numbers, counted from 1.
    pub fn new(alloc: Global, room: usize, failing: Seq<u64>) -> Result<MemorySink, AllocError>
        ensures { IfOk result (λ sink.
            sink ≡ record { taken = []; room = room; plan = record { failing = failing; calls = 0; faults = 0 } }) }
    {
        let output = OutputBuffer::new(alloc, room)?;
        Ok(MemorySink {
            output,
            plan: FaultPlan::new(failing),
        })
    }

    /// The bytes taken so far.
    pub fn taken(&self) -> &[u8]
        ensures { result.now ≡ self.now.taken }
    {
        self.output.taken()
    }
}

impl Sink for MemorySink {
    ghost use Rattle.std.specs.Prelude.{Some};

    ghost taken = { λ s. Some s.taken };

    ghost faults = { λ s. s.plan.faults };

    /// Takes as many bytes as there is room for. It fails at a planned call, or if no room is left.
    fn write(&mut self, piece: &[u8]) -> Result<usize, Failed>
        ensures fails { IsErr result ↔ IsTrue (refuses self.old) }
        ensures count { IfOk result (λ count. count ≡ min self.old.room (length piece.now)) }
        ensures after { self.new ≡ after_write self.old piece.now }
    {
        if self.plan.refuses_next(self.output.room()) {
            return Err(Failed);
        }
        Ok(self.output.take(piece))
    }
}
