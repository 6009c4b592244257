//! A source over bytes in memory.
ghost use Rattle.std.specs.Prelude.{◌≡◌, ◌↔◌, ◌++◌, length, take, drop, min, IsTrue, IsErr, IfOk, OnErr};
ghost use Rattle.portal_base.specs.Memory.{is_failing, after_read};

use super::buffers::InputBuffer;
use super::plan::FaultPlan;
use crate::outside::{Failed, Source};
use crate::seq::Seq;
use std::marker::Model;

/// A source over bytes in memory. The bytes still to come are observable.
#[derive(Drop)]
pub struct MemorySource {
    input: InputBuffer,
    plan: FaultPlan,
}

impl Model for MemorySource {
    ghost use Rattle.portal_base.specs.Memory.{SourceState};

    ghost Value = { SourceState };

    ghost view = { λ s. record { to_come = s.input; plan = s.plan } };
}

impl MemorySource {
    /// A source that gives these bytes. It fails at the calls with these numbers, counted from 1.
    pub fn new(bytes: Seq<u8>, failing: Seq<u64>) -> MemorySource
        ensures { result ≡ record { to_come = bytes; plan = record { failing = failing; calls = 0; faults = 0 } } }
    {
        MemorySource {
            input: InputBuffer::new(bytes),
            plan: FaultPlan::new(failing),
        }
    }
}

impl Source for MemorySource {
    ghost use Rattle.std.specs.Prelude.{Some};

    ghost to_come = { λ s. Some s.to_come };

    ghost faults = { λ s. s.plan.faults };

    /// Gives as many bytes as fit, and fails only at a planned call.
    fn read(&mut self, into: &mut [u8]) -> Result<usize, Failed>
        ensures fails { IsErr result ↔ IsTrue (is_failing self.old.plan) }
        ensures count { IfOk result (λ count. count ≡ min (length into.old) (length self.old.to_come)) }
        ensures bytes { IfOk result
            (λ count. into.new ≡ take count self.old.to_come ++ drop count into.old) }
        ensures kept { OnErr result (into.new ≡ into.old) }
        ensures after { self.new ≡ after_read self.old (length into.old) }
    {
        if self.plan.fails_next() {
            return Err(Failed);
        }
        Ok(self.input.give(into))
    }
}
