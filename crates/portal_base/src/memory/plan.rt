//! The plan of the calls at which a device in memory fails.
ghost use Rattle.std.specs.Prelude.{◌≡◌, ◌==◌, ◌||◌, if◌then◌else◌};
ghost use Rattle.portal_base.specs.Memory.{is_failing, after_call, after_fault};

use crate::seq::Seq;
use std::marker::Model;

/// The numbers of the calls that fail, counted from 1, and the counts of calls and of faults so far. Both counts stop
/// at the maximum of a `u64`.
#[derive(Drop)]
pub struct FaultPlan {
    failing: Seq<u64>,
    calls: u64,
    faults: u64,
}

impl Model for FaultPlan {
    ghost use Rattle.portal_base.specs.Memory.{Plan};

    ghost Value = { Plan };

    ghost view = { λ p. record { failing = p.failing; calls = p.calls; faults = p.faults } };
}

impl FaultPlan {
    pub fn new(failing: Seq<u64>) -> FaultPlan
        ensures { result ≡ record { failing = failing; calls = 0; faults = 0 } }
    {
        FaultPlan {
            failing,
            calls: 0,
            faults: 0,
        }
    }

    /// Counts the next call, and returns whether it fails.
    pub fn fails_next(&mut self) -> bool
        ensures fails { result ≡ is_failing self.old }
        ensures after { self.new ≡ (if result then after_fault self.old else after_call self.old) }
    {
        let number = self.calls.saturating_add(1);
        let is_failing = self.failing.as_slice().contains(&number);
        self.calls = number;
        if is_failing {
            self.faults = self.faults.saturating_add(1);
        }
        is_failing
    }

    /// Counts the next call of a device with `room` bytes of room, and returns whether it fails: as planned, or because
    /// no room is left.
    pub fn refuses_next(&mut self, room: usize) -> bool
        ensures refuses { result ≡ is_failing self.old || (room == 0) }
        ensures after { self.new ≡ (if result then after_fault self.old else after_call self.old) }
    {
        if room > 0 {
            return self.fails_next();
        }
        self.calls = self.calls.saturating_add(1);
        self.faults = self.faults.saturating_add(1);
        true
    }
}
