//! A machine that counts, and takes as long as it is told.
ghost use Rattle.std.specs.Prelude.{◌≡◌};

use crate::toil::Toil;
use portal_hall::machine::Machine;

/// The sum of the numbers that it was given.
#[derive(Drop)]
pub struct Counter {
    pub total: u64,
    pub toil: Toil,
}

impl Machine for Counter {
    ghost use Rattle.std.specs.Prelude.{ℕ};
    ghost use Rattle.hall_count.specs.Counting.{count_step};

    type Event = u64;

    type Reply = Option<u64>;

    ghost Core = { ℕ };

    ghost core = { λ c. c.total };

    ghost faults = { λ _. 0 };

    ghost step = { count_step };

    ghost IsOutOfMemory = { λ _. ⊥ };

    ghost IsFault = { λ _. ⊥ };

    fn act(&mut self, event: &u64) -> (Option<u64>, bool) {
        self.toil.once();
        match self.total.checked_add(*event) {
            Some(total) => {
                self.total = total;
                (Some(total), true)
            }
            None => (None, false),
        }
    }
}
