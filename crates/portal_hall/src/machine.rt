//! The interface of a machine that a hall runs.
ghost use Rattle.std.specs.Prelude.{◌≡◌, ◌⊎◌, ◌≤◌, ℕ, true, false};
ghost use Rattle.portal_base.specs.Outside.{Rose};
ghost use Rattle.portal_hall.specs.History.{Step, Accepts, Refuses};

/// A machine: a core that accepted events change, and a count of faults.
pub trait Machine {
    type Event: Drop;

    type Reply: Drop;

    /// The state that accepted events change, and nothing else changes.
    ghost Core: { Type 0 };

    ghost core: { Self → Core };

    /// The count of faults so far.
    ghost faults: { Self → ℕ };

    /// The outcome of an event in a core.
    ghost step: { Core → Self.Event → Step Core Self.Reply };

    /// The reply says that the machine was out of memory.
    ghost IsOutOfMemory: { Self.Reply → Type 0 };

    /// The reply says that there was a fault.
    ghost IsFault: { Self.Reply → Type 0 };

    /// Handles the event. Returns the reply, and whether the event was accepted as a change.
    fn act(&mut self, event: &Self::Event) -> (Self::Reply, bool)
        ensures accepted { result.1 ≡ true → Accepts step (core self.old) event.now result.0
            × (core self.new ≡ (step (core self.old) event.now).core) }
        ensures refused { result.1 ≡ false → Refuses step (core self.old) event.now result.0
            ⊎ (IsOutOfMemory result.0 ⊎ (IsFault result.0 × Rose (faults self.old) (faults self.new))) }
        ensures kept { result.1 ≡ false → core self.new ≡ core self.old }
        ensures counts { faults self.old ≤ faults self.new };
}
