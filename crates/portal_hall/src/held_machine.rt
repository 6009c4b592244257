//! The machine with its history, while the pass whose turn it is holds them.
ghost use Rattle.std.specs.Prelude.{◌≡◌, ◌+◌, ◌^◌, ◌<◌, ◌≤◌, [], ◌∷◌, ◌++◌, length, vec_len};
ghost use Rattle.portal_hall.specs.History.{Accepts};
ghost use Rattle.portal_hall.specs.Passes.{IfEntry, IfNoEntry, IfOutOfMemory, IsRefusal};

use crate::acted::Acted;
use crate::board::HeldMachine;
use crate::machine::Machine;

impl<M: Machine> HeldMachine<M, M::Event> {
    /// Calls the machine with the event, and adds the event to the history if it is accepted. Room in the history is
    /// reserved first.
    pub(crate) fn act_and_record(&mut self, event: M::Event) -> Acted<M>
        ensures entry { IfEntry result (λ reply front k. Accepts M.step (M.core self.old.machine) event reply
            × (M.core self.new.machine ≡ (M.step (M.core self.old.machine) event).core)
            × (self.new.history.items ≡ self.old.history.items ++ event ∷ [])
            × (k ≡ length self.old.history.items) × (front ≡ k + 1)) }
        ensures no_entry { IfNoEntry result (λ reply front.
            IsRefusal M.step M.IsOutOfMemory M.IsFault (M.core self.old.machine) event reply (M.faults self.old.machine)
            (M.faults self.new.machine)
            × (M.core self.new.machine ≡ M.core self.old.machine)
            × (self.new.history.items ≡ self.old.history.items) × (front ≡ length self.old.history.items)) }
        ensures back { IfOutOfMemory result (λ back. (back ≡ event) × (self.new.machine ≡ self.old.machine)
            × (self.new.history.items ≡ self.old.history.items)) }
        ensures short { length self.new.history.items < 2 ^ 64 }
        ensures counts { M.faults self.old.machine ≤ M.faults self.new.machine }
    {
        if self.history.reserve(1).is_err() {
            return Acted::OutOfMemory(event);
        }
        let (reply, is_accepted) = self.machine.act(&event);
        let index = self.history.len() as u64;
        if is_accepted {
            self.history.push_reserved(event);
            Acted::Done {
                reply,
                front: index + 1,
                entry: Some(index),
            }
        } else {
            Acted::Done {
                reply,
                front: index,
                entry: None,
            }
        }
    }
}
