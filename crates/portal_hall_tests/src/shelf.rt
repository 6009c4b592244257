//! A machine with names, which can fail.
use portal_hall::machine::Machine;
use std::alloc::Global;

/// Names, each once, how many faults there were, and how many events were handled.
#[derive(Drop)]
pub struct Shelf {
    pub names: Vec<u64>,
    faults: u64,
    pub acts: u64,
}

#[derive(Debug, Drop)]
pub enum Event {
    Create(u64),
    Show(u64),
    /// What makes the shelf fail.
    Break,
    /// What makes the shelf say that memory is wanting.
    Starve,
}

#[derive(Clone, Copy, Debug, PartialEq, Eq)]
pub enum Reply {
    Created,
    Shown,
    InUse,
    Missing,
    Faulted,
    OutOfMemory,
}

impl Shelf {
    pub fn new(alloc: Global) -> Shelf {
        Shelf {
            names: Vec::new(alloc),
            faults: 0,
            acts: 0,
        }
    }
}

impl Machine for Shelf {
    ghost use Rattle.std.specs.Prelude.{List, ℕ};
    ghost use Rattle.portal_hall_tests.specs.Shelving.{shelf_step, SaysOutOfMemory, SaysFault};

    type Event = Event;

    type Reply = Reply;

    ghost Core = { List ℕ };

    ghost core = { λ s. s.names.items };

    ghost faults = { λ s. s.faults };

    ghost step = { shelf_step };

    ghost IsOutOfMemory = { SaysOutOfMemory };

    ghost IsFault = { SaysFault };

    fn act(&mut self, event: &Event) -> (Reply, bool) {
        self.acts = self.acts.saturating_add(1);
        match event {
            Event::Create(name) => self.create(*name),
            Event::Show(name) => (self.show(*name), false),
            Event::Break => {
                self.faults = self.faults.saturating_add(1);
                (Reply::Faulted, false)
            }
            Event::Starve => (Reply::OutOfMemory, false),
        }
    }
}

impl Shelf {
    ghost use Rattle.std.specs.Prelude.{◌≡◌, ◌++◌, ◌∷◌, [], true, false, if◌then◌else◌};
    ghost use Rattle.portal_hall_tests.specs.Shelving.{has};

    fn has(&self, name: u64) -> bool
        ensures { result ≡ has name self.now.names.items }
    {
        self.names.iter().any(|x| *x == name)
    }

    fn show(&self, name: u64) -> Reply
        ensures { result ≡ (if has name self.now.names.items then Reply.Shown else Reply.Missing) }
    {
        if self.has(name) {
            Reply::Shown
        } else {
            Reply::Missing
        }
    }

    fn create(&mut self, name: u64) -> (Reply, bool)
        ensures created { result.1 ≡ true → (result.0 ≡ Reply.Created) × (has name self.old.names.items ≡ false)
            × (self.new.names.items ≡ self.old.names.items ++ name ∷ []) }
        ensures refused { result.1 ≡ false → self.new.names.items ≡ self.old.names.items }
        ensures in_use { has name self.old.names.items ≡ true → result.0 ≡ Reply.InUse }
        ensures out_of_memory { result.1 ≡ false → has name self.old.names.items ≡ false → result.0 ≡ Reply.OutOfMemory }
        ensures faults { self.new.faults ≡ self.old.faults }
    {
        if self.has(name) {
            return (Reply::InUse, false);
        }
        match self.names.push(name) {
            Ok(()) => (Reply::Created, true),
            Err(_) => (Reply::OutOfMemory, false),
        }
    }
}
