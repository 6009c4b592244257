//! A keeper in memory, which fails at planned calls. The contracts fix what each call does.
ghost use Rattle.std.specs.Prelude.{◌≡◌, ◌↔◌, [], ◌++◌, IsTrue, IfOk, OnOk, OnErr, IsErrOf};
ghost use Rattle.portal_base.specs.Memory.{is_failing};
ghost use Rattle.portal_keeper.specs.Changed.{rows_after};
ghost use Rattle.portal_keeper.specs.Memory.{rows_in_order, after_call_without_change, after_changes};
ghost use Rattle.portal_keeper.specs.Rows.{AreInOrder, are_distinct};
ghost use Rattle.portal_keeper.specs.Slots.{slot_rows};

use crate::change::{Change, KeepFault};
use crate::keeper::Keeper;
use crate::row::KeptRow;
use crate::slots::{Slots, change_slots, put_row, rows_of};
use portal_base::memory::MemorySource;
use portal_base::ordered::sort;
use portal_base::outside::Source;
use portal_base::seq::Seq;
use std::alloc::{AllocError, Global};
use std::collections::BTreeMap;
use std::marker::Model;

/// A keeper in memory. Its rows are observable. Its plan counts the calls of `load` and `apply` together.
#[derive(Drop)]
pub struct MemoryKeeper {
    // Rows that have no slot yet. They are in order, and all below those of the slots.
    given: Vec<KeptRow>,
    slots: Slots,
    // A source without bytes that is read once a call. Its reads fail as planned.
    calls: MemorySource,
}

impl Model for MemoryKeeper {
    ghost use Rattle.std.specs.Prelude.{◌++◌};
    ghost use Rattle.portal_keeper.specs.Memory.{MemoryState};
    ghost use Rattle.portal_keeper.specs.Rows.{AreInOrder};
    ghost use Rattle.portal_keeper.specs.Slots.{slot_rows};

    ghost Value = { MemoryState };

    ghost view = { λ k. record { rows = k.given.items ++ slot_rows k.slots.entries; plan = k.calls.plan } };

    ghost invariant = { λ k. AreInOrder (k.given.items ++ slot_rows k.slots.entries) };
}

impl MemoryKeeper {
    /// A keeper of these rows. It fails at the calls with these numbers, counted from 1. It takes no memory.
    pub fn new(alloc: Global, rows: Seq<KeptRow>, failing: Seq<u64>) -> MemoryKeeper
        requires { IsTrue (are_distinct rows) }
        ensures { result ≡ record {
          rows = rows_in_order rows;
          plan = record { failing = failing; calls = 0; faults = 0 };
        } }
    {
        let mut given = rows.into_vec();
        sort(&mut given);
        MemoryKeeper {
            given,
            slots: BTreeMap::new(alloc),
            calls: MemorySource::new(Seq::new(alloc), failing),
        }
    }

    /// Counts the call, and returns whether it fails.
    fn fails_next(&mut self) -> bool
        ensures fails { result ≡ is_failing self.old.plan }
        ensures after { self.new ≡ after_call_without_change self.old }
        ensures ordered { AreInOrder self.old.rows }
    {
        self.calls.read(&mut []).is_err()
    }

    /// The rows, in order. The keeper doesn't change.
    fn rows(&mut self, alloc: Global) -> Result<Vec<KeptRow>, AllocError>
        ensures rows { IfOk result (λ rows. rows.items ≡ self.old.rows) }
        ensures same { self.new ≡ self.old }
    {
        settle(&mut self.given, &mut self.slots)?;
        rows_of(alloc, &self.slots)
    }

    /// Makes the changes. If memory runs out, none of them is made.
    fn change(&mut self, alloc: Global, changes: &[Change]) -> Result<(), AllocError>
        ensures changed { OnOk result (self.new ≡ record self.old { rows = rows_after changes.now self.old.rows }) }
        ensures refused { OnErr result (self.new ≡ self.old) }
    {
        settle(&mut self.given, &mut self.slots)?;
        change_slots(alloc, &mut self.slots, changes)
    }
}

impl Keeper for MemoryKeeper {
    ghost use Rattle.std.specs.Prelude.{Some};

    ghost rows = { λ k. Some k.rows };

    ghost faults = { λ k. k.plan.faults };

    /// Gives the rows. It fails exactly at a planned call; `OutOfMemory` may come instead of the rows.
    fn load(&mut self, alloc: Global) -> Result<Seq<KeptRow>, KeepFault>
        ensures failed { IsErrOf result KeepFault.Failed ↔ IsTrue (is_failing self.old.plan) }
        ensures rows { IfOk result (λ loaded. loaded ≡ self.old.rows) }
        ensures after { self.new ≡ after_call_without_change self.old }
        ensures ordered { AreInOrder self.old.rows }
    {
        if self.fails_next() {
            return Err(KeepFault::Failed);
        }
        match self.rows(alloc) {
            Ok(rows) => Ok(Seq::from(rows)),
            Err(_) => Err(KeepFault::OutOfMemory),
        }
    }

    /// Makes the changes. It fails exactly at a planned call; at the others `OutOfMemory` may come, and no change is made
    /// then.
    fn apply(&mut self, alloc: Global, changes: &Seq<Change>) -> Result<(), KeepFault>
        ensures failed { IsErrOf result KeepFault.Failed ↔ IsTrue (is_failing self.old.plan) }
        ensures changed { OnOk result (self.new ≡ after_changes changes.now self.old) }
        ensures refused { OnErr result (self.new ≡ after_call_without_change self.old) }
        ensures was_ordered { AreInOrder self.old.rows }
        ensures ordered { AreInOrder self.new.rows }
    {
        if self.fails_next() {
            return Err(KeepFault::Failed);
        }
        match self.change(alloc, changes.as_slice()) {
            Ok(()) => Ok(()),
            Err(_) => Err(KeepFault::OutOfMemory),
        }
    }
}

/// Makes slots of the rows that have none yet. The rows are the same afterwards, also where memory runs out.
fn settle(given: &mut Vec<KeptRow>, slots: &mut Slots) -> Result<(), AllocError>
    requires { AreInOrder (given.old.items ++ slot_rows slots.old.entries) }
    ensures same { given.new.items ++ slot_rows slots.new.entries ≡ given.old.items ++ slot_rows slots.old.entries }
    ensures settled { OnOk result (given.new.items ≡ []) }
{
    while let Some(row) = given.pop() {
        match put_row(slots, row) {
            Ok(()) => {}
            Err(row) => {
                given.push(row).unwrap();
                return Err(AllocError);
            }
        }
    }
    Ok(())
}
