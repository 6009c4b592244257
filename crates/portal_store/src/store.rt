//! The store.
ghost use Rattle.std.specs.Prelude.{◌≡◌, ◌↔◌, false, IsTrue, IfOk, IfErr, OnOk, OnErr, IsErrOf};
ghost use Rattle.sqlite.specs.Held.{state};
ghost use Rattle.sqlite.specs.State.{HasCleanDisk, KeepsCommit, Survives};
ghost use Rattle.keeper_sqlite.specs.Applying.{RefusesToApply};
ghost use Rattle.keeper_sqlite.specs.Faults.{faults_after};
ghost use Rattle.keeper_sqlite.specs.Form.{is_name_taken};
ghost use Rattle.keeper_sqlite.specs.Loading.{Loads, RefusesToLoad, MayCommitLoad};
ghost use Rattle.keeper_sqlite.specs.Statements.{statements_of};
ghost use Rattle.keeper_sqlite.specs.Transactions.{CommitsAll, MayCommitAll};
ghost use Rattle.portal_base.specs.Memory.{is_failing};
ghost use Rattle.portal_keeper.specs.Memory.{after_call_without_change, after_changes};
ghost use Rattle.portal_keeper.specs.Rows.{AreInOrder};
ghost use Rattle.portal_store.specs.Stores.{IfInMemory, IfFileStays};
ghost use Rattle.portal_store.specs.declared.store.Store.TheVariants.{Memory};

use keeper_sqlite::SqliteKeeper;
use portal_base::seq::Seq;
use portal_keeper::change::{Change, KeepFault};
use portal_keeper::keeper::Keeper;
use portal_keeper::memory::MemoryKeeper;
use portal_keeper::row::KeptRow;
use sqlite::Alter;
use std::alloc::Global;

/// A store of a portal. Its rows are observable in memory, and not in a file. Each call is that of its keeper.
#[derive(Drop)]
pub enum Store<S: Alter> {
    /// In memory. The rows are gone once the store is dropped.
    Memory(MemoryKeeper),
    /// In a SQLite database, as that of a file.
    File(SqliteKeeper<S>),
}

impl<S: Alter> Keeper for Store<S> {
    ghost use Rattle.portal_store.specs.Stores.{rows_kept, faults_so_far};

    ghost rows = { rows_kept };

    ghost faults = { faults_so_far };

    /// Returns the rows, as the keeper does.
    fn load(&mut self, alloc: Global) -> Result<Seq<KeptRow>, KeepFault>
        ensures memory_failed { IfInMemory self.old
            (λ keeper. IsErrOf result KeepFault.Failed ↔ IsTrue (is_failing keeper.plan)) }
        ensures memory_rows { IfInMemory self.old (λ keeper. IfOk result (λ loaded. loaded ≡ keeper.rows)) }
        ensures memory_after { IfInMemory self.old (λ keeper. self.new ≡ Memory (after_call_without_change keeper)) }
        ensures memory_ordered { IfInMemory self.old (λ keeper. AreInOrder keeper.rows) }
        ensures file_counted { IfFileStays self.old self.new (λ old new. new.faults ≡ faults_after old.faults result) }
        ensures file_free { IfFileStays self.old self.new
            (λ old _. OnOk result (is_name_taken old.connection.schema ≡ false)) }
        ensures file_rows { IfFileStays self.old self.new (λ old new. HasCleanDisk (state S.Store new.connection)
            → IfOk result (Loads S.Store old.connection new.connection)) }
        ensures file_refused { IfFileStays self.old self.new (λ old new. HasCleanDisk (state S.Store new.connection)
            → IfErr result (RefusesToLoad S.Store old.connection new.connection)) }
        ensures file_kept { IfFileStays self.old self.new (λ old new. HasCleanDisk (state S.Store new.connection)
            → OnErr result (KeepsCommit (state S.Store old.connection) (state S.Store new.connection))) }
        ensures file_ended { IfFileStays self.old self.new (λ _ new. new.connection.in_transaction ≡ false) }
        ensures file_survives { IfFileStays self.old self.new (λ old new. Survives (state S.Store old.connection)
            (state S.Store new.connection) (MayCommitLoad S.Store old.connection)) }
    {
        match self {
            Store::Memory(keeper) => keeper.load(alloc),
            Store::File(keeper) => keeper.load(alloc),
        }
    }

    /// Makes the changes, as the keeper does.
    fn apply(&mut self, alloc: Global, changes: &Seq<Change>) -> Result<(), KeepFault>
        ensures memory_failed { IfInMemory self.old
            (λ keeper. IsErrOf result KeepFault.Failed ↔ IsTrue (is_failing keeper.plan)) }
        ensures memory_changed { IfInMemory self.old
            (λ keeper. OnOk result (self.new ≡ Memory (after_changes changes.now keeper))) }
        ensures memory_refused { IfInMemory self.old
            (λ keeper. OnErr result (self.new ≡ Memory (after_call_without_change keeper))) }
        ensures memory_was_ordered { IfInMemory self.old (λ keeper. AreInOrder keeper.rows) }
        ensures memory_ordered { IfInMemory self.new (λ keeper. AreInOrder keeper.rows) }
        ensures file_counted { IfFileStays self.old self.new (λ old new. new.faults ≡ faults_after old.faults result) }
        ensures file_free { IfFileStays self.old self.new
            (λ old _. OnOk result (is_name_taken old.connection.schema ≡ false)) }
        ensures file_changed { IfFileStays self.old self.new (λ old new. HasCleanDisk (state S.Store new.connection)
            → OnOk result (CommitsAll S.Store (statements_of changes.now) old.connection new.connection)) }
        ensures file_refused { IfFileStays self.old self.new (λ old new. HasCleanDisk (state S.Store new.connection)
            → IfErr result (RefusesToApply S.Store changes.now old.connection new.connection)) }
        ensures file_kept { IfFileStays self.old self.new (λ old new. HasCleanDisk (state S.Store new.connection)
            → OnErr result (KeepsCommit (state S.Store old.connection) (state S.Store new.connection))) }
        ensures file_ended { IfFileStays self.old self.new (λ _ new. new.connection.in_transaction ≡ false) }
        ensures file_survives { IfFileStays self.old self.new (λ old new. Survives (state S.Store old.connection)
            (state S.Store new.connection) (MayCommitAll S.Store (statements_of changes.now) old.connection)) }
    {
        match self {
            Store::Memory(keeper) => keeper.apply(alloc, changes),
            Store::File(keeper) => keeper.apply(alloc, changes),
        }
    }
}
