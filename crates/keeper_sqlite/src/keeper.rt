//! The keeper.
ghost use Rattle.std.specs.Prelude.{◌≡◌, false, IfOk, IfErr, OnOk, OnErr};
ghost use Rattle.sqlite.specs.Held.{state};
ghost use Rattle.sqlite.specs.State.{HasCleanDisk, KeepsCommit, Survives};
ghost use Rattle.keeper_sqlite.specs.Faults.{faults_after};
ghost use Rattle.keeper_sqlite.specs.Form.{is_name_taken};
ghost use Rattle.keeper_sqlite.specs.Statements.{statements_of};
ghost use Rattle.keeper_sqlite.specs.Transactions.{CommitsAll, MayCommitAll};
ghost use Rattle.keeper_sqlite.specs.Loading.{Loads, RefusesToLoad, MayCommitLoad};
ghost use Rattle.keeper_sqlite.specs.Applying.{RefusesToApply};

use crate::faults::faults_after;
use crate::transactions::{apply_changes, load_rows};
use portal_base::seq::Seq;
use portal_keeper::change::{Change, KeepFault};
use portal_keeper::keeper::Keeper;
use portal_keeper::row::KeptRow;
use sqlite::{Alter, Connection};
use std::alloc::Global;
use std::marker::Model;

/// A keeper of rows over a SQLite database: in a file, or in memory. Its rows aren't observable. The contracts say what
/// it runs, in the words of the crate `sqlite`, while the disk has returned what was written (`HasCleanDisk`). Memory
/// always does.
///
/// The rows are those of the table `kept`, which the first call makes if it isn't there. Each call is one transaction,
/// and none is open between the calls. Every refusal of SQLite is a fault, except for want of memory. So is a view or a
/// table of that name in another form, and a row that is loaded and has no kind's number, or no text where one belongs.
/// A contract sees the keeper as its connection and the number of faults so far, up to the maximum of a `u64`.
#[derive(Drop)]
pub struct SqliteKeeper<S: Alter> {
    connection: Connection<S>,
    faults: u64,
}

impl<S: Alter> Model for SqliteKeeper<S> {
    ghost use Rattle.std.specs.Prelude.{◌≡◌, false};
    ghost use Rattle.keeper_sqlite.specs.SqliteState.{SqliteState, sqlite_state_code};

    ghost Value = { SqliteState S };

    ghost coded = { sqlite_state_code S.code };

    ghost view = { λ k. record { connection = k.connection; faults = k.faults } };

    ghost invariant = { λ k. k.connection.in_transaction ≡ false };
}

impl<S: Alter> SqliteKeeper<S> {
    /// Keeps rows in the database of the connection. It runs no statement, takes no memory and can't fail.
    pub fn adopt(connection: Connection<S>) -> SqliteKeeper<S>
        requires { connection.in_transaction ≡ false }
        ensures { result ≡ record { connection = connection; faults = 0 } }
    {
        SqliteKeeper {
            connection,
            faults: 0,
        }
    }

    /// The connection that was adopted. It is in no transaction. It takes no memory.
    pub fn into_connection(self) -> Connection<S>
        ensures same { result ≡ self.connection }
        ensures ready { result.in_transaction ≡ false }
    {
        self.connection
    }
}

impl<S: Alter> Keeper for SqliteKeeper<S> {
    ghost use Rattle.std.specs.Prelude.{None};

    ghost rows = { λ _. None };

    ghost faults = { λ k. k.faults };

    /// Returns the rows that the table shows in one transaction, which first makes the table if it isn't there.
    fn load(&mut self, alloc: Global) -> Result<Seq<KeptRow>, KeepFault>
        ensures counted { self.new.faults ≡ faults_after self.old.faults result }
        ensures free { OnOk result (is_name_taken self.old.connection.schema ≡ false) }
        ensures rows { HasCleanDisk (state S.Store self.new.connection)
            → IfOk result (Loads S.Store self.old.connection self.new.connection) }
        ensures refused { HasCleanDisk (state S.Store self.new.connection)
            → IfErr result (RefusesToLoad S.Store self.old.connection self.new.connection) }
        ensures kept { HasCleanDisk (state S.Store self.new.connection) → OnErr result
            (KeepsCommit (state S.Store self.old.connection) (state S.Store self.new.connection)) }
        ensures ended { self.new.connection.in_transaction ≡ false }
        ensures survives { Survives (state S.Store self.old.connection) (state S.Store self.new.connection)
            (MayCommitLoad S.Store self.old.connection) }
    {
        let loaded = load_rows(&mut self.connection, alloc);
        self.faults = faults_after(self.faults, &loaded);
        loaded
    }

    /// Makes the changes in one transaction, which first makes the table if it isn't there. An empty list of changes has
    /// such a transaction too.
    fn apply(&mut self, _alloc: Global, changes: &Seq<Change>) -> Result<(), KeepFault>
        ensures counted { self.new.faults ≡ faults_after self.old.faults result }
        ensures free { OnOk result (is_name_taken self.old.connection.schema ≡ false) }
        ensures changed { HasCleanDisk (state S.Store self.new.connection) → OnOk result
            (CommitsAll S.Store (statements_of changes.now) self.old.connection self.new.connection) }
        ensures refused { HasCleanDisk (state S.Store self.new.connection)
            → IfErr result (RefusesToApply S.Store changes.now self.old.connection self.new.connection) }
        ensures kept { HasCleanDisk (state S.Store self.new.connection) → OnErr result
            (KeepsCommit (state S.Store self.old.connection) (state S.Store self.new.connection)) }
        ensures ended { self.new.connection.in_transaction ≡ false }
        ensures survives { Survives (state S.Store self.old.connection) (state S.Store self.new.connection)
            (MayCommitAll S.Store (statements_of changes.now) self.old.connection) }
    {
        let applied = apply_changes(&mut self.connection, changes.as_slice());
        self.faults = faults_after(self.faults, &applied);
        applied
    }
}
