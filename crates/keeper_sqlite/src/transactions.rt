//! The two transactions of the keeper: the changes, and the load. Each first makes the table, if it isn't there, and
//! is rolled back at the first refusal.
ghost use Rattle.std.specs.Prelude.{◌≡◌, [], ◌∷◌, false, map, IsTrue, IfOk, IfErr, OnOk};
ghost use Rattle.sqlite.specs.Held.{state};
ghost use Rattle.sqlite.specs.State.{HasCleanDisk, Survives};
ghost use Rattle.keeper_sqlite.specs.Form.{is_name_taken};
ghost use Rattle.keeper_sqlite.specs.RowValues.{values_of};
ghost use Rattle.keeper_sqlite.specs.Statements.{statement_of, statements_of};
ghost use Rattle.keeper_sqlite.specs.Transactions.{AllRun, StopsAt, CommitsAll, RefusesAll, MayCommitAll, RunsInside};
ghost use Rattle.keeper_sqlite.specs.Applying.{RefusesToApply};
ghost use Rattle.keeper_sqlite.specs.Loading.{Selects, FailsToShow, FailsToRead, Loads, FailsToLoad, RefusesToLoad, MayCommitLoad};

use crate::faults::fault_of;
use crate::form::is_name_taken;
use crate::row_values::read_rows;
use crate::statements::{make_table, put_row, remove_row, select_rows};
use portal_base::seq::Seq;
use portal_keeper::change::{Change, KeepFault};
use portal_keeper::row::KeptRow;
use sqlite::{Alter, Connection, Error, Row, Transaction};
use std::alloc::Global;

/// Makes a change.
fn change_row<S: Alter>(tx: &mut Transaction<'_, S>, change: &Change) -> Result<usize, Error>
    ensures same_reference { tx.new.conn.ghost_name ≡ tx.old.conn.ghost_name }
    ensures runs { HasCleanDisk (state S.Store tx.new.conn.now) → IsTrue tx.old.conn.now.in_transaction
        → RunsInside S.Store (statement_of change.now) tx.old.conn.now tx.new.conn.now result }
    ensures survives { Survives (state S.Store tx.old.conn.now) (state S.Store tx.new.conn.now) (λ _. ⊥) }
{
    match change {
        Change::Put(row) => put_row(tx, row),
        Change::Remove(kind, key) => remove_row(tx, *kind, key),
    }
}

/// Makes the changes, one after the other, up to the first that is refused.
fn change_rows<S: Alter>(tx: &mut Transaction<'_, S>, changes: &[Change]) -> Result<(), Error>
    ensures same_reference { tx.new.conn.ghost_name ≡ tx.old.conn.ghost_name }
    ensures ran { HasCleanDisk (state S.Store tx.new.conn.now) → IsTrue tx.old.conn.now.in_transaction
        → OnOk result (AllRun S.Store (map statement_of changes.now) tx.old.conn.now tx.new.conn.now) }
    ensures refused { HasCleanDisk (state S.Store tx.new.conn.now) → IsTrue tx.old.conn.now.in_transaction
        → IfErr result (StopsAt S.Store (map statement_of changes.now) tx.old.conn.now tx.new.conn.now) }
    ensures survives { Survives (state S.Store tx.old.conn.now) (state S.Store tx.new.conn.now) (λ _. ⊥) }
{
    for change in changes {
        change_row(tx, change)?;
    }
    Ok(())
}

/// Makes the table, if it isn't there, and then the changes.
fn run_changes<S: Alter>(tx: &mut Transaction<'_, S>, changes: &[Change]) -> Result<(), Error>
    ensures same_reference { tx.new.conn.ghost_name ≡ tx.old.conn.ghost_name }
    ensures ran { HasCleanDisk (state S.Store tx.new.conn.now) → IsTrue tx.old.conn.now.in_transaction
        → OnOk result (AllRun S.Store (statements_of changes.now) tx.old.conn.now tx.new.conn.now) }
    ensures refused { HasCleanDisk (state S.Store tx.new.conn.now) → IsTrue tx.old.conn.now.in_transaction
        → IfErr result (StopsAt S.Store (statements_of changes.now) tx.old.conn.now tx.new.conn.now) }
    ensures survives { Survives (state S.Store tx.old.conn.now) (state S.Store tx.new.conn.now) (λ _. ⊥) }
{
    make_table(tx)?;
    change_rows(tx, changes)
}

/// Makes the changes in one transaction. After an error none of them is made. No transaction is open afterwards.
fn commit_changes<S: Alter>(connection: &mut Connection<S>, changes: &[Change]) -> Result<(), Error>
    requires { connection.old.in_transaction ≡ false }
    ensures ended { connection.new.in_transaction ≡ false }
    ensures committed { HasCleanDisk (state S.Store connection.new)
        → OnOk result (CommitsAll S.Store (statements_of changes.now) connection.old connection.new) }
    ensures refused { HasCleanDisk (state S.Store connection.new)
        → IfErr result (RefusesAll S.Store (statements_of changes.now) connection.old connection.new) }
    ensures survives { Survives (state S.Store connection.old) (state S.Store connection.new)
        (MayCommitAll S.Store (statements_of changes.now) connection.old) }
{
    let mut tx = connection.transaction();
    run_changes(&mut tx, changes)?;
    tx.commit()
}

/// Makes the changes in one transaction, unless the name of the table is taken.
pub(crate) fn apply_changes<S: Alter>(
    connection: &mut Connection<S>,
    changes: &[Change],
) -> Result<(), KeepFault>
    requires { connection.old.in_transaction ≡ false }
    ensures ended { connection.new.in_transaction ≡ false }
    ensures free { OnOk result (is_name_taken connection.old.schema ≡ false) }
    ensures changed { HasCleanDisk (state S.Store connection.new)
        → OnOk result (CommitsAll S.Store (statements_of changes.now) connection.old connection.new) }
    ensures refused { HasCleanDisk (state S.Store connection.new)
        → IfErr result (RefusesToApply S.Store changes.now connection.old connection.new) }
    ensures survives { Survives (state S.Store connection.old) (state S.Store connection.new)
        (MayCommitAll S.Store (statements_of changes.now) connection.old) }
{
    if is_name_taken(connection.schema()) {
        return Err(KeepFault::Failed);
    }
    match commit_changes(connection, changes) {
        Ok(()) => Ok(()),
        Err(error) => Err(fault_of(error)),
    }
}

/// Makes the table, if it isn't there, and shows its rows.
fn show_rows<S: Alter>(tx: &mut Transaction<'_, S>) -> Result<Vec<Row>, Error>
    ensures same_reference { tx.new.conn.ghost_name ≡ tx.old.conn.ghost_name }
    ensures rows { HasCleanDisk (state S.Store tx.new.conn.now) → IsTrue tx.old.conn.now.in_transaction
        → IfOk result (λ rows. Selects S.Store tx.old.conn.now tx.new.conn.now rows.items) }
    ensures refused { HasCleanDisk (state S.Store tx.new.conn.now) → IsTrue tx.old.conn.now.in_transaction
        → IfErr result (FailsToShow S.Store tx.old.conn.now tx.new.conn.now) }
    ensures survives { Survives (state S.Store tx.old.conn.now) (state S.Store tx.new.conn.now) (λ _. ⊥) }
{
    make_table(tx)?;
    select_rows(tx)
}

/// Makes the table, if it isn't there, and returns its rows as kept rows.
fn run_load<S: Alter>(tx: &mut Transaction<'_, S>, alloc: Global) -> Result<Vec<KeptRow>, KeepFault>
    ensures same_reference { tx.new.conn.ghost_name ≡ tx.old.conn.ghost_name }
    ensures rows { HasCleanDisk (state S.Store tx.new.conn.now) → IsTrue tx.old.conn.now.in_transaction → IfOk result
        (λ rows. Selects S.Store tx.old.conn.now tx.new.conn.now (map values_of rows.items)) }
    ensures refused { HasCleanDisk (state S.Store tx.new.conn.now) → IsTrue tx.old.conn.now.in_transaction
        → IfErr result (FailsToRead S.Store tx.old.conn.now tx.new.conn.now) }
    ensures survives { Survives (state S.Store tx.old.conn.now) (state S.Store tx.new.conn.now) (λ _. ⊥) }
{
    match show_rows(tx) {
        Ok(rows) => read_rows(alloc, rows.as_slice()),
        Err(error) => Err(fault_of(error)),
    }
}

/// Returns the rows of the table, which is made if it isn't there. No transaction is open afterwards.
fn commit_load<S: Alter>(
    connection: &mut Connection<S>,
    alloc: Global,
) -> Result<Seq<KeptRow>, KeepFault>
    requires { connection.old.in_transaction ≡ false }
    ensures ended { connection.new.in_transaction ≡ false }
    ensures rows { HasCleanDisk (state S.Store connection.new)
        → IfOk result (Loads S.Store connection.old connection.new) }
    ensures refused { HasCleanDisk (state S.Store connection.new)
        → IfErr result (FailsToLoad S.Store connection.old connection.new) }
    ensures survives { Survives (state S.Store connection.old) (state S.Store connection.new)
        (MayCommitLoad S.Store connection.old) }
{
    let mut tx = connection.transaction();
    let rows = run_load(&mut tx, alloc)?;
    match tx.commit() {
        Ok(()) => Ok(Seq::from(rows)),
        Err(error) => Err(fault_of(error)),
    }
}

/// Returns the rows of the table, which is made if it isn't there, unless the name of the table is taken.
pub(crate) fn load_rows<S: Alter>(
    connection: &mut Connection<S>,
    alloc: Global,
) -> Result<Seq<KeptRow>, KeepFault>
    requires { connection.old.in_transaction ≡ false }
    ensures ended { connection.new.in_transaction ≡ false }
    ensures free { OnOk result (is_name_taken connection.old.schema ≡ false) }
    ensures rows { HasCleanDisk (state S.Store connection.new)
        → IfOk result (Loads S.Store connection.old connection.new) }
    ensures refused { HasCleanDisk (state S.Store connection.new)
        → IfErr result (RefusesToLoad S.Store connection.old connection.new) }
    ensures survives { Survives (state S.Store connection.old) (state S.Store connection.new)
        (MayCommitLoad S.Store connection.old) }
{
    if is_name_taken(connection.schema()) {
        return Err(KeepFault::Failed);
    }
    commit_load(connection, alloc)
}
