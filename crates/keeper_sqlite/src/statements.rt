//! The four statements of the keeper. Each function runs one of them in a transaction.
//!
//! The connection keeps the plans of the statements that it ran last. So each text is compiled once, and again only
//! after the schema changed. Values are bound as parameters.
ghost use Rattle.std.specs.Prelude.{◌≡◌, ◌⊎◌, [], IsTrue, IfOk, IfErr};
ghost use Rattle.sqlite.specs.Held.{state};
ghost use Rattle.sqlite.specs.State.{HasCleanDisk, Shown, Survives};
ghost use Rattle.portal_keeper.specs.declared.change.Change.TheVariants.{Put, Remove};
ghost use Rattle.keeper_sqlite.specs.Statements.{make_table, select_text, statement_of};
ghost use Rattle.keeper_sqlite.specs.Transactions.{FailsToSelect, RunsInside};

use portal_base::text::Text;
use portal_keeper::row::{KeptRow, RowKind};
use sqlite::{Alter, Error, Row, Transaction, params};

const MAKE_TABLE: &str =
    "CREATE TABLE IF NOT EXISTS kept (kind INTEGER NOT NULL, name TEXT NOT NULL, body TEXT NOT NULL, PRIMARY KEY (kind, name)) STRICT";

const SELECT_ROWS: &str = "SELECT kind, name, body FROM kept ORDER BY kind, name";

const PUT_ROW: &str =
    "INSERT INTO kept (kind, name, body) VALUES (?1, ?2, ?3) ON CONFLICT (kind, name) DO UPDATE SET body = excluded.body";

const REMOVE_ROW: &str = "DELETE FROM kept WHERE kind = ?1 AND name = ?2";

/// Makes the table, if it isn't there.
pub(crate) fn make_table<S: Alter>(tx: &mut Transaction<'_, S>) -> Result<usize, Error>
    ensures same_reference { tx.new.conn.ghost_name ≡ tx.old.conn.ghost_name }
    ensures runs { HasCleanDisk (state S.Store tx.new.conn.now) → IsTrue tx.old.conn.now.in_transaction
        → RunsInside S.Store make_table tx.old.conn.now tx.new.conn.now result }
    ensures survives { Survives (state S.Store tx.old.conn.now) (state S.Store tx.new.conn.now) (λ _. ⊥) }
{
    tx.execute(MAKE_TABLE, &[])
}

/// All rows of the table, ascending by kind and name.
pub(crate) fn select_rows<S: Alter>(tx: &mut Transaction<'_, S>) -> Result<Vec<Row>, Error>
    ensures same_reference { tx.new.conn.ghost_name ≡ tx.old.conn.ghost_name }
    ensures rows { HasCleanDisk (state S.Store tx.new.conn.now) → IfOk result
        (λ rows. Shown select_text [] (state S.Store tx.old.conn.now) (state S.Store tx.new.conn.now) rows.items) }
    ensures refused { HasCleanDisk (state S.Store tx.new.conn.now) → IfErr result
        (FailsToSelect (state S.Store tx.old.conn.now) (state S.Store tx.new.conn.now)) }
    ensures survives { Survives (state S.Store tx.old.conn.now) (state S.Store tx.new.conn.now) (λ _. ⊥) }
{
    tx.query_all(SELECT_ROWS, &[])
}

/// Puts a row, in place of the row of its kind and key, if there is one.
pub(crate) fn put_row<S: Alter>(tx: &mut Transaction<'_, S>, row: &KeptRow) -> Result<usize, Error>
    ensures same_reference { tx.new.conn.ghost_name ≡ tx.old.conn.ghost_name }
    ensures runs { HasCleanDisk (state S.Store tx.new.conn.now) → IsTrue tx.old.conn.now.in_transaction
        → RunsInside S.Store (statement_of (Put row.now)) tx.old.conn.now tx.new.conn.now result }
    ensures survives { Survives (state S.Store tx.old.conn.now) (state S.Store tx.new.conn.now) (λ _. ⊥) }
{
    let kind = u32::from(row.kind.number());
    tx.execute(PUT_ROW, params![kind, row.key.as_str(), row.body.as_str()])
}

/// Removes the row of that kind and key, if there is one.
pub(crate) fn remove_row<S: Alter>(
    tx: &mut Transaction<'_, S>,
    kind: RowKind,
    key: &Text,
) -> Result<usize, Error>
    ensures same_reference { tx.new.conn.ghost_name ≡ tx.old.conn.ghost_name }
    ensures runs { HasCleanDisk (state S.Store tx.new.conn.now) → IsTrue tx.old.conn.now.in_transaction
        → RunsInside S.Store (statement_of (Remove kind key.now)) tx.old.conn.now tx.new.conn.now result }
    ensures survives { Survives (state S.Store tx.old.conn.now) (state S.Store tx.new.conn.now) (λ _. ⊥) }
{
    let kind = u32::from(kind.number());
    tx.execute(REMOVE_ROW, params![kind, key.as_str()])
}
