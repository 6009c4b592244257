//! A keeper over SQLite, where there is enough memory.
use keeper_sqlite::SqliteKeeper;
use portal_base::seq::Seq;
use portal_base::text::Text;
use portal_keeper::change::{Change, KeepFault};
use portal_keeper::keeper::Keeper;
use portal_keeper::row::{KeptRow, RowKind};
use sqlite::{Alter, Connection, Error, MemStore};
use std::alloc::{AllocError, Global};
use std::test::Fail;

fn put(kind: RowKind, key: &'static str, body: &'static str) -> Change {
    Change::Put(KeptRow {
        kind,
        key: Text::from_static(key),
        body: Text::from_static(body),
    })
}

fn remove(kind: RowKind, key: &'static str) -> Change {
    Change::Remove(kind, Text::from_static(key))
}

// These have no clause, so that the proof of a test does not carry the state of each call.
fn load<S: Alter>(alloc: Global, keeper: &mut SqliteKeeper<S>) -> Result<Seq<KeptRow>, KeepFault> {
    keeper.load(alloc)
}

fn apply<S: Alter>(
    alloc: Global,
    keeper: &mut SqliteKeeper<S>,
    changes: Vec<Change>,
) -> Result<(), KeepFault> {
    keeper.apply(alloc, &Seq::from(changes))
}

fn run<S: Alter>(connection: &mut Connection<S>, sql: &str) -> Result<(), Error> {
    connection.execute_batch(sql)
}

/// A keeper over a new database in memory, in which this text has run.
fn keeper_after(alloc: Global, sql: &str) -> Result<SqliteKeeper<MemStore>, Fail> {
    let mut connection = Connection::open_in_memory(alloc)?;
    run(&mut connection, sql)?;
    if !connection.is_autocommit() {
        return Err("in a transaction")?;
    }
    Ok(SqliteKeeper::adopt(connection))
}

/// The rows of the keeper, as `kind key=body;`.
fn loaded<S: Alter>(alloc: Global, keeper: &mut SqliteKeeper<S>) -> Result<String, Fail> {
    let mut text = String::new(alloc);
    for row in load(alloc, keeper)?.as_slice() {
        let number = row.kind.number();
        let key = row.key.as_str();
        let body = row.body.as_str();
        text.push_str(format!(in alloc; "{number} {key}={body};")?.as_str())?;
    }
    Ok(text)
}

fn first_changes(alloc: Global) -> Result<Vec<Change>, AllocError> {
    let changes = vec![in alloc;
        put(RowKind::Set, "s.2", "{}"),
        put(RowKind::Version, "portal", "1"),
        put(RowKind::Set, "s.10", "[]"),
        put(RowKind::Org, "stadt \u{e4}'\"", ""),
        put(RowKind::Job, "gone", "1"),
        put(RowKind::Set, "s.2", "{\"a\":1}"),
        remove(RowKind::Job, "gone"),
        remove(RowKind::Row, "never"),
    ]?;
    Ok(changes)
}

fn two(alloc: Global, first: Change, second: Change) -> Result<Vec<Change>, AllocError> {
    Ok(vec![in alloc; first, second]?)
}

#[test]
fn a_new_store_has_no_rows(rt: HostRuntime) -> Result<(), Fail> {
    let alloc = rt.alloc();
    let mut keeper = keeper_after(alloc, "")?;
    assert_eq!(rt; loaded(alloc, &mut keeper)?.as_str(), "");
    apply(alloc, &mut keeper, Vec::new(alloc))?;
    assert_eq!(rt; loaded(alloc, &mut keeper)?.as_str(), "");
    Ok(())
}

#[test]
fn rows_outlive_the_keeper(rt: HostRuntime) -> Result<(), Fail> {
    let alloc = rt.alloc();
    let rows = "1 portal=1;2 stadt \u{e4}'\"=;3 s.10=[];3 s.2={\"a\":1};";
    let mut keeper = keeper_after(alloc, "CREATE TABLE other (a TEXT)")?;
    apply(alloc, &mut keeper, first_changes(alloc)?)?;
    assert_eq!(rt; loaded(alloc, &mut keeper)?.as_str(), rows);
    let mut again = SqliteKeeper::adopt(keeper.into_connection());
    assert_eq!(rt; loaded(alloc, &mut again)?.as_str(), rows);
    apply(
        alloc,
        &mut again,
        two(
            alloc,
            remove(RowKind::Set, "s.10"),
            put(RowKind::Set, "s.10", "9"),
        )?,
    )?;
    apply(
        alloc,
        &mut again,
        two(
            alloc,
            put(RowKind::Set, "s.3", "9"),
            remove(RowKind::Set, "s.3"),
        )?,
    )?;
    apply(
        alloc,
        &mut again,
        two(
            alloc,
            remove(RowKind::Org, "portal"),
            remove(RowKind::Version, "portal"),
        )?,
    )?;
    assert_eq!(rt;
        loaded(alloc, &mut again)?.as_str(),
        "2 stadt \u{e4}'\"=;3 s.10=9;3 s.2={\"a\":1};"
    );
    Ok(())
}

#[test]
fn other_tables_and_rows_are_refused(rt: HostRuntime) -> Result<(), Fail> {
    let alloc = rt.alloc();
    for sql in [
        "CREATE TABLE kept (a TEXT)",
        "CREATE VIEW kept AS SELECT 1 AS kind, 'a' AS name, '' AS body",
        "CREATE TABLE kept (kind INTEGER, name TEXT, body TEXT); INSERT INTO kept VALUES (1, 'a', NULL)",
        "CREATE TABLE kept (kind INTEGER, name TEXT, body BLOB); INSERT INTO kept VALUES (1, 'a', x'00')",
        "CREATE TABLE kept (kind INTEGER, name TEXT, body TEXT) STRICT; INSERT INTO kept VALUES (0, 'a', '')",
        "CREATE TABLE kept (kind INTEGER, name TEXT, body TEXT) STRICT; INSERT INTO kept VALUES (8, 'a', '')",
        "CREATE TABLE kept (kind INTEGER, name TEXT, body TEXT) STRICT; INSERT INTO kept VALUES (257, 'a', '')",
        "CREATE TABLE kept (kind INTEGER, name TEXT, body TEXT) STRICT; INSERT INTO kept VALUES (-1, 'a', '')",
    ] {
        let mut keeper = keeper_after(alloc, sql)?;
        assert!(rt;
            load(alloc, &mut keeper).err() == Some(KeepFault::Failed),
            "{sql}"
        );
        let first = apply(alloc, &mut keeper, first_changes(alloc)?);
        assert!(rt; first == Err(KeepFault::Failed), "{sql}");
        let second = apply(alloc, &mut keeper, first_changes(alloc)?);
        assert!(rt; second == Err(KeepFault::Failed), "{sql}");
    }
    Ok(())
}

#[test]
fn a_refused_change_undoes_those_before_it(rt: HostRuntime) -> Result<(), Fail> {
    let alloc = rt.alloc();
    let mut keeper = keeper_after(alloc, "")?;
    apply(
        alloc,
        &mut keeper,
        two(
            alloc,
            put(RowKind::Org, "a", "0"),
            put(RowKind::Org, "a", "1"),
        )?,
    )?;
    let mut connection = keeper.into_connection();
    run(&mut connection, "CREATE UNIQUE INDEX bodies ON kept (body)")?;
    if !connection.is_autocommit() {
        return Err("in a transaction")?;
    }
    let mut keeper = SqliteKeeper::adopt(connection);
    let mut changes = two(
        alloc,
        put(RowKind::Org, "b", "2"),
        remove(RowKind::Org, "a"),
    )?;
    changes.extend(two(
        alloc,
        put(RowKind::Org, "c", "2"),
        put(RowKind::Org, "d", "4"),
    )?)?;
    assert!(rt; apply(alloc, &mut keeper, changes) == Err(KeepFault::Failed));
    assert_eq!(rt; loaded(alloc, &mut keeper)?.as_str(), "2 a=1;");
    apply(
        alloc,
        &mut keeper,
        two(
            alloc,
            put(RowKind::Org, "b", "2"),
            remove(RowKind::Org, "c"),
        )?,
    )?;
    assert_eq!(rt; loaded(alloc, &mut keeper)?.as_str(), "2 a=1;2 b=2;");
    Ok(())
}
