//! A keeper in memory, where there is enough memory.
use portal_base::copy::TryClone;
use portal_base::seq::Seq;
use portal_base::text::Text;
use portal_keeper::change::{Change, KeepFault};
use portal_keeper::keeper::Keeper;
use portal_keeper::memory::MemoryKeeper;
use portal_keeper::row::{KeptRow, RowKind, rows_are_distinct};
use std::alloc::{AllocError, Global};
use std::test::Fail;

fn row(kind: RowKind, key: &'static str, body: &'static str) -> KeptRow {
    KeptRow {
        kind,
        key: Text::from_static(key),
        body: Text::from_static(body),
    }
}

fn put(key: &'static str, body: &'static str) -> Change {
    Change::Put(row(RowKind::Org, key, body))
}

/// Two rows, the later one first.
fn given(alloc: Global) -> Result<Seq<KeptRow>, AllocError> {
    let mut rows = Vec::new(alloc);
    rows.push(row(RowKind::Org, "a", "1"))?;
    rows.push(row(RowKind::Version, "z", "2"))?;
    Ok(Seq::from(rows))
}

/// The keys and the bodies of the keeper's rows, as `key=body;`.
fn loaded<K: Keeper>(alloc: Global, keeper: &mut K) -> Result<String, Fail> {
    let mut text = String::new(alloc);
    for row in keeper.load(alloc)?.as_slice() {
        text.push_str(row.key.as_str())?;
        text.push_str("=")?;
        text.push_str(row.body.as_str())?;
        text.push_str(";")?;
    }
    Ok(text)
}

/// Puts a new row and puts it again, puts a row in place of another, and removes a row that is put again.
fn changes(alloc: Global) -> Result<Seq<Change>, AllocError> {
    let mut changes = Vec::new(alloc);
    changes.push(put("b", "3"))?;
    changes.push(put("b", "4"))?;
    changes.push(put("a", "5"))?;
    changes.push(Change::Remove(RowKind::Version, Text::from_static("z")))?;
    changes.push(put("c", "6"))?;
    changes.push(Change::Remove(RowKind::Org, Text::from_static("c")))?;
    Ok(Seq::from(changes).try_clone(alloc)?)
}

#[test]
fn a_memory_keeper_makes_all_changes(rt: HostRuntime) -> Result<(), Fail> {
    let alloc = rt.alloc();
    let rows = given(alloc)?.try_clone(alloc)?;
    if !rows_are_distinct(rows.as_slice()) {
        return Err("equal keys")?;
    }
    let mut keeper = MemoryKeeper::new(alloc, rows, Seq::new(alloc));
    assert!(rt; loaded(alloc, &mut keeper)?.as_str() == "z=2;a=1;");
    keeper.apply(alloc, &changes(alloc)?)?;
    assert!(rt; loaded(alloc, &mut keeper)?.as_str() == "a=5;b=4;");
    Ok(())
}

#[test]
fn a_memory_keeper_fails_as_planned(rt: HostRuntime) -> Result<(), Fail> {
    let alloc = rt.alloc();
    let mut failing = Vec::new(alloc);
    failing.push(1)?;
    failing.push(3)?;
    let rows = given(alloc)?;
    if !rows_are_distinct(rows.as_slice()) {
        return Err("equal keys")?;
    }
    let mut keeper = MemoryKeeper::new(alloc, rows, Seq::from(failing));
    assert!(rt; keeper.apply(alloc, &changes(alloc)?) == Err(KeepFault::Failed));
    assert!(rt; loaded(alloc, &mut keeper)?.as_str() == "z=2;a=1;");
    assert!(rt; keeper.load(alloc).err() == Some(KeepFault::Failed));
    assert!(rt; RowKind::Job.number() == 7);
    Ok(())
}
