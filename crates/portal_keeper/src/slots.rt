//! The rows of a keeper in memory, by kind and key.
//!
//! At each kind and key that has a slot there is a body, or none yet. So the slots of new rows are made before any row
//! changes. After that no change takes memory, and a slot without a body goes again. A map of the standard library finds,
//! adds and drops a slot among n in a time of log n.
ghost use Rattle.std.specs.Prelude.{◌≡◌, map, IfOk, IfErr, OnOk, OnErr, All};
ghost use Rattle.portal_base.specs.Ordered.{upserted};
ghost use Rattle.portal_keeper.specs.declared.slots.RowKey.{RowKey};
ghost use Rattle.portal_keeper.specs.Changed.{changed_rows, rows_after};
ghost use Rattle.portal_keeper.specs.Rows.{row_cmp};
ghost use Rattle.portal_keeper.specs.Slots.{slot_cmp, slot_cmp_total, slot_rows, row_of, HasSlot, change_of};

use crate::change::Change;
use crate::row::{KeptRow, RowKind, compare_keys};
use portal_base::copy::TryClone;
use portal_base::text::Text;
use std::alloc::{AllocError, Global};
use std::cmp::Ordering;
use std::collections::BTreeMap;

/// The kind and the key of a row.
#[derive(Drop)]
pub(crate) struct RowKey {
    pub kind: RowKind,
    pub key: Text,
}

/// The slots of the rows.
pub(crate) type Slots = BTreeMap<RowKey, Option<Text>>;

/// What is written to a slot: the body of a row that is put, or none for a row that is removed.
#[derive(Drop)]
pub(crate) struct SlotWrite {
    pub key: RowKey,
    pub body: Option<Text>,
}

impl TryClone for RowKey {
    fn try_clone(&self, alloc: Global) -> Result<RowKey, AllocError> {
        Ok(RowKey {
            kind: self.kind,
            key: self.key.try_clone(alloc)?,
        })
    }
}

impl PartialEq for RowKey {
    ghost use Rattle.std.specs.Ordering.{eq_by_cmp};
    ghost use Rattle.std.specs.Cmp.{partial_equiv_from_equiv, eq_by_cmp_equiv};

    ghost eq = { eq_by_cmp slot_cmp };

    ghost laws = { partial_equiv_from_equiv (eq_by_cmp_equiv slot_cmp_total) };

    fn eq(&self, other: &RowKey) -> bool {
        self.cmp(other).is_eq()
    }
}

impl Eq for RowKey {
    ghost use Rattle.std.specs.Cmp.{eq_by_cmp_equiv};

    ghost laws = { eq_by_cmp_equiv slot_cmp_total };
}

impl PartialOrd for RowKey {
    ghost use Rattle.std.specs.Prelude.{Some, refl};
    ghost use Rattle.std.specs.Cmp.{po};

    ghost partial_cmp = { λ x y. Some (slot_cmp x y) };

    ghost laws = { po slot_cmp_total (λ x y. refl) };

    fn partial_cmp(&self, other: &RowKey) -> Option<Ordering> {
        Some(self.cmp(other))
    }
}

impl Ord for RowKey {
    ghost use Rattle.std.specs.Prelude.{refl};

    ghost cmp = { slot_cmp };

    ghost total = { slot_cmp_total };

    ghost matches_partial_cmp = { λ x y. refl };

    ghost matches_eq = { λ x y. refl };

    fn cmp(&self, other: &RowKey) -> Ordering {
        compare_keys(self.kind, &self.key, other.kind, &other.key)
    }
}

/// Puts a row among those of the slots. If memory runs out the row is returned, and nothing changes.
pub(crate) fn put_row(slots: &mut Slots, row: KeptRow) -> Result<(), KeptRow>
    ensures ok { OnOk result (slot_rows slots.new.entries ≡ upserted row_cmp row (slot_rows slots.old.entries)) }
    ensures err { IfErr result (λ back. back ≡ row) }
    ensures unchanged { OnErr result (slots.new.entries ≡ slots.old.entries) }
{
    let key = RowKey {
        kind: row.kind,
        key: row.key,
    };
    match slots.insert(key, Some(row.body)) {
        Ok(_) => Ok(()),
        Err(refused) => {
            let (key, body) = refused.value;
            Err(KeptRow {
                kind: key.kind,
                key: key.key,
                body: body.unwrap(),
            })
        }
    }
}

/// Makes the changes, one after the other. If memory runs out, none of them is made.
pub(crate) fn change_slots(
    alloc: Global,
    slots: &mut Slots,
    changes: &[Change],
) -> Result<(), AllocError>
    ensures changed { OnOk result (slot_rows slots.new.entries ≡ rows_after changes.now (slot_rows slots.old.entries)) }
    ensures refused { OnErr result (slot_rows slots.new.entries ≡ slot_rows slots.old.entries) }
{
    let writes = writes_of(alloc, changes)?;
    let keys = keys_of(alloc, writes.as_slice())?;
    let reserved = reserve_slots(alloc, slots, keys.as_slice());
    if reserved.is_ok() {
        write_slots(slots, writes);
    }
    drop_empty_slots(slots, keys.as_slice());
    reserved
}

/// What these changes write to slots.
fn writes_of(alloc: Global, changes: &[Change]) -> Result<Vec<SlotWrite>, AllocError>
    ensures { IfOk result (λ writes. map change_of writes.items ≡ changes.now) }
{
    let mut writes = Vec::with_capacity(alloc, changes.len())?;
    for change in changes {
        writes.push(write_of(alloc, change)?)?;
    }
    Ok(writes)
}

/// What this change writes to a slot.
fn write_of(alloc: Global, change: &Change) -> Result<SlotWrite, AllocError>
    ensures { IfOk result (λ write. change_of write ≡ change.now) }
{
    match change {
        Change::Put(row) => Ok(SlotWrite {
            key: RowKey {
                kind: row.kind,
                key: row.key.try_clone(alloc)?,
            },
            body: Some(row.body.try_clone(alloc)?),
        }),
        Change::Remove(kind, key) => Ok(SlotWrite {
            key: RowKey {
                kind: *kind,
                key: key.try_clone(alloc)?,
            },
            body: None,
        }),
    }
}

/// The kinds and keys of these writes.
fn keys_of(alloc: Global, writes: &[SlotWrite]) -> Result<Vec<RowKey>, AllocError>
    ensures { IfOk result (λ keys. keys.items ≡ map (λ write. write.key) writes.now) }
{
    let mut keys = Vec::with_capacity(alloc, writes.len())?;
    for write in writes {
        keys.push(write.key.try_clone(alloc)?)?;
    }
    Ok(keys)
}

/// Makes a slot at each of the keys that has none. No row changes.
fn reserve_slots(alloc: Global, slots: &mut Slots, keys: &[RowKey]) -> Result<(), AllocError>
    ensures rows { slot_rows slots.new.entries ≡ slot_rows slots.old.entries }
    ensures reserved { OnOk result (All (HasSlot slots.new.entries) keys.now) }
{
    for key in keys {
        reserve_slot(alloc, slots, key)?;
    }
    Ok(())
}

/// Makes a slot at the key, if it has none. No row changes.
fn reserve_slot(alloc: Global, slots: &mut Slots, key: &RowKey) -> Result<(), AllocError>
    ensures rows { slot_rows slots.new.entries ≡ slot_rows slots.old.entries }
    ensures reserved { OnOk result (HasSlot slots.new.entries key.now) }
    ensures others { (other : RowKey) → HasSlot slots.old.entries other → HasSlot slots.new.entries other }
{
    if slots.contains_key(key) {
        return Ok(());
    }
    slots.insert(key.try_clone(alloc)?, None)?;
    Ok(())
}

/// Makes these writes, one after the other. It takes no memory and can't fail.
fn write_slots(slots: &mut Slots, writes: Vec<SlotWrite>)
    requires { All (λ write. HasSlot slots.old.entries write.key) writes.items }
    ensures { slot_rows slots.new.entries ≡ rows_after (map change_of writes.items) (slot_rows slots.old.entries) }
{
    for write in writes {
        write_slot(slots, write);
    }
}

/// Makes a write. It takes no memory and can't fail.
fn write_slot(slots: &mut Slots, write: SlotWrite)
    requires { HasSlot slots.old.entries write.key }
    ensures rows { slot_rows slots.new.entries ≡ changed_rows (change_of write) (slot_rows slots.old.entries) }
    ensures others { (other : RowKey) → HasSlot slots.old.entries other → HasSlot slots.new.entries other }
{
    let written: Result<_, _> = slots.insert(write.key, write.body);
    written.unwrap();
}

/// Drops the slots without a body at these keys. No row changes.
fn drop_empty_slots(slots: &mut Slots, keys: &[RowKey])
    ensures { slot_rows slots.new.entries ≡ slot_rows slots.old.entries }
{
    for key in keys {
        drop_empty_slot(slots, key);
    }
}

/// Drops the slot at the key, if it has no body. No row changes.
fn drop_empty_slot(slots: &mut Slots, key: &RowKey)
    ensures { slot_rows slots.new.entries ≡ slot_rows slots.old.entries }
{
    if let Some(None) = slots.get(key) {
        slots.remove(key);
    }
}

/// The rows of the slots that have a body.
pub(crate) fn rows_of(alloc: Global, slots: &Slots) -> Result<Vec<KeptRow>, AllocError>
    ensures { IfOk result (λ rows. rows.items ≡ slot_rows slots.now.entries) }
{
    let mut rows = Vec::with_capacity(alloc, slots.len())?;
    for (key, body) in slots {
        if let Some(body) = body {
            rows.push(row_of(alloc, key, body)?)?;
        }
    }
    Ok(rows)
}

/// The row of this key with this body.
fn row_of(alloc: Global, key: &RowKey, body: &Text) -> Result<KeptRow, AllocError>
    ensures { IfOk result (λ row. row ≡ row_of key.now body.now) }
{
    Ok(KeptRow {
        kind: key.kind,
        key: key.key.try_clone(alloc)?,
        body: body.try_clone(alloc)?,
    })
}
