//! Sets of keys, in which an index finds a key by the digest of its cells.
ghost use Rattle.std.specs.Prelude.{◌≡◌, ◌++◌, ◌∷◌, [], ℕ, false, length, OnOk};
ghost use Rattle.std.specs.List.{list_any};
ghost use Rattle.std.specs.Option.{option_map_or};
ghost use Rattle.datastore_table.specs.KeySet.{is_key_number};
ghost use Rattle.datastore_table.specs.Put.{has_key};

use crate::cells::are_same;
use crate::lookup_key::cells_digest;
use digest_index::{DigestIndex, Further};
use portal_base::seq::Seq;
use std::alloc::{AllocError, Global};
use std::marker::Model;
use table_schema::Cell;

/// Keys in the order in which they were added. A contract sees this list.
#[derive(Drop)]
pub(crate) struct KeySet {
    keys: Vec<Seq<Cell>>,
    /// The index of each key in the list, under the digest of its cells.
    index: DigestIndex<u64>,
}

impl Model for KeySet {
    ghost use Rattle.std.specs.Prelude.{List};
    ghost use Rattle.table_schema.specs.declared.cell.Cell.{Cell};
    ghost use Rattle.datastore_table.specs.KeySet.{AreNumbered};

    ghost Value = { List (List Cell) };

    ghost view = { λ s. s.keys.items };

    ghost invariant = { λ s. AreNumbered s.keys.items s.index };
}

impl KeySet {
    /// No key. It takes no memory.
    pub(crate) fn new(alloc: Global) -> KeySet
        ensures { result ≡ [] }
    {
        KeySet {
            keys: Vec::new(alloc),
            index: DigestIndex::new(alloc),
        }
    }

    /// The count of keys.
    pub(crate) fn len(&self) -> usize
        ensures { result ≡ length self.now }
    {
        self.keys.len()
    }

    /// Whether the key is one of these.
    pub(crate) fn has(&self, key: &[Cell]) -> bool
        ensures { result ≡ has_key self.now key.now }
    {
        let digest = cells_digest(key);
        let keys = self.keys.as_slice();
        is_first(keys, self.index.first(digest), key)
            || is_further(keys, self.index.further(digest), key)
    }

    /// Adds a key at the end.
    pub(crate) fn add(&mut self, key: Seq<Cell>) -> Result<(), AllocError>
        ensures { OnOk result (self.new ≡ self.old ++ key ∷ []) }
    {
        self.index.reserve(1)?;
        let digest = cells_digest(key.as_slice());
        let number = self.keys.len() as u64;
        self.keys.push(key)?;
        self.index.enter(digest, number);
        Ok(())
    }
}

// Whether there is an index, and the key there is equal to this one.
fn is_first(keys: &[Seq<Cell>], number: Option<u64>, key: &[Cell]) -> bool
    ensures { result ≡ option_map_or (is_key_number keys.now key.now) number false }
{
    match number {
        Some(number) => is_key_number(keys, number, key),
        None => false,
    }
}

// Whether the key at the index of one of the entries is equal to this one.
fn is_further(keys: &[Seq<Cell>], further: &[Further<u64>], key: &[Cell]) -> bool
    ensures { result ≡ list_any (λ e. is_key_number keys.now key.now e.number) further.now }
{
    further
        .iter()
        .any(|entry| is_key_number(keys, entry.number, key))
}

// Whether the key at this index is equal to the other.
fn is_key_number(keys: &[Seq<Cell>], number: u64, key: &[Cell]) -> bool
    ensures { result ≡ is_key_number keys.now key.now number }
{
    match keys.get(number as usize) {
        Some(other) => are_same(other.as_slice(), key),
        None => false,
    }
}
