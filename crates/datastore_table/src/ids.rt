//! Lists of `_id`s that a row's is looked up in.
ghost use Rattle.std.specs.Prelude.{◌≡◌, [], IfOk};
ghost use Rattle.datastore_table.specs.Batch.{is_among};

use portal_base::seq::Seq;
use std::alloc::{AllocError, Global};
use std::marker::Model;

/// `_id`s in the order in which they were given. A contract sees this list.
#[derive(Drop)]
pub(crate) struct Ids {
    given: Seq<u64>,
    /// The same `_id`s in ascending order.
    ascending: Vec<u64>,
}

impl Model for Ids {
    ghost use Rattle.std.specs.Prelude.{ℕ, List};
    ghost use Rattle.std.specs.List.Sorted.{IsNonDecreasing};
    ghost use Rattle.datastore_table.specs.Batch.{HaveSame};

    ghost Value = { List ℕ };

    ghost view = { λ i. i.given };

    ghost invariant = { λ i. IsNonDecreasing i.ascending.items × HaveSame i.given i.ascending.items };
}

impl Ids {
    /// No `_id`. It takes no memory.
    pub(crate) fn none(alloc: Global) -> Ids
        ensures { result ≡ [] }
    {
        Ids {
            given: Seq::new(alloc),
            ascending: Vec::new(alloc),
        }
    }

    /// A copy of these `_id`s.
    pub(crate) fn copy_of(alloc: Global, ids: &[u64]) -> Result<Ids, AllocError>
        ensures { IfOk result (λ copy. copy ≡ ids.now) }
    {
        let given = copied(alloc, ids)?;
        let mut ascending = copied(alloc, ids)?;
        ascending.sort_unstable();
        Ok(Ids {
            given: Seq::from(given),
            ascending,
        })
    }

    pub(crate) fn as_slice(&self) -> &[u64]
        ensures { result.now ≡ self.now }
    {
        self.given.as_slice()
    }

    /// Whether the `_id` is one of these.
    pub(crate) fn has(&self, id: u64) -> bool
        ensures { result ≡ is_among self.now id }
    {
        self.ascending.binary_search(&id).is_ok()
    }
}

fn copied(alloc: Global, ids: &[u64]) -> Result<Vec<u64>, AllocError>
    ensures { IfOk result (λ copy. copy.items ≡ ids.now) }
{
    let mut copy = Vec::with_capacity(alloc, ids.len())?;
    copy.extend_from_slice(ids)?;
    Ok(copy)
}
