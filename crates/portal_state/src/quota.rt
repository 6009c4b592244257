//! The quota of accepted bytes: how much of it each user has used.
ghost use Rattle.std.specs.Prelude.{◌≡◌, [], IsTrue, OnOk};
ghost use Rattle.portal_base.specs.Ordered.{upserted};
ghost use Rattle.portal_state.specs.State.{accepted_bytes_of_user, quota_used_cmp};

use portal_base::ordered::{Key, Ordered, find_in_order, replace_or_put, reserve};
use portal_base::text::Text;
use std::alloc::{AllocError, Global};
use std::cmp::Ordering;
use std::marker::Model;

/// The limit of a user's accepted bytes.
pub const QUOTA: u64 = 268_435_456;

/// The bytes of a user's calls that the portal accepted as changes since it was opened.
#[derive(Drop)]
pub struct QuotaUsed {
    pub user: Text,
    pub bytes: u64,
}

impl Ordered for QuotaUsed {
    ghost use Rattle.portal_state.specs.State.{quota_used_cmp, quota_used_cmp_total};

    ghost order = { quota_used_cmp };

    ghost total = { quota_used_cmp_total };

    /// The order by user.
    fn compare(&self, other: &QuotaUsed) -> Ordering {
        self.user.cmp(&other.user)
    }
}

impl Key<QuotaUsed> for Text {
    ghost use Rattle.portal_state.specs.State.{quota_used_at, IsKey-quota_used_at, IsMonotone-quota_used_at};

    ghost at = { quota_used_at };

    ghost is_key = { IsKey-quota_used_at };

    ghost is_monotone = { IsMonotone-quota_used_at };

    fn compare_item(&self, item: &QuotaUsed) -> Ordering {
        item.user.cmp(self)
    }
}

/// How much of the quota each user has used. A contract sees the list, which ascends by user, and whether there is room
/// for one more entry without allocation.
#[derive(Drop)]
pub struct QuotaLedger {
    entries: Vec<QuotaUsed>,
}

impl Model for QuotaLedger {
    ghost use Rattle.std.specs.Prelude.{nat_lt, vec_len, vec_capacity};
    ghost use Rattle.portal_base.specs.Ordered.{IsAscending};
    ghost use Rattle.portal_state.specs.State.{Ledger, quota_used_cmp};

    ghost Value = { Ledger };

    ghost view = { λ l. record {
      used = l.entries.items;
      room = nat_lt (vec_len l.entries) (vec_capacity l.entries);
    } };

    ghost invariant = { λ l. IsAscending quota_used_cmp l.entries.items };
}

impl QuotaLedger {
    /// Nothing is used. It doesn't allocate.
    pub fn new(alloc: Global) -> QuotaLedger
        ensures { result.used ≡ [] }
    {
        QuotaLedger {
            entries: Vec::new(alloc),
        }
    }

    /// The bytes that were accepted from the user.
    #[tactic(auto, using(crate::proofs::LedgerLemmas::bytes_found))]
    pub fn bytes_of(&self, user: &Text) -> u64
        ensures { result ≡ accepted_bytes_of_user user.now self.now.used }
    {
        match find_in_order(self.entries.as_slice(), user) {
            Some(entry) => entry.bytes,
            None => 0,
        }
    }

    /// Makes room for one more entry.
    pub fn reserve(&mut self) -> Result<(), AllocError>
        ensures room { OnOk result (IsTrue self.new.room) }
        ensures same { self.new.used ≡ self.old.used }
    {
        reserve(&mut self.entries)
    }

    /// Replaces the user's entry, or adds it. It doesn't allocate and can't fail.
    pub fn set(&mut self, entry: QuotaUsed)
        requires room { IsTrue self.old.room }
        ensures { self.new.used ≡ upserted quota_used_cmp entry self.old.used }
    {
        replace_or_put(&mut self.entries, entry);
    }
}
