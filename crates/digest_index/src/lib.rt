//! An index from digests to numbers, by which a caller finds the items whose digest it knows.
//!
//! The index owns nothing of what the digests are made of, so a look-up gives candidates: the caller compares each with
//! what it searches for. The digests are the caller's, and so is their quality. The index takes memory in `reserve`
//! alone.
//!
//! The first number of a digest is in a hash map. Further numbers of equal digests are in a list, ordered by digest.
//! A look-up of the first number takes one look into the map. A look-up of the further numbers halves the list, so it
//! takes a number of steps in proportion to the logarithm of the count of all further numbers. That list is empty as
//! long as no two digests are equal. To enter or to remove a further number moves the list's later ones.
#![tactic(auto)]

ghost use Rattle.std.specs.Prelude.{◌≡◌, ◌≤◌, ◌==◌, ◌&&◌, ◌↔◌, ℕ, [], None, OnOk, IsOk, IsTrue, length};
ghost use Rattle.std.specs.Prelude.{nat_lt, nat_le, true, false};
ghost use Rattle.std.specs.List.{list_any};
ghost use Rattle.std.specs.List.Sorted.{IsNonDecreasingBy, IsPartitionPoint};
ghost use Rattle.digest_index.specs.Index.{IndexState, index_state, first_under, entries_under, Enters, Leaves};
ghost use Rattle.digest_index.specs.Index.{LeavesFirst, LeavesFurther};

use std::alloc::{AllocError, AllocFailed, Global};
use std::collections::HashMap;
use std::marker::Model;

/// A number that an index can hold.
pub trait Number: Copy + Eq {
    /// Two numbers are equal exactly if they are the same value.
    ghost same: { (x y : Self) → IsTrue (Self.eq x y) ↔ (x ≡ y) };
}

impl Number for u32 {
    ghost use Rattle.std.proofs.Common.{eqb-true, eq-eqb};

    ghost same = { λ x y. (eqb-true x y, eq-eqb x y) };
}

impl Number for u64 {
    ghost use Rattle.std.proofs.Common.{eqb-true, eq-eqb};

    ghost same = { λ x y. (eqb-true x y, eq-eqb x y) };
}

/// A number whose digest had another number already when it was entered.
#[derive(Clone, Copy, Drop)]
pub struct Further<N> {
    pub digest: u64,
    pub number: N,
}

/// Numbers by digest. In contracts its value says which numbers are under each digest, and how many more can be entered
/// without an allocation.
#[derive(Drop)]
pub struct DigestIndex<N> {
    first: HashMap<u64, N>,
    further: Vec<Further<N>>,
}

impl<N> Model for DigestIndex<N> {
    ghost Value = { IndexState N };

    ghost view = { λ i. index_state i.first i.further };

    ghost invariant = { λ i. IsNonDecreasingBy (λ e. e.digest) i.further.items };
}

impl<N: Number> DigestIndex<N> {
    /// An index without numbers. It takes no memory.
    pub fn new(alloc: Global) -> DigestIndex<N>
        ensures first { (digest : ℕ) → first_under digest result ≡ None }
        ensures further { result.further ≡ [] }
    {
        DigestIndex {
            first: HashMap::new(alloc),
            further: Vec::new(alloc),
        }
    }

    /// Makes room for this count of further entries. Whether or not memory is out, the numbers stay.
    pub fn reserve(&mut self, more: usize) -> Result<(), AllocError>
        ensures room { OnOk result (more ≤ self.new.room) }
        ensures enough { more ≤ self.old.room → IsOk result }
        ensures kept { self.old.room ≤ self.new.room }
        ensures first { (digest : ℕ) → first_under digest self.new ≡ first_under digest self.old }
        ensures further { self.new.further ≡ self.old.further }
    {
        self.first.reserve(more)?;
        self.further.reserve(more)
    }

    /// The first number under the digest.
    pub fn first(&self, digest: u64) -> Option<N>
        ensures { result ≡ first_under digest self.now }
    {
        self.first.get(&digest).copied()
    }

    /// The further numbers under the digest.
    pub fn further(&self, digest: u64) -> &[Further<N>]
        ensures { result.now ≡ entries_under digest self.now.further }
    {
        entries_under(self.further.as_slice(), digest)
    }

    /// All further numbers, in ascending order of their digests.
    pub fn colliding(&self) -> &[Further<N>]
        ensures { result.now ≡ self.now.further }
    {
        self.further.as_slice()
    }

    /// Enters a number under the digest, unless it is the first one there. There has to be room. It takes no memory.
    pub fn enter(&mut self, digest: u64, number: N)
        requires { 1 ≤ self.old.room }
        ensures { Enters self.old self.new digest number }
    {
        match self.first(digest) {
            Some(there) if there == number => {}
            Some(_) => self.enter_further(digest, number),
            None => self.enter_first(digest, number),
        }
    }

    /// Removes a number from the digest, if it is there. It takes no memory.
    pub fn leave(&mut self, digest: u64, number: N)
        ensures { Leaves self.old self.new digest number }
    {
        self.leave_first(digest, number);
        self.leave_further(digest, number);
    }
}

// ---- the first numbers

impl<N: Number> DigestIndex<N> {
    /// Enters the first number of a digest. It takes no memory.
    fn enter_first(&mut self, digest: u64, number: N)
        requires room { 1 ≤ self.old.room }
        requires none { first_under digest self.old ≡ None }
        ensures { Enters self.old self.new digest number }
    {
        let put: Result<Option<N>, AllocFailed<(u64, N)>> = self.first.insert(digest, number);
        put.unwrap();
    }

    /// Removes a number if it is the first one of the digest.
    fn leave_first(&mut self, digest: u64, number: N)
        ensures { LeavesFirst self.old self.new digest number }
    {
        if let Some(there) = self.first(digest) {
            if there == number {
                let _ = self.first.remove(&digest);
            }
        }
    }
}

// ---- the further numbers

impl<N: Number> DigestIndex<N> {
    /// Enters a further number after the others of its digest. It takes no memory.
    fn enter_further(&mut self, digest: u64, number: N)
        requires { 1 ≤ self.old.room }
        ensures { Enters self.old self.new digest number }
    {
        let index = count_up_to(self.further.as_slice(), digest);
        let put: Result<(), AllocFailed<Further<N>>> = self
            .further
            .insert(index, Further { digest, number });
        put.unwrap();
    }

    /// Removes a number from the further ones of the digest.
    fn leave_further(&mut self, digest: u64, number: N)
        ensures { LeavesFurther self.old self.new digest number }
    {
        if has_number(self.further(digest), number) {
            self.further
                .retain(|entry| !is_entry(entry, digest, number));
        }
    }
}

/// Whether the entry has this digest and this number.
fn is_entry<N: Number>(entry: &Further<N>, digest: u64, number: N) -> bool
    ensures { result ≡ (entry.now.digest == digest && N.eq entry.now.number number) }
{
    entry.digest == digest && entry.number == number
}

/// Whether one of the entries has the number.
fn has_number<N: Number>(entries: &[Further<N>], number: N) -> bool
    ensures { result ≡ list_any (λ e. N.eq e.number number) entries.now }
{
    entries.iter().any(|entry| entry.number == number)
}

/// The entries with this digest.
fn entries_under<N>(further: &[Further<N>], digest: u64) -> &[Further<N>]
    requires { IsNonDecreasingBy (λ e. e.digest) further.now }
    ensures { result.now ≡ entries_under digest further.now }
{
    let start = count_below(further, digest);
    let end = count_up_to(further, digest);
    let (up_to, _above) = further.split_at(end);
    let (_below, under) = up_to.split_at(start);
    under
}

/// The count of entries with a lower digest. They come first.
fn count_below<N>(further: &[Further<N>], digest: u64) -> usize
    requires { IsNonDecreasingBy (λ e. e.digest) further.now }
    ensures within { result ≤ length further.now }
    ensures point { IsPartitionPoint (λ e. nat_lt e.digest digest ≡ true) (λ e. nat_lt e.digest digest ≡ false)
        further.now result }
{
    further.partition_point(|entry| entry.digest < digest)
}

/// The count of entries with at most this digest. They come first.
fn count_up_to<N>(further: &[Further<N>], digest: u64) -> usize
    requires { IsNonDecreasingBy (λ e. e.digest) further.now }
    ensures within { result ≤ length further.now }
    ensures point { IsPartitionPoint (λ e. nat_le e.digest digest ≡ true) (λ e. nat_le e.digest digest ≡ false)
        further.now result }
{
    further.partition_point(|entry| entry.digest <= digest)
}

#[cfg(test)]
mod tests {
    use super::*;

    /// The further numbers under a digest, from the lowest position, as one number in base 10.
    fn further_of(index: &DigestIndex<u32>, digest: u64) -> u32 {
        let mut numbers = 0;
        for entry in index.further(digest) {
            numbers = u32::wrapping_mul(numbers, 10).wrapping_add(entry.number);
        }
        numbers
    }

    #[test]
    fn equal_digests_keep_all_numbers(rt: HostRuntime) {
        let mut index: DigestIndex<u32> = DigestIndex::new(rt.alloc());
        for (digest, number) in [(7, 1), (9, 2), (7, 3), (8, 4), (9, 5), (7, 6), (7, 1)] {
            index.reserve(1).expect(&rt, "memory");
            index.enter(digest, number);
        }
        assert_eq!(rt; index.first(7), Some(1));
        assert_eq!(rt; further_of(&index, 7), 36);
        assert_eq!(rt; further_of(&index, 8), 0);
        assert_eq!(rt; further_of(&index, 9), 5);
        index.leave(7, 3);
        index.leave(9, 2);
        index.leave(8, 3);
        assert_eq!(rt; index.first(7), Some(1));
        assert_eq!(rt; further_of(&index, 7), 6);
        assert_eq!(rt; index.first(8), Some(4));
        assert_eq!(rt; index.first(9), None);
        assert_eq!(rt; further_of(&index, 9), 5);
        assert_eq!(rt; index.colliding().len(), 2);
    }
}
