//! The shelf: datasets by number, which are found by their ids and names.
//!
//! A dataset keeps its number until it is removed. Afterwards another dataset may get the number. `prepare` makes room
//! for a new dataset and is the only call that takes memory. `put`, `replace` and `remove` change the shelf.
ghost use Rattle.std.specs.Prelude.{◌≡◌, ◌+◌, ◌<◌, ◌^◌, [], None, Some, ℕ, IsTrue, false, IsOk, IsSome, IfSome, IfNone};
ghost use Rattle.std.specs.Prelude.{◌&&◌, List, IfOk, OnErr, filter, find, is_some, length, map};
ghost use Rattle.std.specs.List.{list_any};
ghost use Rattle.std.specs.Option.{option_copied, option_map};
ghost use Rattle.std.specs.Str.{bytes_eq};
ghost use Rattle.portal_base.specs.Ordered.{upserted, dropped};
ghost use Rattle.packages.specs.Named.{is_named};
ghost use Rattle.packages.specs.Order.{dataset_cmp};
ghost use Rattle.packages.specs.Owners.{count_at};
ghost use Rattle.packages.specs.Shelf.{package_at, number_in, with_package, without_number, with_room, datasets_of};
ghost use Rattle.packages.specs.Shelf.{IsValidShelf};
ghost use Rattle.packages.specs.Tags.{text_set};
ghost use Rattle.packages.specs.Digest.{digest_of};
ghost use Rattle.packages.specs.ShelfInvariant.{is_named_at};
ghost use Rattle.digest_index.specs.Index.{IsUnder, first_under};
ghost use Rattle.slab.specs.Slab.{get};

pub mod restored;

use crate::digest::digest_of;
use crate::named::is_named;
use crate::package::Package;
use crate::walk;
use crate::walk::Test;
use digest_index::{DigestIndex, Further};
use portal_base::steps::Steps;
use portal_base::text::Text;
use slab::Slab;
use std::alloc::{AllocError, Global};
use std::collections::BTreeMap;
use std::marker::Model;
use std::mem;
use std::sync::ledger::Ledger;

/// Datasets, each under a number below 2^32. In contracts its value is the list of them, ordered by number, and the
/// number for the next dataset, if there is room for it.
#[derive(Drop)]
pub struct Shelf {
    datasets: Slab<Package>,
    index: DigestIndex<u32>,
    /// Whether there is room for one more dataset.
    is_prepared: bool,
}

impl Model for Shelf {
    ghost use Rattle.packages.specs.Shelf.{ShelfState};
    ghost use Rattle.packages.specs.ShelfInvariant.{shelf_state, IsConsistent};

    ghost Value = { ShelfState };

    ghost view = { λ s. shelf_state s.datasets s.is_prepared };

    ghost invariant = { λ s. IsConsistent s.datasets s.index s.is_prepared };
}

impl Shelf {
    /// A shelf without datasets. It takes no memory.
    pub fn new(alloc: Global) -> Shelf
        ensures none { result.entries ≡ [] }
        ensures room { result.room ≡ None }
    {
        Shelf {
            datasets: Slab::new(alloc),
            index: DigestIndex::new(alloc),
            is_prepared: false,
        }
    }

    /// Makes room for one dataset, and returns the number that it will get. No dataset has that number. If memory is
    /// out, nothing changes. A shelf without a free number below 2^32 counts as out of memory.
    pub fn prepare(&mut self) -> Result<u32, AllocError>
        ensures room { IfOk result (λ number. self.new ≡ with_room (Some number) self.old) }
        ensures free { IfOk result (λ number. package_at number self.new ≡ None) }
        ensures again { IsSome self.old.room → IsOk result }
        ensures same { OnErr result (self.new ≡ self.old) }
        ensures valid { IsValidShelf self.new }
    {
        let number = free_number(&self.datasets)?;
        if !self.is_prepared {
            self.datasets.reserve(1)?;
            self.index.reserve(2)?;
            self.is_prepared = true;
        }
        Ok(number)
    }

    /// Puts a dataset at the prepared number, and returns that number. It takes no memory and can't fail.
    pub fn put(&mut self, package: Package) -> u32
        requires room { IsSome self.old.room }
        requires id { number_in «package».id self.old ≡ None }
        requires name { number_in «package».name self.old ≡ None }
        ensures number { self.old.room ≡ Some result }
        ensures put { self.new ≡ with_room None (with_package result «package» self.old) }
        ensures datasets { datasets_of self.new ≡ upserted dataset_cmp «package» (datasets_of self.old) }
        ensures valid { IsValidShelf self.new }
    {
        let number = self.datasets.vacant_key() as u32;
        let id = digest_of(package.id.as_str());
        let name = digest_of(package.name.as_str());
        self.index.enter(id, number);
        self.index.enter(name, number);
        self.datasets.insert_reserved(package);
        self.is_prepared = false;
        number
    }

    /// Replaces the dataset at the number by one with the same id and name, and returns the old one. It takes no memory
    /// and can't fail.
    pub fn replace(&mut self, number: u32, package: Package) -> Package
        requires id { option_map (λ d. d.id) (package_at number self.old) ≡ Some «package».id }
        requires name { option_map (λ d. d.name) (package_at number self.old) ≡ Some «package».name }
        ensures replaced { package_at number self.old ≡ Some result }
        ensures put { self.new ≡ with_package number «package» self.old }
        ensures datasets { datasets_of self.new ≡ upserted dataset_cmp «package» (datasets_of self.old) }
        ensures valid { IsValidShelf self.new }
    {
        match self.datasets.get_mut(number as usize) {
            Some(there) => mem::replace(there, package),
            None => unreachable!(),
        }
    }

    /// Removes the dataset at the number, and returns it. Prepared room stays, and the next dataset gets this number.
    /// The call takes no memory and can't fail.
    pub fn remove(&mut self, number: u32) -> Package
        requires { IsSome (package_at number self.old) }
        ensures removed { package_at number self.old ≡ Some result }
        ensures rest { self.new ≡
            with_room (option_map (λ _. number) self.old.room) (without_number number self.old) }
        ensures datasets { datasets_of self.new ≡ dropped (λ d. dataset_cmp d result) (datasets_of self.old) }
        ensures valid { IsValidShelf self.new }
    {
        let package = self.datasets.remove(number as usize);
        self.index.leave(digest_of(package.id.as_str()), number);
        self.index.leave(digest_of(package.name.as_str()), number);
        package
    }

    /// The number of the dataset with this id or name.
    pub fn number_of(&self, name_or_id: &str) -> Option<u32>
        ensures number { result ≡ number_in name_or_id.now self.now }
        ensures exists { IfSome result (λ number. IsSome (package_at number self.now)) }
        ensures valid { IsValidShelf self.now }
    {
        find_number(&self.datasets, &self.index, name_or_id)
    }

    /// Whether a dataset has this id or this name.
    pub fn is_in_use(&self, name_or_id: &str) -> bool
        ensures { result ≡ is_some (number_in name_or_id.now self.now) }
    {
        self.number_of(name_or_id).is_some()
    }

    /// The dataset at the number. The call counts as one step.
    pub fn look<L: Ledger>(&self, number: u32, steps: &mut Steps<L>) -> &Package
        requires { IsSome (package_at number self.now) }
        ensures dataset { package_at number self.now ≡ Some result.now }
        ensures step { steps.new ≡ steps.old + 1 }
    {
        steps.tick();
        self.package_at(number).unwrap()
    }

    /// The dataset at the number, if there is one. The call counts no step.
    pub fn package_at(&self, number: u32) -> Option<&Package>
        ensures { option_copied result ≡ package_at number self.now }
    {
        self.datasets.get(number as usize)
    }

    /// The count of datasets.
    pub fn len(&self) -> usize
        ensures { result ≡ length self.now.entries }
    {
        self.datasets.len()
    }

    /// The count of datasets that pass the test.
    pub fn count_of<T: Test>(&self, test: &T) -> usize
        ensures { result ≡ length (filter (T.test test.now) (datasets_of self.now)) }
    {
        walk::count_of(&self.datasets, test)
    }

    /// The counts of datasets that pass the test, by the organizations that own them. It walks the datasets once.
    pub fn counts_by_owner<T: Test>(
        &self,
        alloc: Global,
        test: &T,
    ) -> Result<BTreeMap<Text, usize>, AllocError>
        ensures { IfOk result (λ counts. (owner : List ℕ) → count_at owner counts
            ≡ length (filter (λ d. bytes_eq d.owner_org owner && T.test test.now d) (datasets_of self.now))) }
    {
        walk::counts_by_owner(alloc, &self.datasets, test)
    }

    /// Whether any dataset passes the test.
    #[tactic(auto, using(crate::proofs::DatasetLemmas::any_of_listed))]
    pub fn has<T: Test>(&self, test: &T) -> bool
        ensures { result ≡ list_any (T.test test.now) (datasets_of self.now) }
    {
        walk::has(&self.datasets, test)
    }

    /// The numbers of all datasets, ascending.
    pub fn numbers(&self, alloc: Global) -> Result<Vec<u32>, AllocError>
        ensures { IfOk result (λ numbers. numbers.items ≡ map (λ e. e.0) self.now.entries) }
    {
        walk::numbers_of(alloc, &self.datasets)
    }

    /// The names of the datasets that pass the test, in ascending order.
    pub fn names_of<T: Test>(&self, alloc: Global, test: &T) -> Result<Vec<Text>, AllocError>
        ensures { IfOk result (λ names. names.items
            ≡ text_set (map (λ d. d.name) (filter (T.test test.now) (datasets_of self.now)))) }
    {
        walk::names_of(alloc, &self.datasets, test)
    }
}

/// The number that the next dataset gets.
fn free_number(datasets: &Slab<Package>) -> Result<u32, AllocError>
    ensures number { IfOk result (λ number. datasets.now.vacant_key ≡ number) }
    ensures free { IfOk result (λ number. get datasets.now number ≡ None) }
    ensures below { IfOk result (λ number. number < 2 ^ 32) }
    ensures ok { datasets.now.vacant_key < 2 ^ 32 → IsOk result }
{
    u32::try_from(datasets.vacant_key()).map_err(|_| AllocError)
}

/// The number of the dataset with this id or name.
fn find_number(datasets: &Slab<Package>, index: &DigestIndex<u32>, key: &str) -> Option<u32>
    ensures named { IfSome result (λ n. IsTrue (is_named_at n key.now datasets.now)) }
    ensures none { IfNone result ((n : ℕ) → IsUnder index.now (digest_of key.now) n →
        is_named_at n key.now datasets.now ≡ false) }
{
    let digest = digest_of(key);
    match find_first(datasets, index.first(digest), key) {
        Some(number) => Some(number),
        None => find_further(datasets, index.further(digest), key),
    }
}

/// The number, if the dataset there has that id or name.
fn find_first(datasets: &Slab<Package>, number: Option<u32>, key: &str) -> Option<u32>
    ensures named { IfSome result (λ n. IsTrue (is_named_at n key.now datasets.now)) }
    ensures none { IfNone result ((n : ℕ) → number ≡ Some n → is_named_at n key.now datasets.now ≡ false) }
{
    match number {
        Some(number) if is_named_at(datasets, number, key) => Some(number),
        _ => None,
    }
}

/// The first of the further numbers whose dataset has that id or name.
fn find_further(datasets: &Slab<Package>, further: &[Further<u32>], key: &str) -> Option<u32>
    ensures { result ≡ find (λ n. is_named_at n key.now datasets.now) (map (λ e. e.number) further.now) }
{
    further
        .iter()
        .map(|entry| entry.number)
        .find(|number| is_named_at(datasets, *number, key))
}

/// Whether a dataset with that id or name is at the number.
fn is_named_at(datasets: &Slab<Package>, number: u32, key: &str) -> bool
    ensures { result ≡ is_named_at number key.now datasets.now }
{
    match datasets.get(number as usize) {
        Some(dataset) => is_named(dataset, key),
        None => false,
    }
}
