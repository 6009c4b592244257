//! Walks over all datasets, in an order that callers can't rely on.
ghost use Rattle.std.specs.Prelude.{◌≡◌, ◌∷◌, ◌++◌, ◌+◌, ◌<◌, ◌^◌, ◌&&◌, [], ℕ, List, IfOk, OnOk, IsTrue};
ghost use Rattle.std.specs.Prelude.{filter, if◌then◌else◌, length, map};
ghost use Rattle.std.specs.List.{All, list_any};
ghost use Rattle.std.specs.Str.{bytes_eq};
ghost use Rattle.slab.specs.Slab.{entries};
ghost use Rattle.packages.specs.Owners.{count_at};
ghost use Rattle.packages.specs.Tags.{text_set};

use crate::owners::count_one;
use crate::package::Package;
use crate::tags::sort_and_dedup;
use portal_base::copy::TryClone;
use portal_base::text::Text;
use slab::Slab;
use std::alloc::{AllocError, Global};
use std::collections::BTreeMap;

/// A test of datasets.
pub trait Test {
    ghost use Rattle.std.specs.Prelude.{Bool};
    ghost use Rattle.packages.specs.declared.package.Package.{Package};

    /// Whether the dataset passes.
    ghost test: { Self → Package → Bool };

    fn passes(&self, dataset: &Package) -> bool
        ensures { result ≡ test self.now dataset.now };
}

/// The count of datasets that pass: all, less those that fail.
pub(crate) fn count_of<T: Test>(datasets: &Slab<Package>, test: &T) -> usize
    ensures { result ≡ length (filter (λ e. T.test test.now e.1) (entries datasets.now)) }
{
    let mut count = datasets.len();
    for entry in datasets.iter() {
        if !test.passes(entry.1) {
            count -= 1;
        }
    }
    count
}

/// The counts of datasets that pass, by owner. The count of all datasets bounds each of them.
pub(crate) fn counts_by_owner<T: Test>(
    alloc: Global,
    datasets: &Slab<Package>,
    test: &T,
) -> Result<BTreeMap<Text, usize>, AllocError>
    ensures { IfOk result (λ counts. (owner : List ℕ) → count_at owner counts
        ≡ length (filter (λ e. bytes_eq e.1.owner_org owner && T.test test.now e.1) (entries datasets.now))) }
{
    let _all = datasets.len();
    let mut counts = BTreeMap::new(alloc);
    for entry in datasets.iter() {
        count_dataset(alloc, &mut counts, entry.1, test)?;
    }
    Ok(counts)
}

/// Counts the dataset for its owner, if it passes.
fn count_dataset<T: Test>(
    alloc: Global,
    counts: &mut BTreeMap<Text, usize>,
    dataset: &Package,
    test: &T,
) -> Result<(), AllocError>
    requires { IsTrue (T.test test.now dataset.now) → count_at dataset.now.owner_org counts.old + 1 < 2 ^ 64 }
    ensures { OnOk result ((owner : List ℕ) → count_at owner counts.new
        ≡ (if bytes_eq dataset.now.owner_org owner && T.test test.now dataset.now then 1 else 0)
        + count_at owner counts.old) }
{
    if test.passes(dataset) {
        count_one(alloc, counts, &dataset.owner_org)?;
    }
    Ok(())
}

/// Whether any dataset passes.
pub(crate) fn has<T: Test>(datasets: &Slab<Package>, test: &T) -> bool
    ensures { result ≡ list_any (λ e. T.test test.now e.1) (entries datasets.now) }
{
    for entry in datasets.iter() {
        if test.passes(entry.1) {
            return true;
        }
    }
    false
}

/// The numbers of all datasets, ascending.
pub(crate) fn numbers_of(alloc: Global, datasets: &Slab<Package>) -> Result<Vec<u32>, AllocError>
    requires { All (λ e. e.0 < 2 ^ 32) (entries datasets.now) }
    ensures { IfOk result (λ numbers. numbers.items ≡ map (λ e. e.0) (entries datasets.now)) }
{
    let mut numbers = Vec::with_capacity(alloc, datasets.len())?;
    for entry in datasets.iter() {
        numbers.push(entry.0 as u32)?;
    }
    Ok(numbers)
}

/// The names of the datasets that pass, in ascending order.
pub(crate) fn names_of<T: Test>(
    alloc: Global,
    datasets: &Slab<Package>,
    test: &T,
) -> Result<Vec<Text>, AllocError>
    ensures { IfOk result (λ names. names.items
        ≡ text_set (map (λ e. e.1.name) (filter (λ e. T.test test.now e.1) (entries datasets.now)))) }
{
    let mut names = names_by_number(alloc, datasets, test)?;
    sort_and_dedup(&mut names);
    Ok(names)
}

/// The names of the datasets that pass, ordered by the datasets' numbers.
fn names_by_number<T: Test>(
    alloc: Global,
    datasets: &Slab<Package>,
    test: &T,
) -> Result<Vec<Text>, AllocError>
    ensures { IfOk result (λ names. names.items
        ≡ map (λ e. e.1.name) (filter (λ e. T.test test.now e.1) (entries datasets.now))) }
{
    let mut names = Vec::new(alloc);
    for entry in datasets.iter() {
        push_name_of(alloc, &mut names, entry.1, test)?;
    }
    Ok(names)
}

/// Adds the dataset's name, if the dataset passes.
fn push_name_of<T: Test>(
    alloc: Global,
    names: &mut Vec<Text>,
    dataset: &Package,
    test: &T,
) -> Result<(), AllocError>
    ensures { OnOk result (names.new.items
        ≡ names.old.items ++ (if T.test test.now dataset.now then dataset.now.name ∷ [] else [])) }
{
    if test.passes(dataset) {
        names.push(dataset.name.try_clone(alloc)?)?;
    }
    Ok(())
}
