//! Counts by the names of the organizations that own datasets.
ghost use Rattle.std.specs.Prelude.{◌≡◌, ◌+◌, ◌<◌, ◌^◌, ℕ, List, OnOk, if◌then◌else◌};
ghost use Rattle.std.specs.Str.{bytes_eq};
ghost use Rattle.packages.specs.Owners.{count_at};

use portal_base::copy::TryClone;
use portal_base::text::Text;
use std::alloc::{AllocError, Global};
use std::collections::BTreeMap;

/// The owner's count, which is 0 for one that isn't among the counts.
pub fn count_at(counts: &BTreeMap<Text, usize>, owner: &Text) -> usize
    ensures { result ≡ count_at owner.now counts.now }
{
    counts.get(owner).copied().unwrap_or(0)
}

/// Counts one more for the owner.
pub(crate) fn count_one(
    alloc: Global,
    counts: &mut BTreeMap<Text, usize>,
    owner: &Text,
) -> Result<(), AllocError>
    requires { count_at owner.now counts.old + 1 < 2 ^ 64 }
    ensures { OnOk result ((other : List ℕ) → count_at other counts.new
        ≡ (if bytes_eq owner.now other then 1 else 0) + count_at other counts.old) }
{
    let count = count_at(counts, owner) + 1;
    if let Some(there) = counts.get_mut(owner) {
        *there = count;
        return Ok(());
    }
    counts.insert(owner.try_clone(alloc)?, count)?;
    Ok(())
}
