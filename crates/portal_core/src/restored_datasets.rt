//! Datasets that are read back from values of a store, on a shelf.
ghost use Rattle.std.specs.Prelude.{◌≡◌, All, IfNone, IfOk, IfSome, IsTrue};
ghost use Rattle.harvest_sources.specs.Sources.{AreSources};
ghost use Rattle.harvest_stages.specs.Stages.{sources_in};
ghost use Rattle.packages.specs.Order.{dataset_cmp};
ghost use Rattle.packages.specs.Shelf.{IsValidShelf, datasets_of};
ghost use Rattle.portal_base.specs.Ordered.{IsAscending};
ghost use Rattle.portal_state.specs.Indexes.{IsIndexed};
ghost use Rattle.portal_core.specs.Restored.{AreShelvable};
ghost use Rattle.portal_state.specs.Valid.{IsSoundAmong};

use crate::restored_harvested::is_sound_among;
use harvest_stages::Stages;
use org_roles::people::People;
use packages::package::Package;
use packages::shelf::Shelf;
use portal_base::seq::Seq;
use portal_state::indexes::Indexes;
use std::alloc::{AllocError, Global};

/// The shelf with these datasets, and its indexes. The result is `None` exactly if one of them may not exist among these
/// people and these sources, or two have one name.
pub(crate) fn indexed_shelf_of_values(
    alloc: Global,
    people: &People,
    sources: &Stages,
    datasets: Seq<Package>,
) -> Result<Option<(Shelf, Indexes)>, AllocError>
    requires ascend { IsAscending dataset_cmp datasets }
    requires sources { AreSources (sources_in sources.now) }
    ensures shelvable { IfOk result (λ found. IfSome found (λ shelf.
        AreShelvable people.now.people (sources_in sources.now) datasets)) }
    ensures datasets { IfOk result (λ found. IfSome found (λ shelf. datasets_of shelf.0 ≡ datasets)) }
    ensures indexed { IfOk result (λ found. IfSome found (λ shelf. IsIndexed shelf.0 shelf.1)) }
    ensures none { IfOk result (λ found. IfNone found
        (AreShelvable people.now.people (sources_in sources.now) datasets → ⊥)) }
{
    match shelf_of_values(alloc, people, sources, datasets)? {
        Some(shelf) => {
            let indexes = Indexes::of(alloc, &shelf)?;
            Ok(Some((shelf, indexes)))
        }
        None => Ok(None),
    }
}

/// The shelf with these datasets. The result is `None` exactly if one of them may not exist among these people and these
/// sources, or two have one name.
fn shelf_of_values(
    alloc: Global,
    people: &People,
    sources: &Stages,
    datasets: Seq<Package>,
) -> Result<Option<Shelf>, AllocError>
    requires ascend { IsAscending dataset_cmp datasets }
    requires sources { AreSources (sources_in sources.now) }
    ensures shelvable { IfOk result (λ found. IfSome found (λ shelf.
        AreShelvable people.now.people (sources_in sources.now) datasets)) }
    ensures datasets { IfOk result (λ found. IfSome found (λ shelf. datasets_of shelf ≡ datasets)) }
    ensures valid { IfOk result (λ found. IfSome found IsValidShelf) }
    ensures none { IfOk result (λ found. IfNone found
        (AreShelvable people.now.people (sources_in sources.now) datasets → ⊥)) }
{
    if are_sound(alloc, people, sources, datasets.as_slice())? {
        Shelf::restore(alloc, datasets)
    } else {
        Ok(None)
    }
}

/// Whether each dataset may exist among these people and these sources.
fn are_sound(
    alloc: Global,
    people: &People,
    sources: &Stages,
    datasets: &[Package],
) -> Result<bool, AllocError>
    requires { AreSources (sources_in sources.now) }
    ensures sound { IfOk result (λ sound. IsTrue sound →
        All (IsSoundAmong people.now.people (sources_in sources.now)) datasets.now) }
    ensures unsound { IfOk result (λ sound. ¬ IsTrue sound →
        All (IsSoundAmong people.now.people (sources_in sources.now)) datasets.now → ⊥) }
{
    for dataset in datasets {
        if !is_sound_among(alloc, people, sources, dataset)? {
            return Ok(false);
        }
    }
    Ok(true)
}
