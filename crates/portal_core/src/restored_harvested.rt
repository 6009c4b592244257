//! Whether a dataset that is read back from a store may exist, among people and sources of harvests.
ghost use Rattle.std.specs.Prelude.{◌≡◌, ◌↔◌, IfOk, IsTrue, true};
ghost use Rattle.std.specs.Cmp.Lexicographic.{slice_cmp};
ghost use Rattle.std.specs.Ordering.{nat_cmp};
ghost use Rattle.harvest_results.specs.Results.{IsOwn};
ghost use Rattle.harvest_sources.specs.Sources.{AreSources};
ghost use Rattle.harvest_stages.specs.Stages.{sources_in};
ghost use Rattle.portal_base.specs.Ordered.{IsAscending};
ghost use Rattle.visibility.specs.Visibility.{is_public};
ghost use Rattle.portal_core.specs.Restored.{IsHarvestOf};
ghost use Rattle.portal_state.specs.Valid.{IsHarvestedFrom, IsSoundAmong};

use dataset_answers::sound::{are_numbered, ascends, is_sound};
use harvest_records::name_of;
use harvest_sources::HarvestSource;
use harvest_stages::Stages;
use org_roles::people::People;
use packages::package::Package;
use std::alloc::{AllocError, Global};
use visibility::permissions::{is_harvested, is_public};

/// Whether the dataset may exist among these people and these sources. It takes memory for the name of a harvested dataset
/// and for the numbers of the resources, and frees it.
pub(crate) fn is_sound_among(
    alloc: Global,
    people: &People,
    sources: &Stages,
    dataset: &Package,
) -> Result<bool, AllocError>
    requires { AreSources (sources_in sources.now) }
    ensures { IfOk result (λ sound.
        IsTrue sound ↔ IsSoundAmong people.now.people (sources_in sources.now) dataset.now) }
{
    if is_harvested(dataset) {
        is_harvested_from(alloc, sources, dataset)
    } else {
        is_sound(alloc, people, dataset)
    }
}

/// Whether it may be a harvested dataset of one of the sources. Its source is found by a binary search.
fn is_harvested_from(alloc: Global, sources: &Stages, dataset: &Package) -> Result<bool, AllocError>
    requires { AreSources (sources_in sources.now) }
    ensures { IfOk result (λ harvested. IsTrue harvested ↔ IsHarvestedFrom (sources_in sources.now) dataset.now) }
{
    match sources.source(&dataset.source) {
        Some(jobs) => is_harvest_of(alloc, jobs.source(), dataset),
        None => Ok(false),
    }
}

/// Whether it may be a harvested dataset of this source.
fn is_harvest_of(
    alloc: Global,
    source: &HarvestSource,
    dataset: &Package,
) -> Result<bool, AllocError>
    ensures { IfOk result (λ harvested. IsTrue harvested ↔ IsHarvestOf source.now dataset.now) }
{
    if !has_public_tags(dataset) {
        return Ok(false);
    }
    if has_own_texts(alloc, source, dataset)? {
        are_numbered(alloc, dataset)
    } else {
        Ok(false)
    }
}

/// Whether the dataset is public, and its tags strictly ascend.
fn has_public_tags(dataset: &Package) -> bool
    ensures { IsTrue result
        ↔ ((is_public dataset.now ≡ true) × IsAscending (slice_cmp nat_cmp) dataset.now.tags) }
{
    is_public(dataset) && ascends(dataset.tags.as_slice())
}

/// Whether the dataset is in the source's organization, and its name and its id are what the source and its IRI give.
fn has_own_texts(
    alloc: Global,
    source: &HarvestSource,
    dataset: &Package,
) -> Result<bool, AllocError>
    ensures { IfOk result (λ own. IsTrue own ↔ IsOwn source.now dataset.now) }
{
    let name = name_of(alloc, &source.name, &dataset.iri)?;
    Ok(
        dataset.source == source.name
            && dataset.owner_org == source.owner_org
            && dataset.name == name
            && dataset.id == dataset.name,
    )
}
