//! The addresses of resources, which are read back from their ids.
ghost use Rattle.std.specs.Prelude.{◌≡◌, ℕ, IfNone, IfOk, IfSome, Some, false, true};
ghost use Rattle.std.specs.List.{Contains};
ghost use Rattle.datastore_answers.specs.declared.address.Address.{Address};
ghost use Rattle.packages.specs.Named.{dataset_part, resource_address};
ghost use Rattle.packages.specs.Shelf.{datasets_of};
ghost use Rattle.packages.specs.declared.package.Package.{Package};
ghost use Rattle.visibility.specs.TableSummary.{is_among};
ghost use Rattle.visibility.specs.Visibility.{is_harvested};
ghost use Rattle.portal_core.specs.Restored.{IsAddressOf};

use datastore_answers::address::Address;
use packages::named::{dataset_part, resource_in};
use packages::package::Package;
use packages::shelf::Shelf;
use portal_base::copy::TryClone;
use portal_base::text::Text;
use std::alloc::{AllocError, Global};
use visibility::permissions::is_harvested;

/// The address of the resource with this id, if a dataset of the shelf has that resource and wasn't harvested.
pub(crate) fn address_of(
    alloc: Global,
    shelf: &Shelf,
    id: &Text,
) -> Result<Option<Address>, AllocError>
    ensures address { IfOk result (λ found. IfSome found (IsAddressOf (datasets_of shelf.now) id.now)) }
    ensures none { IfOk result (λ found. IfNone found
        ((address : Address) → IsAddressOf (datasets_of shelf.now) id.now address → ⊥)) }
{
    let Some(dataset) = made_home_of(shelf, id.as_str()) else {
        return Ok(None);
    };
    let Some(number) = number_of(dataset, id.as_str()) else {
        return Ok(None);
    };
    let dataset = dataset.id.try_clone(alloc)?;
    Ok(Some(Address { dataset, number }))
}

/// The dataset whose own id begins the id of a resource, unless it was harvested.
fn made_home_of<'a>(shelf: &'a Shelf, id: &str) -> Option<&'a Package>
    ensures home { IfSome result (λ dataset. Contains (datasets_of shelf.now) dataset.now
        × (dataset_part id.now ≡ Some dataset.now.id)) }
    ensures made { IfSome result (λ dataset. is_harvested dataset.now ≡ false) }
    ensures only { IfSome result (λ dataset. (d : Package) → Contains (datasets_of shelf.now) d →
        dataset_part id.now ≡ Some d.id → d ≡ dataset.now) }
    ensures none { IfNone result ((d : Package) → Contains (datasets_of shelf.now) d →
        dataset_part id.now ≡ Some d.id → is_harvested d ≡ false → ⊥) }
{
    let dataset = home_of(shelf, id)?;
    if is_harvested(dataset) {
        None
    } else {
        Some(dataset)
    }
}

/// The dataset whose own id begins the id of a resource. It is found by the shelf's index.
fn home_of<'a>(shelf: &'a Shelf, id: &str) -> Option<&'a Package>
    ensures home { IfSome result (λ dataset. Contains (datasets_of shelf.now) dataset.now
        × (dataset_part id.now ≡ Some dataset.now.id)) }
    ensures only { IfSome result (λ dataset. (d : Package) → Contains (datasets_of shelf.now) d →
        dataset_part id.now ≡ Some d.id → d ≡ dataset.now) }
    ensures none { IfNone result ((d : Package) → Contains (datasets_of shelf.now) d →
        dataset_part id.now ≡ Some d.id → ⊥) }
{
    let part = dataset_part(id)?;
    let number = shelf.number_of(part)?;
    let dataset = shelf.package_at(number)?;
    if dataset.id.as_str() == part {
        Some(dataset)
    } else {
        None
    }
}

/// The number of the dataset's resource with this id, which begins with the dataset's own id.
fn number_of(dataset: &Package, id: &str) -> Option<u32>
    requires { dataset_part id.now ≡ Some dataset.now.id }
    ensures number { IfSome result (λ number. (resource_address dataset.now.id number ≡ id.now)
        × (is_among dataset.now.resources number ≡ true)) }
    ensures none { IfNone result ((number : ℕ) → resource_address dataset.now.id number ≡ id.now →
        is_among dataset.now.resources number ≡ true → ⊥) }
{
    match resource_in(id, dataset) {
        Some(located) => Some(located.resource.number),
        None => None,
    }
}
