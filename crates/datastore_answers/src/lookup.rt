//! The address and the id of a resource that a call names.
ghost use Rattle.std.specs.Prelude.{◌≡◌, IfOk};
ghost use Rattle.packages.specs.LocatedResource.{located_now};
ghost use Rattle.datastore_answers.specs.TableAnswers.{address_of};
ghost use Rattle.datastore_answers.specs.Answers.{id_of};

use crate::address::Address;
use packages::named::{LocatedResource, resource_address};
use portal_base::copy::TryClone;
use portal_base::text::Text;
use std::alloc::{AllocError, Global};

/// The resource's address.
pub(crate) fn address_of(alloc: Global, placed: &LocatedResource<'_>) -> Result<Address, AllocError>
    ensures { IfOk result (λ address. address ≡ address_of (located_now placed.now)) }
{
    let dataset = placed.dataset.id.try_clone(alloc)?;
    Ok(Address {
        dataset,
        number: placed.resource.number,
    })
}

/// The resource's id.
pub fn id_of(alloc: Global, placed: &LocatedResource<'_>) -> Result<Text, AllocError>
    ensures { IfOk result (λ id. id ≡ id_of (located_now placed.now)) }
{
    resource_address(alloc, &placed.dataset.id, placed.resource.number)
}
