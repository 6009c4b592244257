//! The names of datasets and the addresses of resources.
ghost use Rattle.std.specs.Prelude.{◌≡◌, ◌<◌, IfNone, IfOk, IfSome, IsTrue, false, length, option_map};
ghost use Rattle.std.specs.Option.{option_copied};
ghost use Rattle.std.specs.Str.{bytes_eq};
ghost use Rattle.packages.specs.Named.{is_named, resource_address, is_addressed, position_of, has_address, resource_in};
ghost use Rattle.packages.specs.Named.{dataset_part};
ghost use Rattle.packages.specs.LocatedResource.{located_now};
ghost use Rattle.packages.specs.declared.package.Package.{Package};

use crate::package::{Package, Resource};
use itoa::Buffer;
use portal_base::text::Text;
use std::alloc::{AllocError, Global};

/// Whether the dataset has this id or this name.
pub fn is_named(dataset: &Package, key: &str) -> bool
    ensures { result ≡ is_named key.now dataset.now }
{
    dataset.id.as_str() == key || dataset.name.as_str() == key
}

/// The address of a resource: an id or a name of its dataset, a dot and the resource's number.
pub fn resource_address(alloc: Global, dataset: &Text, number: u32) -> Result<Text, AllocError>
    ensures { IfOk result (λ address. address ≡ resource_address dataset.now number) }
{
    let dataset = dataset.as_str();
    let address = format!(in alloc; "{dataset}.{number}")?;
    Ok(Text::from(address))
}

/// The id or the name of the dataset in a resource's address: the part before the last dot.
pub fn dataset_part(address: &str) -> Option<&str>
    ensures part { option_copied result ≡ dataset_part address.now }
    ensures named { IfSome result (λ key. (dataset : Package) → IsTrue (has_address address.now dataset) →
        IsTrue (is_named key.now dataset)) }
    ensures none { IfNone result ((dataset : Package) → has_address address.now dataset ≡ false) }
{
    match address.rsplit_once('.') {
        Some((key, _)) => Some(key),
        None => None,
    }
}

/// A resource, with its dataset and its position in the dataset's list of resources, from 0.
#[derive(Drop)]
pub struct LocatedResource<'a> {
    pub dataset: &'a Package,
    pub position: usize,
    pub resource: &'a Resource,
}

/// The dataset's first resource with that address. It takes no memory.
pub fn resource_in<'a>(address: &str, dataset: &'a Package) -> Option<LocatedResource<'a>>
    ensures located { option_map located_now result ≡ resource_in address.now dataset.now }
    ensures within { IfSome result (λ located. located.position < length located.dataset.now.resources) }
{
    match position_of(address, dataset) {
        Some(position) => Some(LocatedResource {
            dataset,
            position,
            resource: dataset.resources.at(position),
        }),
        None => None,
    }
}

/// The position of the dataset's first resource with that address, from 0.
fn position_of(address: &str, dataset: &Package) -> Option<usize>
    ensures position { result ≡ position_of address.now dataset.now }
    ensures within { IfSome result (λ position. position < length dataset.now.resources) }
{
    dataset
        .resources
        .as_slice()
        .iter()
        .position(|resource| is_addressed(address, dataset, resource))
}

/// Whether the address is that of the dataset's resource, by the dataset's id or by its name.
fn is_addressed(address: &str, dataset: &Package, resource: &Resource) -> bool
    ensures { result ≡ is_addressed address.now dataset.now resource.now }
{
    is_address(address, &dataset.id, resource.number)
        || is_address(address, &dataset.name, resource.number)
}

/// Whether the address is that of the resource with this number, where `dataset` is the dataset's id or name. It takes no
/// memory.
pub(crate) fn is_address(address: &str, dataset: &Text, number: u32) -> bool
    ensures { result ≡ bytes_eq (resource_address dataset.now number) address.now }
{
    let mut buffer = Buffer::new();
    let digits = buffer.format(number);
    match address.as_bytes().strip_prefix(dataset.as_bytes()) {
        Some(rest) => match rest.strip_prefix(b".") {
            Some(suffix) => digits.as_bytes() == suffix,
            None => false,
        },
        None => false,
    }
}
