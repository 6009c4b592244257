//! Whether two datasets are equal.
ghost use Rattle.std.specs.Prelude.{◌≡◌, ◌&&◌, map, nat_eq};
ghost use Rattle.std.specs.Cmp.Lexicographic.{pointwise};
ghost use Rattle.std.specs.Ordering.{int_eq};
ghost use Rattle.std.specs.Str.{bytes_eq};
ghost use Rattle.packages.specs.State.{state_name};
ghost use Rattle.harvest_results.specs.Equality.{dataset_texts, equal_datasets, equal_resources, resource_texts};

use packages::package::{Package, Resource};

/// Whether the datasets have equal values in all fields.
pub fn equal_datasets(one: &Package, other: &Package) -> bool
    ensures { result ≡ equal_datasets one.now other.now }
{
    equal_texts(&dataset_texts(one), &dataset_texts(other))
        && one.private == other.private
        && one.tags.as_slice() == other.tags.as_slice()
        && have_equal_resources(one.resources.as_slice(), other.resources.as_slice())
        && have_equal_numbers(one, other)
}

/// Whether the datasets have the same next number of a resource and the same moments.
fn have_equal_numbers(one: &Package, other: &Package) -> bool
    ensures { result ≡ (nat_eq one.now.next_resource other.now.next_resource
        && (int_eq one.now.created other.now.created && int_eq one.now.modified other.now.modified)) }
{
    one.next_resource == other.next_resource
        && one.created == other.created
        && one.modified == other.modified
}

/// Whether the lists have equal resources in the same order.
fn have_equal_resources(one: &[Resource], other: &[Resource]) -> bool
    ensures { result ≡ pointwise equal_resources one.now other.now }
{
    if one.len() != other.len() {
        return false;
    }
    for index in 0..one.len() {
        if !equal_resources(&one[index], &other[index]) {
            return false;
        }
    }
    true
}

/// Whether the resources have equal values in all fields.
fn equal_resources(one: &Resource, other: &Resource) -> bool
    ensures { result ≡ equal_resources one.now other.now }
{
    one.number == other.number && equal_texts(&resource_texts(one), &resource_texts(other))
}

/// Whether the lists have equal texts in the same order.
fn equal_texts(one: &[&str], other: &[&str]) -> bool
    ensures { result ≡ pointwise bytes_eq (map (λ t. t.now) one.now) (map (λ t. t.now) other.now) }
{
    one == other
}

/// The texts of a resource.
fn resource_texts(resource: &Resource) -> [&str; 5]
    ensures { map (λ t. t.now) result ≡ resource_texts resource.now }
{
    [
        resource.name.as_str(),
        resource.url.as_str(),
        resource.format.as_str(),
        resource.description.as_str(),
        resource.mimetype.as_str(),
    ]
}

/// The texts of a dataset, with the name of its state.
fn dataset_texts(dataset: &Package) -> [&str; 14]
    ensures { map (λ t. t.now) result ≡ dataset_texts dataset.now }
{
    [
        dataset.id.as_str(),
        dataset.name.as_str(),
        dataset.title.as_str(),
        dataset.notes.as_str(),
        dataset.author.as_str(),
        dataset.maintainer.as_str(),
        dataset.license_id.as_str(),
        dataset.url.as_str(),
        dataset.version.as_str(),
        dataset.owner_org.as_str(),
        dataset.creator.as_str(),
        dataset.source.as_str(),
        dataset.iri.as_str(),
        state_name(dataset),
    ]
}

/// The name of the dataset's state.
fn state_name(dataset: &Package) -> &str
    ensures { result.now ≡ state_name dataset.now.state }
{
    dataset.state.name()
}
