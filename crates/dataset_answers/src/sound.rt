//! Whether a dataset that was stored may exist.
ghost use Rattle.std.specs.Prelude.{◌≡◌, ◌≢◌, ◌↔◌, ◌<◌, ◌≤◌, IfOk, IsTrue, false, map, true};
ghost use Rattle.std.specs.List.{All, AllPairs};
ghost use Rattle.std.specs.Ordering.{nat_cmp};
ghost use Rattle.std.specs.Cmp.Lexicographic.{slice_cmp};
ghost use Rattle.portal_base.specs.Id.{id_text};
ghost use Rattle.portal_base.specs.Name.{is_name};
ghost use Rattle.portal_base.specs.Ordered.{IsAscending};
ghost use Rattle.packages.specs.Numbered.{AreNumbered};
ghost use Rattle.packages.specs.Texts.{longest_name};
ghost use Rattle.visibility.specs.Visibility.{is_harvested};
ghost use Rattle.dataset_answers.specs.Sound.{IsId, IsSound, OrgExists};

use org_roles::people::People;
use packages::package::{LONGEST_NAME, Package, Resource};
use portal_base::name::name_fault;
use std::alloc::{AllocError, Global};
use uuid::Uuid;
use visibility::permissions::is_harvested;

/// Whether the dataset may exist among these people. It takes memory for the numbers of the resources, and frees it.
pub fn is_sound(alloc: Global, people: &People, dataset: &Package) -> Result<bool, AllocError>
    ensures { IfOk result (λ sound. IsTrue sound ↔ IsSound people.now.people dataset.now) }
{
    if has_sound_texts(people, dataset) {
        are_numbered(alloc, dataset)
    } else {
        Ok(false)
    }
}

// ---- texts

/// Whether the dataset wasn't harvested, its id and its name have the right form, its organization exists, and its tags
/// strictly ascend.
fn has_sound_texts(people: &People, dataset: &Package) -> bool
    ensures { IsTrue result ↔ ((is_harvested dataset.now ≡ false) × IsId dataset.now.id
        × (is_name dataset.now.name longest_name ≡ true) × OrgExists people.now.people dataset.now.owner_org
        × IsAscending (slice_cmp nat_cmp) dataset.now.tags) }
{
    !is_harvested(dataset)
        && is_id(dataset.id.as_str())
        && name_fault(dataset.name.as_str(), LONGEST_NAME).is_none()
        && people.org(&dataset.owner_org).is_some()
        && ascends(dataset.tags.as_slice())
}

/// Whether the text is the id of a number.
fn is_id(text: &str) -> bool
    ensures { IsTrue result ↔ IsId text.now }
{
    match Uuid::try_parse(text) {
        Ok(uuid) => is_id_of(uuid.as_u128(), text),
        Err(_) => false,
    }
}

/// Whether the text is the id of this number.
fn is_id_of(number: u128, text: &str) -> bool
    ensures { IsTrue result ↔ (text.now ≡ id_text number) }
{
    let mut buffer = Uuid::encode_buffer();
    let id = Uuid::from_u128(number).hyphenated();
    id.encode_lower(&mut buffer) == text
}

/// Whether each item is less than the next one, and so than all later ones.
pub fn ascends<T: Ord>(items: &[T]) -> bool
    ensures { IsTrue result ↔ IsAscending T.cmp items.now }
{
    items.is_sorted_by(|item, next| item.cmp(next).is_lt())
}

// ---- numbers

/// Whether the resources' numbers are distinct, at least 1 and below the next number.
pub fn are_numbered(alloc: Global, dataset: &Package) -> Result<bool, AllocError>
    ensures { IfOk result (λ numbered. IsTrue numbered ↔ AreNumbered dataset.now) }
{
    let next = dataset.next_resource;
    let resources = dataset.resources.as_slice();
    if 1 <= next && have_numbers_below(next, resources) {
        have_distinct_numbers(alloc, resources)
    } else {
        Ok(false)
    }
}

/// Whether each resource's number is at least 1 and below the next number.
fn have_numbers_below(next: u32, resources: &[Resource]) -> bool
    ensures { IsTrue result ↔ All (λ r. (1 ≤ r.number) × (r.number < next)) resources.now }
{
    resources
        .iter()
        .all(|resource| 1 <= resource.number && resource.number < next)
}

/// Whether no two resources have the same number.
fn have_distinct_numbers(alloc: Global, resources: &[Resource]) -> Result<bool, AllocError>
    ensures { IfOk result (λ distinct. IsTrue distinct ↔ AllPairs (λ r s. r.number ≢ s.number) resources.now) }
{
    let mut numbers = numbers_of(alloc, resources)?;
    numbers.sort_unstable();
    Ok(ascends(numbers.as_slice()))
}

fn numbers_of(alloc: Global, resources: &[Resource]) -> Result<Vec<u32>, AllocError>
    ensures { IfOk result (λ numbers. numbers.items ≡ map (λ r. r.number) resources.now) }
{
    resources
        .iter()
        .map(|resource| resource.number)
        .collect(alloc)
}
