//! The listing of what a catalogue lists.
ghost use Rattle.std.specs.Prelude.{◌≡◌, ◌||◌, ℕ, List, map, IfOk, OnOk};
ghost use Rattle.std.specs.BTreeSet.{contains};
ghost use Rattle.std.specs.Cmp.Lexicographic.{slice_cmp};
ghost use Rattle.std.specs.Ordering.{nat_cmp};
ghost use Rattle.std.specs.Str.{bytes_eq};
ghost use Rattle.portal_base.specs.Ordered.{IsAscending};
ghost use Rattle.harvest_records.specs.Names.{harvested_name};
ghost use Rattle.harvest_sources.specs.Listings.{first_items, first_progress, item_cmp, listing_of, object_of};

use crate::cause::Cause;
use crate::listing::{ListedObject, Listing, Outcome, Progress};
use crate::step::{Found, Item};
use harvest_records::name_of;
use portal_base::seq::Seq;
use portal_base::text::Text;
use std::alloc::{AllocError, Global};
use std::collections::BTreeSet;

/// The listing of the source's catalogue with these items and so many objects that have no IRI. Of the items
/// with one IRI the first counts. An object whose dataset has the name of one with a lesser IRI is done at once,
/// as bad.
pub fn listing_of(
    alloc: Global,
    source: &Text,
    items: Seq<Item>,
    unnamed: u64,
) -> Result<Listing, AllocError>
    ensures { IfOk result (λ listing. listing ≡ listing_of source.now items unnamed) }
{
    let first = first_items(items)?;
    let objects = objects_of(alloc, source, first)?;
    Ok(Listing { objects, unnamed })
}

/// The items ascending by IRI, each IRI once, with its first item.
fn first_items(items: Seq<Item>) -> Result<Vec<Item>, AllocError>
    ensures { IfOk result (λ first. first.items ≡ first_items items) }
{
    let mut items = items.into_vec();
    items.sort_by(|item, other| item.iri.cmp(&other.iri))?;
    items.dedup_by(|item, kept| item.iri == kept.iri);
    Ok(items)
}

/// The objects of items that ascend by IRI.
fn objects_of(
    alloc: Global,
    source: &Text,
    items: Vec<Item>,
) -> Result<Seq<ListedObject>, AllocError>
    requires { IsAscending item_cmp items.items }
    ensures { IfOk result (λ objects. objects ≡ map (object_of source.now items.items) items.items) }
{
    let mut objects = Vec::with_capacity(alloc, items.len())?;
    let mut names = BTreeSet::new(alloc);
    for item in items {
        let is_repeated = add_name(alloc, &mut names, source, &item.iri)?;
        objects.push(object_of(item, is_repeated))?;
    }
    Ok(Seq::from(objects))
}

/// Adds the name of the IRI's dataset to those of lesser IRIs. Returns whether one of these is the same.
fn add_name(
    alloc: Global,
    names: &mut BTreeSet<Text>,
    source: &Text,
    iri: &Text,
) -> Result<bool, AllocError>
    ensures repeated { IfOk result (λ repeated. repeated
        ≡ contains (slice_cmp nat_cmp) names.old (harvested_name source.now iri.now)) }
    ensures names { OnOk result ((name : List ℕ) → contains (slice_cmp nat_cmp) names.new name
        ≡ (contains (slice_cmp nat_cmp) names.old name || bytes_eq (harvested_name source.now iri.now) name)) }
{
    let name = name_of(alloc, source, iri)?;
    let is_new = names.insert(name)?;
    Ok(!is_new)
}

/// The object of an item, which waits unless the name of its dataset is repeated.
fn object_of(item: Item, is_repeated: bool) -> ListedObject
    ensures { result ≡ record { iri = item.iri; progress = first_progress is_repeated item.found } }
{
    let Item { iri, found } = item;
    ListedObject {
        iri,
        progress: first_progress(found, is_repeated),
    }
}

/// A dataset with a repeated name is done at once. Any other waits.
fn first_progress(found: Found, is_repeated: bool) -> Progress
    ensures { result ≡ first_progress is_repeated found }
{
    if is_repeated {
        Progress::Done(Outcome::Bad(Cause::SameName))
    } else {
        Progress::Waiting(found)
    }
}
