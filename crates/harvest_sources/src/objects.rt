//! Changes of a listing, and what its objects come to.
ghost use Rattle.std.specs.Prelude.{◌≡◌, ◌<◌, ◌+◌, IfOk, IfSome, IsTrue, Some, count_by, length, map, position, slice_get};
ghost use Rattle.std.specs.Prelude.{None, OnOk, ◌++◌, option_to_list, slice_set};
ghost use Rattle.std.specs.List.{filter_map, list_all};
ghost use Rattle.portal_base.specs.Ordered.{IsAscending};
ghost use Rattle.std.specs.Ordering.{is_eq};
ghost use Rattle.harvest_sources.specs.Listings.{NoneWaitsBefore, bad_object, came_to, claimed_progress, finished_report};
ghost use Rattle.harvest_sources.specs.Listings.{has_object, is_added, is_done};
ghost use Rattle.harvest_sources.specs.Listings.{is_unchanged, is_updated, is_waiting, object_at, object_cmp};
ghost use Rattle.harvest_sources.specs.Listings.{released_object, with_all_released, with_progress};
ghost use Rattle.harvest_sources.specs.Steps.{is_unsettled};
ghost use Rattle.harvest_sources.specs.declared.listing.Progress.TheVariants.{Done};

use crate::cause::Cause;
use crate::job::{JobState, SourceReport};
use crate::listing::{ListedObject, Listing, Outcome, Progress};
use portal_base::copy::TryClone;
use portal_base::ordered::find_in_order;
use portal_base::seq::Seq;
use portal_base::text::Text;
use std::alloc::{AllocError, Global};
use std::mem;

/// The index of the first waiting object. None waits before `from`.
pub(crate) fn waiting_index(objects: &[ListedObject], from: usize) -> Option<usize>
    requires { NoneWaitsBefore from objects.now }
    ensures index { result ≡ position is_waiting objects.now }
    ensures within { IfSome result (λ index. index < length objects.now) }
{
    for index in from..objects.len() {
        if objects[index].is_waiting() {
            return Some(index);
        }
    }
    None
}

/// The listing, with the object at this index claimed, if it waits.
pub(crate) fn with_claimed(listing: Listing, index: usize) -> Listing
    requires { index < length listing.objects }
    ensures objects { IfSome (slice_get listing.objects index) (λ object. result.objects
        ≡ slice_set listing.objects index (record object { progress = claimed_progress object.progress })) }
    ensures unnamed { result.unnamed ≡ listing.unnamed }
{
    let Listing { objects, unnamed } = listing;
    let mut objects = objects.into_vec();
    let object = &mut objects[index];
    let progress = mem::replace(&mut object.progress, Progress::Done(Outcome::Unchanged));
    object.progress = progress.claimed();
    Listing {
        objects: Seq::from(objects),
        unnamed,
    }
}

/// The listing, with the object at this index done.
pub(crate) fn with_done(listing: Listing, index: usize, outcome: Outcome) -> Listing
    requires { index < length listing.objects }
    ensures objects { IfSome (slice_get listing.objects index) (λ object. result.objects
        ≡ slice_set listing.objects index (record object { progress = Done outcome })) }
    ensures unnamed { result.unnamed ≡ listing.unnamed }
{
    let Listing { objects, unnamed } = listing;
    let mut objects = objects.into_vec();
    objects[index].progress = Progress::Done(outcome);
    Listing {
        objects: Seq::from(objects),
        unnamed,
    }
}

/// The listing, with the object of this IRI done, and the index of the first object that waits then. `waiting` is that
/// index before.
pub(crate) fn settled(
    listing: Listing,
    waiting: Option<usize>,
    iri: &str,
    outcome: Outcome,
) -> (Listing, Option<usize>)
    requires ascending { IsAscending object_cmp listing.objects }
    requires waiting { waiting ≡ position is_waiting listing.objects }
    requires unsettled { IsTrue (is_unsettled iri.now listing) }
    ensures listing { result.0 ≡ with_progress iri.now (Done outcome) listing }
    ensures waiting { result.1 ≡ position is_waiting result.0.objects }
{
    match index_of(listing.objects.as_slice(), iri) {
        Some(index) => {
            let listing = with_done(listing, index, outcome);
            let waiting = waiting_after(waiting, listing.objects.as_slice(), index);
            (listing, waiting)
        }
        None => unreachable!(),
    }
}

/// The index of the first waiting object, after the object at `index` is done. `waiting` is that index before.
fn waiting_after(waiting: Option<usize>, objects: &[ListedObject], index: usize) -> Option<usize>
    requires within { index < length objects.now }
    requires moved { waiting ≡ Some index → NoneWaitsBefore (index + 1) objects.now }
    requires same { (waiting ≡ Some index → ⊥) → waiting ≡ position is_waiting objects.now }
    ensures { result ≡ position is_waiting objects.now }
{
    match waiting {
        Some(first) => {
            if first == index {
                waiting_index(objects, index + 1)
            } else {
                waiting
            }
        }
        None => None,
    }
}

/// The listing whose claimed objects wait again.
pub(crate) fn with_all_released(listing: Listing) -> Listing
    ensures { result ≡ with_all_released listing }
{
    let Listing { objects, unnamed } = listing;
    let mut objects = objects.into_vec();
    release_all(objects.as_mut_slice());
    Listing {
        objects: Seq::from(objects),
        unnamed,
    }
}

/// Makes each claimed object wait again.
fn release_all(objects: &mut [ListedObject])
    ensures { objects.new ≡ map released_object objects.old }
{
    for object in objects.iter_mut() {
        let progress = mem::replace(&mut object.progress, Progress::Done(Outcome::Unchanged));
        object.progress = progress.released();
    }
}

/// The index of the object with this IRI, by a binary search.
pub(crate) fn index_of(objects: &[ListedObject], iri: &str) -> Option<usize>
    requires { IsAscending object_cmp objects.now }
    ensures index { result ≡ position (λ object. is_eq (object_at iri.now object)) objects.now }
    ensures within { IfSome result (λ index. index < length objects.now) }
{
    objects
        .binary_search_by(|object| object.iri.as_str().cmp(iri))
        .ok()
}

/// Whether the listing has an object of this IRI that isn't done, by a binary search.
pub(crate) fn is_unsettled(listing: &Listing, iri: &str) -> bool
    requires { IsAscending object_cmp listing.now.objects }
    ensures { result ≡ is_unsettled iri.now listing.now }
{
    match find_in_order(listing.objects.as_slice(), &iri) {
        Some(object) => !object.is_done(),
        None => false,
    }
}

/// Whether the listing has an object of this IRI, by a binary search.
pub(crate) fn has_object(listing: &Listing, iri: &str) -> bool
    requires { IsAscending object_cmp listing.now.objects }
    ensures { result ≡ has_object iri.now listing.now }
{
    find_in_order(listing.objects.as_slice(), &iri).is_some()
}

/// Whether all objects are done.
pub(crate) fn are_done(objects: &[ListedObject]) -> bool
    ensures { result ≡ list_all is_done objects.now }
{
    objects.iter().all(|object| object.is_done())
}

/// The report on a finished job of the source whose catalogue is so listed, with so many datasets deleted.
pub(crate) fn finished_report(
    alloc: Global,
    source: &Text,
    listing: &Listing,
    deleted: u64,
) -> Result<SourceReport, AllocError>
    ensures { IfOk result (λ report. report ≡ finished_report source.now listing.now deleted) }
{
    let source = source.try_clone(alloc)?;
    let objects = listing.objects.as_slice();
    let bad = bad_objects(alloc, objects)?;
    Ok(SourceReport {
        source,
        state: JobState::Finished,
        added: count_added(objects) as u64,
        updated: count_updated(objects) as u64,
        unchanged: count_unchanged(objects) as u64,
        deleted,
        unnamed: listing.unnamed,
        bad: Seq::from(bad),
    })
}

/// How many objects came to a new dataset.
fn count_added(objects: &[ListedObject]) -> usize
    ensures { result ≡ count_by (came_to is_added) objects.now }
{
    objects.iter().filter(|object| object.is_added()).count()
}

/// How many objects came to a dataset that changed.
fn count_updated(objects: &[ListedObject]) -> usize
    ensures { result ≡ count_by (came_to is_updated) objects.now }
{
    objects.iter().filter(|object| object.is_updated()).count()
}

/// How many objects came to a dataset that is as it was.
fn count_unchanged(objects: &[ListedObject]) -> usize
    ensures { result ≡ count_by (came_to is_unchanged) objects.now }
{
    objects
        .iter()
        .filter(|object| object.is_unchanged())
        .count()
}

/// The IRIs of the objects that gave no dataset, each with its cause.
fn bad_objects(alloc: Global, objects: &[ListedObject]) -> Result<Vec<(Text, Cause)>, AllocError>
    ensures { IfOk result (λ bad. bad.items ≡ filter_map bad_object objects.now) }
{
    let mut bad = Vec::new(alloc);
    for object in objects {
        push_bad(alloc, object, &mut bad)?;
    }
    Ok(bad)
}

/// Adds the object's IRI with its cause, if the object gave no dataset.
fn push_bad(
    alloc: Global,
    object: &ListedObject,
    bad: &mut Vec<(Text, Cause)>,
) -> Result<(), AllocError>
    ensures { OnOk result (bad.new.items ≡ bad.old.items ++ option_to_list (bad_object object.now)) }
{
    if let Some(cause) = object.cause() {
        let iri = object.iri.try_clone(alloc)?;
        bad.push((iri, cause))?;
    }
    Ok(())
}
