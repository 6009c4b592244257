//! The list of resources in a dataset's body: the resources with their numbers, or the error of the list.
ghost use Rattle.std.specs.Prelude.{◌≡◌, ◌∷◌, ◌++◌, [], ℕ, List, Option, IfOk, IfErr, None, Some, OnOk, codes};
ghost use Rattle.std.specs.Prelude.{option_map};
ghost use Rattle.std.specs.List.{list_any};
ghost use Rattle.std.specs.Option.{option_copied};
ghost use Rattle.packages.specs.Resources.{resource_checks, resource_for, prefixed_error, with_position, has_id};
ghost use Rattle.packages.specs.Resources.{number_of_id, resource_id_error, id_error};
ghost use Rattle.packages.specs.Resources.{item_error, items_error, resources_error, resources_key_error, kept_number};
ghost use Rattle.packages.specs.Resources.{number_for, next_after_item, numbered, next_after_items};
ghost use Rattle.packages.specs.Resources.{resources_or, next_or};
ghost use Rattle.packages.specs.Texts.{short_text_error, text_or};
ghost use Rattle.packages.specs.Errors.{first_error};
ghost use Rattle.packages.specs.Reading.{HasError, value_or};
ghost use Rattle.portal_base.specs.KeyErrors.{error_if};

use crate::errors::{ReadFault, add_fault, add_kind_fault};
use crate::named::is_address;
use crate::package::{LONGEST_DESCRIPTION, LONGEST_TEXT, Package, Resource};
use crate::texts::text_given;
use portal_base::copy::TryClone;
use portal_base::json_value::Json;
use portal_base::key_errors::KeyErrors;
use portal_base::kinds::{KindFault, dictionary_in, list_at, short_text_at, text_at};
use portal_base::seq::Seq;
use portal_base::text::Text;
use std::alloc::{AllocError, Global};

/// The most resources of a dataset.
const MAX_RESOURCES: usize = 200;

// ---- messages

/// The message, after its key.
fn with_key(alloc: Global, key: &str, message: &Text) -> Result<Text, AllocError>
    ensures { IfOk result (λ error. error ≡ key.now ++ (codes ": " ++ message.now)) }
{
    let mut text = String::from_str(alloc, key)?;
    text.push_str(": ")?;
    text.push_str(message.as_str())?;
    Ok(Text::from(text))
}

/// The message, after the position of its resource, from 1.
fn with_position(alloc: Global, position: usize, message: &Text) -> Result<Text, AllocError>
    ensures { IfOk result (λ error. error ≡ with_position position message.now) }
{
    let message = message.as_str();
    let text = format!(in alloc; "resource {position}: {message}")?;
    Ok(Text::from(text))
}

/// The fault of a key with this message, after the key.
fn key_fault(alloc: Global, key: &str, message: Text) -> ReadFault
    ensures { HasError (prefixed_error (key.now, Some message)) result }
{
    match with_key(alloc, key, &message) {
        Ok(text) => ReadFault::Rule(text),
        Err(_) => ReadFault::OutOfMemory,
    }
}

/// The fault of an item, after its position from 1.
fn item_fault(alloc: Global, position: usize, fault: ReadFault) -> ReadFault
    ensures { (error : Option (List ℕ)) → HasError error fault →
        HasError (option_map (with_position position) error) result }
{
    let ReadFault::Rule(message) = fault else {
        return ReadFault::OutOfMemory;
    };
    match with_position(alloc, position, &message) {
        Ok(text) => ReadFault::Rule(text),
        Err(_) => ReadFault::OutOfMemory,
    }
}

// ---- the texts of an item

/// The text of an item's key, which may have at most `longest` bytes and is empty by default; or the error of the key,
/// after the key.
fn item_text(
    alloc: Global,
    item: &Json,
    key: &'static str,
    longest: usize,
) -> Result<Text, ReadFault>
    ensures text { IfOk result (λ text. text ≡ text_or [] key.now item.now) }
    ensures faultless { OnOk result (short_text_error longest key.now item.now ≡ None) }
    ensures error { IfErr result (HasError (prefixed_error (key.now, short_text_error longest key.now item.now))) }
{
    match short_text_at(item, key, longest) {
        Ok(Some(text)) => Ok(text.try_clone(alloc)?),
        Ok(None) => Ok(Text::new(alloc)),
        Err(fault) => Err(key_fault(alloc, key, fault.message(alloc)?)),
    }
}

/// The resource of an item, without its number; or the error of the first faulty text.
fn item_resource(alloc: Global, item: &Json) -> Result<Resource, ReadFault>
    ensures resource { IfOk result (λ resource. resource ≡ resource_for 0 item.now) }
    ensures faultless { OnOk result (first_error prefixed_error (resource_checks item.now) ≡ None) }
    ensures error { IfErr result (HasError (first_error prefixed_error (resource_checks item.now))) }
{
    Ok(Resource {
        number: 0,
        name: item_text(alloc, item, "name", LONGEST_TEXT)?,
        url: item_text(alloc, item, "url", LONGEST_TEXT)?,
        format: item_text(alloc, item, "format", LONGEST_TEXT)?,
        mimetype: item_text(alloc, item, "mimetype", LONGEST_TEXT)?,
        description: item_text(alloc, item, "description", LONGEST_DESCRIPTION)?,
    })
}

// ---- ids

/// The number of the dataset's resource with that id. It takes no memory.
fn number_of_id(dataset: &Package, id: &Text) -> Option<u32>
    ensures { result ≡ number_of_id dataset.now id.now }
{
    for resource in dataset.resources.as_slice() {
        if is_address(id.as_str(), &dataset.id, resource.number) {
            return Some(resource.number);
        }
    }
    None
}

/// Whether the item has the id.
fn has_id(id: &Text, item: &Json) -> bool
    ensures { result ≡ has_id id.now item.now }
{
    match text_given(item, "id") {
        Some(given) => given.as_str() == id.as_str(),
        None => false,
    }
}

/// Whether one of the items has the id.
fn is_repeated(id: &Text, items: &[Json]) -> bool
    ensures { result ≡ list_any (has_id id.now) items.now }
{
    items.iter().any(|item| has_id(id, item))
}

/// The number of the old dataset's resource with an id, which no item before may have; or the error of the key `id`.
fn known_number(
    alloc: Global,
    old: &Package,
    before: &[Json],
    id: &Text,
) -> Result<Option<u32>, ReadFault>
    ensures number { IfOk result (λ number. number ≡ number_of_id old.now id.now) }
    ensures faultless { OnOk result (resource_id_error old.now before.now id.now ≡ None) }
    ensures error { IfErr result
        (HasError (prefixed_error (codes "id", resource_id_error old.now before.now id.now))) }
{
    let number = number_of_id(old, id);
    if number.is_none() {
        let message = Text::from_static("Resource does not belong to the dataset");
        return Err(key_fault(alloc, "id", message));
    }
    if is_repeated(id, before) {
        let message = Text::from_static("Repeated resource");
        return Err(key_fault(alloc, "id", message));
    }
    Ok(number)
}

/// The number of the old dataset's resource that an item after these keeps, if it keeps one; or the error of the key
/// `id`. The ids of a new dataset's resources are ignored.
fn kept_number(
    alloc: Global,
    old: Option<&Package>,
    before: &[Json],
    item: &Json,
) -> Result<Option<u32>, ReadFault>
    ensures number { IfOk result (λ number. number ≡ kept_number (option_copied old.entry) item.now) }
    ensures faultless { OnOk result (id_error (option_copied old.entry) before.now item.now ≡ None) }
    ensures error { IfErr result
        (HasError (prefixed_error (codes "id", id_error (option_copied old.entry) before.now item.now))) }
{
    let Some(old) = old else {
        return Ok(None);
    };
    match text_at(item, "id") {
        Ok(Some(id)) => known_number(alloc, old, before, id),
        Ok(None) => Ok(None),
        Err(fault) => Err(key_fault(alloc, "id", fault.message(alloc)?)),
    }
}

/// The number of an item after these: the one that it keeps, or else the next one. If that exceeds the type's range, that
/// counts as out of memory.
fn item_number(
    alloc: Global,
    old: Option<&Package>,
    before: &[Json],
    item: &Json,
    next: &mut u32,
) -> Result<u32, ReadFault>
    ensures number { IfOk result (λ number. number ≡ number_for (option_copied old.entry) next.old item.now) }
    ensures next { OnOk result (next.new ≡ next_after_item (option_copied old.entry) next.old item.now) }
    ensures faultless { OnOk result (id_error (option_copied old.entry) before.now item.now ≡ None) }
    ensures error { IfErr result
        (HasError (prefixed_error (codes "id", id_error (option_copied old.entry) before.now item.now))) }
{
    match kept_number(alloc, old, before, item)? {
        Some(number) => Ok(number),
        None => {
            let number = *next;
            *next = number.checked_add(1).ok_or(AllocError)?;
            Ok(number)
        }
    }
}

// ---- the items

/// Resources, and the number of the next one.
#[derive(Drop)]
struct Numbering {
    resources: Vec<Resource>,
    next: u32,
}

/// Adds the resource of an item after these, or returns the error of its first faulty key. The id is checked last.
fn read_item(
    alloc: Global,
    numbering: &mut Numbering,
    old: Option<&Package>,
    before: &[Json],
    item: &Json,
) -> Result<(), ReadFault>
    ensures resources { OnOk result (numbering.new.resources.items
        ≡ numbering.old.resources.items ++ numbered (option_copied old.entry) numbering.old.next (item.now ∷ [])) }
    ensures next { OnOk result (numbering.new.next
        ≡ next_after_item (option_copied old.entry) numbering.old.next item.now) }
    ensures faultless { OnOk result (item_error (option_copied old.entry) before.now item.now ≡ None) }
    ensures error { IfErr result (HasError (item_error (option_copied old.entry) before.now item.now)) }
{
    if dictionary_in(item).is_none() {
        return Err(ReadFault::Rule(KindFault::NotDictionary.message(alloc)?));
    }
    let mut resource = item_resource(alloc, item)?;
    resource.number = item_number(alloc, old, before, item, &mut numbering.next)?;
    match numbering.resources.push(resource) {
        Ok(()) => Ok(()),
        Err(_) => Err(ReadFault::OutOfMemory),
    }
}

/// The items' resources, or the error of the first faulty item. New resources are numbered from `next` on.
fn read_items(
    alloc: Global,
    old: Option<&Package>,
    next: u32,
    items: &[Json],
) -> Result<Numbering, ReadFault>
    ensures resources { IfOk result (λ numbering.
        numbering.resources.items ≡ numbered (option_copied old.entry) next items.now) }
    ensures next { IfOk result (λ numbering.
        numbering.next ≡ next_after_items (option_copied old.entry) next items.now) }
    ensures faultless { OnOk result (items_error (option_copied old.entry) [] items.now ≡ None) }
    ensures error { IfErr result (HasError (items_error (option_copied old.entry) [] items.now)) }
{
    let mut numbering = Numbering {
        resources: Vec::with_capacity(alloc, items.len())?,
        next,
    };
    for (index, item) in items.iter().enumerate() {
        let read = read_item(alloc, &mut numbering, old, &items[..index], item);
        if let Err(fault) = read {
            return Err(item_fault(alloc, index + 1, fault));
        }
    }
    Ok(numbering)
}

/// The resources of a list, or its error. New resources are numbered from `next` on.
fn resources_of(
    alloc: Global,
    old: Option<&Package>,
    next: u32,
    items: &[Json],
) -> Result<Numbering, ReadFault>
    ensures resources { IfOk result (λ numbering.
        numbering.resources.items ≡ numbered (option_copied old.entry) next items.now) }
    ensures next { IfOk result (λ numbering.
        numbering.next ≡ next_after_items (option_copied old.entry) next items.now) }
    ensures faultless { OnOk result (resources_error (option_copied old.entry) items.now ≡ None) }
    ensures error { IfErr result (HasError (resources_error (option_copied old.entry) items.now)) }
{
    if MAX_RESOURCES < items.len() {
        return Err(ReadFault::Rule(Text::from_static("More than 200 resources")));
    }
    read_items(alloc, old, next, items)
}

// ---- the list

/// Takes the resources of a list, and sets the number of the next one; or adds the error of the key `resources`.
fn take_resources(
    alloc: Global,
    faults: &mut KeyErrors,
    items: &[Json],
    old: Option<&Package>,
    resources: &mut Seq<Resource>,
    next: &mut u32,
) -> Result<(), AllocError>
    ensures errors { OnOk result (faults.new
        ≡ error_if (codes "resources") (resources_error (option_copied old.entry) items.now) faults.old) }
    ensures resources { OnOk result (resources.new
        ≡ value_or (resources_error (option_copied old.entry) items.now)
        (numbered (option_copied old.entry) next.old items.now) resources.old) }
    ensures next { OnOk result (next.new
        ≡ value_or (resources_error (option_copied old.entry) items.now)
        (next_after_items (option_copied old.entry) next.old items.now) next.old) }
{
    match resources_of(alloc, old, *next, items) {
        Ok(numbering) => {
            *resources = Seq::from(numbering.resources);
            *next = numbering.next;
            Ok(())
        }
        Err(fault) => add_fault(faults, "resources", fault),
    }
}

/// Reads the list of resources, and sets the number of the next one; or adds the error of the key.
pub fn read_resources(
    alloc: Global,
    faults: &mut KeyErrors,
    body: &Json,
    old: Option<&Package>,
    resources: &mut Seq<Resource>,
    next: &mut u32,
) -> Result<(), AllocError>
    ensures errors { OnOk result (faults.new
        ≡ error_if (codes "resources") (resources_key_error (option_copied old.entry) body.now) faults.old) }
    ensures resources { OnOk result (resources.new
        ≡ value_or (resources_key_error (option_copied old.entry) body.now)
        (resources_or resources.old (option_copied old.entry) next.old body.now) resources.old) }
    ensures next { OnOk result (next.new
        ≡ value_or (resources_key_error (option_copied old.entry) body.now)
        (next_or (option_copied old.entry) next.old body.now) next.old) }
{
    match list_at(body, "resources") {
        Ok(Some(items)) => take_resources(alloc, faults, items.as_slice(), old, resources, next),
        Ok(None) => Ok(()),
        Err(fault) => add_kind_fault(alloc, faults, "resources", fault),
    }
}
