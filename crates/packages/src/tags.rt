//! The tags that a dataset's body gives, and the errors of these.
ghost use Rattle.std.specs.Prelude.{◌≡◌, ◌≤◌, ◌∷◌, ◌++◌, [], IfOk, IfErr, None, OnOk, codes, length, vec_len};
ghost use Rattle.std.specs.List.{cons_option, filter_map};
ghost use Rattle.std.specs.Option.{option_copied};
ghost use Rattle.std.specs.Result.{result_map_both};
ghost use Rattle.portal_base.specs.KeyErrors.{error_if, found_value};
ghost use Rattle.portal_base.specs.Kinds.{text_at};
ghost use Rattle.packages.specs.Tags.{text_set, tag_name_error, tag_error, tag_names, tags_error};
ghost use Rattle.packages.specs.Tags.{tags_key_error, tags_or};
ghost use Rattle.packages.specs.Texts.{text_given};
ghost use Rattle.packages.specs.Errors.{first_error, or_error};
ghost use Rattle.packages.specs.Reading.{HasError, value_or};

use crate::errors::{ReadFault, add_fault, add_kind_fault, message_unless};
use portal_base::copy::TryClone;
use portal_base::json_value::Json;
use portal_base::key_errors::KeyErrors;
use portal_base::kinds::{KindFault, dictionary_in, list_at, text_at};
use portal_base::seq::Seq;
use portal_base::tag::{has_tag_characters, has_tag_length};
use portal_base::text::Text;
use std::alloc::{AllocError, Global};

/// The most tags of a dataset.
const MAX_TAGS: usize = 100;

// ---- one tag

/// The error of a tag's name.
fn tag_name_error(text: &str) -> Option<Text>
    ensures { result ≡ tag_name_error text.now }
{
    if !has_tag_length(text) {
        return Some(Text::from_static("Tag must have 2 to 100 characters"));
    }
    message_unless(
        has_tag_characters(text),
        "Tag holds a character that is not allowed",
    )
}

/// The error of a tag's dictionary, whose name was read.
fn tag_error(
    alloc: Global,
    item: &Json,
    name: Result<Option<&Text>, KindFault>,
) -> Result<Option<Text>, AllocError>
    requires { result_map_both option_copied (λ fault. fault) name ≡ text_at (codes "name") item.now }
    ensures { IfOk result (λ error. error ≡ tag_error item.now) }
{
    if dictionary_in(item).is_none() {
        return Ok(Some(KindFault::NotDictionary.message(alloc)?));
    }
    match name {
        Ok(Some(text)) => Ok(tag_name_error(text.as_str())),
        Ok(None) => Ok(Some(KindFault::Missing.message(alloc)?)),
        Err(fault) => Ok(Some(fault.message(alloc)?)),
    }
}

// ---- the list of tags

/// What is read of the items of a list of tags: the names, in the order of the list, and the error of the first faulty
/// item.
#[derive(Drop)]
struct TagReading {
    names: Vec<Text>,
    error: Option<Text>,
}

/// Reads the items of a list of tags.
fn read_items(alloc: Global, items: &[Json]) -> Result<TagReading, AllocError>
    ensures names { IfOk result (λ read. read.names.items ≡ tag_names items.now) }
    ensures count { IfOk result (λ read. vec_len read.names ≤ length items.now) }
    ensures error { IfOk result (λ read. read.error ≡ first_error tag_error items.now) }
{
    let mut read = TagReading {
        names: Vec::new(alloc),
        error: None,
    };
    for item in items {
        read_item(alloc, &mut read, item)?;
    }
    Ok(read)
}

/// Reads one more item: its name, and its error unless an item before has one.
fn read_item(alloc: Global, read: &mut TagReading, item: &Json) -> Result<(), AllocError>
    ensures names { OnOk result (read.new.names.items
        ≡ read.old.names.items ++ filter_map (text_given (codes "name")) (item.now ∷ [])) }
    ensures error { OnOk result (read.new.error ≡ or_error read.old.error (tag_error item.now)) }
{
    let name = text_at(item, "name");
    push_name(alloc, &mut read.names, name)?;
    if read.error.is_none() {
        read.error = tag_error(alloc, item, name)?;
    }
    Ok(())
}

/// Adds the name of a tag, if it has one.
fn push_name(
    alloc: Global,
    names: &mut Vec<Text>,
    name: Result<Option<&Text>, KindFault>,
) -> Result<(), AllocError>
    ensures { OnOk result (names.new.items ≡ names.old.items
        ++ cons_option (found_value (result_map_both option_copied (λ fault. fault) name.entry)) []) }
{
    if let Ok(Some(name)) = name {
        names.push(name.try_clone(alloc)?)?;
    }
    Ok(())
}

/// Sorts the texts and drops repeats. It takes no memory.
pub fn sort_and_dedup(texts: &mut Vec<Text>)
    ensures set { texts.new.items ≡ text_set texts.old.items }
    ensures count { vec_len texts.new ≤ vec_len texts.old }
{
    texts.sort_unstable();
    texts.dedup();
}

/// The tags of a list, ordered by bytes, without repeats. Each name counts once, and so does each item without a name.
fn tags_of(alloc: Global, items: &[Json]) -> Result<Seq<Text>, ReadFault>
    ensures tags { IfOk result (λ tags. tags ≡ text_set (tag_names items.now)) }
    ensures faultless { OnOk result (tags_error items.now ≡ None) }
    ensures error { IfErr result (HasError (tags_error items.now)) }
{
    let TagReading { names, error } = read_items(alloc, items)?;
    let nameless = items.len() - names.len();
    let mut names = names;
    sort_and_dedup(&mut names);
    if MAX_TAGS < names.len() + nameless {
        return Err(ReadFault::Rule(Text::from_static("More than 100 tags")));
    }
    match error {
        Some(message) => Err(ReadFault::Rule(message)),
        None => Ok(Seq::from(names)),
    }
}

/// Reads the list of tags, or adds the error of its key.
pub(crate) fn read_tags(
    alloc: Global,
    faults: &mut KeyErrors,
    body: &Json,
    tags: &mut Seq<Text>,
) -> Result<(), AllocError>
    ensures errors { OnOk result (faults.new ≡ error_if (codes "tags") (tags_key_error body.now) faults.old) }
    ensures tags { OnOk result
        (tags.new ≡ value_or (tags_key_error body.now) (tags_or tags.old body.now) tags.old) }
{
    match list_at(body, "tags") {
        Ok(Some(items)) => take_tags(alloc, faults, items.as_slice(), tags),
        Ok(None) => Ok(()),
        Err(fault) => add_kind_fault(alloc, faults, "tags", fault),
    }
}

/// Takes the tags of a list, or adds the error of the key `tags`.
fn take_tags(
    alloc: Global,
    faults: &mut KeyErrors,
    items: &[Json],
    tags: &mut Seq<Text>,
) -> Result<(), AllocError>
    ensures errors { OnOk result (faults.new ≡ error_if (codes "tags") (tags_error items.now) faults.old) }
    ensures tags { OnOk result
        (tags.new ≡ value_or (tags_error items.now) (text_set (tag_names items.now)) tags.old) }
{
    match tags_of(alloc, items) {
        Ok(given) => {
            *tags = given;
            Ok(())
        }
        Err(fault) => add_fault(faults, "tags", fault),
    }
}
