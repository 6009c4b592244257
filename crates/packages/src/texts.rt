//! The keys of a dataset's body that have a single value: their values and their errors.
ghost use Rattle.std.specs.Prelude.{◌≡◌, IfOk, OnOk, Some, codes, unwrap_or};
ghost use Rattle.std.specs.Option.{option_copied};
ghost use Rattle.portal_base.specs.KeyErrors.{error_if};
ghost use Rattle.portal_base.specs.Name.{name_fault_message};
ghost use Rattle.packages.specs.Texts.{text_given, short_text_error, change_error, name_error, dataset_name_error};
ghost use Rattle.packages.specs.Texts.{longest_name, missing_error, name_key_error, organization_change_error};
ghost use Rattle.packages.specs.Texts.{organization_key_error, state_error, state_named, state_key_error, state_or};
ghost use Rattle.packages.specs.Texts.{private_key_error, private_or};
ghost use Rattle.packages.specs.Reading.{if_new, name_read, organization_read, short_text_read, title_read, value_or};

use crate::errors::{add_error, add_kind_fault, message_unless};
use crate::package::{LONGEST_NAME, LONGEST_TITLE, Package, State};
use portal_base::copy::TryClone;
use portal_base::json_value::Json;
use portal_base::key_errors::KeyErrors;
use portal_base::kinds::{KindFault, text_at, truth_at};
use portal_base::name::{NameFault, name_fault};
use portal_base::text::Text;
use std::alloc::{AllocError, Global};

// ---- texts

/// The text at a key, if it is a text.
pub fn text_given<'a>(body: &'a Json, key: &str) -> Option<&'a Text>
    ensures { option_copied result ≡ text_given key.now body.now }
{
    match text_at(body, key) {
        Ok(found) => found,
        Err(_) => None,
    }
}

/// Reads the text of a key, of at most `longest` bytes, into `text`, or adds the error of the key. If memory is out,
/// nothing changes.
pub fn read_text(
    alloc: Global,
    faults: &mut KeyErrors,
    body: &Json,
    key: &'static str,
    longest: usize,
    text: &mut Text,
) -> Result<(), AllocError>
    ensures errors { OnOk result
        (faults.new ≡ error_if key.now (short_text_error longest key.now body.now) faults.old) }
    ensures text { OnOk result (text.new ≡ short_text_read longest text.old key.now body.now) }
{
    let given = faults.short_text(alloc, body, key, longest)?;
    copy_given(alloc, given, text)
}

/// Replaces a text by a copy of the one that is given, if one is.
fn copy_given(alloc: Global, given: Option<&Text>, text: &mut Text) -> Result<(), AllocError>
    ensures { OnOk result (text.new ≡ unwrap_or (option_copied given.entry) text.old) }
{
    if let Some(given) = given {
        *text = given.try_clone(alloc)?;
    }
    Ok(())
}

/// Reads the title, or adds its error. An empty title becomes the name.
#[tactic(auto, using(crate::proofs::Reading::title_is_read))]
pub fn read_title(
    alloc: Global,
    faults: &mut KeyErrors,
    body: &Json,
    name: &Text,
    title: &mut Text,
) -> Result<(), AllocError>
    ensures errors { OnOk result
        (faults.new ≡ error_if (codes "title") (short_text_error 2000 (codes "title") body.now) faults.old) }
    ensures title { OnOk result (title.new ≡ title_read title.old name.now body.now) }
{
    match faults.short_text(alloc, body, "title", LONGEST_TITLE)? {
        Some(given) if given.is_empty() => *title = name.try_clone(alloc)?,
        Some(given) => *title = given.try_clone(alloc)?,
        None => {}
    }
    Ok(())
}

// ---- the name and the organization

/// The error of a text that has to be the name of a dataset or of an organization.
pub fn name_error(alloc: Global, text: &Text) -> Result<Option<Text>, AllocError>
    ensures { IfOk result (λ error. error ≡ name_error text.now) }
{
    match name_fault(text.as_str(), LONGEST_NAME) {
        Some(fault) => name_message(alloc, fault),
        None => Ok(None),
    }
}

/// The message of a fault of a name.
fn name_message(alloc: Global, fault: NameFault) -> Result<Option<Text>, AllocError>
    ensures { IfOk result (λ message. message ≡ Some (name_fault_message longest_name fault)) }
{
    Ok(Some(fault.message(alloc, LONGEST_NAME)?))
}

/// The error of a text that differs from the old one.
fn change_error(message: &'static str, old: &Text, text: &Text) -> Option<Text>
    ensures { result ≡ change_error message.now old.now text.now }
{
    message_unless(text.as_str() == old.as_str(), message)
}

/// The error of a dataset's name: of its form, or else that it differs from the old one.
fn dataset_name_error(
    alloc: Global,
    old: Option<&Package>,
    text: &Text,
) -> Result<Option<Text>, AllocError>
    ensures { IfOk result (λ error. error ≡ dataset_name_error (option_copied old.entry) text.now) }
{
    if let Some(message) = name_error(alloc, text)? {
        return Ok(Some(message));
    }
    match old {
        Some(old) => Ok(change_error("Name cannot be changed", &old.name, text)),
        None => Ok(None),
    }
}

/// The error of an absent key, which a new dataset needs.
fn missing_error(alloc: Global, old: Option<&Package>) -> Result<Option<Text>, AllocError>
    ensures { IfOk result (λ error. error ≡ missing_error (option_copied old.entry)) }
{
    match old {
        Some(_) => Ok(None),
        None => Ok(Some(KindFault::Missing.message(alloc)?)),
    }
}

/// The error of an organization that differs from the old one.
fn organization_change_error(old: Option<&Package>, text: &Text) -> Option<Text>
    ensures { result ≡ organization_change_error (option_copied old.entry) text.now }
{
    match old {
        Some(old) => change_error("Organization cannot be changed", &old.owner_org, text),
        None => None,
    }
}

/// Copies the value of a new dataset. An old one keeps its own.
pub fn copy_if_new(
    alloc: Global,
    old: Option<&Package>,
    value: &Text,
    kept: &mut Text,
) -> Result<(), AllocError>
    ensures { OnOk result (kept.new ≡ if_new (option_copied old.entry) value.now kept.old) }
{
    if old.is_none() {
        *kept = value.try_clone(alloc)?;
    }
    Ok(())
}

/// Adds the error of a text, or copies it into a new dataset.
fn take_text(
    alloc: Global,
    faults: &mut KeyErrors,
    key: &'static str,
    old: Option<&Package>,
    error: Option<Text>,
    text: &Text,
    kept: &mut Text,
) -> Result<(), AllocError>
    ensures errors { OnOk result (faults.new ≡ error_if key.now error faults.old) }
    ensures text { OnOk result
        (kept.new ≡ if_new (option_copied old.entry) (value_or error text.now kept.old) kept.old) }
{
    match error {
        Some(message) => faults.add_error(Text::from_static(key), message),
        None => copy_if_new(alloc, old, text, kept),
    }
}

/// Reads the name of a new dataset, or adds the key's error. An old dataset keeps its name.
pub fn read_name(
    alloc: Global,
    faults: &mut KeyErrors,
    body: &Json,
    old: Option<&Package>,
    name: &mut Text,
) -> Result<(), AllocError>
    ensures errors { OnOk result
        (faults.new ≡ error_if (codes "name") (name_key_error (option_copied old.entry) body.now) faults.old) }
    ensures name { OnOk result (name.new ≡ name_read (option_copied old.entry) name.old body.now) }
{
    match text_at(body, "name") {
        Ok(Some(text)) => {
            let error = dataset_name_error(alloc, old, text)?;
            take_text(alloc, faults, "name", old, error, text, name)
        }
        Ok(None) => add_error(faults, "name", missing_error(alloc, old)?),
        Err(fault) => add_kind_fault(alloc, faults, "name", fault),
    }
}

/// Reads the organization of a new dataset, or adds the key's error. An old dataset keeps its organization. The function
/// doesn't check whether the organization exists.
pub fn read_organization(
    alloc: Global,
    faults: &mut KeyErrors,
    body: &Json,
    old: Option<&Package>,
    organization: &mut Text,
) -> Result<(), AllocError>
    ensures errors { OnOk result (faults.new
        ≡ error_if (codes "owner_org") (organization_key_error (option_copied old.entry) body.now) faults.old) }
    ensures organization { OnOk result
        (organization.new ≡ organization_read (option_copied old.entry) organization.old body.now) }
{
    match text_at(body, "owner_org") {
        Ok(Some(text)) => {
            let error = organization_change_error(old, text);
            take_text(alloc, faults, "owner_org", old, error, text, organization)
        }
        Ok(None) => add_error(faults, "owner_org", missing_error(alloc, old)?),
        Err(fault) => add_kind_fault(alloc, faults, "owner_org", fault),
    }
}

// ---- the state

/// The state with this name, if a body may give it.
fn state_named(text: &str) -> Option<State>
    ensures { result ≡ state_named text.now }
{
    if text == "draft" {
        Some(State::Draft)
    } else if text == "active" {
        Some(State::Active)
    } else {
        None
    }
}

/// Reads the state, or adds the key's error.
pub fn read_state(
    alloc: Global,
    faults: &mut KeyErrors,
    body: &Json,
    state: &mut State,
) -> Result<(), AllocError>
    ensures errors { OnOk result (faults.new ≡ error_if (codes "state") (state_key_error body.now) faults.old) }
    ensures state { OnOk result (state.new ≡ state_or state.old body.now) }
{
    match text_at(body, "state") {
        Ok(Some(text)) => take_state(faults, text.as_str(), state),
        Ok(None) => Ok(()),
        Err(fault) => add_kind_fault(alloc, faults, "state", fault),
    }
}

/// Sets the state with this name, or adds the error of the key `state`.
fn take_state(faults: &mut KeyErrors, name: &str, state: &mut State) -> Result<(), AllocError>
    ensures errors { OnOk result (faults.new ≡ error_if (codes "state") (state_error name.now) faults.old) }
    ensures state { OnOk result (state.new ≡ unwrap_or (state_named name.now) state.old) }
{
    match state_named(name) {
        Some(given) => {
            *state = given;
            Ok(())
        }
        None => {
            let message = Text::from_static("State must be draft or active");
            faults.add_error(Text::from_static("state"), message)
        }
    }
}

// ---- whether it is private

/// Reads the key `private`, or adds its error.
pub fn read_private(
    alloc: Global,
    faults: &mut KeyErrors,
    body: &Json,
    private: &mut bool,
) -> Result<(), AllocError>
    ensures errors { OnOk result (faults.new ≡ error_if (codes "private") (private_key_error body.now) faults.old) }
    ensures private { OnOk result (private.new ≡ private_or private.old body.now) }
{
    if let Some(Some(given)) = faults.check(alloc, "private", truth_at(body, "private"))? {
        *private = given;
    }
    Ok(())
}
