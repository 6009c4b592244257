//! The bodies of calls on sources and jobs: their errors, and the sources that they describe. Each key is
//! read once.
ghost use Rattle.std.specs.Prelude.{◌≡◌, [], IfOk, OnOk, Some, codes, option_map, unwrap_or};
ghost use Rattle.std.specs.List.{list_any};
ghost use Rattle.std.specs.Option.{option_copied};
ghost use Rattle.std.specs.Result.{result_map_both};
ghost use Rattle.std.specs.Str.{chars};
ghost use Rattle.portal_base.specs.KeyErrors.{error_if, found_value, kind_message, text_error};
ghost use Rattle.portal_base.specs.Kinds.{message_of};
ghost use Rattle.portal_base.specs.Name.{name_fault_message};
ghost use Rattle.packages.specs.Errors.{optional_error};
ghost use Rattle.packages.specs.Texts.{or_name};
ghost use Rattle.portal_calls.specs.Answer.{required_text, required_value};
ghost use Rattle.visibility.specs.CallView.{context_view};
ghost use Rattle.harvest_answers.specs.Bodies.{created_source, creation_errors, is_location, is_space_or_control};
ghost use Rattle.harvest_answers.specs.Bodies.{location_error, location_read, longest_source_name, organization_error};
ghost use Rattle.harvest_answers.specs.Bodies.{source_name_error, text_or_empty, title_or, title_read};
ghost use Rattle.harvest_answers.specs.Bodies.{unfinished_error, unfinished_errors, update_errors, edited_source};

use harvest_sources::{HarvestSource, SourceJobs};
use packages::errors::{add_error, message_unless};
use portal_base::copy::TryClone;
use portal_base::json_value::Json;
use portal_base::key_errors::KeyErrors;
use portal_base::kinds::{KindFault, short_text_at};
use portal_base::name::{NameFault, name_fault};
use portal_base::text::Text;
use portal_calls::answer::required_text;
use std::alloc::{AllocError, Global};
use visibility::context::CallContext;

/// The most characters of a source's name.
const LONGEST_SOURCE_NAME: usize = 56;

/// The most bytes of a source's title.
const LONGEST_TITLE: usize = 2000;

/// The most bytes of the location of a source's catalogue.
const LONGEST_LOCATION: usize = 2000;

// ---- the name

/// The error of a text that has to be the name of a source.
fn source_name_error(alloc: Global, text: &Text) -> Result<Option<Text>, AllocError>
    ensures { IfOk result (λ error. error ≡ source_name_error text.now) }
{
    match name_fault(text.as_str(), LONGEST_SOURCE_NAME) {
        Some(fault) => name_message(alloc, fault),
        None => Ok(None),
    }
}

/// The message of a fault of a name.
fn name_message(alloc: Global, fault: NameFault) -> Result<Option<Text>, AllocError>
    ensures { IfOk result (λ message. message ≡ Some (name_fault_message longest_source_name fault)) }
{
    Ok(Some(fault.message(alloc, LONGEST_SOURCE_NAME)?))
}

/// Adds the error of a key that can't be read, and returns an empty text in its place.
fn empty_with_error(
    alloc: Global,
    faults: &mut KeyErrors,
    key: &'static str,
    fault: KindFault,
) -> Result<Text, AllocError>
    ensures text { IfOk result (λ text. text ≡ []) }
    ensures errors { OnOk result (faults.new ≡ error_if key.now (Some (message_of fault)) faults.old) }
{
    let message = fault.message(alloc)?;
    faults.add_error(Text::from_static(key), message)?;
    Ok(Text::new(alloc))
}

/// Reads the name of a new source, and adds its error. The result may be a text that is no name.
fn read_name(alloc: Global, faults: &mut KeyErrors, body: &Json) -> Result<Text, AllocError>
    ensures text { IfOk result (λ text. text ≡ text_or_empty (required_text (codes "name") body.now)) }
    ensures errors { OnOk result (faults.new
        ≡ error_if (codes "name") (text_error source_name_error (required_text (codes "name") body.now)) faults.old) }
{
    match required_text(body, "name") {
        Ok(text) => {
            let error = source_name_error(alloc, text)?;
            add_error(faults, "name", error)?;
            text.try_clone(alloc)
        }
        Err(fault) => empty_with_error(alloc, faults, "name", fault),
    }
}

// ---- the organization

/// The error of a text that has to be the name of an organization.
fn organization_error(context: &CallContext<'_>, name: &Text) -> Option<Text>
    ensures { result ≡ organization_error (context_view context.now).people name.now }
{
    let exists = context.viewer.org(name).is_some();
    message_unless(exists, "Organization does not exist")
}

/// Reads the organization of a new source, and adds its error. The result may be a text that no organization
/// has as its name.
fn read_organization(
    alloc: Global,
    faults: &mut KeyErrors,
    context: &CallContext<'_>,
) -> Result<Text, AllocError>
    ensures text { IfOk result (λ text.
        text ≡ text_or_empty (required_text (codes "owner_org") context.now.call.now.request.body)) }
    ensures errors { OnOk result (faults.new ≡ error_if (codes "owner_org")
        (text_error (organization_error (context_view context.now).people)
        (required_text (codes "owner_org") context.now.call.now.request.body)) faults.old) }
{
    match required_text(&context.call.request.body, "owner_org") {
        Ok(text) => {
            add_error(faults, "owner_org", organization_error(context, text))?;
            text.try_clone(alloc)
        }
        Err(fault) => empty_with_error(alloc, faults, "owner_org", fault),
    }
}

// ---- the title

/// The title that was read, for the source of this name. An empty one is the name, and where none is given it
/// is `kept`.
fn title_or(
    alloc: Global,
    kept: &Text,
    name: &Text,
    given: Option<&Text>,
) -> Result<Text, AllocError>
    ensures { IfOk result (λ title.
        title ≡ unwrap_or (option_map (or_name name.now) (option_copied given.entry)) kept.now) }
{
    match given {
        Some(title) if title.is_empty() => name.try_clone(alloc),
        Some(title) => title.try_clone(alloc),
        None => kept.try_clone(alloc),
    }
}

/// Reads the title of the source of this name, and adds its error.
fn read_title(
    alloc: Global,
    faults: &mut KeyErrors,
    body: &Json,
    kept: &Text,
    name: &Text,
) -> Result<Text, AllocError>
    ensures title { IfOk result (λ title. title ≡ title_or kept.now name.now body.now) }
    ensures errors { OnOk result
        (faults.new ≡ error_if (codes "title") (kind_message (title_read body.now)) faults.old) }
{
    let given = faults.short_text(alloc, body, "title", LONGEST_TITLE)?;
    title_or(alloc, kept, name, given)
}

// ---- the location

/// Whether the character is white space or a control character.
fn is_space_or_control(character: char) -> bool
    ensures { result ≡ is_space_or_control character }
{
    character.is_whitespace() || character.is_control()
}

/// Whether the text has a character that is white space or a control character.
fn has_space_or_control(text: &str) -> bool
    ensures { result ≡ list_any is_space_or_control (chars text.now) }
{
    text.chars().any(is_space_or_control)
}

/// Whether the text isn't empty, and has neither white space nor control characters.
fn is_location(text: &Text) -> bool
    ensures { result ≡ is_location text.now }
{
    !text.is_empty() && !has_space_or_control(text.as_str())
}

/// The error of a text that has to be where a catalogue's document is.
fn location_error(text: &Text) -> Option<Text>
    ensures { result ≡ location_error text.now }
{
    message_unless(is_location(text), "Must be a location")
}

/// The location that a body of a new source gives.
fn required_location(body: &Json) -> Result<&Text, KindFault>
    ensures { result_map_both (λ text. text.now) (λ fault. fault) result ≡ required_value (location_read body.now) }
{
    match short_text_at(body, "url", LONGEST_LOCATION) {
        Ok(Some(text)) => Ok(text),
        Ok(None) => Err(KindFault::Missing),
        Err(fault) => Err(fault),
    }
}

/// Reads the location of a new source, and adds its error. The result may be a text that is no location.
fn read_location(alloc: Global, faults: &mut KeyErrors, body: &Json) -> Result<Text, AllocError>
    ensures text { IfOk result (λ text. text ≡ text_or_empty (required_value (location_read body.now))) }
    ensures errors { OnOk result (faults.new ≡ error_if (codes "url")
        (text_error location_error (required_value (location_read body.now))) faults.old) }
{
    match required_location(body) {
        Ok(text) => {
            add_error(faults, "url", location_error(text))?;
            text.try_clone(alloc)
        }
        Err(fault) => empty_with_error(alloc, faults, "url", fault),
    }
}

/// Reads the location that a source gets, and adds its error. Where none is given it is `kept`.
fn read_new_location(
    alloc: Global,
    faults: &mut KeyErrors,
    body: &Json,
    kept: &Text,
) -> Result<Text, AllocError>
    ensures text { IfOk result (λ text. text ≡ unwrap_or (found_value (location_read body.now)) kept.now) }
    ensures errors { OnOk result
        (faults.new ≡ error_if (codes "url") (optional_error location_error (location_read body.now)) faults.old) }
{
    match short_text_at(body, "url", LONGEST_LOCATION) {
        Ok(Some(text)) => {
            add_error(faults, "url", location_error(text))?;
            text.try_clone(alloc)
        }
        Ok(None) => kept.try_clone(alloc),
        Err(fault) => {
            let message = fault.message(alloc)?;
            faults.add_error(Text::from_static("url"), message)?;
            kept.try_clone(alloc)
        }
    }
}

// ---- sources

/// Reads a new source: the errors of the body, and the source that it describes.
pub fn read_creation(
    alloc: Global,
    context: &CallContext<'_>,
) -> Result<(KeyErrors, HarvestSource), AllocError>
    ensures errors { IfOk result (λ read. read.0
        ≡ creation_errors (context_view context.now).people context.now.call.now.request.body) }
    ensures source { IfOk result (λ read. read.1 ≡ created_source context.now.call.now.request.body) }
{
    let body = &context.call.request.body;
    let mut faults = KeyErrors::new(alloc);
    let name = read_name(alloc, &mut faults, body)?;
    let owner_org = read_organization(alloc, &mut faults, context)?;
    let title = read_title(alloc, &mut faults, body, &name, &name)?;
    let url = read_location(alloc, &mut faults, body)?;
    let source = HarvestSource {
        name,
        title,
        url,
        owner_org,
        next_job: 1,
    };
    Ok((faults, source))
}

/// The error where one of the source's jobs hasn't ended.
fn unfinished_error(source: &SourceJobs) -> Option<Text>
    ensures { result ≡ unfinished_error source.now.state }
{
    let is_finished = source.open_job().is_none();
    message_unless(is_finished, "A job of this source is not finished")
}

/// The errors of a removal of the source, or of a further job, at the key that names the source.
pub fn unfinished_errors(
    alloc: Global,
    key: &'static str,
    source: &SourceJobs,
) -> Result<KeyErrors, AllocError>
    ensures { IfOk result (λ faults. faults ≡ unfinished_errors key.now source.now.state) }
{
    let mut faults = KeyErrors::new(alloc);
    add_error(&mut faults, key, unfinished_error(source))?;
    Ok(faults)
}

/// Reads an update of the source: the errors of the body, and the source after the update.
pub fn read_update(
    alloc: Global,
    body: &Json,
    old: &SourceJobs,
) -> Result<(KeyErrors, HarvestSource), AllocError>
    ensures errors { IfOk result (λ read. read.0 ≡ update_errors old.now.state body.now) }
    ensures source { IfOk result (λ read. read.1 ≡ edited_source body.now old.now.state.source) }
{
    let mut faults = unfinished_errors(alloc, "id", old)?;
    let mut source = old.source().try_clone(alloc)?;
    source.title = read_title(
        alloc,
        &mut faults,
        body,
        &old.source().title,
        &old.source().name,
    )?;
    source.url = read_new_location(alloc, &mut faults, body, &old.source().url)?;
    Ok((faults, source))
}
