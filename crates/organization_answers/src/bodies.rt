//! The bodies of calls on organizations: their errors, and the values that they give. Each key is read once.
ghost use Rattle.std.specs.Prelude.{◌≡◌, IfOk, OnOk, IsTrue, codes, unwrap_or};
ghost use Rattle.std.specs.List.{list_any};
ghost use Rattle.std.specs.Option.{option_copied, option_flatten};
ghost use Rattle.std.specs.Str.{bytes_eq};
ghost use Rattle.portal_base.specs.KeyErrors.{error_if, text_error};
ghost use Rattle.portal_calls.specs.Answer.{required_text};
ghost use Rattle.visibility.specs.CallView.{context_view};
ghost use Rattle.visibility.specs.View.{administers};
ghost use Rattle.packages.specs.Texts.{name_error};
ghost use Rattle.organization_answers.specs.Bodies.{role_named, role_error, user_error, member_error};
ghost use Rattle.organization_answers.specs.Bodies.{text_or_none, creation_errors, created_org, patch_errors};
ghost use Rattle.organization_answers.specs.Bodies.{patched_org, member_errors, former_member_errors, user_given};
ghost use Rattle.organization_answers.specs.Bodies.{role_given, removal_errors};
ghost use Rattle.organization_answers.specs.Owners.{owners_for};

use harvest_sources::SourceJobs;
use org_roles::entry::Org;
use org_roles::role::Role;
use packages::texts::name_error;
use portal_base::copy::TryClone;
use portal_base::json_value::Json;
use portal_base::key_errors::KeyErrors;
use portal_base::moment::Moment;
use portal_base::text::Text;
use portal_calls::answer::required_text;
use std::alloc::{AllocError, Global};
use visibility::context::CallContext;

/// The most bytes of an organization's title.
const LONGEST_TITLE: usize = 2000;

/// The most bytes of an organization's description.
const LONGEST_DESCRIPTION: usize = 20000;

// ---- texts

/// Reads the text at the key `name`, and adds its error. The result may be a text that is no name.
fn read_name<'a>(
    alloc: Global,
    faults: &mut KeyErrors,
    body: &'a Json,
) -> Result<Option<&'a Text>, AllocError>
    ensures text { IfOk result (λ text. option_copied text ≡ text_or_none (required_text (codes "name") body.now)) }
    ensures errors { OnOk result
        (faults.new ≡ error_if (codes "name") (text_error name_error (required_text (codes "name") body.now)) faults.old) }
{
    match required_text(body, "name") {
        Ok(text) => {
            if let Some(message) = name_error(alloc, text)? {
                faults.add_error(Text::from_static("name"), message)?;
            }
            Ok(Some(text))
        }
        Err(fault) => {
            faults.add_error(Text::from_static("name"), fault.message(alloc)?)?;
            Ok(None)
        }
    }
}

/// A copy of the text that was read, or else of this one.
fn text_or(alloc: Global, given: Option<&Text>, default: &Text) -> Result<Text, AllocError>
    ensures { IfOk result (λ text. text ≡ unwrap_or (option_copied given.entry) default.now) }
{
    match given {
        Some(text) => text.try_clone(alloc),
        None => default.try_clone(alloc),
    }
}

// ---- organizations

/// Reads a new organization: the errors of the body, and the organization that it describes.
pub fn read_creation(
    alloc: Global,
    body: &Json,
    moment: Moment,
) -> Result<(KeyErrors, Org), AllocError>
    ensures errors { IfOk result (λ read. read.0 ≡ creation_errors body.now) }
    ensures org { IfOk result (λ read. read.1 ≡ created_org body.now moment) }
{
    let mut faults = KeyErrors::new(alloc);
    let description = faults.short_text(alloc, body, "description", LONGEST_DESCRIPTION)?;
    let name = read_name(alloc, &mut faults, body)?;
    let title = faults.short_text(alloc, body, "title", LONGEST_TITLE)?;
    let none = Text::new(alloc);
    let name = text_or(alloc, name, &none)?;
    let org = Org {
        title: text_or(alloc, title, &name)?,
        description: text_or(alloc, description, &none)?,
        created: moment,
        name,
    };
    Ok((faults, org))
}

/// Reads a change of an organization: the errors of the body, and the changed organization.
pub fn read_patch(alloc: Global, body: &Json, org: &Org) -> Result<(KeyErrors, Org), AllocError>
    ensures errors { IfOk result (λ read. read.0 ≡ patch_errors body.now) }
    ensures org { IfOk result (λ read. read.1 ≡ patched_org body.now org.now) }
{
    let mut faults = KeyErrors::new(alloc);
    let description = faults.short_text(alloc, body, "description", LONGEST_DESCRIPTION)?;
    let title = faults.short_text(alloc, body, "title", LONGEST_TITLE)?;
    let org = Org {
        name: org.name.try_clone(alloc)?,
        title: text_or(alloc, title, &org.title)?,
        description: text_or(alloc, description, &org.description)?,
        created: org.created,
    };
    Ok((faults, org))
}

/// Whether the organization owns one of the sources. It walks them once.
fn owns_source(sources: &[SourceJobs], org: &Text) -> bool
    ensures { result ≡ list_any (λ s. bytes_eq s.state.source.owner_org org.now) sources.now }
{
    sources
        .iter()
        .any(|source| source.source().owner_org == *org)
}

/// The errors of the removal of an organization. `sources` are all sources of the portal. Whoever administers the
/// organization sees those that it owns.
#[tactic(auto, using(crate::proofs::OwnerLemmas::owns_source_seen))]
pub fn removal_errors(
    alloc: Global,
    context: &CallContext<'_>,
    sources: &[SourceJobs],
    org: &Text,
) -> Result<KeyErrors, AllocError>
    requires { IsTrue (administers (context_view context.now).people context.now.viewer.caller org.now) }
    ensures { IfOk result (λ faults. faults
        ≡ removal_errors org.now (context_view context.now).datasets (owners_for context.now sources.now)) }
{
    let mut faults = KeyErrors::new(alloc);
    if context.viewer.has_datasets(org) || owns_source(sources, org) {
        let message = Text::from_static("Organization has datasets or harvest sources");
        faults.add_error(Text::from_static("id"), message)?;
    }
    Ok(faults)
}

// ---- members

/// The role with that name.
fn role_named(text: &str) -> Option<Role>
    ensures { result ≡ role_named text.now }
{
    if text == "member" {
        Some(Role::Member)
    } else if text == "editor" {
        Some(Role::Editor)
    } else if text == "admin" {
        Some(Role::Admin)
    } else {
        None
    }
}

/// Reads the role at the key `role`, and adds its error.
fn read_role(alloc: Global, faults: &mut KeyErrors, body: &Json) -> Result<Role, AllocError>
    ensures role { IfOk result (λ role. role ≡ role_given body.now) }
    ensures errors { OnOk result
        (faults.new ≡ error_if (codes "role") (text_error role_error (required_text (codes "role") body.now)) faults.old) }
{
    match required_text(body, "role") {
        Ok(text) => match role_named(text.as_str()) {
            Some(role) => Ok(role),
            None => {
                let message = Text::from_static("Role must be member, editor or admin");
                faults.add_error(Text::from_static("role"), message)?;
                Ok(Role::Member)
            }
        },
        Err(fault) => {
            faults.add_error(Text::from_static("role"), fault.message(alloc)?)?;
            Ok(Role::Member)
        }
    }
}

/// The error of a new member who is no user.
fn user_error(context: &CallContext<'_>, user: &Text) -> Option<Text>
    ensures { result ≡ user_error (context_view context.now).people user.now }
{
    if context.viewer.has_user(user) {
        None
    } else {
        Some(Text::from_static("User does not exist"))
    }
}

/// The error of a user whose role in an organization is to be dropped: the user doesn't exist, or has no role there.
fn member_error(context: &CallContext<'_>, org: &Text, user: &Text) -> Option<Text>
    requires { IsTrue (administers (context_view context.now).people context.now.viewer.caller org.now) }
    ensures { result ≡ member_error (context_view context.now).people org.now user.now }
{
    if !context.viewer.has_user(user) {
        return Some(Text::from_static("User does not exist"));
    }
    if context.viewer.role_of_member(org, user).is_some() {
        None
    } else {
        Some(Text::from_static("User has no role here"))
    }
}

/// Reads a new member: the errors of the body, the user and the role.
pub fn read_member(
    alloc: Global,
    context: &CallContext<'_>,
) -> Result<(KeyErrors, Text, Role), AllocError>
    ensures errors { IfOk result (λ read.
        read.0 ≡ member_errors (context_view context.now).people context.now.call.now.request.body) }
    ensures user { IfOk result (λ read. read.1 ≡ user_given context.now.call.now.request.body) }
    ensures role { IfOk result (λ read. read.2 ≡ role_given context.now.call.now.request.body) }
{
    let body = &context.call.request.body;
    let mut faults = KeyErrors::new(alloc);
    let role = read_role(alloc, &mut faults, body)?;
    let user = read_user(alloc, &mut faults, context)?;
    Ok((faults, user, role))
}

/// Reads the user at the key `username`, and adds the error of a new member.
fn read_user(
    alloc: Global,
    faults: &mut KeyErrors,
    context: &CallContext<'_>,
) -> Result<Text, AllocError>
    ensures user { IfOk result (λ user. user ≡ user_given context.now.call.now.request.body) }
    ensures errors { OnOk result (faults.new ≡ error_if (codes "username")
        (text_error (user_error (context_view context.now).people)
        (required_text (codes "username") context.now.call.now.request.body)) faults.old) }
{
    match required_text(&context.call.request.body, "username") {
        Ok(user) => {
            if let Some(message) = user_error(context, user) {
                faults.add_error(Text::from_static("username"), message)?;
            }
            user.try_clone(alloc)
        }
        Err(fault) => {
            faults.add_error(Text::from_static("username"), fault.message(alloc)?)?;
            Ok(Text::new(alloc))
        }
    }
}

/// Reads a user whose role is to be dropped: the errors of the body, and the user.
pub fn read_former_member(
    alloc: Global,
    context: &CallContext<'_>,
    org: &Text,
) -> Result<(KeyErrors, Text), AllocError>
    requires { IsTrue (administers (context_view context.now).people context.now.viewer.caller org.now) }
    ensures errors { IfOk result (λ read.
        read.0 ≡ former_member_errors (context_view context.now).people org.now context.now.call.now.request.body) }
    ensures user { IfOk result (λ read. read.1 ≡ user_given context.now.call.now.request.body) }
{
    let mut faults = KeyErrors::new(alloc);
    match required_text(&context.call.request.body, "username") {
        Ok(user) => {
            if let Some(message) = member_error(context, org, user) {
                faults.add_error(Text::from_static("username"), message)?;
            }
            Ok((faults, user.try_clone(alloc)?))
        }
        Err(fault) => {
            faults.add_error(Text::from_static("username"), fault.message(alloc)?)?;
            Ok((faults, Text::new(alloc)))
        }
    }
}
