//! Organizations that are read from their rows.
ghost use Rattle.std.specs.Prelude.{◌≡◌, ◌≢◌, ◌↔◌, IfOk, IfSome, MatchOption, Some, codes, option_and_then};
ghost use Rattle.std.specs.Prelude.{option_copied};
ghost use Rattle.portal_base.specs.Json.{json_text, member_of};
ghost use Rattle.portal_base.specs.Kinds.{dictionary_in, text_in};
ghost use Rattle.portal_rows.specs.OrgRows.{IsOrgBody, IsOrgRow, IsOrgWithRoles, org_value};
ghost use Rattle.portal_rows.specs.Readings.{all_read, membership_reading, moment_member, org_reading};
ghost use Rattle.portal_rows.specs.Readings.{org_with_roles_reading, role_named, roles_reading};
ghost use Rattle.portal_rows.specs.declared.org_reading.OrgWithRoles.{OrgWithRoles};

use crate::body::{is_text_of, text_member, value_of_body};
use crate::orgs::org_json;
use org_roles::entry::{Membership, Org};
use org_roles::role::Role;
use portal_base::copy::TryClone;
use portal_base::json_value::Json;
use portal_base::kinds::{dictionary_in, text_in};
use portal_base::moment::Moment;
use portal_base::seq::Seq;
use portal_base::text::Text;
use portal_keeper::row::{KeptRow, RowKind};
use std::alloc::{AllocError, Global};

/// An organization, and the roles in it.
#[derive(Drop)]
pub struct OrgWithRoles {
    pub org: Org,
    /// The roles, in the order of their users.
    pub roles: Seq<Membership>,
}

/// Reads the row of an organization. The result is some organization with its roles exactly if the row is their row.
pub fn read_org_row(alloc: Global, row: &KeptRow) -> Result<Option<OrgWithRoles>, AllocError>
    ensures { IfOk result (λ found. (kept : OrgWithRoles) → (found ≡ Some kept) ↔ IsOrgRow kept row.now) }
{
    match row.kind {
        RowKind::Org => read_org_body(alloc, &row.key, &row.body),
        _ => Ok(None),
    }
}

/// Reads the body of the row of the organization of that name.
fn read_org_body(
    alloc: Global,
    name: &Text,
    body: &Text,
) -> Result<Option<OrgWithRoles>, AllocError>
    ensures { IfOk result (λ found. (kept : OrgWithRoles) → (found ≡ Some kept) ↔ IsOrgBody kept name.now body.now) }
{
    match org_of_body(alloc, name, body)? {
        Some(kept) => org_if_written(alloc, body, kept),
        None => Ok(None),
    }
}

/// The organization of that name which the body says, if it says one. Another text may say it too.
fn org_of_body(alloc: Global, name: &Text, body: &Text) -> Result<Option<OrgWithRoles>, AllocError>
    ensures sound { IfOk result (λ found. IfSome found (λ kept.
        IsOrgWithRoles kept × (kept.org.name ≡ name.now))) }
    ensures complete { IfOk result (λ found. (kept : OrgWithRoles) → IsOrgBody kept name.now body.now →
        found ≡ Some kept) }
{
    match value_of_body(alloc, body)? {
        Some(value) => org_with_roles_in(alloc, name, &value),
        None => Ok(None),
    }
}

/// The organization with its roles, if the body is their text.
fn org_if_written(
    alloc: Global,
    body: &Text,
    kept: OrgWithRoles,
) -> Result<Option<OrgWithRoles>, AllocError>
    ensures { IfOk result (λ found. MatchOption found
        (body.now ≢ json_text (org_value kept.org kept.roles))
        (λ same. (same ≡ kept) × (body.now ≡ json_text (org_value kept.org kept.roles)))) }
{
    let value = org_json(alloc, &kept.org, kept.roles.as_slice())?;
    if is_text_of(alloc, body, &value)? {
        Ok(Some(kept))
    } else {
        Ok(None)
    }
}

/// The organization of that name which the value says, with the roles in it.
fn org_with_roles_in(
    alloc: Global,
    name: &Text,
    value: &Json,
) -> Result<Option<OrgWithRoles>, AllocError>
    ensures { IfOk result (λ kept. kept ≡ org_with_roles_reading name.now value.now) }
{
    let Some(org) = org_in(alloc, name, value)? else {
        return Ok(None);
    };
    match roles_in(alloc, name, value)? {
        Some(roles) => Ok(Some(OrgWithRoles { org, roles })),
        None => Ok(None),
    }
}

/// The organization of that name which the value says.
fn org_in(alloc: Global, name: &Text, value: &Json) -> Result<Option<Org>, AllocError>
    ensures { IfOk result (λ org. org ≡ org_reading name.now value.now) }
{
    let Some(created) = moment_member(value, "created") else {
        return Ok(None);
    };
    let Some(description) = text_member(value, "description") else {
        return Ok(None);
    };
    match text_member(value, "title") {
        Some(title) => Ok(Some(org_of(alloc, name, title, description, created)?)),
        None => Ok(None),
    }
}

fn org_of(
    alloc: Global,
    name: &Text,
    title: &Text,
    description: &Text,
    created: Moment,
) -> Result<Org, AllocError>
    ensures { IfOk result (λ org. org ≡ record {
      name = name.now;
      title = title.now;
      description = description.now;
      created = created;
    }) }
{
    Ok(Org {
        name: name.try_clone(alloc)?,
        title: title.try_clone(alloc)?,
        description: description.try_clone(alloc)?,
        created,
    })
}

/// The moment at a key of a dictionary.
fn moment_member(value: &Json, key: &str) -> Option<Moment>
    ensures { result ≡ moment_member key.now value.now }
{
    Moment::read(text_member(value, key)?.as_str())
}

/// The roles in the organization of that name which the value says.
fn roles_in(alloc: Global, org: &Text, value: &Json) -> Result<Option<Seq<Membership>>, AllocError>
    ensures { IfOk result (λ roles. roles ≡ roles_reading org.now value.now) }
{
    match role_entries(value) {
        Some(entries) => memberships_of(alloc, org, entries.as_slice()),
        None => Ok(None),
    }
}

/// The entries of the dictionary of roles.
fn role_entries(value: &Json) -> Option<&Seq<(Text, Json)>>
    ensures { option_copied result ≡ option_and_then dictionary_in (member_of (codes "roles") value.now) }
{
    dictionary_in(value.get("roles")?)
}

/// The memberships that the entries say, if each of them says one.
fn memberships_of(
    alloc: Global,
    org: &Text,
    entries: &[(Text, Json)],
) -> Result<Option<Seq<Membership>>, AllocError>
    ensures { IfOk result (λ memberships. memberships ≡ all_read (membership_reading org.now) entries.now) }
{
    let mut memberships = Vec::with_capacity(alloc, entries.len())?;
    for entry in entries {
        let Some(membership) = membership_of(alloc, org, entry)? else {
            return Ok(None);
        };
        memberships.push(membership)?;
    }
    Ok(Some(Seq::from(memberships)))
}

/// The membership in the organization that an entry of a user and the text of a role says.
fn membership_of(
    alloc: Global,
    org: &Text,
    entry: &(Text, Json),
) -> Result<Option<Membership>, AllocError>
    ensures { IfOk result (λ membership. membership ≡ membership_reading org.now entry.now) }
{
    let Some(role) = role_in(&entry.1) else {
        return Ok(None);
    };
    Ok(Some(Membership {
        org: org.try_clone(alloc)?,
        user: entry.0.try_clone(alloc)?,
        role,
    }))
}

/// The role whose text the value is.
fn role_in(value: &Json) -> Option<Role>
    ensures { result ≡ option_and_then role_named (text_in value.now) }
{
    role_named(text_in(value)?.as_str())
}

/// The role of that text.
fn role_named(text: &str) -> Option<Role>
    ensures { result ≡ role_named text.now }
{
    match text {
        "member" => Some(Role::Member),
        "editor" => Some(Role::Editor),
        "admin" => Some(Role::Admin),
        _ => None,
    }
}
