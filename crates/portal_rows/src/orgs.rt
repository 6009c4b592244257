//! The rows of organizations.
ghost use Rattle.std.specs.Prelude.{◌≡◌, ◌≤◌, IfOk, length, map};
ghost use Rattle.std.specs.Cmp.Lexicographic.{slice_cmp};
ghost use Rattle.std.specs.List.{prefix_len};
ghost use Rattle.std.specs.Ordering.{is_le, is_lt, nat_cmp};
ghost use Rattle.org_roles.specs.Order.{membership_cmp};
ghost use Rattle.portal_base.specs.Ordered.{IsAscending};
ghost use Rattle.portal_base.specs.declared.json_value.Json.{Map};
ghost use Rattle.portal_rows.specs.OrgRows.{role_name, role_member, org_value, org_row, memberships_in, org_rows};

use crate::body::json_row;
use org_roles::entry::{Membership, Org};
use org_roles::people::People;
use org_roles::role::Role;
use portal_base::copy::TryClone;
use portal_base::dictionary::Value;
use portal_base::json_value::Json;
use portal_base::seq::Seq;
use portal_base::text::Text;
use portal_keeper::row::{KeptRow, RowKind};
use std::alloc::{AllocError, Global};

/// The rows of all organizations, in the order of their names. Each row has the roles in its organization.
pub fn org_rows(alloc: Global, people: &People) -> Result<Seq<KeptRow>, AllocError>
    requires { IsAscending membership_cmp people.now.people.roles }
    ensures { IfOk result (λ rows. rows ≡ org_rows people.now.people) }
{
    let memberships = people.memberships();
    let orgs = people.orgs();
    let mut rows = Vec::with_capacity(alloc, orgs.len())?;
    for org in orgs {
        let own = memberships_in(memberships, &org.name);
        rows.push(org_row(alloc, org, own)?)?;
    }
    Ok(Seq::from(rows))
}

/// The row of an organization in which these are the roles.
pub fn org_row(alloc: Global, org: &Org, memberships: &[Membership]) -> Result<KeptRow, AllocError>
    ensures { IfOk result (λ row. row ≡ org_row org.now memberships.now) }
{
    let value = org_json(alloc, org, memberships)?;
    let name = org.name.try_clone(alloc)?;
    json_row(alloc, RowKind::Org, name, &value)
}

/// Of these memberships, those in the organization of that name, by two binary searches.
pub fn memberships_in<'a>(memberships: &'a [Membership], name: &Text) -> &'a [Membership]
    requires { IsAscending membership_cmp memberships.now }
    ensures { result.now ≡ memberships_in name.now memberships.now }
{
    let (from, to) = range_of(memberships, name);
    &memberships[from..to]
}

/// The range of the memberships in the organization of that name: the index of the first, and the index after the last.
fn range_of(memberships: &[Membership], name: &Text) -> (usize, usize)
    requires { IsAscending membership_cmp memberships.now }
    ensures from { result.0 ≡ prefix_len (λ m. is_lt (slice_cmp nat_cmp m.org name.now)) memberships.now }
    ensures to { result.1 ≡ prefix_len (λ m. is_le (slice_cmp nat_cmp m.org name.now)) memberships.now }
    ensures ordered { result.0 ≤ result.1 }
    ensures within { result.1 ≤ length memberships.now }
{
    let from = memberships.partition_point(|membership| membership.org.cmp(name).is_lt());
    let to = memberships.partition_point(|membership| membership.org.cmp(name).is_le());
    (from, to)
}

/// The body of an organization's row.
pub(crate) fn org_json(
    alloc: Global,
    org: &Org,
    memberships: &[Membership],
) -> Result<Json, AllocError>
    ensures { IfOk result (λ value. value ≡ org_value org.now memberships.now) }
{
    let roles = Json::Map(role_members(alloc, memberships)?);
    Json::dictionary(
        alloc,
        [
            ("created", Value::Moment(org.created)),
            ("description", Value::Text(&org.description)),
            ("roles", Value::Json(roles)),
            ("title", Value::Text(&org.title)),
        ],
    )
}

/// The user of each membership with the text of the role.
fn role_members(alloc: Global, memberships: &[Membership]) -> Result<Seq<(Text, Json)>, AllocError>
    ensures { IfOk result (λ members. members ≡ map role_member memberships.now) }
{
    let mut members = Vec::with_capacity(alloc, memberships.len())?;
    for membership in memberships {
        let user = membership.user.try_clone(alloc)?;
        let role = Text::from_static(role_name(membership.role));
        members.push((user, Json::Text(role)))?;
    }
    Ok(Seq::from(members))
}

/// The text of a role.
fn role_name(role: Role) -> &'static str
    ensures { result.now ≡ role_name role }
{
    match role {
        Role::Member => "member",
        Role::Editor => "editor",
        Role::Admin => "admin",
    }
}
