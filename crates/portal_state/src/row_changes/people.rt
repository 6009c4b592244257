//! The changes of the rows of organizations. A row has an organization with the roles in it.
ghost use Rattle.std.specs.Prelude.{◌≡◌, ◌++◌, ◌∷◌, [], IfOk, OnOk, filter, not, option_copied};
ghost use Rattle.std.specs.Str.{bytes_eq};
ghost use Rattle.org_roles.specs.Changed.{with_org, with_role, without_role};
ghost use Rattle.org_roles.specs.Order.{membership_cmp};
ghost use Rattle.org_roles.specs.PeopleLists.{org_in};
ghost use Rattle.portal_base.specs.Ordered.{IsAscending, upserted};
ghost use Rattle.portal_state.specs.ChangedRows.{changes_between, changes_of_people, org_body, org_body_with};
ghost use Rattle.portal_state.specs.ChangedRows.{org_changes, removal_of_org, removals_of_org};

use crate::row_changes::push_between;
use org_roles::change::OrgChange;
use org_roles::entry::{Membership, Org};
use org_roles::people::People;
use org_roles::role::Role;
use portal_base::copy::TryClone;
use portal_base::ordered::{replace_or_put, reserve};
use portal_base::text::Text;
use portal_keeper::change::Change;
use portal_keeper::row::{KeptRow, RowKind};
use portal_rows::orgs::{memberships_in, org_row};
use std::alloc::{AllocError, Global};

/// Adds the changes of rows for a change of the people.
pub(crate) fn push_changes(
    alloc: Global,
    changes: &mut Vec<Change>,
    people: &People,
    change: &OrgChange,
) -> Result<(), AllocError>
    requires { IsAscending membership_cmp people.now.people.roles }
    ensures { OnOk result
        (changes.new.items ≡ changes.old.items ++ changes_of_people change.now people.now.people) }
{
    match change {
        OrgChange::Create(org) => push_org(alloc, changes, people, org),
        OrgChange::Patch(org) => push_org(alloc, changes, people, org),
        OrgChange::Remove(name) => {
            let roles = memberships_in(people.memberships(), name);
            push_removals(alloc, changes, name, roles)
        }
        OrgChange::SetRole(org, user, role) => {
            push_role(alloc, changes, people, org, user, *role)
        }
        OrgChange::DropRole(org, user) => push_loss(alloc, changes, people, org, user),
    }
}

/// Adds what changes in the row of an organization that is new or replaced. The roles in it stay.
fn push_org(
    alloc: Global,
    changes: &mut Vec<Change>,
    people: &People,
    org: &Org,
) -> Result<(), AllocError>
    requires { IsAscending membership_cmp people.now.people.roles }
    ensures { OnOk result (changes.new.items ≡ changes.old.items
        ++ org_changes org.now.name people.now.people (with_org org.now people.now.people)) }
{
    let roles = memberships_in(people.memberships(), &org.name);
    let before = org_body(alloc, people.org(&org.name), roles)?;
    let KeptRow { kind, key, body } = org_row(alloc, org, roles)?;
    push_between(changes, kind, key, before, Some(body))
}

/// Adds the removals of the row of an organization that goes with these roles.
fn push_removals(
    alloc: Global,
    changes: &mut Vec<Change>,
    name: &Text,
    roles: &[Membership],
) -> Result<(), AllocError>
    ensures { OnOk result (changes.new.items ≡ changes.old.items ++ removals_of_org name.now roles.now) }
{
    for role in roles {
        push_removal(alloc, changes, &role.org)?;
    }
    push_removal(alloc, changes, name)
}

/// Adds the removal of the row of the organization of that name.
fn push_removal(alloc: Global, changes: &mut Vec<Change>, name: &Text) -> Result<(), AllocError>
    ensures { OnOk result (changes.new.items ≡ changes.old.items ++ removal_of_org name.now ∷ []) }
{
    let name = name.try_clone(alloc)?;
    changes.push(Change::Remove(RowKind::Org, name))?;
    Ok(())
}

/// Adds what changes in the row of an organization where a user gets a role.
fn push_role(
    alloc: Global,
    changes: &mut Vec<Change>,
    people: &People,
    org: &Text,
    user: &Text,
    role: Role,
) -> Result<(), AllocError>
    requires { IsAscending membership_cmp people.now.people.roles }
    ensures { OnOk result (changes.new.items ≡ changes.old.items ++ org_changes org.now people.now.people
        (with_role (record { org = org.now; user = user.now; role = role }) people.now.people)) }
{
    let own = memberships_in(people.memberships(), org);
    let membership = membership(alloc, org, user, role)?;
    let roles = with_role(alloc, own, membership)?;
    push_roles(alloc, changes, people, org, roles.as_slice())
}

/// Adds what changes in the row of an organization where a user loses a role.
fn push_loss(
    alloc: Global,
    changes: &mut Vec<Change>,
    people: &People,
    org: &Text,
    user: &Text,
) -> Result<(), AllocError>
    requires { IsAscending membership_cmp people.now.people.roles }
    ensures { OnOk result (changes.new.items ≡ changes.old.items
        ++ org_changes org.now people.now.people (without_role org.now user.now people.now.people)) }
{
    let own = memberships_in(people.memberships(), org);
    let roles = without_user(alloc, own, user)?;
    push_roles(alloc, changes, people, org, roles.as_slice())
}

/// Adds what changes in the row of the organization of that name where these are the roles in it afterwards.
fn push_roles(
    alloc: Global,
    changes: &mut Vec<Change>,
    people: &People,
    name: &Text,
    roles: &[Membership],
) -> Result<(), AllocError>
    requires { IsAscending membership_cmp people.now.people.roles }
    ensures { OnOk result (changes.new.items ≡ changes.old.items
        ++ changes_between RowKind.Org name.now (org_body name.now people.now.people)
        (org_body_with roles.now (org_in people.now.people name.now))) }
{
    let own = memberships_in(people.memberships(), name);
    let before = org_body(alloc, people.org(name), own)?;
    let after = org_body(alloc, people.org(name), roles)?;
    let key = name.try_clone(alloc)?;
    push_between(changes, RowKind::Org, key, before, after)
}

/// The body of the row of an organization in which these are the roles, if there is one.
fn org_body(
    alloc: Global,
    org: Option<&Org>,
    roles: &[Membership],
) -> Result<Option<Text>, AllocError>
    ensures { IfOk result (λ body. body ≡ org_body_with roles.now (option_copied org.entry)) }
{
    match org {
        Some(org) => {
            let row = org_row(alloc, org, roles)?;
            Ok(Some(row.body))
        }
        None => Ok(None),
    }
}

/// The role of the user in the organization.
fn membership(alloc: Global, org: &Text, user: &Text, role: Role) -> Result<Membership, AllocError>
    ensures { IfOk result (λ made. made ≡ record { org = org.now; user = user.now; role = role }) }
{
    let org = org.try_clone(alloc)?;
    let user = user.try_clone(alloc)?;
    Ok(Membership { org, user, role })
}

/// The roles with this one, in place of the one of its organization and user, if there is one.
fn with_role(
    alloc: Global,
    roles: &[Membership],
    role: Membership,
) -> Result<Vec<Membership>, AllocError>
    requires { IsAscending membership_cmp roles.now }
    ensures { IfOk result (λ changed. changed.items ≡ upserted membership_cmp role roles.now) }
{
    let mut changed = copied(alloc, roles)?;
    reserve(&mut changed)?;
    replace_or_put(&mut changed, role);
    Ok(changed)
}

/// The roles of other users than this one.
fn without_user(
    alloc: Global,
    roles: &[Membership],
    user: &Text,
) -> Result<Vec<Membership>, AllocError>
    ensures { IfOk result (λ others. others.items ≡ filter (λ m. not (bytes_eq m.user user.now)) roles.now) }
{
    let mut others = copied(alloc, roles)?;
    drop_user(&mut others, user);
    Ok(others)
}

/// Drops the roles of the user.
fn drop_user(roles: &mut Vec<Membership>, user: &Text)
    ensures { roles.new.items ≡ filter (λ m. not (bytes_eq m.user user.now)) roles.old.items }
{
    roles.retain(|role| !is_of(role, user));
}

/// Whether it is a role of the user.
fn is_of(role: &Membership, user: &Text) -> bool
    ensures { result ≡ bytes_eq role.now.user user.now }
{
    role.user.as_str() == user.as_str()
}

/// A copy of the roles.
fn copied(alloc: Global, roles: &[Membership]) -> Result<Vec<Membership>, AllocError>
    ensures { IfOk result (λ copy. copy.items ≡ roles.now) }
{
    let mut copy = Vec::with_capacity(alloc, roles.len())?;
    for role in roles {
        copy.push(role.try_clone(alloc)?)?;
    }
    Ok(copy)
}
