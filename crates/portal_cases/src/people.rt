//! Users and their roles. In the cases of rights a user is named by the role in the organization `city`; `editor
//! elsewhere` edits in `lake`.
use cases::invalid;
use org_roles::entry::{Membership, User};
use org_roles::people::{People, names_are_distinct, org_names_are_distinct, pairs_are_distinct};
use org_roles::role::Role;
use portal_base::caller::Caller;
use portal_base::seq::Seq;
use portal_base::text::Text;
use std::alloc::{AllocError, Global};
use std::io;

const USERS: [&str; 7] = [
    "member",
    "editor",
    "admin",
    "stranger",
    "maker",
    "editor elsewhere",
    "sysadmin",
];

const ROLES: [(&str, &str, Role); 4] = [
    ("city", "member", Role::Member),
    ("city", "editor", Role::Editor),
    ("city", "admin", Role::Admin),
    ("lake", "editor elsewhere", Role::Editor),
];

/// The users of these names, of which one is a sysadmin.
pub fn users_of(
    alloc: Global,
    names: &[&'static str],
    sysadmin: &str,
) -> Result<Seq<User>, AllocError> {
    let mut users = Vec::new(alloc);
    for name in names {
        users.push(User {
            name: Text::from_static(name),
            sysadmin: *name == sysadmin,
        })?;
    }
    Ok(Seq::from(users))
}

/// The roles, each with its organization and user.
pub fn memberships_of(
    alloc: Global,
    roles: &[(&'static str, &'static str, Role)],
) -> Result<Seq<Membership>, AllocError> {
    let mut memberships = Vec::new(alloc);
    for (org, user, role) in roles {
        memberships.push(Membership {
            org: Text::from_static(org),
            user: Text::from_static(user),
            role: *role,
        })?;
    }
    Ok(Seq::from(memberships))
}

/// The users of the cases of rights, with their roles.
pub fn people_of(alloc: Global) -> io::Result<People> {
    let users = users_of(alloc, &USERS, "sysadmin")?;
    let orgs = Seq::new(alloc);
    let roles = memberships_of(alloc, &ROLES)?;
    if names_are_distinct(users.as_slice())
        && org_names_are_distinct(orgs.as_slice())
        && pairs_are_distinct(roles.as_slice())
    {
        Ok(People::of_lists(users, orgs, roles))
    } else {
        Err(invalid())
    }
}

/// The user of that name; nobody for `nobody`.
pub fn caller_of(alloc: Global, name: &str) -> Result<Caller, AllocError> {
    match name {
        "nobody" => Ok(Caller::Anonymous),
        _ => Ok(Caller::Named(Text::from_str(alloc, name)?)),
    }
}
