//! People put together from lists.
use org_roles::entry::{Org, User};
use org_roles::people::{People, names_are_distinct};
use org_roles::role::Role;
use portal_base::moment::Moment;
use portal_base::seq::Seq;
use portal_base::text::Text;
use std::alloc::{AllocError, Global};
use std::test::Fail;

/// Two users, the later name first.
fn users(alloc: Global) -> Result<Seq<User>, AllocError> {
    let mut users = Vec::new(alloc);
    for name in ["root", "ann"] {
        users.push(User {
            name: Text::from_static(name),
            sysadmin: name == "root",
        })?;
    }
    Ok(Seq::from(users))
}

/// Two organizations, the later name first.
fn orgs(alloc: Global, created: Moment) -> Result<Seq<Org>, AllocError> {
    let mut orgs = Vec::new(alloc);
    for name in ["lake", "city"] {
        orgs.push(Org {
            name: Text::from_static(name),
            title: Text::from_static(name),
            description: Text::new(alloc),
            created,
        })?;
    }
    Ok(Seq::from(orgs))
}

/// Two roles in that organization, the later user first.
fn roles(alloc: Global, org: &'static str) -> Result<Seq<(Text, Text, Role)>, AllocError> {
    let mut roles = Vec::new(alloc);
    for user in ["root", "ann"] {
        roles.push((
            Text::from_static(org),
            Text::from_static(user),
            Role::Member,
        ))?;
    }
    Ok(Seq::from(roles))
}

/// The people of these lists, if they fit one another.
fn restored(alloc: Global, org: &'static str) -> Result<Option<People>, Fail> {
    let created = Moment::from_seconds(0).ok_or("no moment")?;
    let users = users(alloc)?;
    if !names_are_distinct(users.as_slice()) {
        return Err("equal names")?;
    }
    Ok(People::restore(alloc, users, orgs(alloc, created)?, roles(alloc, org)?)?)
}

#[test]
fn lists_are_restored_in_order(rt: HostRuntime) -> Result<(), Fail> {
    let people = restored(rt.alloc(), "city")?.ok_or("no people")?;
    let mut names = people.users().iter().map(|user| user.name.as_str());
    assert!(rt; names.next() == Some("ann"));
    let mut orgs = people.orgs().iter().map(|org| org.name.as_str());
    assert!(rt; orgs.next() == Some("city"));
    let mut roles = people.memberships().iter().map(|role| role.user.as_str());
    assert!(rt; roles.next() == Some("ann"));
    Ok(())
}

#[test]
fn lists_that_do_not_fit_are_not_restored(rt: HostRuntime) -> Result<(), Fail> {
    assert!(rt; restored(rt.alloc(), "town")?.is_none());
    Ok(())
}
