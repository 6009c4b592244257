//! Passes that act in turn on a portal.
use crate::calls::{SYSADMIN, create_organization, list_datasets};
use crate::crowd::{Entries, after_crowd};
use crate::pair::after_pair;
use org_roles::entry::User;
use org_roles::people::names_are_distinct;
use portal_base::json_value::Json;
use portal_base::moment::Moment;
use portal_base::seq::Seq;
use portal_base::text::Text;
use portal_core::portal::{Opening, Portal};
use portal_events::{Event, Reply};
use portal_keeper::memory::MemoryKeeper;
use std::alloc::{AllocError, Global};
use std::test::Fail;

/// The sysadmin alone.
fn users(alloc: Global) -> Result<Seq<User>, AllocError> {
    let user = User {
        name: Text::from_static(SYSADMIN),
        sysadmin: true,
    };
    Ok(Seq::from(Vec::from_array(alloc, [user])?))
}

/// A portal with a sysadmin alone.
fn portal_with_sysadmin(alloc: Global) -> Result<Portal<MemoryKeeper>, Fail> {
    let opening = Opening {
        users: users(alloc)?,
        orgs: Seq::new(alloc),
        roles: Seq::new(alloc),
    };
    if !names_are_distinct(opening.users.as_slice()) {
        return Err("a name twice")?;
    }
    let keeper = MemoryKeeper::new(alloc, Seq::new(alloc), Seq::new(alloc));
    let opened = Portal::open(alloc, keeper, &opening).ok();
    Ok(opened.ok_or("no portal")?)
}

/// Whether the portal accepts the event.
fn accepts(portal: &mut Portal<MemoryKeeper>, event: &Event) -> bool {
    let reply = portal.act(event);
    matches!(reply, Reply::Accepted(_))
}

/// A portal with a sysadmin, an organization, and no dataset.
fn opened(alloc: Global, moment: Moment) -> Result<Portal<MemoryKeeper>, Fail> {
    let event = create_organization(alloc, moment)?;
    let mut portal = portal_with_sysadmin(alloc)?;
    if !accepts(&mut portal, &event) {
        return Err("no organization")?;
    }
    Ok(portal)
}

/// The count of names that the portal lists at last, if it shows a list.
fn listed(alloc: Global, portal: Portal<MemoryKeeper>, moment: Moment) -> Option<usize> {
    let mut portal = portal;
    let reply = portal.act(&list_datasets(alloc, moment));
    match &reply {
        Reply::Shown(Json::List(names)) => Some(names.len()),
        _ => None,
    }
}

// What the portal lists is found before anything is asserted, so that no test holds the portal where it may end.
#[test]
fn two_passes_and_one_history(rt: HostRuntime) -> Result<(), Fail> {
    let alloc = rt.alloc();
    let moment = Moment::from_seconds(0).ok_or("no moment")?;
    let portal = opened(alloc, moment)?;
    let after = after_pair(&rt, alloc, portal, moment);
    let (portal, accepted, is_one_history) = after.ok_or("no hall")?;
    let listed = listed(alloc, portal, moment);
    assert!(rt; is_one_history && accepted == 1 && listed == Some(1));
    Ok(())
}

#[test]
fn four_threads_and_one_history(rt: HostRuntime) -> Result<(), Fail> {
    let alloc = rt.alloc();
    let moment = Moment::from_seconds(0).ok_or("no moment")?;
    let entries = Entries::new();
    let portal = opened(alloc, moment)?;
    let after = after_crowd(&rt, alloc, portal, moment, &entries);
    let (portal, accepted) = after.ok_or("no hall")?;
    let listed = listed(alloc, portal, moment);
    assert!(rt; entries.are_shared_out() && accepted == 100 && listed == Some(100));
    Ok(())
}
