//! The portal that each file of calls begins with: five users, and the organization `city`.
ghost use Rattle.std.specs.Prelude.{◌≡◌, IsTrue};
ghost use Rattle.std.specs.List.{list_any};
ghost use Rattle.std.specs.Str.{bytes_eq};
ghost use Rattle.portal_state.specs.Opened.{is_opening, are_named, have_orgs};

use crate::people::{memberships_of, users_of};
use cases::invalid;
use org_roles::entry::{Membership, Org};
use org_roles::people::{names_are_distinct, org_names_are_distinct, pairs_are_distinct};
use org_roles::role::Role;
use portal_base::moment::Moment;
use portal_base::seq::Seq;
use portal_base::text::Text;
use portal_core::portal::{Opening, Portal};
use portal_keeper::memory::MemoryKeeper;
use std::alloc::{AllocError, Global};
use std::io::{self, ErrorKind};

const USERS: [&str; 5] = ["ann", "bob", "cyn", "dan", "root"];

const ROLES: [(&str, &str, Role); 3] = [
    ("city", "ann", Role::Editor),
    ("city", "bob", Role::Member),
    ("city", "cyn", Role::Admin),
];

fn orgs(alloc: Global, created: Moment) -> Result<Seq<Org>, AllocError> {
    let city = Org {
        name: Text::from_static("city"),
        title: Text::from_static("City"),
        description: Text::new(alloc),
        created,
    };
    Ok(Seq::from(vec![in alloc; city]?))
}

/// Whether each organization has a name that isn't empty.
fn orgs_are_named(orgs: &[Org]) -> bool
    ensures { result ≡ are_named orgs.now }
{
    orgs.iter().all(|org| org.name.len() > 0)
}

/// Whether the role is in one of the organizations.
fn has_org(orgs: &[Org], role: &Membership) -> bool
    ensures { result ≡ list_any (λ org. bytes_eq org.name role.now.org) orgs.now }
{
    orgs.iter().any(|org| org.name == role.org)
}

/// Whether each role is in one of the organizations.
fn roles_have_orgs(orgs: &[Org], roles: &[Membership]) -> bool
    ensures { result ≡ have_orgs orgs.now roles.now }
{
    roles.iter().all(|role| has_org(orgs, role))
}

/// Whether a portal may be opened so.
fn is_sound(opening: &Opening) -> bool
    ensures { result ≡ is_opening opening.now }
{
    names_are_distinct(opening.users.as_slice())
        && org_names_are_distinct(opening.orgs.as_slice())
        && pairs_are_distinct(opening.roles.as_slice())
        && orgs_are_named(opening.orgs.as_slice())
        && roles_have_orgs(opening.orgs.as_slice(), opening.roles.as_slice())
}

fn opening_at(alloc: Global, created: Moment) -> Result<Opening, AllocError> {
    Ok(Opening {
        users: users_of(alloc, &USERS, "root")?,
        orgs: orgs(alloc, created)?,
        roles: memberships_of(alloc, &ROLES)?,
    })
}

/// A portal that is opened so, unless memory runs out.
fn portal_of(alloc: Global, opening: &Opening) -> Option<Portal<MemoryKeeper>>
    requires { IsTrue (is_opening opening.now) }
{
    let keeper = MemoryKeeper::new(alloc, Seq::new(alloc), Seq::new(alloc));
    Portal::open(alloc, keeper, opening).ok()
}

/// A portal with these people and no dataset.
pub fn opened(alloc: Global) -> io::Result<Portal<MemoryKeeper>> {
    let Some(created) = Moment::from_seconds(0) else {
        return Err(invalid());
    };
    let opening = opening_at(alloc, created)?;
    if !is_sound(&opening) {
        return Err(invalid());
    }
    let portal = portal_of(alloc, &opening);
    portal.ok_or(io::Error::from(ErrorKind::OutOfMemory))
}
