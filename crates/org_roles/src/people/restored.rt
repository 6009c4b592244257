//! The people restored from stored lists that are consistent with each other.
ghost use Rattle.std.specs.Prelude.{◌≡◌, IsTrue, IfOk, IfSome, is_some};
ghost use Rattle.std.specs.List.{list_all};
ghost use Rattle.org_roles.specs.Distinct.{is_org_name_among, have_distinct_names};
ghost use Rattle.org_roles.specs.Restored.{memberships_of, is_restorable, people_of};

use super::{People, org_names_are_distinct, pairs_are_distinct};
use crate::entry::{Membership, Org, User};
use crate::role::Role;
use portal_base::seq::Seq;
use portal_base::text::Text;
use std::alloc::{AllocError, Global};

impl People {
    /// The people with these users, organizations and roles. A role is given as organization, user and role. The
    /// result is None exactly if an organization's name repeats, a role's organization doesn't exist, or a pair of
    /// organization and user repeats. A role's user needn't exist.
    pub fn restore(
        alloc: Global,
        users: Seq<User>,
        orgs: Seq<Org>,
        roles: Seq<(Text, Text, Role)>,
    ) -> Result<Option<People>, AllocError>
        requires { IsTrue (have_distinct_names users) }
        ensures exact { IfOk result (λ restored. is_some restored ≡ is_restorable orgs (memberships_of roles)) }
        ensures people { IfOk result (λ restored. IfSome restored (λ people.
            people.people ≡ people_of users orgs (memberships_of roles))) }
    {
        let roles = memberships(alloc, roles)?;
        if is_restorable(orgs.as_slice(), roles.as_slice()) {
            Ok(Some(People::of_lists(users, orgs, roles)))
        } else {
            Ok(None)
        }
    }
}

/// Whether the organizations and the roles are consistent: no name and no pair repeats, and each role is in one of the
/// organizations.
pub fn is_restorable(orgs: &[Org], roles: &[Membership]) -> bool
    ensures { result ≡ is_restorable orgs.now roles.now }
{
    org_names_are_distinct(orgs) && are_in_orgs(orgs, roles) && pairs_are_distinct(roles)
}

/// Whether each role is in one of the organizations.
fn are_in_orgs(orgs: &[Org], roles: &[Membership]) -> bool
    ensures { result ≡ list_all (λ role. is_org_name_among orgs.now role.org) roles.now }
{
    roles.iter().all(|role| is_org_name_among(orgs, &role.org))
}

/// Whether one of the organizations has that name.
fn is_org_name_among(orgs: &[Org], name: &Text) -> bool
    ensures { result ≡ is_org_name_among orgs.now name.now }
{
    orgs.iter().any(|org| org.name == *name)
}

/// The memberships of these organizations, users and roles.
fn memberships(alloc: Global, roles: Seq<(Text, Text, Role)>) -> Result<Seq<Membership>, AllocError>
    ensures { IfOk result (λ memberships. memberships ≡ memberships_of roles) }
{
    let memberships: Vec<Membership> = roles
        .into_vec()
        .into_iter()
        .map(|(org, user, role)| Membership { org, user, role })
        .collect(alloc)?;
    Ok(Seq::from(memberships))
}
