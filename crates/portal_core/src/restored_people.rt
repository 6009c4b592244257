//! People who are read back from values of a store.
ghost use Rattle.std.specs.Prelude.{◌≡◌, ◌≢◌, ◌↔◌, [], All, IfNone, IfOk, IfSome, IsTrue, map};
ghost use Rattle.std.specs.List.{flat_map};
ghost use Rattle.org_roles.specs.Distinct.{have_distinct_names};
ghost use Rattle.org_roles.specs.Order.{user_cmp};
ghost use Rattle.portal_base.specs.Ordered.{IsAscending, ascending};
ghost use Rattle.portal_rows.specs.KeptValues.{kept_org_cmp};
ghost use Rattle.portal_rows.specs.OrgRows.{IsOrgWithRoles};
ghost use Rattle.portal_core.specs.Restored.{ArePeopleOf};

use org_roles::entry::{Membership, Org, User};
use org_roles::people::People;
use portal_base::seq::Seq;
use portal_rows::org_reading::OrgWithRoles;
use std::alloc::{AllocError, Global};

/// The people with these users, whose organizations with their roles are the kept ones. The result is `None` exactly if
/// an organization's name is empty.
pub(crate) fn people_of_values(
    alloc: Global,
    users: Seq<User>,
    kept: Seq<OrgWithRoles>,
) -> Result<Option<People>, AllocError>
    requires users { IsTrue (have_distinct_names users) }
    requires kept { All IsOrgWithRoles kept }
    requires ascend { IsAscending kept_org_cmp kept }
    ensures people { IfOk result (λ found. IfSome found (λ people. ArePeopleOf kept people.people)) }
    ensures users { IfOk result (λ found. IfSome found (λ people. people.people.users ≡ ascending user_cmp users)) }
    ensures none { IfOk result (λ found. IfNone found (All (λ o. o.org.name ≢ []) kept → ⊥)) }
{
    if !are_named(kept.as_slice()) {
        return Ok(None);
    }
    let (orgs, roles) = parted(alloc, kept)?;
    Ok(Some(People::of_lists(users, orgs, roles)))
}

/// Whether each organization has a name.
fn are_named(kept: &[OrgWithRoles]) -> bool
    ensures { IsTrue result ↔ All (λ o. o.org.name ≢ []) kept.now }
{
    kept.iter().all(|one| !one.org.name.is_empty())
}

/// The organizations, and the roles in all of them. Nothing is copied.
fn parted(alloc: Global, kept: Seq<OrgWithRoles>) -> Result<(Seq<Org>, Seq<Membership>), AllocError>
    ensures orgs { IfOk result (λ parts. parts.0 ≡ map (λ o. o.org) kept) }
    ensures roles { IfOk result (λ parts. parts.1 ≡ flat_map (λ o. o.roles) kept) }
{
    let mut orgs = Vec::with_capacity(alloc, kept.len())?;
    let mut roles = Vec::new(alloc);
    for one in kept.into_vec() {
        let OrgWithRoles { org, roles: own } = one;
        let mut own = own.into_vec();
        orgs.push(org)?;
        roles.append(&mut own)?;
    }
    Ok((Seq::from(orgs), Seq::from(roles)))
}
