//! The dictionaries of organizations, roles and users.
ghost use Rattle.std.specs.Prelude.{◌≡◌, IfOk, List};
ghost use Rattle.packages.specs.declared.package.Package.{Package};
ghost use Rattle.organization_answers.specs.Dictionary.{role_name, organization_dictionary, capacity_dictionary};
ghost use Rattle.organization_answers.specs.Dictionary.{AreCountsOf, counted_dictionary};
ghost use Rattle.organization_answers.specs.Dictionary.{member_dictionary, member_entry};
ghost use Rattle.visibility.specs.CallView.{context_view};

use org_roles::entry::{Membership, Org};
use org_roles::role::Role;
use portal_base::copy::TryClone;
use portal_base::dictionary::Value;
use portal_base::json_value::Json;
use portal_base::seq::Seq;
use portal_base::text::Text;
use std::alloc::{AllocError, Global};
use visibility::context::CallContext;
use visibility::public_counts::PublicCounts;

/// The name of a role.
pub fn name_of_role(role: Role) -> &'static str
    ensures { result.now ≡ role_name role }
{
    match role {
        Role::Member => "member",
        Role::Editor => "editor",
        Role::Admin => "admin",
    }
}

/// The dictionary of an organization, with the count of its public datasets.
pub fn organization_json<C: PublicCounts>(
    alloc: Global,
    counts: &C,
    org: &Org,
) -> Result<Json, AllocError>
    ensures { (datasets : List Package) → AreCountsOf datasets (C.counts counts.now) →
        IfOk result (λ json. json ≡ organization_dictionary datasets org.now) }
{
    counted_json(alloc, org, counts.public_count(&org.name) as usize)
}

/// The dictionary of an organization with this count of public datasets.
pub fn counted_json(alloc: Global, org: &Org, count: usize) -> Result<Json, AllocError>
    ensures { IfOk result (λ json. json ≡ counted_dictionary count org.now) }
{
    Json::dictionary(
        alloc,
        [
            ("created", Value::Moment(org.created)),
            ("description", Value::Text(&org.description)),
            ("id", Value::Text(&org.name)),
            ("name", Value::Text(&org.name)),
            ("package_count", Value::Whole(count)),
            ("title", Value::Text(&org.title)),
            ("type", Value::Static("organization")),
        ],
    )
}

/// The dictionary of an organization with the caller's capacity in it.
pub fn capacity_json(alloc: Global, org: &Org, role: Role) -> Result<Json, AllocError>
    ensures { IfOk result (λ json. json ≡ capacity_dictionary org.now role) }
{
    Json::dictionary(
        alloc,
        [
            ("capacity", Value::Static(name_of_role(role))),
            ("id", Value::Text(&org.name)),
            ("name", Value::Text(&org.name)),
            ("title", Value::Text(&org.title)),
        ],
    )
}

/// The dictionary of a user's capacity in an organization.
pub fn member_json<'a>(
    alloc: Global,
    org: &'a Text,
    user: &'a Text,
    role: Role,
) -> Result<Json, AllocError>
    ensures { IfOk result (λ json. json ≡ member_dictionary org.now user.now role) }
{
    Json::dictionary(
        alloc,
        [
            ("capacity", Value::Static(name_of_role(role))),
            ("id", Value::Text(org)),
            ("username", Value::Text(user)),
        ],
    )
}

/// A member in the list of an organization's members: the user, the word `user` and the role.
pub fn member_entry_json(alloc: Global, membership: &Membership) -> Result<Json, AllocError>
    ensures { IfOk result (λ json. json ≡ member_entry membership.now) }
{
    let mut entry = Vec::with_capacity(alloc, 3)?;
    entry.push(Json::Text(membership.user.try_clone(alloc)?))?;
    entry.push(Json::Text(Text::from_static("user")))?;
    entry.push(Json::Text(Text::from_static(name_of_role(membership.role))))?;
    Ok(Json::List(Seq::from(entry)))
}
