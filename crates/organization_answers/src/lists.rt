//! The lists in replies to calls on organizations, their members and users.
ghost use Rattle.std.specs.Prelude.{◌≡◌, ◌++◌, [], IfOk, OnOk, IsTrue, true, false, filter, map};
ghost use Rattle.std.specs.List.{filter_map, cons_option};
ghost use Rattle.std.specs.Str.{bytes_eq};
ghost use Rattle.portal_base.specs.declared.json_value.Json as json;
ghost use Rattle.visibility.specs.CallView.{context_view};
ghost use Rattle.visibility.specs.View.{administers};
ghost use Rattle.organization_answers.specs.Answers.{capacity, capacity_item, organization_item};
ghost use Rattle.organization_answers.specs.Dictionary.{member_entry};

use crate::dictionary::{capacity_json, counted_json, member_entry_json};
use org_roles::entry::{Membership, Org, User};
use org_roles::role::Role;
use packages::owners::count_at;
use portal_base::copy::TryClone;
use portal_base::json_value::Json;
use portal_base::seq::Seq;
use portal_base::text::Text;
use std::alloc::{AllocError, Global};
use visibility::context::CallContext;

/// The members of an organization that the caller administers, ordered by user.
#[tactic(auto, using(visibility::proofs::ViewLemmas::members_seen))]
pub fn members_json(
    alloc: Global,
    context: &CallContext<'_>,
    org: &Text,
) -> Result<Seq<Json>, AllocError>
    requires { IsTrue (administers (context_view context.now).people context.now.viewer.caller org.now) }
    ensures { IfOk result (λ list. list
        ≡ map member_entry (filter (λ m. bytes_eq m.org org.now) (context_view context.now).people.roles)) }
{
    member_entries_json(alloc, context.viewer.memberships(), org)
}

/// The entries of those memberships that are in the organization.
fn member_entries_json(
    alloc: Global,
    memberships: &[Membership],
    org: &Text,
) -> Result<Seq<Json>, AllocError>
    ensures { IfOk result (λ list. list
        ≡ map member_entry (filter (λ m. bytes_eq m.org org.now) memberships.now)) }
{
    let mut list = Vec::new(alloc);
    for membership in memberships {
        if membership.org == *org {
            list.push(member_entry_json(alloc, membership)?)?;
        }
    }
    Ok(Seq::from(list))
}

/// The dictionaries of the organizations, ordered by name. Their datasets are counted in one walk.
pub fn organizations_json(alloc: Global, context: &CallContext<'_>) -> Result<Seq<Json>, AllocError>
    ensures { IfOk result (λ list. list
        ≡ map (organization_item true (context_view context.now).datasets) (context_view context.now).people.orgs) }
{
    let counts = context.viewer.public_counts(alloc)?;
    let mut list = Vec::new(alloc);
    for org in context.viewer.orgs() {
        let count = count_at(&counts, &org.name);
        list.push(counted_json(alloc, org, count)?)?;
    }
    Ok(Seq::from(list))
}

/// The organizations' names, in order.
pub fn names_json(alloc: Global, context: &CallContext<'_>) -> Result<Seq<Json>, AllocError>
    ensures { IfOk result (λ list. list
        ≡ map (organization_item false (context_view context.now).datasets) (context_view context.now).people.orgs) }
{
    let mut list = Vec::new(alloc);
    for org in context.viewer.orgs() {
        list.push(Json::Text(org.name.try_clone(alloc)?))?;
    }
    Ok(Seq::from(list))
}

/// The caller's capacity in an organization: a sysadmin administers every one.
fn capacity(context: &CallContext<'_>, org: &Text) -> Option<Role>
    ensures { result ≡ capacity (context_view context.now) org.now }
{
    if context.viewer.is_sysadmin() {
        Some(Role::Admin)
    } else {
        context.viewer.role(org)
    }
}

/// The dictionary of an organization with the caller's capacity in it, if there is one.
fn capacity_item(
    alloc: Global,
    context: &CallContext<'_>,
    org: &Org,
) -> Result<Option<Json>, AllocError>
    ensures { IfOk result (λ item. item ≡ capacity_item (context_view context.now) org.now) }
{
    match capacity(context, &org.name) {
        Some(role) => Ok(Some(capacity_json(alloc, org, role)?)),
        None => Ok(None),
    }
}

/// The dictionaries of the organizations in which the caller has a capacity, with that capacity, ordered by name.
pub fn capacities_json(alloc: Global, context: &CallContext<'_>) -> Result<Seq<Json>, AllocError>
    ensures { IfOk result (λ list. list
        ≡ filter_map (capacity_item (context_view context.now)) (context_view context.now).people.orgs) }
{
    let mut list = Vec::new(alloc);
    for org in context.viewer.orgs() {
        let item = capacity_item(alloc, context, org)?;
        push_some(&mut list, item)?;
    }
    Ok(Seq::from(list))
}

/// Adds an item, if there is one.
fn push_some(list: &mut Vec<Json>, item: Option<Json>) -> Result<(), AllocError>
    ensures { OnOk result (list.new.items ≡ list.old.items ++ cons_option item []) }
{
    if let Some(item) = item {
        list.push(item)?;
    }
    Ok(())
}

/// The users' names, in order.
#[tactic(auto, using(crate::proofs::Listing::user_names_seen))]
pub fn users_json(alloc: Global, context: &CallContext<'_>) -> Result<Seq<Json>, AllocError>
    ensures { IfOk result (λ list. list ≡ map (λ user. json.Text user.name) (context_view context.now).people.users) }
{
    user_names_json(alloc, context.viewer.users())
}

fn user_names_json(alloc: Global, users: &[User]) -> Result<Seq<Json>, AllocError>
    ensures { IfOk result (λ list. list ≡ map (λ user. json.Text user.name) users.now) }
{
    let mut list = Vec::with_capacity(alloc, users.len())?;
    for user in users {
        list.push(Json::Text(user.name.try_clone(alloc)?))?;
    }
    Ok(Seq::from(list))
}
