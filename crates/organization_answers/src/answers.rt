//! The answers to calls on organizations, their members and users.
//!
//! Each function finds the thing, checks the right, reads the body and gives the change. Its answer is a function of
//! the call and of the caller's view, to which the sources of harvests belong. A refusal stops it.
ghost use Rattle.std.specs.Prelude.{◌≡◌, IfOk, IsTrue, false, unwrap_or};
ghost use Rattle.std.specs.Option.{option_flatten};
ghost use Rattle.portal_calls.specs.Stop.{Answers, Finds};
ghost use Rattle.visibility.specs.View.{administers};
ghost use Rattle.visibility.specs.CallView.{context_view};
ghost use Rattle.harvest_sources.specs.Sources.{states};
ghost use Rattle.organization_answers.specs.Answers.{answer_to_action};
ghost use Rattle.organization_answers.specs.Answers.{answer_to_organization_create, answer_to_organization_patch};
ghost use Rattle.organization_answers.specs.Answers.{answer_to_organization_delete, answer_to_organization_show};
ghost use Rattle.organization_answers.specs.Answers.{answer_to_member_create, answer_to_member_delete};
ghost use Rattle.organization_answers.specs.Answers.{organization_named, administered_organization};
ghost use Rattle.organization_answers.specs.Answers.{answer_to_member_list, answer_to_organization_list};
ghost use Rattle.organization_answers.specs.Answers.{answer_to_organization_list_for_user, answer_to_user_list};
ghost use Rattle.organization_answers.specs.Dictionary.{AreCountsOf, member_dictionary};
ghost use Rattle.organization_answers.specs.Owners.{owners_for, owners_of, owners_seen};

use crate::bodies::{read_creation, read_former_member, read_member, read_patch, removal_errors};
use crate::dictionary::{member_json, organization_json};
use crate::lists::{capacities_json, members_json, names_json, organizations_json, users_json};
use harvest_sources::SourceJobs;
use org_roles::change::OrgChange;
use org_roles::entry::Org;
use org_roles::role::Role;
use portal_base::copy::TryClone;
use portal_base::json_value::Json;
use portal_base::key_errors::KeyErrors;
use portal_base::kinds::truth_at;
use portal_base::text::Text;
use portal_calls::answer::{Answer, Denial, Kind, Right, key_denial, required_text};
use portal_calls::stop::{Stop, answer_or_refusal, authorize, validate, validate_change};
use portal_calls::topic::OrganizationAction;
use std::alloc::{AllocError, Global};
use visibility::context::CallContext;
use visibility::public_counts::PublicCounts;

/// The answer to a call of this action. An organization's count of public datasets is one of these counts. `sources`
/// are all sources of the portal; the answer depends only on those that the caller sees.
pub fn answer<C: PublicCounts>(
    alloc: Global,
    context: &CallContext<'_>,
    counts: &C,
    sources: &[SourceJobs],
    action: OrganizationAction,
) -> Result<Answer<OrgChange>, AllocError>
    requires { AreCountsOf (context_view context.now).datasets (C.counts counts.now) }
    ensures { IfOk result (λ answer. answer ≡ answer_to_action action (context_view context.now)
        (owners_seen context.now.viewer.caller (context_view context.now).people (owners_of (states sources.now)))) }
{
    answer_or_refusal(answer_to_action(alloc, context, counts, sources, action))
}

/// The answer to a call of this action, or the stop before it.
fn answer_to_action<C: PublicCounts>(
    alloc: Global,
    context: &CallContext<'_>,
    counts: &C,
    sources: &[SourceJobs],
    action: OrganizationAction,
) -> Result<Answer<OrgChange>, Stop>
    requires { AreCountsOf (context_view context.now).datasets (C.counts counts.now) }
    ensures { Answers result
        (answer_to_action action (context_view context.now) (owners_for context.now sources.now)) }
{
    match action {
        OrganizationAction::OrganizationCreate => organization_create(alloc, context, counts),
        OrganizationAction::OrganizationPatch => organization_patch(alloc, context, counts),
        OrganizationAction::OrganizationDelete => organization_delete(alloc, context, sources),
        OrganizationAction::OrganizationShow => organization_show(alloc, context, counts),
        OrganizationAction::OrganizationList => organization_list(alloc, context),
        OrganizationAction::OrganizationListForUser => organization_list_for_user(alloc, context),
        OrganizationAction::OrganizationMemberCreate => member_create(alloc, context),
        OrganizationAction::OrganizationMemberDelete => member_delete(alloc, context),
        OrganizationAction::MemberList => member_list(alloc, context),
        OrganizationAction::UserList => user_list(alloc, context),
    }
}

/// The answer to an `organization_create`.
fn organization_create<C: PublicCounts>(
    alloc: Global,
    context: &CallContext<'_>,
    counts: &C,
) -> Result<Answer<OrgChange>, Stop>
    requires { AreCountsOf (context_view context.now).datasets (C.counts counts.now) }
    ensures { Answers result (answer_to_organization_create (context_view context.now)) }
{
    authorize(context.viewer.is_sysadmin(), Right::CreateOrganization)?;
    let (faults, org) = read_creation(alloc, &context.call.request.body, context.call.moment)?;
    validate_change(context.quota, faults)?;
    let shown = organization_json(alloc, counts, &org)?;
    Ok(Answer::Accepted(shown, OrgChange::Create(org)))
}

// ---- the organization that a call names

/// The organization that the key `id` names.
fn organization_named<'a>(alloc: Global, context: &CallContext<'a>) -> Result<&'a Org, Stop>
    ensures { Finds result (λ org. org.now) (organization_named (context_view context.now)) }
{
    match required_text(&context.call.request.body, "id") {
        Ok(name) => match context.viewer.org(name) {
            Some(org) => Ok(org),
            None => Err(Stop::Refused(Denial::NotFound(Kind::Organization))),
        },
        Err(fault) => Err(Stop::Refused(key_denial(alloc, "id", fault)?)),
    }
}

/// The organization that the key `id` names, which the caller administers.
fn administered_organization<'a>(alloc: Global, context: &CallContext<'a>) -> Result<&'a Org, Stop>
    ensures found { Finds result (λ org. org.now) (administered_organization (context_view context.now)) }
    ensures own { IfOk result (λ org.
        IsTrue (administers (context_view context.now).people context.now.viewer.caller org.now.name)) }
{
    let org = organization_named(alloc, context)?;
    authorize(
        context.viewer.administers(&org.name),
        Right::AdministerOrganization,
    )?;
    Ok(org)
}

// ---- organizations

/// The answer to an `organization_patch`.
fn organization_patch<C: PublicCounts>(
    alloc: Global,
    context: &CallContext<'_>,
    counts: &C,
) -> Result<Answer<OrgChange>, Stop>
    requires { AreCountsOf (context_view context.now).datasets (C.counts counts.now) }
    ensures { Answers result (answer_to_organization_patch (context_view context.now)) }
{
    let org = administered_organization(alloc, context)?;
    let (faults, patched) = read_patch(alloc, &context.call.request.body, org)?;
    validate_change(context.quota, faults)?;
    let shown = organization_json(alloc, counts, &patched)?;
    Ok(Answer::Accepted(shown, OrgChange::Patch(patched)))
}

/// The answer to an `organization_delete`.
fn organization_delete(
    alloc: Global,
    context: &CallContext<'_>,
    sources: &[SourceJobs],
) -> Result<Answer<OrgChange>, Stop>
    ensures { Answers result
        (answer_to_organization_delete (context_view context.now) (owners_for context.now sources.now)) }
{
    let org = administered_organization(alloc, context)?;
    let faults = removal_errors(alloc, context, sources, &org.name)?;
    validate_change(context.quota, faults)?;
    let name = org.name.try_clone(alloc)?;
    Ok(Answer::Accepted(Json::Null, OrgChange::Remove(name)))
}

/// The answer to an `organization_show`.
fn organization_show<C: PublicCounts>(
    alloc: Global,
    context: &CallContext<'_>,
    counts: &C,
) -> Result<Answer<OrgChange>, Stop>
    requires { AreCountsOf (context_view context.now).datasets (C.counts counts.now) }
    ensures { Answers result (answer_to_organization_show (context_view context.now)) }
{
    let org = organization_named(alloc, context)?;
    Ok(Answer::Shown(organization_json(alloc, counts, org)?))
}

// ---- members

/// The answer to an `organization_member_create`.
fn member_create(alloc: Global, context: &CallContext<'_>) -> Result<Answer<OrgChange>, Stop>
    ensures { Answers result (answer_to_member_create (context_view context.now)) }
{
    let org = administered_organization(alloc, context)?;
    let (faults, user, role) = read_member(alloc, context)?;
    validate_change(context.quota, faults)?;
    Ok(accept_member(alloc, org, user, role)?)
}

/// The answer that gives the user this role in the organization.
fn accept_member(
    alloc: Global,
    org: &Org,
    user: Text,
    role: Role,
) -> Result<Answer<OrgChange>, AllocError>
    ensures { IfOk result (λ answer. answer
        ≡ Answer.Accepted (member_dictionary org.now.name user role) (OrgChange.SetRole org.now.name user role)) }
{
    let shown = member_json(alloc, &org.name, &user, role)?;
    let name = org.name.try_clone(alloc)?;
    Ok(Answer::Accepted(shown, OrgChange::SetRole(name, user, role)))
}

/// The answer to an `organization_member_delete`.
fn member_delete(alloc: Global, context: &CallContext<'_>) -> Result<Answer<OrgChange>, Stop>
    ensures { Answers result (answer_to_member_delete (context_view context.now)) }
{
    let org = administered_organization(alloc, context)?;
    let (faults, user) = read_former_member(alloc, context, &org.name)?;
    validate_change(context.quota, faults)?;
    let name = org.name.try_clone(alloc)?;
    Ok(Answer::Accepted(Json::Null, OrgChange::DropRole(name, user)))
}

/// The answer to a `member_list`.
fn member_list(alloc: Global, context: &CallContext<'_>) -> Result<Answer<OrgChange>, Stop>
    ensures { Answers result (answer_to_member_list (context_view context.now)) }
{
    let org = administered_organization(alloc, context)?;
    Ok(Answer::Shown(Json::List(members_json(alloc, context, &org.name)?)))
}

// ---- lists

/// The answer to an `organization_list`.
fn organization_list(alloc: Global, context: &CallContext<'_>) -> Result<Answer<OrgChange>, Stop>
    ensures { Answers result (answer_to_organization_list (context_view context.now)) }
{
    let mut faults = KeyErrors::new(alloc);
    let read = truth_at(&context.call.request.body, "all_fields");
    let all_fields = faults.check(alloc, "all_fields", read)?;
    validate(faults)?;
    let items = if is_true(all_fields) {
        organizations_json(alloc, context)?
    } else {
        names_json(alloc, context)?
    };
    Ok(Answer::Shown(Json::List(items)))
}

/// The truth value that was read, and false without one.
fn is_true(given: Option<Option<bool>>) -> bool
    ensures { result ≡ unwrap_or (option_flatten given) false }
{
    matches!(given, Some(Some(true)))
}

/// The answer to an `organization_list_for_user`.
fn organization_list_for_user(
    alloc: Global,
    context: &CallContext<'_>,
) -> Result<Answer<OrgChange>, Stop>
    ensures { Answers result (answer_to_organization_list_for_user (context_view context.now)) }
{
    Ok(Answer::Shown(Json::List(capacities_json(alloc, context)?)))
}

/// The answer to a `user_list`.
fn user_list(alloc: Global, context: &CallContext<'_>) -> Result<Answer<OrgChange>, Stop>
    ensures { Answers result (answer_to_user_list (context_view context.now)) }
{
    Ok(Answer::Shown(Json::List(users_json(alloc, context)?)))
}
