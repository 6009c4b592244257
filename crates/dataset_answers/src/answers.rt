//! The answers to calls on datasets and resources.
//!
//! Each function finds the thing, checks the right, reads the body and gives the change. Its answer is a function of
//! the call and of the caller's view. A refusal stops it.
ghost use Rattle.std.specs.Prelude.{◌≡◌, ◌<◌, [], codes, IfOk, length, None, Some};
ghost use Rattle.portal_base.specs.Id.{id_text};
ghost use Rattle.portal_base.specs.KeyErrors.{error_if};
ghost use Rattle.portal_calls.specs.Answer.{denial_of, quota_error};
ghost use Rattle.portal_calls.specs.Stop.{Answers, Gives};
ghost use Rattle.portal_calls.specs.declared.answer.Answer.{Answer};
ghost use Rattle.dataset_answers.specs.declared.change.DatasetChange.{DatasetChange};
ghost use Rattle.visibility.specs.TableSummary.{summaries_seen};
ghost use Rattle.visibility.specs.CallView.{context_view};
ghost use Rattle.dataset_answers.specs.Answers.{answer_to_action, answer_to_package_show, answer_to_package_list};
ghost use Rattle.dataset_answers.specs.Answers.{can_create_in, may_create};
ghost use Rattle.dataset_answers.specs.Answers.{answer_to_package_create, answer_to_package_change};
ghost use Rattle.dataset_answers.specs.Answers.{answer_to_change_of, answer_to_valid_deletion};
ghost use Rattle.dataset_answers.specs.Answers.{answer_to_package_update, answer_to_package_patch};
ghost use Rattle.dataset_answers.specs.Answers.{answer_to_package_delete, answer_to_dataset_purge};
ghost use Rattle.dataset_answers.specs.Answers.{answer_to_resource_show, answer_to_resource_create};
ghost use Rattle.dataset_answers.specs.Answers.{answer_to_resource_update, answer_to_resource_delete};
ghost use Rattle.dataset_answers.specs.Bodies.{caller_name, organization_given, with_new_resource, with_origin};
ghost use Rattle.dataset_answers.specs.Bodies.{with_resource_at};
ghost use Rattle.dataset_answers.specs.Dictionary.{package_dictionary, resource_dictionary};

use crate::bodies::{
    created_dataset, deleted_dataset, deletion_errors, organization_given, read_change, read_count,
    read_dataset, read_new_resource, with_new_resource, with_resource_at, without_resource_at,
};
use crate::change::DatasetChange;
use crate::dictionary::{package_json, resource_json};
use crate::lists::{names_json, page_of};
use crate::lookup::{
    dataset_at, editable_dataset_at, editable_resource_at, naming_key, purgeable_dataset,
};
use org_roles::role::rights_of;
use packages::package::{Package, Resource};
use packages::resources::read_resource;
use portal_base::copy::TryClone;
use portal_base::json_value::Json;
use portal_base::key_errors::KeyErrors;
use portal_calls::answer::{Answer, Quota, Right};
use portal_calls::stop::{Stop, answer_or_refusal, authorize, validate, validate_change};
use portal_calls::topic::DatasetAction;
use std::alloc::{AllocError, Global};
use visibility::context::CallContext;
use visibility::lookup::resource_at;
use visibility::table_lookup::{NoTables, TableLookup};

/// The answer to a call of this action.
pub fn answer<H: TableLookup>(
    alloc: Global,
    context: &CallContext<'_>,
    tables: &H,
    action: DatasetAction,
) -> Result<Answer<DatasetChange>, AllocError>
    ensures { IfOk result (λ answer. answer ≡ answer_to_action action (context_view context.now)
        (summaries_seen (context_view context.now).datasets (H.summaries tables.now))) }
{
    answer_or_refusal(answer_to_action(alloc, context, tables, action))
}

/// The answer to a call of this action, or the stop before it.
fn answer_to_action<H: TableLookup>(
    alloc: Global,
    context: &CallContext<'_>,
    tables: &H,
    action: DatasetAction,
) -> Result<Answer<DatasetChange>, Stop>
    ensures { Answers result (answer_to_action action (context_view context.now)
        (summaries_seen (context_view context.now).datasets (H.summaries tables.now))) }
{
    match action {
        DatasetAction::PackageCreate => package_create(alloc, context),
        DatasetAction::PackageUpdate => package_update(alloc, context, tables),
        DatasetAction::PackagePatch => package_patch(alloc, context, tables),
        DatasetAction::PackageDelete => package_delete(alloc, context),
        DatasetAction::DatasetPurge => dataset_purge(alloc, context),
        DatasetAction::PackageShow => package_show(alloc, context, tables),
        DatasetAction::PackageList => package_list(alloc, context),
        DatasetAction::ResourceCreate => resource_create(alloc, context, tables),
        DatasetAction::ResourceUpdate => resource_update(alloc, context, tables),
        DatasetAction::ResourceDelete => resource_delete(alloc, context, tables),
        DatasetAction::ResourceShow => resource_show(alloc, context, tables),
    }
}

// ---- reads

/// The answer to a `package_show`.
fn package_show<H: TableLookup>(
    alloc: Global,
    context: &CallContext<'_>,
    tables: &H,
) -> Result<Answer<DatasetChange>, Stop>
    ensures { Answers result (answer_to_package_show (context_view context.now)
        (summaries_seen (context_view context.now).datasets (H.summaries tables.now))) }
{
    let dataset = dataset_at(alloc, context, "id")?;
    let shown = package_json(alloc, &context.viewer, tables, dataset)?;
    Ok(Answer::Shown(shown))
}

/// The answer to a `package_list`.
fn package_list(alloc: Global, context: &CallContext<'_>) -> Result<Answer<DatasetChange>, Stop>
    ensures { Answers result (answer_to_package_list (context_view context.now)) }
{
    let mut faults = KeyErrors::new(alloc);
    let limit = read_count(alloc, &mut faults, &context.call.request.body, "limit")?;
    let offset = read_count(alloc, &mut faults, &context.call.request.body, "offset")?;
    validate(faults)?;
    let names = context.viewer.public_names(alloc)?;
    let page = page_of(limit, offset, names.as_slice());
    Ok(Answer::Shown(Json::List(names_json(alloc, page)?)))
}

/// The answer to a `resource_show`.
fn resource_show<H: TableLookup>(
    alloc: Global,
    context: &CallContext<'_>,
    tables: &H,
) -> Result<Answer<DatasetChange>, Stop>
    ensures { Answers result (answer_to_resource_show (context_view context.now)
        (summaries_seen (context_view context.now).datasets (H.summaries tables.now))) }
{
    let located = resource_at(alloc, context, "id")?;
    let shown = resource_json(
        alloc,
        tables,
        &located.dataset.id,
        located.position,
        located.resource,
    )?;
    Ok(Answer::Shown(shown))
}

// ---- creation and change of datasets

/// The value that was read for a change, if the change breaks no rule.
fn if_valid<T: Drop>(quota: Quota, errors: KeyErrors, value: T) -> Result<T, Stop>
    ensures valid { Gives result (λ valid. None) Some
        (denial_of (error_if (codes "body") (quota_error quota) errors)) }
    ensures value { IfOk result (λ valid. valid ≡ value) }
{
    validate_change(quota, errors)?;
    Ok(value)
}

/// Whether the caller may create the dataset that the body describes.
fn may_create(context: &CallContext<'_>) -> bool
    ensures { result ≡ may_create (context_view context.now) }
{
    context.viewer.is_sysadmin() || can_create_here(context)
}

/// Whether the caller is an editor in the organization that the body gives, or in any, if that one doesn't exist.
fn can_create_here(context: &CallContext<'_>) -> bool
    ensures { result ≡ can_create_in (context_view context.now).people context.now.viewer.caller
        (organization_given (context_view context.now).people context.now.call.now.request.body) }
{
    match organization_given(context) {
        Some(org) => rights_of(context.viewer.role(&org.name)).edit,
        None => context.viewer.edits_somewhere(),
    }
}

/// The answer to a `package_create`.
fn package_create(alloc: Global, context: &CallContext<'_>) -> Result<Answer<DatasetChange>, Stop>
    ensures { Answers result (answer_to_package_create (context_view context.now)) }
{
    authorize(may_create(context), Right::CreateDataset)?;
    let read = read_dataset(alloc, context, None, true)?;
    let described = if_valid(context.quota, read.errors, read.dataset)?;
    Ok(accept_creation(alloc, context, described)?)
}

/// The answer that creates the dataset that the body describes.
fn accept_creation(
    alloc: Global,
    context: &CallContext<'_>,
    described: Package,
) -> Result<Answer<DatasetChange>, AllocError>
    ensures { IfOk result (λ answer.
        let call = context.now.call.now in
        let dataset = with_origin described (id_text call.nonce.0) (caller_name call.caller) call.moment in
        answer ≡ Answer.Accepted (package_dictionary (context_view context.now).people [] dataset)
        (DatasetChange.Create dataset)) }
{
    let dataset = created_dataset(alloc, context.call, described)?;
    let shown = package_json(alloc, &context.viewer, &NoTables, &dataset)?;
    Ok(Answer::Accepted(shown, DatasetChange::Create(dataset)))
}

/// The answer to a `package_update`.
fn package_update<H: TableLookup>(
    alloc: Global,
    context: &CallContext<'_>,
    tables: &H,
) -> Result<Answer<DatasetChange>, Stop>
    ensures { Answers result (answer_to_package_update (context_view context.now)
        (summaries_seen (context_view context.now).datasets (H.summaries tables.now))) }
{
    package_change(alloc, context, tables, true)
}

/// The answer to a `package_patch`.
fn package_patch<H: TableLookup>(
    alloc: Global,
    context: &CallContext<'_>,
    tables: &H,
) -> Result<Answer<DatasetChange>, Stop>
    ensures { Answers result (answer_to_package_patch (context_view context.now)
        (summaries_seen (context_view context.now).datasets (H.summaries tables.now))) }
{
    package_change(alloc, context, tables, false)
}

/// The answer to a call that changes a dataset. With `whole` absent keys take their defaults (update), and without it
/// they keep their values (patch).
fn package_change<H: TableLookup>(
    alloc: Global,
    context: &CallContext<'_>,
    tables: &H,
    whole: bool,
) -> Result<Answer<DatasetChange>, Stop>
    ensures { Answers result (answer_to_package_change whole (context_view context.now)
        (summaries_seen (context_view context.now).datasets (H.summaries tables.now))) }
{
    let key = naming_key(&context.call.request.body);
    let dataset = editable_dataset_at(alloc, context, key)?;
    change_of_dataset(alloc, context, tables, whole, dataset)
}

/// The answer to a call that changes this dataset.
fn change_of_dataset<H: TableLookup>(
    alloc: Global,
    context: &CallContext<'_>,
    tables: &H,
    whole: bool,
    dataset: &Package,
) -> Result<Answer<DatasetChange>, Stop>
    ensures { Answers result (answer_to_change_of whole (context_view context.now) (H.summaries tables.now) dataset.now) }
{
    let read = read_change(alloc, context, tables, whole, dataset)?;
    let mut changed = if_valid(context.quota, read.errors, read.dataset)?;
    changed.modified = context.call.moment;
    Ok(accept_replacement(alloc, context, tables, changed)?)
}

/// The answer that puts this dataset in the place of the one of its id.
fn accept_replacement<H: TableLookup>(
    alloc: Global,
    context: &CallContext<'_>,
    tables: &H,
    changed: Package,
) -> Result<Answer<DatasetChange>, AllocError>
    ensures { IfOk result (λ answer. answer
        ≡ Answer.Accepted (package_dictionary (context_view context.now).people (H.summaries tables.now) changed)
        (DatasetChange.Replace changed)) }
{
    let shown = package_json(alloc, &context.viewer, tables, &changed)?;
    Ok(Answer::Accepted(shown, DatasetChange::Replace(changed)))
}

// ---- deletion of datasets

/// The answer to a `package_delete`.
fn package_delete(alloc: Global, context: &CallContext<'_>) -> Result<Answer<DatasetChange>, Stop>
    ensures { Answers result (answer_to_package_delete (context_view context.now)) }
{
    let dataset = editable_dataset_at(alloc, context, "id")?;
    validate_change(context.quota, KeyErrors::new(alloc))?;
    let deleted = deleted_dataset(alloc, context.call, dataset)?;
    Ok(Answer::Accepted(Json::Null, DatasetChange::Replace(deleted)))
}

/// The answer to a `dataset_purge`.
fn dataset_purge(alloc: Global, context: &CallContext<'_>) -> Result<Answer<DatasetChange>, Stop>
    ensures { Answers result (answer_to_dataset_purge (context_view context.now)) }
{
    let dataset = purgeable_dataset(alloc, context)?;
    validate_change(context.quota, KeyErrors::new(alloc))?;
    let id = dataset.id.try_clone(alloc)?;
    Ok(Answer::Accepted(Json::Null, DatasetChange::Remove(id)))
}

// ---- resources

/// The answer to a `resource_create`.
fn resource_create<H: TableLookup>(
    alloc: Global,
    context: &CallContext<'_>,
    tables: &H,
) -> Result<Answer<DatasetChange>, Stop>
    ensures { Answers result (answer_to_resource_create (context_view context.now)
        (summaries_seen (context_view context.now).datasets (H.summaries tables.now))) }
{
    let dataset = editable_dataset_at(alloc, context, "package_id")?;
    let read = read_new_resource(alloc, dataset, &context.call.request.body)?;
    let resource = if_valid(context.quota, read.errors, read.resource)?;
    Ok(accept_new_resource(alloc, context, tables, dataset, resource)?)
}

/// The answer that adds this resource to the dataset.
fn accept_new_resource<H: TableLookup>(
    alloc: Global,
    context: &CallContext<'_>,
    tables: &H,
    dataset: &Package,
    resource: Resource,
) -> Result<Answer<DatasetChange>, AllocError>
    ensures { IfOk result (λ answer. answer ≡ Answer.Accepted
        (resource_dictionary (H.summaries tables.now) dataset.now.id (length dataset.now.resources) resource)
        (DatasetChange.Replace (with_new_resource context.now.call.now dataset.now resource))) }
{
    let position = dataset.resources.len();
    let shown = resource_json(alloc, tables, &dataset.id, position, &resource)?;
    let changed = with_new_resource(alloc, context.call, dataset, resource)?;
    Ok(Answer::Accepted(shown, DatasetChange::Replace(changed)))
}

/// The answer to a `resource_update`.
fn resource_update<H: TableLookup>(
    alloc: Global,
    context: &CallContext<'_>,
    tables: &H,
) -> Result<Answer<DatasetChange>, Stop>
    ensures { Answers result (answer_to_resource_update (context_view context.now)
        (summaries_seen (context_view context.now).datasets (H.summaries tables.now))) }
{
    let located = editable_resource_at(alloc, context)?;
    let read = read_resource(alloc, &context.call.request.body, located.resource.number)?;
    let resource = if_valid(context.quota, read.errors, read.resource)?;
    let position = located.position;
    Ok(accept_resource_at(alloc, context, tables, located.dataset, position, resource)?)
}

/// The answer that puts this resource at the position in the dataset.
fn accept_resource_at<H: TableLookup>(
    alloc: Global,
    context: &CallContext<'_>,
    tables: &H,
    dataset: &Package,
    position: usize,
    resource: Resource,
) -> Result<Answer<DatasetChange>, AllocError>
    requires { position < length dataset.now.resources }
    ensures { IfOk result (λ answer. answer
        ≡ Answer.Accepted (resource_dictionary (H.summaries tables.now) dataset.now.id position resource)
        (DatasetChange.Replace (with_resource_at context.now.call.now dataset.now position resource))) }
{
    let shown = resource_json(alloc, tables, &dataset.id, position, &resource)?;
    let changed = with_resource_at(alloc, context.call, dataset, position, resource)?;
    Ok(Answer::Accepted(shown, DatasetChange::Replace(changed)))
}

/// The answer to a `resource_delete`.
fn resource_delete<H: TableLookup>(
    alloc: Global,
    context: &CallContext<'_>,
    tables: &H,
) -> Result<Answer<DatasetChange>, Stop>
    ensures { Answers result (answer_to_resource_delete (context_view context.now)
        (summaries_seen (context_view context.now).datasets (H.summaries tables.now))) }
{
    let located = editable_resource_at(alloc, context)?;
    let changed = without_resource_at(alloc, context.call, located.dataset, located.position)?;
    delete_if_valid(alloc, context, tables, changed)
}

/// The answer to the deletion of a resource, which changes its dataset to `changed`.
fn delete_if_valid<H: TableLookup>(
    alloc: Global,
    context: &CallContext<'_>,
    tables: &H,
    changed: Package,
) -> Result<Answer<DatasetChange>, Stop>
    ensures { Answers result (answer_to_valid_deletion (context_view context.now) (H.summaries tables.now) changed) }
{
    let faults = deletion_errors(alloc, tables, &changed)?;
    let valid = if_valid(context.quota, faults, changed)?;
    Ok(Answer::Accepted(Json::Null, DatasetChange::Replace(valid)))
}
