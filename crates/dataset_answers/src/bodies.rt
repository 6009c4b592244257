//! The bodies of calls on datasets and resources: their errors, and the datasets that they describe. Each key is read
//! once.
ghost use Rattle.std.specs.Prelude.{◌≡◌, ◌<◌, ◌⊎◌, IfOk, IsTrue, OnOk, Some, [], codes, length};
ghost use Rattle.std.specs.Option.{option_copied};
ghost use Rattle.portal_base.specs.Id.{id_text};
ghost use Rattle.portal_base.specs.KeyErrors.{found_value, has_error, kind_message, error_if, with_errors};
ghost use Rattle.portal_base.specs.Kinds.{count_at};
ghost use Rattle.packages.specs.Body.{built_dataset};
ghost use Rattle.packages.specs.Resources.{resource_for};
ghost use Rattle.visibility.specs.CallView.{context_view};
ghost use Rattle.dataset_answers.specs.Bodies.{organization_given, organization_error, dataset_errors, caller_name};
ghost use Rattle.dataset_answers.specs.Bodies.{lost_table_error};
ghost use Rattle.dataset_answers.specs.Bodies.{change_errors, changed_dataset, deleted_dataset, new_resource_errors};
ghost use Rattle.dataset_answers.specs.Bodies.{with_origin};
ghost use Rattle.dataset_answers.specs.Bodies.{with_new_resource, with_resource_at, without_resource_at};

use org_roles::entry::Org;
use packages::build::{self, DatasetReading};
use packages::errors::{add_error, message_unless};
use packages::package::{Package, Resource, State};
use packages::resources::{ResourceReading, read_resource};
use packages::texts::text_given;
use portal_base::caller::Caller;
use portal_base::copy::TryClone;
use portal_base::json_value::Json;
use portal_base::key_errors::KeyErrors;
use portal_base::kinds::count_at;
use portal_base::moment::Moment;
use portal_base::nonce::id_of;
use portal_base::seq::Seq;
use portal_base::text::Text;
use portal_calls::call::Call;
use std::alloc::{AllocError, Global};
use std::mem;
use visibility::context::CallContext;
use visibility::table_lookup::TableLookup;

/// The most resources of a dataset.
const MAX_RESOURCES: usize = 200;

// ---- numbers

/// Reads the number at a key, and adds its error.
pub fn read_count(
    alloc: Global,
    faults: &mut KeyErrors,
    body: &Json,
    key: &'static str,
) -> Result<Option<u128>, AllocError>
    ensures count { IfOk result (λ count. count ≡ found_value (count_at key.now body.now)) }
    ensures errors { OnOk result
        (faults.new ≡ error_if key.now (kind_message (count_at key.now body.now)) faults.old) }
{
    match count_at(body, key) {
        Ok(count) => Ok(count),
        Err(fault) => {
            faults.add_error(Text::from_static(key), fault.message(alloc)?)?;
            Ok(None)
        }
    }
}

// ---- the errors of a dataset's body

/// The organization that the body gives for a dataset, if it exists.
pub fn organization_given<'a>(context: &CallContext<'a>) -> Option<&'a Org>
    ensures { option_copied result
        ≡ organization_given (context_view context.now).people context.now.call.now.request.body }
{
    match text_given(&context.call.request.body, "owner_org") {
        Some(name) => context.viewer.org(name),
        None => None,
    }
}

/// The error of an organization that doesn't exist.
fn organization_error(context: &CallContext<'_>) -> Option<Text>
    ensures { result ≡ organization_error (context_view context.now).people context.now.call.now.request.body }
{
    let Some(name) = text_given(&context.call.request.body, "owner_org") else {
        return None;
    };
    if context.viewer.org(name).is_some() {
        None
    } else {
        Some(Text::from_static("Organization does not exist"))
    }
}

/// What is read of a call's body: the dataset that it describes, and its errors. The dataset is a new one, or `old`
/// changed. An organization that doesn't exist precedes the other errors of its key.
pub fn read_dataset(
    alloc: Global,
    context: &CallContext<'_>,
    old: Option<&Package>,
    whole: bool,
) -> Result<DatasetReading, AllocError>
    ensures errors { IfOk result (λ read. read.errors
        ≡ dataset_errors (context_view context.now).people context.now.call.now.request.body (option_copied old.entry)) }
    ensures built { IfOk result (λ read. read.errors ≡ [] →
        read.dataset ≡ built_dataset context.now.call.now.request.body (option_copied old.entry) whole) }
    ensures id { IfOk result (λ read.
        read.dataset.id ≡ (built_dataset context.now.call.now.request.body (option_copied old.entry) whole).id) }
    ensures resources { IfOk result (λ read. IsTrue (has_error (codes "resources") read.errors)
        ⊎ (read.dataset.resources
        ≡ (built_dataset context.now.call.now.request.body (option_copied old.entry) whole).resources)) }
{
    let read = build::read_dataset(alloc, &context.call.request.body, old, whole)?;
    let errors = with_organization_error(alloc, context, read.errors)?;
    Ok(DatasetReading {
        dataset: read.dataset,
        errors,
    })
}

/// These errors, with the error of an organization that doesn't exist. It precedes the other errors of its key.
fn with_organization_error(
    alloc: Global,
    context: &CallContext<'_>,
    errors: KeyErrors,
) -> Result<KeyErrors, AllocError>
    ensures { IfOk result (λ faults. faults ≡ with_errors errors (error_if (codes "owner_org")
        (organization_error (context_view context.now).people context.now.call.now.request.body) [])) }
{
    let mut faults = KeyErrors::new(alloc);
    add_error(&mut faults, "owner_org", organization_error(context))?;
    faults.add_errors(errors.into_list())?;
    Ok(faults)
}

/// The error if a table that stays refers to one that is removed.
pub fn lost_table_error<H: TableLookup>(tables: &H, changed: &Package) -> Option<Text>
    ensures { result ≡ lost_table_error (H.summaries tables.now) changed.now }
{
    let is_lost = tables.breaks_references(&changed.id, changed.resources.as_slice());
    message_unless(!is_lost, "A table of another resource refers to it")
}

/// What is read of the body of a call that changes the dataset. The other errors of the key `resources` precede that of a
/// removed table.
pub fn read_change<H: TableLookup>(
    alloc: Global,
    context: &CallContext<'_>,
    tables: &H,
    whole: bool,
    dataset: &Package,
) -> Result<DatasetReading, AllocError>
    ensures errors { IfOk result (λ read. read.errors ≡ change_errors (context_view context.now).people
        (H.summaries tables.now) context.now.call.now.request.body dataset.now
        (changed_dataset context.now.call.now whole dataset.now)) }
    ensures built { IfOk result (λ read. read.errors ≡ [] →
        read.dataset ≡ built_dataset context.now.call.now.request.body (Some dataset.now) whole) }
{
    let read = read_dataset(alloc, context, Some(dataset), whole)?;
    let error = lost_table_error(tables, &read.dataset);
    let errors = with_error(read.errors, "resources", error)?;
    Ok(DatasetReading {
        dataset: read.dataset,
        errors,
    })
}

/// These errors, with the error of a key, if there is one.
fn with_error(
    errors: KeyErrors,
    key: &'static str,
    error: Option<Text>,
) -> Result<KeyErrors, AllocError>
    ensures { IfOk result (λ faults. faults ≡ error_if key.now error errors) }
{
    let mut faults = errors;
    add_error(&mut faults, key, error)?;
    Ok(faults)
}

/// The errors of the deletion of a resource, which changes its dataset to `changed`.
pub fn deletion_errors<H: TableLookup>(
    alloc: Global,
    tables: &H,
    changed: &Package,
) -> Result<KeyErrors, AllocError>
    ensures { IfOk result (λ faults. faults
        ≡ error_if (codes "id") (lost_table_error (H.summaries tables.now) changed.now) []) }
{
    with_error(
        KeyErrors::new(alloc),
        "id",
        lost_table_error(tables, changed),
    )
}

// ---- the datasets of calls

fn name_of_caller(alloc: Global, caller: &Caller) -> Result<Text, AllocError>
    ensures { IfOk result (λ name. name ≡ caller_name caller.now) }
{
    match caller {
        Caller::Anonymous => Ok(Text::new(alloc)),
        Caller::Named(user) => user.try_clone(alloc),
    }
}

/// The new dataset of a call whose body describes this dataset.
pub fn created_dataset(
    alloc: Global,
    call: &Call,
    described: Package,
) -> Result<Package, AllocError>
    ensures { IfOk result (λ dataset.
        dataset ≡ with_origin described (id_text call.now.nonce.0) (caller_name call.now.caller) call.now.moment) }
{
    let (id, creator) = origin_of(alloc, call)?;
    Ok(with_origin(described, id, creator, call.moment))
}

/// The id of a new dataset, and the name of its creator.
fn origin_of(alloc: Global, call: &Call) -> Result<(Text, Text), AllocError>
    ensures id { IfOk result (λ origin. origin.0 ≡ id_text call.now.nonce.0) }
    ensures creator { IfOk result (λ origin. origin.1 ≡ caller_name call.now.caller) }
{
    let id = id_of(alloc, call.nonce)?;
    let creator = name_of_caller(alloc, &call.caller)?;
    Ok((id, creator))
}

/// The dataset with this id, created by this user at this moment. It takes no memory.
fn with_origin(dataset: Package, id: Text, creator: Text, moment: Moment) -> Package
    ensures { result ≡ with_origin dataset id creator moment }
{
    let mut dataset = dataset;
    dataset.id = id;
    dataset.creator = creator;
    dataset.created = moment;
    dataset.modified = moment;
    dataset
}

/// The dataset after its deletion.
pub fn deleted_dataset(alloc: Global, call: &Call, dataset: &Package) -> Result<Package, AllocError>
    ensures { IfOk result (λ deleted. deleted ≡ deleted_dataset call.now dataset.now) }
{
    let mut deleted = dataset.try_clone(alloc)?;
    deleted.state = State::Deleted;
    deleted.modified = call.moment;
    Ok(deleted)
}

// ---- the resources of calls

/// Reads the body of one more resource of the dataset.
pub fn read_new_resource(
    alloc: Global,
    dataset: &Package,
    body: &Json,
) -> Result<ResourceReading, AllocError>
    ensures errors { IfOk result (λ read. read.errors ≡ new_resource_errors dataset.now body.now) }
    ensures built { IfOk result (λ read.
        read.errors ≡ [] → read.resource ≡ resource_for dataset.now.next_resource body.now) }
{
    let mut read = read_resource(alloc, body, dataset.next_resource)?;
    let has_room = dataset.resources.len() < MAX_RESOURCES;
    let error = message_unless(has_room, "More than 200 resources");
    add_error(&mut read.errors, "package_id", error)?;
    Ok(read)
}

/// The dataset with one more resource, which has the next number. If the next number exceeds its type's range, that
/// counts as out of memory.
pub fn with_new_resource(
    alloc: Global,
    call: &Call,
    dataset: &Package,
    resource: Resource,
) -> Result<Package, AllocError>
    ensures { IfOk result (λ changed. changed ≡ with_new_resource call.now dataset.now resource) }
{
    let next = dataset.next_resource.checked_add(1).ok_or(AllocError)?;
    let mut changed = dataset.try_clone(alloc)?;
    changed.next_resource = next;
    changed.modified = call.moment;
    match changed.resources.push(resource) {
        Ok(()) => Ok(changed),
        Err(_) => Err(AllocError),
    }
}

/// The dataset with this resource at the position.
pub fn with_resource_at(
    alloc: Global,
    call: &Call,
    dataset: &Package,
    position: usize,
    resource: Resource,
) -> Result<Package, AllocError>
    requires { position < length dataset.now.resources }
    ensures { IfOk result (λ changed. changed ≡ with_resource_at call.now dataset.now position resource) }
{
    let mut changed = dataset.try_clone(alloc)?;
    let mut resources = mem::replace(&mut changed.resources, Seq::new(alloc)).into_vec();
    resources[position] = resource;
    changed.resources = Seq::from(resources);
    changed.modified = call.moment;
    Ok(changed)
}

/// The dataset without the resource at the position.
pub fn without_resource_at(
    alloc: Global,
    call: &Call,
    dataset: &Package,
    position: usize,
) -> Result<Package, AllocError>
    requires { position < length dataset.now.resources }
    ensures { IfOk result (λ changed. changed ≡ without_resource_at call.now dataset.now position) }
{
    let mut changed = dataset.try_clone(alloc)?;
    let mut resources = mem::replace(&mut changed.resources, Seq::new(alloc)).into_vec();
    let _gone = resources.remove(position);
    changed.resources = Seq::from(resources);
    changed.modified = call.moment;
    Ok(changed)
}
