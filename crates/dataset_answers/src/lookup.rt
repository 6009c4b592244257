//! The datasets and resources that calls name, in their callers' views. A key that names nothing stops the call with its
//! refusal, and so does a right that the caller lacks.
ghost use Rattle.std.specs.Prelude.{◌≡◌, ◌<◌, IfOk, length};
ghost use Rattle.visibility.specs.CallView.{context_view};
ghost use Rattle.packages.specs.LocatedResource.{located_now};
ghost use Rattle.portal_calls.specs.Stop.{Finds};
ghost use Rattle.dataset_answers.specs.Lookup.{dataset_at, editable_dataset_at, naming_key};
ghost use Rattle.dataset_answers.specs.Lookup.{editable_resource_at};
ghost use Rattle.dataset_answers.specs.Answers.{purgeable_dataset};

use packages::named::LocatedResource;
use packages::package::Package;
use portal_base::json_value::Json;
use portal_base::kinds::present;
use portal_calls::answer::{Denial, Kind, Right, key_denial, required_text};
use portal_calls::stop::{Stop, authorize};
use std::alloc::Global;
use visibility::context::CallContext;
use visibility::lookup::resource_at;
use visibility::permissions::is_harvested;

/// The dataset that a key of the body names.
pub fn dataset_at<'a>(
    alloc: Global,
    context: &CallContext<'a>,
    key: &'static str,
) -> Result<&'a Package, Stop>
    ensures { Finds result (λ dataset. dataset.now) (dataset_at key.now (context_view context.now)) }
{
    match required_text(&context.call.request.body, key) {
        Ok(name) => match context.viewer.dataset(name.as_str()) {
            Some(dataset) => Ok(dataset),
            None => Err(Stop::Refused(Denial::NotFound(Kind::Dataset))),
        },
        Err(fault) => Err(Stop::Refused(key_denial(alloc, key, fault)?)),
    }
}

/// The dataset that a key of the body names, which the caller may edit.
pub fn editable_dataset_at<'a>(
    alloc: Global,
    context: &CallContext<'a>,
    key: &'static str,
) -> Result<&'a Package, Stop>
    ensures { Finds result (λ dataset. dataset.now) (editable_dataset_at key.now (context_view context.now)) }
{
    let dataset = dataset_at(alloc, context, key)?;
    authorize(context.viewer.may_edit(dataset), Right::EditDataset)?;
    Ok(dataset)
}

/// The dataset that the key `id` names, which the caller may purge.
pub fn purgeable_dataset<'a>(alloc: Global, context: &CallContext<'a>) -> Result<&'a Package, Stop>
    ensures { Finds result (λ dataset. dataset.now) (purgeable_dataset (context_view context.now)) }
{
    let dataset = dataset_at(alloc, context, "id")?;
    authorize(
        context.viewer.is_sysadmin() && !is_harvested(dataset),
        Right::PurgeDataset,
    )?;
    Ok(dataset)
}

/// The key that names the dataset of an update: `name` if `id` is absent and `name` is present, and else `id`.
pub fn naming_key(body: &Json) -> &'static str
    ensures { result.now ≡ naming_key body.now }
{
    if present(body, "id").is_none() && present(body, "name").is_some() {
        "name"
    } else {
        "id"
    }
}

/// The resource that the key `id` names, if the caller may edit its dataset.
pub fn editable_resource_at<'a>(
    alloc: Global,
    context: &CallContext<'a>,
) -> Result<LocatedResource<'a>, Stop>
    ensures found { Finds result located_now (editable_resource_at (context_view context.now)) }
    ensures within { IfOk result (λ located. located.position < length located.dataset.now.resources) }
{
    let located = resource_at(alloc, context, "id")?;
    authorize(context.viewer.may_edit(located.dataset), Right::EditDataset)?;
    Ok(located)
}
