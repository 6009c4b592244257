//! The JSON value of a dataset, which is the body of its row.
ghost use Rattle.std.specs.Prelude.{◌≡◌, map, IfOk};
ghost use Rattle.portal_base.specs.declared.json_value.Json.{Text as text_value};
ghost use Rattle.dataset_rows.specs.Rows.{resource_json, members_with, row_json};

use packages::package::{Package, Resource};
use portal_base::copy::TryClone;
use portal_base::dictionary::Value;
use portal_base::json_value::Json;
use portal_base::seq::Seq;
use portal_base::text::Text;
use std::alloc::{AllocError, Global};

fn resource_json(alloc: Global, resource: &Resource) -> Result<Json, AllocError>
    ensures { IfOk result (λ json. json ≡ resource_json resource.now) }
{
    Json::dictionary(
        alloc,
        [
            ("description", Value::Text(&resource.description)),
            ("format", Value::Text(&resource.format)),
            ("mimetype", Value::Text(&resource.mimetype)),
            ("name", Value::Text(&resource.name)),
            ("number", Value::Whole(resource.number as usize)),
            ("url", Value::Text(&resource.url)),
        ],
    )
}

fn resources_json(alloc: Global, resources: &[Resource]) -> Result<Seq<Json>, AllocError>
    ensures { IfOk result (λ list. list ≡ map resource_json resources.now) }
{
    let mut list = Vec::with_capacity(alloc, resources.len())?;
    for resource in resources {
        list.push(resource_json(alloc, resource)?)?;
    }
    Ok(Seq::from(list))
}

fn tags_json(alloc: Global, tags: &[Text]) -> Result<Seq<Json>, AllocError>
    ensures { IfOk result (λ list. list ≡ map text_value tags.now) }
{
    let mut list = Vec::with_capacity(alloc, tags.len())?;
    for tag in tags {
        list.push(Json::Text(tag.try_clone(alloc)?))?;
    }
    Ok(Seq::from(list))
}

/// The JSON value of a dataset.
pub(crate) fn row_json(alloc: Global, dataset: &Package) -> Result<Json, AllocError>
    ensures { IfOk result (λ json. json ≡ row_json dataset.now) }
{
    let resources = resources_json(alloc, dataset.resources.as_slice())?;
    let tags = tags_json(alloc, dataset.tags.as_slice())?;
    json_with(alloc, dataset, resources, tags)
}

/// The JSON value of a dataset, with these values of its resources and its tags.
fn json_with(
    alloc: Global,
    dataset: &Package,
    resources: Seq<Json>,
    tags: Seq<Json>,
) -> Result<Json, AllocError>
    ensures { IfOk result (λ json. json ≡ Json.Map (members_with dataset.now resources tags)) }
{
    Json::dictionary(
        alloc,
        [
            ("author", Value::Text(&dataset.author)),
            ("created", Value::Moment(dataset.created)),
            ("creator", Value::Text(&dataset.creator)),
            ("iri", Value::Text(&dataset.iri)),
            ("license_id", Value::Text(&dataset.license_id)),
            ("maintainer", Value::Text(&dataset.maintainer)),
            ("modified", Value::Moment(dataset.modified)),
            ("name", Value::Text(&dataset.name)),
            (
                "next_resource",
                Value::Whole(dataset.next_resource as usize),
            ),
            ("notes", Value::Text(&dataset.notes)),
            ("owner_org", Value::Text(&dataset.owner_org)),
            ("private", Value::Truth(dataset.private)),
            ("resources", Value::List(resources)),
            ("source", Value::Text(&dataset.source)),
            ("state", Value::Static(dataset.state.name())),
            ("tags", Value::List(tags)),
            ("title", Value::Text(&dataset.title)),
            ("url", Value::Text(&dataset.url)),
            ("version", Value::Text(&dataset.version)),
        ],
    )
}
