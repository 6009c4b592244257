//! The dictionaries of replies.
ghost use Rattle.std.specs.Prelude.{◌≡◌, map, IfOk};
ghost use Rattle.dataset_answers.specs.Dictionary.{organization_title, organization_dictionary};
ghost use Rattle.dataset_answers.specs.Dictionary.{tag_dictionary, resource_dictionary, resource_dictionaries};
ghost use Rattle.dataset_answers.specs.Dictionary.{dictionary_with, package_dictionary};
ghost use Rattle.visibility.specs.Viewer.{people_for};

use packages::named::resource_address;
use packages::package::{Package, Resource};
use portal_base::dictionary::Value;
use portal_base::json_value::Json;
use portal_base::seq::Seq;
use portal_base::text::Text;
use std::alloc::{AllocError, Global};
use visibility::table_lookup::TableLookup;
use visibility::viewer::Viewer;

fn title_of_organization<'a>(viewer: &Viewer<'a>, name: &Text) -> &'a str
    ensures { result.now ≡ organization_title (people_for viewer.now) name.now }
{
    match viewer.org(name) {
        Some(org) => org.title.as_str(),
        None => "",
    }
}

fn organization_json<'a>(
    alloc: Global,
    viewer: &Viewer<'a>,
    name: &'a Text,
) -> Result<Json, AllocError>
    ensures { IfOk result (λ json. json ≡ organization_dictionary (people_for viewer.now) name.now) }
{
    let title = title_of_organization(viewer, name);
    Json::dictionary(
        alloc,
        [
            ("id", Value::Text(name)),
            ("name", Value::Text(name)),
            ("title", Value::Str(title)),
        ],
    )
}

fn tag_json(alloc: Global, tag: &Text) -> Result<Json, AllocError>
    ensures { IfOk result (λ json. json ≡ tag_dictionary tag.now) }
{
    Json::dictionary(
        alloc,
        [
            ("display_name", Value::Text(tag)),
            ("name", Value::Text(tag)),
        ],
    )
}

fn tags_json(alloc: Global, tags: &[Text]) -> Result<Seq<Json>, AllocError>
    ensures { IfOk result (λ list. list ≡ map tag_dictionary tags.now) }
{
    let mut list = Vec::with_capacity(alloc, tags.len())?;
    for tag in tags {
        list.push(tag_json(alloc, tag)?)?;
    }
    Ok(Seq::from(list))
}

/// The dictionary of a resource at its position in the dataset with that id, from 0.
pub fn resource_json<'a, H: TableLookup>(
    alloc: Global,
    tables: &H,
    dataset: &'a Text,
    position: usize,
    resource: &'a Resource,
) -> Result<Json, AllocError>
    ensures { IfOk result (λ json.
        json ≡ resource_dictionary (H.summaries tables.now) dataset.now position resource.now) }
{
    let id = resource_address(alloc, dataset, resource.number)?;
    Json::dictionary(
        alloc,
        [
            (
                "datastore_active",
                Value::Truth(tables.has_table(dataset, resource.number)),
            ),
            ("description", Value::Text(&resource.description)),
            ("format", Value::Text(&resource.format)),
            ("id", Value::Json(Json::Text(id))),
            ("mimetype", Value::Text(&resource.mimetype)),
            ("name", Value::Text(&resource.name)),
            ("package_id", Value::Text(dataset)),
            ("position", Value::Whole(position)),
            ("url", Value::Text(&resource.url)),
        ],
    )
}

fn resources_json<H: TableLookup>(
    alloc: Global,
    tables: &H,
    dataset: &Text,
    resources: &[Resource],
) -> Result<Seq<Json>, AllocError>
    ensures { IfOk result (λ list. list ≡ resource_dictionaries (H.summaries tables.now) dataset.now 0 resources.now) }
{
    let mut list = Vec::with_capacity(alloc, resources.len())?;
    for (position, resource) in resources.iter().enumerate() {
        list.push(resource_json(alloc, tables, dataset, position, resource)?)?;
    }
    Ok(Seq::from(list))
}

/// The dictionary of a dataset. Its keys are those of CKAN 2.10's package dictionary that the portal has.
pub fn package_json<H: TableLookup>(
    alloc: Global,
    viewer: &Viewer<'_>,
    tables: &H,
    dataset: &Package,
) -> Result<Json, AllocError>
    ensures { IfOk result (λ json.
        json ≡ package_dictionary (people_for viewer.now) (H.summaries tables.now) dataset.now) }
{
    let organization = organization_json(alloc, viewer, &dataset.owner_org)?;
    let resources = resources_json(alloc, tables, &dataset.id, dataset.resources.as_slice())?;
    let tags = tags_json(alloc, dataset.tags.as_slice())?;
    dictionary_with(alloc, dataset, organization, resources, tags)
}

/// The dictionary of a dataset, with these dictionaries of its organization, its resources and its tags.
fn dictionary_with(
    alloc: Global,
    dataset: &Package,
    organization: Json,
    resources: Seq<Json>,
    tags: Seq<Json>,
) -> Result<Json, AllocError>
    ensures { IfOk result (λ json. json ≡ dictionary_with dataset.now organization resources tags) }
{
    Json::dictionary(
        alloc,
        [
            ("author", Value::Text(&dataset.author)),
            ("creator_user_id", Value::Text(&dataset.creator)),
            ("id", Value::Text(&dataset.id)),
            ("license_id", Value::Text(&dataset.license_id)),
            ("maintainer", Value::Text(&dataset.maintainer)),
            ("metadata_created", Value::Moment(dataset.created)),
            ("metadata_modified", Value::Moment(dataset.modified)),
            ("name", Value::Text(&dataset.name)),
            ("notes", Value::Text(&dataset.notes)),
            ("num_resources", Value::Whole(dataset.resources.len())),
            ("num_tags", Value::Whole(dataset.tags.len())),
            ("organization", Value::Json(organization)),
            ("owner_org", Value::Text(&dataset.owner_org)),
            ("private", Value::Truth(dataset.private)),
            ("resources", Value::List(resources)),
            ("state", Value::Static(dataset.state.name())),
            ("tags", Value::List(tags)),
            ("title", Value::Text(&dataset.title)),
            ("type", Value::Static("dataset")),
            ("url", Value::Text(&dataset.url)),
            ("version", Value::Text(&dataset.version)),
        ],
    )
}
