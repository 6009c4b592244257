//! The dataset that is read of the body of a row. Every JSON value gives a dataset, whose own row then shows whether the
//! value was that of a dataset.
ghost use Rattle.std.specs.Prelude.{◌≡◌, [], pos, map, IfOk, OnOk, codes};
ghost use Rattle.packages.specs.Package.{fresh_package};
ghost use Rattle.packages.specs.Reading.{blank_resource};
ghost use Rattle.dataset_rows.specs.Reading.{json_read, text_or_empty, text_of, with_labels, with_file};
ghost use Rattle.dataset_rows.specs.Reading.{resource_in, with_people, with_names, with_origin, with_notes};
ghost use Rattle.dataset_rows.specs.Reading.{with_texts, with_lists, with_values, dataset_in};
ghost use Rattle.dataset_rows.specs.Reading.{dataset_read};

use crate::keys::{
    items_of, moment_by_default, moment_of, number_of, state_named, text_of, text_or_empty,
    truth_of,
};
use packages::package::{Package, Resource};
use portal_base::copy::TryClone;
use portal_base::json_value::{Json, JsonFault};
use portal_base::seq::Seq;
use portal_base::text::Text;
use std::alloc::{AllocError, Global};

/// The JSON value of a text, if it has one.
fn json_read(alloc: Global, text: &Text) -> Result<Option<Json>, AllocError>
    ensures { IfOk result (λ json. json ≡ json_read text.now) }
{
    match Json::read(alloc, text.as_str().as_bytes()) {
        Ok(json) => Ok(Some(json)),
        Err(JsonFault::NotJson) => Ok(None),
        Err(JsonFault::Fraction) => Ok(None),
        Err(JsonFault::OutOfMemory) => Err(AllocError),
    }
}

// ---- texts

/// Replaces a text by that of a key.
fn read_text(alloc: Global, row: &Json, key: &str, text: &mut Text) -> Result<(), AllocError>
    ensures { OnOk result (text.new ≡ text_of key.now row.now) }
{
    *text = Text::from_str(alloc, text_of(row, key))?;
    Ok(())
}

fn read_texts(alloc: Global, row: &Json, dataset: &mut Package) -> Result<(), AllocError>
    ensures { OnOk result (dataset.new ≡ with_texts row.now dataset.old) }
{
    read_people(alloc, row, dataset)?;
    read_names(alloc, row, dataset)?;
    read_origin(alloc, row, dataset)?;
    read_notes(alloc, row, dataset)
}

fn read_people(alloc: Global, row: &Json, dataset: &mut Package) -> Result<(), AllocError>
    ensures { OnOk result (dataset.new ≡ with_people row.now dataset.old) }
{
    read_text(alloc, row, "author", &mut dataset.author)?;
    read_text(alloc, row, "creator", &mut dataset.creator)?;
    read_text(alloc, row, "maintainer", &mut dataset.maintainer)
}

fn read_names(alloc: Global, row: &Json, dataset: &mut Package) -> Result<(), AllocError>
    ensures { OnOk result (dataset.new ≡ with_names row.now dataset.old) }
{
    read_text(alloc, row, "name", &mut dataset.name)?;
    read_text(alloc, row, "owner_org", &mut dataset.owner_org)?;
    read_text(alloc, row, "title", &mut dataset.title)
}

fn read_origin(alloc: Global, row: &Json, dataset: &mut Package) -> Result<(), AllocError>
    ensures { OnOk result (dataset.new ≡ with_origin row.now dataset.old) }
{
    read_text(alloc, row, "iri", &mut dataset.iri)?;
    read_text(alloc, row, "source", &mut dataset.source)?;
    read_text(alloc, row, "url", &mut dataset.url)
}

/// Reads the license, the notes and the version.
fn read_notes(alloc: Global, row: &Json, dataset: &mut Package) -> Result<(), AllocError>
    ensures { OnOk result (dataset.new ≡ with_notes row.now dataset.old) }
{
    read_text(alloc, row, "license_id", &mut dataset.license_id)?;
    read_text(alloc, row, "notes", &mut dataset.notes)?;
    read_text(alloc, row, "version", &mut dataset.version)
}

// ---- lists

fn read_lists(alloc: Global, row: &Json, dataset: &mut Package) -> Result<(), AllocError>
    ensures { OnOk result (dataset.new ≡ with_lists row.now dataset.old) }
{
    dataset.resources = resources_in(alloc, items_of(row, "resources"))?;
    dataset.tags = tags_in(alloc, items_of(row, "tags"))?;
    Ok(())
}

fn tags_in(alloc: Global, items: &[Json]) -> Result<Seq<Text>, AllocError>
    ensures { IfOk result (λ tags. tags ≡ map text_or_empty items.now) }
{
    let mut tags = Vec::with_capacity(alloc, items.len())?;
    for item in items {
        tags.push(tag_in(alloc, item)?)?;
    }
    Ok(Seq::from(tags))
}

fn tag_in(alloc: Global, item: &Json) -> Result<Text, AllocError>
    ensures { IfOk result (λ tag. tag ≡ text_or_empty item.now) }
{
    Text::from_str(alloc, text_or_empty(item))
}

fn resources_in(alloc: Global, items: &[Json]) -> Result<Seq<Resource>, AllocError>
    ensures { IfOk result (λ resources. resources ≡ map resource_in items.now) }
{
    let mut resources = Vec::with_capacity(alloc, items.len())?;
    for item in items {
        resources.push(resource_in(alloc, item)?)?;
    }
    Ok(Seq::from(resources))
}

#[tactic(auto, unfolding(crate::specs::Reading::resource_in))]
fn resource_in(alloc: Global, item: &Json) -> Result<Resource, AllocError>
    ensures { IfOk result (λ resource. resource ≡ resource_in item.now) }
{
    let mut resource = blank_resource(alloc, number_of(item, "number"));
    read_labels(alloc, item, &mut resource)?;
    read_file(alloc, item, &mut resource)?;
    Ok(resource)
}

/// A resource whose texts are empty. It takes no memory.
fn blank_resource(alloc: Global, number: u32) -> Resource
    ensures { result ≡ blank_resource number }
{
    Resource {
        number,
        name: Text::new(alloc),
        url: Text::new(alloc),
        format: Text::new(alloc),
        description: Text::new(alloc),
        mimetype: Text::new(alloc),
    }
}

fn read_labels(alloc: Global, item: &Json, resource: &mut Resource) -> Result<(), AllocError>
    ensures { OnOk result (resource.new ≡ with_labels item.now resource.old) }
{
    read_text(alloc, item, "name", &mut resource.name)?;
    read_text(alloc, item, "description", &mut resource.description)
}

fn read_file(alloc: Global, item: &Json, resource: &mut Resource) -> Result<(), AllocError>
    ensures { OnOk result (resource.new ≡ with_file item.now resource.old) }
{
    read_text(alloc, item, "url", &mut resource.url)?;
    read_text(alloc, item, "format", &mut resource.format)?;
    read_text(alloc, item, "mimetype", &mut resource.mimetype)
}

// ---- the dataset

/// Reads the moments, the number of the next resource, whether the dataset is private, and its state.
fn read_values(row: &Json, dataset: &mut Package)
    ensures { dataset.new ≡ with_values row.now dataset.old }
{
    dataset.created = moment_of(row, "created");
    dataset.modified = moment_of(row, "modified");
    dataset.next_resource = number_of(row, "next_resource");
    dataset.private = truth_of(row, "private");
    dataset.state = state_named(text_of(row, "state"));
}

/// A dataset without a value but the id. It takes no memory.
fn blank_dataset(alloc: Global, id: Text) -> Package
    ensures { result ≡ fresh_package id [] [] [] [] (pos 0) }
{
    Package::fresh(
        alloc,
        id,
        Text::new(alloc),
        Text::new(alloc),
        Text::new(alloc),
        Text::new(alloc),
        moment_by_default(),
    )
}

/// The dataset with that id that is read of a row's JSON value.
#[tactic(auto, unfolding(crate::specs::Reading::dataset_in))]
fn dataset_in(alloc: Global, id: &Text, row: &Json) -> Result<Package, AllocError>
    ensures { IfOk result (λ dataset. dataset ≡ dataset_in id.now row.now) }
{
    let mut dataset = blank_dataset(alloc, id.try_clone(alloc)?);
    read_texts(alloc, row, &mut dataset)?;
    read_lists(alloc, row, &mut dataset)?;
    read_values(row, &mut dataset);
    Ok(dataset)
}

/// The dataset that is read of a row, if its body is JSON.
pub fn dataset_read(alloc: Global, id: &Text, body: &Text) -> Result<Option<Package>, AllocError>
    ensures { IfOk result (λ read. read ≡ dataset_read id.now body.now) }
{
    match json_read(alloc, body)? {
        Some(row) => Ok(Some(dataset_in(alloc, id, &row)?)),
        None => Ok(None),
    }
}
