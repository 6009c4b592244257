//! The dataset that a record gives.
ghost use Rattle.std.specs.Prelude.{◌≡◌, ◌+◌, ◌≤◌, [], length, take, IfOk, OnOk};
ghost use Rattle.packages.specs.Package.{fresh_package};
ghost use Rattle.packages.specs.Tags.{text_set};
ghost use Rattle.harvest_records.specs.Names.{harvested_name};
ghost use Rattle.harvest_results.specs.Harvested.{harvested_dataset, harvested_resource, numbered_from, max_resources};

use harvest_records::{Distribution, HarvestRecord, name_of};
use harvest_sources::HarvestSource;
use packages::package::{Package, Resource};
use packages::tags::sort_and_dedup;
use portal_base::copy::TryClone;
use portal_base::moment::Moment;
use portal_base::seq::Seq;
use portal_base::text::Text;
use std::alloc::{AllocError, Global};

/// The most resources that a harvested dataset has.
const MAX_RESOURCES: usize = 200;

/// The dataset that the record of an IRI gives in the source's organization.
#[tactic(auto, unfolding(crate::specs::Harvested::harvested_dataset))]
pub fn harvested_dataset(
    alloc: Global,
    source: &HarvestSource,
    iri: &str,
    record: &HarvestRecord,
) -> Result<Package, AllocError>
    ensures { IfOk result (λ dataset. dataset ≡ harvested_dataset source.now iri.now «record».now) }
{
    let iri = Text::from_str(alloc, iri)?;
    let mut dataset = untitled(alloc, source, &iri, record.modified)?;
    dataset.iri = iri;
    copy_texts(alloc, record, &mut dataset)?;
    copy_lists(alloc, record, &mut dataset)?;
    Ok(dataset)
}

// The dataset without its IRI and what its record has, apart from the moment.
fn untitled(
    alloc: Global,
    source: &HarvestSource,
    iri: &Text,
    moment: Moment,
) -> Result<Package, AllocError>
    ensures { IfOk result (λ dataset. dataset
        ≡ record (fresh_package (harvested_name source.now.name iri.now) (harvested_name source.now.name iri.now) []
        source.now.owner_org [] moment) { source = source.now.name }) }
{
    let source_name = source.name.try_clone(alloc)?;
    let owner_org = source.owner_org.try_clone(alloc)?;
    let name = name_of(alloc, &source.name, iri)?;
    let id = name.try_clone(alloc)?;
    let title = Text::new(alloc);
    let creator = Text::new(alloc);
    let mut dataset = Package::fresh(alloc, id, name, title, owner_org, creator, moment);
    dataset.source = source_name;
    Ok(dataset)
}

// Copies the texts of the record.
fn copy_texts(alloc: Global, from: &HarvestRecord, to: &mut Package) -> Result<(), AllocError>
    ensures { OnOk result (to.new ≡ record to.old {
      title = from.now.title;
      notes = from.now.notes;
      license_id = from.now.license_id;
    }) }
{
    to.title = from.title.try_clone(alloc)?;
    to.notes = from.notes.try_clone(alloc)?;
    to.license_id = from.license_id.try_clone(alloc)?;
    Ok(())
}

// Copies the tags of the record, and numbers its resources.
fn copy_lists(alloc: Global, from: &HarvestRecord, to: &mut Package) -> Result<(), AllocError>
    ensures { OnOk result (to.new ≡ record to.old {
      tags = text_set from.now.tags;
      resources = numbered_from 1 (take max_resources from.now.resources);
      next_resource = length (take max_resources from.now.resources) + 1;
    }) }
{
    to.tags = set_of(alloc, &from.tags)?;
    let taken = first_resources(from.resources.as_slice());
    to.resources = numbered(alloc, taken)?;
    to.next_resource = taken.len() as u32 + 1;
    Ok(())
}

// The texts, ascending by bytes and each once.
fn set_of(alloc: Global, texts: &Seq<Text>) -> Result<Seq<Text>, AllocError>
    ensures { IfOk result (λ set. set ≡ text_set texts.now) }
{
    let mut copy = texts.try_clone(alloc)?.into_vec();
    sort_and_dedup(&mut copy);
    Ok(Seq::from(copy))
}

// As many as a dataset may have.
fn first_resources(resources: &[Distribution]) -> &[Distribution]
    ensures first { result.now ≡ take max_resources resources.now }
    ensures count { length result.now ≤ max_resources }
{
    match resources.get(..MAX_RESOURCES) {
        Some(first) => first,
        None => resources,
    }
}

// Resources, numbered from 1.
fn numbered(alloc: Global, distributions: &[Distribution]) -> Result<Seq<Resource>, AllocError>
    requires { length distributions.now ≤ max_resources }
    ensures { IfOk result (λ resources. resources ≡ numbered_from 1 distributions.now) }
{
    let mut resources = Vec::new(alloc);
    let mut number = 1;
    for distribution in distributions {
        resources.push(resource_of(alloc, number, distribution)?)?;
        number += 1;
    }
    Ok(Seq::from(resources))
}

// The resource of this number.
fn resource_of(alloc: Global, number: u32, from: &Distribution) -> Result<Resource, AllocError>
    ensures { IfOk result (λ resource. resource ≡ harvested_resource number from.now) }
{
    let mut resource = Resource {
        number,
        name: Text::new(alloc),
        url: Text::new(alloc),
        format: Text::new(alloc),
        description: Text::new(alloc),
        mimetype: Text::new(alloc),
    };
    copy_words(alloc, from, &mut resource)?;
    copy_file(alloc, from, &mut resource)?;
    Ok(resource)
}

// Copies the name and the description.
fn copy_words(alloc: Global, from: &Distribution, to: &mut Resource) -> Result<(), AllocError>
    ensures { OnOk result (to.new ≡ record to.old {
      name = from.now.name;
      description = from.now.description;
    }) }
{
    to.name = from.name.try_clone(alloc)?;
    to.description = from.description.try_clone(alloc)?;
    Ok(())
}

// Copies where the file is found, its format and its media type.
fn copy_file(alloc: Global, from: &Distribution, to: &mut Resource) -> Result<(), AllocError>
    ensures { OnOk result (to.new ≡ record to.old {
      url = from.now.url;
      format = from.now.format;
      mimetype = from.now.mimetype;
    }) }
{
    to.url = from.url.try_clone(alloc)?;
    to.format = from.format.try_clone(alloc)?;
    to.mimetype = from.mimetype.try_clone(alloc)?;
    Ok(())
}
