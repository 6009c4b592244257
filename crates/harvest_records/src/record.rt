//! The record of a harvested dataset.
ghost use Rattle.std.specs.Prelude.{◌≡◌, [], OnOk};

use portal_base::copy::TryClone;
use portal_base::moment::Moment;
use portal_base::seq::Seq;
use portal_base::text::Text;
use std::alloc::{AllocError, Global};

/// A file or a service that gives a dataset's data.
#[derive(Drop)]
pub struct Distribution {
    pub url: Text,
    pub name: Text,
    pub format: Text,
    pub mimetype: Text,
    pub description: Text,
}

/// What a graph says of a dataset.
#[derive(Drop)]
pub struct HarvestRecord {
    pub title: Text,
    pub notes: Text,
    /// Ascending by bytes, each once, 100 at most.
    pub tags: Seq<Text>,
    /// 1970-01-01T00:00:00 where the graph gives none.
    pub modified: Moment,
    pub license_id: Text,
    /// In order, 200 at most.
    pub resources: Seq<Distribution>,
}

impl TryClone for Distribution {
    fn try_clone(&self, alloc: Global) -> Result<Distribution, AllocError> {
        let mut copy = blank_distribution(alloc);
        copy_words(alloc, self, &mut copy)?;
        copy_file(alloc, self, &mut copy)?;
        Ok(copy)
    }
}

impl TryClone for HarvestRecord {
    fn try_clone(&self, alloc: Global) -> Result<HarvestRecord, AllocError> {
        let mut copy = blank_record(alloc, self.modified);
        copy_texts(alloc, self, &mut copy)?;
        copy_lists(alloc, self, &mut copy)?;
        Ok(copy)
    }
}

// ---- the parts of a copy

// A distribution without texts. It takes no memory.
fn blank_distribution(alloc: Global) -> Distribution
    ensures { result ≡ record {
      url = [];
      name = [];
      format = [];
      mimetype = [];
      description = [];
    } }
{
    Distribution {
        url: Text::new(alloc),
        name: Text::new(alloc),
        format: Text::new(alloc),
        mimetype: Text::new(alloc),
        description: Text::new(alloc),
    }
}

// Copies the name and the description.
fn copy_words(alloc: Global, from: &Distribution, to: &mut Distribution) -> Result<(), AllocError>
    ensures { OnOk result (to.new ≡ record to.old {
      name = from.now.name;
      description = from.now.description;
    }) }
{
    to.name = from.name.try_clone(alloc)?;
    to.description = from.description.try_clone(alloc)?;
    Ok(())
}

// Copies where the file is found, its format and its media type.
fn copy_file(alloc: Global, from: &Distribution, to: &mut Distribution) -> Result<(), AllocError>
    ensures { OnOk result (to.new ≡ record to.old {
      url = from.now.url;
      format = from.now.format;
      mimetype = from.now.mimetype;
    }) }
{
    to.url = from.url.try_clone(alloc)?;
    to.format = from.format.try_clone(alloc)?;
    to.mimetype = from.mimetype.try_clone(alloc)?;
    Ok(())
}

// A record of this moment without texts, tags and distributions. It takes no memory.
fn blank_record(alloc: Global, modified: Moment) -> HarvestRecord
    ensures { result ≡ record {
      title = [];
      notes = [];
      tags = [];
      modified = modified;
      license_id = [];
      resources = [];
    } }
{
    HarvestRecord {
        title: Text::new(alloc),
        notes: Text::new(alloc),
        tags: Seq::new(alloc),
        modified,
        license_id: Text::new(alloc),
        resources: Seq::new(alloc),
    }
}

// Copies the title, the notes and the license.
fn copy_texts(alloc: Global, from: &HarvestRecord, to: &mut HarvestRecord) -> Result<(), AllocError>
    ensures { OnOk result (to.new ≡ record to.old {
      title = from.now.title;
      notes = from.now.notes;
      license_id = from.now.license_id;
    }) }
{
    to.title = from.title.try_clone(alloc)?;
    to.notes = from.notes.try_clone(alloc)?;
    to.license_id = from.license_id.try_clone(alloc)?;
    Ok(())
}

// Copies the tags and the distributions.
fn copy_lists(alloc: Global, from: &HarvestRecord, to: &mut HarvestRecord) -> Result<(), AllocError>
    ensures { OnOk result (to.new ≡ record to.old {
      tags = from.now.tags;
      resources = from.now.resources;
    }) }
{
    to.tags = from.tags.try_clone(alloc)?;
    to.resources = from.resources.try_clone(alloc)?;
    Ok(())
}
