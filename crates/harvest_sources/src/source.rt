//! The sources of harvests.
ghost use Rattle.std.specs.Prelude.{◌≡◌, OnOk};

use portal_base::copy::TryClone;
use portal_base::text::Text;
use std::alloc::{AllocError, Global};

/// A catalogue from which an organization takes datasets.
#[derive(Drop)]
pub struct HarvestSource {
    pub name: Text,
    pub title: Text,
    /// Where the catalogue's document is.
    pub url: Text,
    /// The name of the organization that owns the source and its datasets.
    pub owner_org: Text,
    /// The number of the next job.
    pub next_job: u64,
}

impl TryClone for HarvestSource {
    fn try_clone(&self, alloc: Global) -> Result<HarvestSource, AllocError> {
        let mut copy = HarvestSource {
            name: Text::new(alloc),
            title: Text::new(alloc),
            url: Text::new(alloc),
            owner_org: Text::new(alloc),
            next_job: self.next_job,
        };
        copy_names(alloc, self, &mut copy)?;
        copy_texts(alloc, self, &mut copy)?;
        Ok(copy)
    }
}

// Copies the names of the source and of its organization.
fn copy_names(alloc: Global, from: &HarvestSource, to: &mut HarvestSource) -> Result<(), AllocError>
    ensures { OnOk result (to.new ≡ record to.old {
      name = from.now.name;
      owner_org = from.now.owner_org;
    }) }
{
    to.name = from.name.try_clone(alloc)?;
    to.owner_org = from.owner_org.try_clone(alloc)?;
    Ok(())
}

// Copies the title and the location.
fn copy_texts(alloc: Global, from: &HarvestSource, to: &mut HarvestSource) -> Result<(), AllocError>
    ensures { OnOk result (to.new ≡ record to.old {
      title = from.now.title;
      url = from.now.url;
    }) }
{
    to.title = from.title.try_clone(alloc)?;
    to.url = from.url.try_clone(alloc)?;
    Ok(())
}
