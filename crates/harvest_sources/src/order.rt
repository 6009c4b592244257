//! The orders of sources by name and of listed objects by IRI, and the keys by which they are looked up.

use crate::listing::ListedObject;
use crate::source_jobs::SourceJobs;
use portal_base::ordered::{Key, Ordered};
use portal_base::text::Text;
use std::cmp::Ordering;

impl Ordered for SourceJobs {
    ghost use Rattle.harvest_sources.specs.Sources.{stored_cmp, stored_cmp_total};

    ghost order = { stored_cmp };

    ghost total = { stored_cmp_total };

    /// The order by name.
    fn compare(&self, other: &SourceJobs) -> Ordering {
        self.source().name.cmp(&other.source().name)
    }
}

impl Key<SourceJobs> for Text {
    ghost use Rattle.harvest_sources.specs.Sources.{stored_at, IsKey-stored_at, IsMonotone-stored_at};

    ghost at = { stored_at };

    ghost is_key = { IsKey-stored_at };

    ghost is_monotone = { IsMonotone-stored_at };

    fn compare_item(&self, item: &SourceJobs) -> Ordering {
        item.source().name.cmp(self)
    }
}

impl Key<SourceJobs> for &str {
    ghost use Rattle.harvest_sources.specs.Sources.{stored_at, IsKey-stored_at, IsMonotone-stored_at};

    ghost at = { λ name. stored_at name.now };

    ghost is_key = { λ name. IsKey-stored_at name.now };

    ghost is_monotone = { λ name. IsMonotone-stored_at name.now };

    fn compare_item(&self, item: &SourceJobs) -> Ordering {
        item.source().name.as_str().cmp(*self)
    }
}

impl Ordered for ListedObject {
    ghost use Rattle.harvest_sources.specs.Listings.{object_cmp, object_cmp_total};

    ghost order = { object_cmp };

    ghost total = { object_cmp_total };

    /// The order by IRI.
    fn compare(&self, other: &ListedObject) -> Ordering {
        self.iri.cmp(&other.iri)
    }
}

impl Key<ListedObject> for &str {
    ghost use Rattle.harvest_sources.specs.Listings.{object_at, IsKey-object_at, IsMonotone-object_at};

    ghost at = { λ iri. object_at iri.now };

    ghost is_key = { λ iri. IsKey-object_at iri.now };

    ghost is_monotone = { λ iri. IsMonotone-object_at iri.now };

    fn compare_item(&self, item: &ListedObject) -> Ordering {
        item.iri.as_str().cmp(*self)
    }
}
