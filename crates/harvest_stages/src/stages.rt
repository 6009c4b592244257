//! The sources with their jobs as one value.
ghost use Rattle.std.specs.Prelude.{◌≡◌, [], IfSome, option_map};
ghost use Rattle.harvest_sources.specs.Sources.{AreSources, HasItsJobs, source_named, states};
ghost use Rattle.harvest_sources.specs.Steps.{with_open_job};
ghost use Rattle.harvest_stages.specs.Stages.{sources_in};

use crate::located::source_of_job;
use crate::places::find_source;
use harvest_sources::SourceJobs;
use portal_base::text::Text;
use std::alloc::Global;
use std::marker::Model;

/// The sources of a portal, ascending by name, each with its jobs. In contracts, `stored` is the list of them, and `room`
/// says whether one more source fits without an allocation.
#[derive(Drop)]
pub struct Stages {
    pub(crate) sources: Vec<SourceJobs>,
}

impl Model for Stages {
    ghost use Rattle.std.specs.Prelude.{nat_lt, vec_len, vec_capacity};
    ghost use Rattle.harvest_sources.specs.Sources.{AreSources, states};
    ghost use Rattle.harvest_stages.specs.Stages.{StagesWithRoom};

    ghost Value = { StagesWithRoom };

    ghost view = { λ s. record {
      stored = s.sources.items;
      room = nat_lt (vec_len s.sources) (vec_capacity s.sources);
    } };

    ghost invariant = { λ s. AreSources (states s.sources.items) };
}

impl Stages {
    /// Stages without a source. It takes no memory.
    pub fn new(alloc: Global) -> Stages
        ensures { sources_in result ≡ [] }
    {
        Stages {
            sources: Vec::new(alloc),
        }
    }

    /// The sources with their jobs, ascending by name.
    pub fn sources(&self) -> &[SourceJobs]
        ensures sources { states result.now ≡ sources_in self.now }
        ensures valid { AreSources (states result.now) }
    {
        self.sources.as_slice()
    }

    /// The source of that name with its jobs, by a binary search.
    pub fn source(&self, name: &Text) -> Option<&SourceJobs>
        ensures { option_map (λ s. s.now.state) result ≡ source_named (sources_in self.now) name.now }
    {
        find_source(self.sources.as_slice(), name)
    }

    /// The source whose open job has this id, by a binary search.
    pub fn source_of_job(&self, id: &str) -> Option<&SourceJobs>
        ensures source { option_map (λ s. s.now.state) result ≡ with_open_job (sources_in self.now) id.now }
        ensures holds { IfSome result (λ s. HasItsJobs s.now.state) }
    {
        let (_, source) = source_of_job(self.sources.as_slice(), id)?;
        Some(source)
    }
}
