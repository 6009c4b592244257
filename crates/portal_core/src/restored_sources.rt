//! Sources and jobs that are read back from values of a store.
ghost use Rattle.std.specs.Prelude.{◌≡◌, ◌↔◌, All, IfNone, IfOk, IfSome, IsTrue, List};
ghost use Rattle.dataset_answers.specs.Sound.{OrgExists};
ghost use Rattle.harvest_rows.specs.KeptHarvests.{AreKeptHarvests};
ghost use Rattle.harvest_sources.specs.Sources.{SourceState};
ghost use Rattle.harvest_stages.specs.Stages.{sources_in};
ghost use Rattle.portal_core.specs.Restored.{AreHarvestsOf};

use harvest_rows::kept_harvests::KeptHarvests;
use harvest_sources::HarvestSource;
use harvest_stages::Stages;
use org_roles::people::People;
use std::alloc::{AllocError, Global};

/// The sources with these values. The result is `None` exactly if no valid state with these people has such sources.
pub(crate) fn sources_of_values(
    alloc: Global,
    people: &People,
    kept: KeptHarvests,
) -> Result<Option<Stages>, AllocError>
    requires { AreKeptHarvests kept }
    ensures sources { IfOk result (λ found. IfSome found (λ made.
        AreHarvestsOf people.now.people kept (sources_in made))) }
    ensures none { IfOk result (λ found. IfNone found
        ((sources : List SourceState) → AreHarvestsOf people.now.people kept sources → ⊥)) }
{
    if have_owners(people, kept.sources.as_slice()) {
        Stages::restore(alloc, kept.sources, kept.jobs)
    } else {
        Ok(None)
    }
}

/// Whether each source belongs to an organization that exists.
fn have_owners(people: &People, sources: &[HarvestSource]) -> bool
    ensures { IsTrue result ↔ All (λ s. OrgExists people.now.people s.owner_org) sources.now }
{
    sources
        .iter()
        .all(|source| people.org(&source.owner_org).is_some())
}
