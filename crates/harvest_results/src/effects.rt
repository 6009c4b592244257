//! What the steps of a harvest do to the datasets of the source.
ghost use Rattle.std.specs.Prelude.{◌≡◌, IfOk, filter, map, option_copied, option_map};
ghost use Rattle.packages.specs.Shelf.{datasets_of};
ghost use Rattle.packages.specs.Tags.{text_set};
ghost use Rattle.harvest_results.specs.Effects.{effect_over, gone_of, is_of_source, read_in};

use crate::dataset::harvested_dataset;
use crate::equality::equal_datasets;
use harvest_sources::{Effect, Reading, SourceJobs};
use packages::package::Package;
use packages::shelf::Shelf;
use packages::walk::Test;
use portal_base::text::Text;
use std::alloc::{AllocError, Global};

// ---- the dataset that is put

/// The dataset that the reading of an IRI gives in the organization of the job's source, if the source was found and the
/// reading has a record.
pub fn dataset_read(
    alloc: Global,
    jobs: Option<&SourceJobs>,
    iri: &Text,
    reading: &Reading,
) -> Result<Option<Package>, AllocError>
    ensures { IfOk result (λ dataset.
        dataset ≡ read_in iri.now reading.now (option_map (λ s. s.now.state) jobs.entry)) }
{
    match (jobs, reading) {
        (Some(jobs), Reading::Good(description)) => {
            let dataset = harvested_dataset(alloc, jobs.source(), iri.as_str(), description)?;
            Ok(Some(dataset))
        }
        _ => Ok(None),
    }
}

/// What the dataset does that is put, if `old` has its name so far.
pub fn effect_over(dataset: &Package, old: Option<&Package>) -> Effect
    ensures { result ≡ effect_over dataset.now (option_copied old.entry) }
{
    match old {
        Some(old) if equal_datasets(old, dataset) => Effect::Unchanged,
        Some(_) => Effect::Updated,
        None => Effect::Added,
    }
}

// ---- the datasets that are dropped

/// The names of the datasets of the job's source that its catalogue no longer lists, ascending and each once. Without a
/// source or a listing there are none. It walks the datasets once, with a binary search in the listing for each of the
/// source.
pub fn names_gone(
    alloc: Global,
    jobs: Option<&SourceJobs>,
    shelf: &Shelf,
) -> Result<Vec<Text>, AllocError>
    ensures { IfOk result (λ names. names.items ≡ text_set (map (λ d. d.name)
        (gone_of (option_map (λ s. s.now.state) jobs.entry) (datasets_of shelf.now)))) }
{
    match jobs {
        Some(jobs) if jobs.is_listed() => shelf.names_of(alloc, &IsUnlisted { jobs }),
        _ => Ok(Vec::new(alloc)),
    }
}

/// The names of the datasets of the source of that name, ascending and each once. It walks the datasets once.
pub fn names_of_source(alloc: Global, name: &Text, shelf: &Shelf) -> Result<Vec<Text>, AllocError>
    ensures { IfOk result (λ names. names.items
        ≡ text_set (map (λ d. d.name) (filter (is_of_source name.now) (datasets_of shelf.now)))) }
{
    shelf.names_of(alloc, &IsOfSource { name })
}

/// Whether a dataset is one of the source, whose catalogue doesn't list the dataset's IRI.
#[derive(Drop)]
struct IsUnlisted<'a> {
    jobs: &'a SourceJobs,
}

impl<'a> Test for IsUnlisted<'a> {
    ghost use Rattle.std.specs.Prelude.{◌&&◌, not};
    ghost use Rattle.harvest_sources.specs.Steps.{lists};
    ghost use Rattle.harvest_results.specs.Effects.{is_of_source};

    ghost test = { λ t d. is_of_source t.jobs.now.state.source.name d && not (lists d.iri t.jobs.now.state) };

    fn passes(&self, dataset: &Package) -> bool {
        dataset.source == self.jobs.source().name && !self.jobs.lists(dataset.iri.as_str())
    }
}

/// Whether a dataset is one of the source of that name.
#[derive(Drop)]
struct IsOfSource<'a> {
    name: &'a Text,
}

impl<'a> Test for IsOfSource<'a> {
    ghost use Rattle.harvest_results.specs.Effects.{is_of_source};

    ghost test = { λ t d. is_of_source t.name.now d };

    fn passes(&self, dataset: &Package) -> bool {
        dataset.source == *self.name
    }
}
