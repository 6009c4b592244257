//! The report of datasets.
ghost use Rattle.std.specs.Prelude.{◌≡◌, ◌++◌, ℕ, List, [], ◌∷◌, IfOk, OnOk, string_bytes, sum_by};
ghost use Rattle.std.specs.List.{flat_map};
ghost use Rattle.packages.specs.Owners.{count_at};
ghost use Rattle.visibility.specs.Viewer.{datasets_for};
ghost use Rattle.portal_reports.specs.Counts.{AreCounts, counted, counted_line};
ghost use Rattle.portal_reports.specs.Datasets.{datasets_text, is_of, numbers_of};

use crate::columns::{push_header, push_line};
use org_roles::entry::Org;
use packages::owners::count_at;
use packages::package::{Package, State};
use packages::walk::Test;
use portal_base::text::Text;
use std::alloc::{AllocError, Global};
use std::collections::BTreeMap;
use visibility::permissions::is_harvested;
use visibility::viewer::Viewer;

/// The places of the column of names.
const PLACES: usize = 40;

static TITLES: [&str; 4] = ["datasets", "private", "drafts", "harvested"];

/// A column of counts.
#[derive(Clone, Copy, Debug, PartialEq, Eq)]
pub enum Column {
    /// The active datasets and the drafts.
    Datasets,
    /// The private ones of these.
    Private,
    /// The drafts.
    Drafts,
    /// Those that were harvested.
    Harvested,
}

impl Test for Column {
    ghost use Rattle.portal_reports.specs.Datasets.{is_in};

    ghost test = { is_in };

    fn passes(&self, dataset: &Package) -> bool {
        dataset.state != State::Deleted && is_of(*self, dataset)
    }
}

/// What the column tells of a dataset.
fn is_of(column: Column, dataset: &Package) -> bool
    ensures { result ≡ is_of column dataset.now }
{
    match column {
        Column::Datasets => true,
        Column::Private => dataset.private,
        Column::Drafts => dataset.state == State::Draft,
        Column::Harvested => is_harvested(dataset),
    }
}

/// Counts by the names of organizations.
type OrgCounts = BTreeMap<Text, usize>;

/// The counts of the organizations in each column.
#[derive(Drop)]
pub struct Counts {
    datasets: OrgCounts,
    private: OrgCounts,
    drafts: OrgCounts,
    harvested: OrgCounts,
}

/// The counts of what the viewer sees. Each column takes one walk over the datasets.
fn counts_for(alloc: Global, viewer: &Viewer<'_>) -> Result<Counts, AllocError>
    ensures { IfOk result (λ counts. AreCounts (datasets_for viewer.now) counts) }
{
    let datasets = viewer.counts_by_owner(alloc, &Column::Datasets)?;
    let private = viewer.counts_by_owner(alloc, &Column::Private)?;
    let drafts = viewer.counts_by_owner(alloc, &Column::Drafts)?;
    let harvested = viewer.counts_by_owner(alloc, &Column::Harvested)?;
    Ok(Counts {
        datasets,
        private,
        drafts,
        harvested,
    })
}

/// The organization's counts.
fn counts_of(counts: &Counts, org: &Text) -> [u128; 4]
    ensures { result ≡ numbers_of (counted counts.now org.now) }
{
    [
        count_at(&counts.datasets, org) as u128,
        count_at(&counts.private, org) as u128,
        count_at(&counts.drafts, org) as u128,
        count_at(&counts.harvested, org) as u128,
    ]
}

/// The organizations' counts of one column together.
fn total_of(counts: &OrgCounts, orgs: &[Org]) -> u128
    ensures { result ≡ sum_by (λ org. count_at org.name counts.now) orgs.now }
{
    let mut total: u128 = 0;
    for org in orgs {
        total += count_at(counts, &org.name) as u128;
    }
    total
}

/// The organizations' counts together.
fn totals_of(counts: &Counts, orgs: &[Org]) -> [u128; 4]
    ensures { result ≡ numbers_of (λ column. sum_by (λ org. counted counts.now org.name column) orgs.now) }
{
    [
        total_of(&counts.datasets, orgs),
        total_of(&counts.private, orgs),
        total_of(&counts.drafts, orgs),
        total_of(&counts.harvested, orgs),
    ]
}

/// Adds the lines of the organizations.
fn push_orgs(text: &mut String, counts: &Counts, orgs: &[Org]) -> Result<(), AllocError>
    ensures { OnOk result (string_bytes text.new
        ≡ string_bytes text.old ++ flat_map (counted_line counts.now) orgs.now) }
{
    for org in orgs {
        let numbers = counts_of(counts, &org.name);
        push_line(text, PLACES, org.name.as_str(), numbers.as_slice())?;
    }
    Ok(())
}

/// The report of datasets on what the viewer sees.
pub(crate) fn datasets_text(alloc: Global, viewer: &Viewer<'_>) -> Result<String, AllocError>
    ensures { IfOk result (λ text. string_bytes text
        ≡ datasets_text viewer.now.people.orgs (datasets_for viewer.now)) }
{
    let counts = counts_for(alloc, viewer)?;
    let mut text = String::new(alloc);
    push_header(&mut text, PLACES, "organization", TITLES.as_slice())?;
    push_orgs(&mut text, &counts, viewer.orgs())?;
    let totals = totals_of(&counts, viewer.orgs());
    push_line(&mut text, PLACES, "total", totals.as_slice())?;
    Ok(text)
}
