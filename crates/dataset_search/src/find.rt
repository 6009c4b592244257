//! What a search finds among the datasets that its caller sees.
ghost use Rattle.std.specs.Prelude.{◌≡◌, ◌+◌, ◌≤◌, ◌&&◌, IfOk, IsPermutation, IsSome, IsTrue, OnOk, length};
ghost use Rattle.std.specs.List.{All};
ghost use Rattle.packages.specs.Shelf.{IsValidShelf, datasets_at, datasets_of, package_at};
ghost use Rattle.visibility.specs.Viewer.{datasets_for};
ghost use Rattle.visibility.specs.Visibility.{sees_in};
ghost use Rattle.search_index.specs.Index.{StandsFor};
ghost use Rattle.dataset_search.specs.Found.{found, numbers_matching, numbers_with, takes};
ghost use Rattle.dataset_search.specs.Order.{have_distinct_names};

use crate::search::Search;
use packages::package::{Package, State};
use packages::shelf::Shelf;
use portal_base::seq::Seq;
use portal_base::steps::Steps;
use search_index::index::Index;
use search_index::query::SearchQuery;
use std::alloc::{AllocError, Global};
use std::sync::ledger::Ledger;
use visibility::viewer::Viewer;

impl Search {
    // Whether its flags take a dataset.
    fn takes(&self, dataset: &Package) -> bool
        ensures { result ≡ takes self.now dataset.now }
    {
        let takes_state = match dataset.state {
            State::Draft => self.include_drafts,
            State::Active => true,
            State::Deleted => false,
        };
        takes_state && (!dataset.private || self.include_private)
    }
}

// Whether the search takes a dataset that the viewer sees. The flags are tried first.
fn is_taken(search: &Search, viewer: &Viewer<'_>, dataset: &Package) -> bool
    ensures { result ≡ (takes search.now dataset.now && sees_in viewer.now.people viewer.now.caller dataset.now) }
{
    search.takes(dataset) && viewer.sees(dataset)
}

// The numbers of datasets that the search takes and the viewer sees.
fn taken<L: Ledger>(
    alloc: Global,
    search: &Search,
    viewer: &Viewer<'_>,
    shelf: &Shelf,
    numbers: &[u32],
    steps: &mut Steps<L>,
) -> Result<Vec<u32>, AllocError>
    requires { All (λ number. IsSome (package_at number shelf.now)) numbers.now }
    ensures taken { IfOk result (λ taken. taken.items
        ≡ numbers_with (λ dataset. takes search.now dataset && sees_in viewer.now.people viewer.now.caller dataset)
        shelf.now numbers.now) }
    ensures steps { OnOk result (steps.new ≡ steps.old + length numbers.now) }
    ensures bound { steps.new ≤ steps.old + length numbers.now }
{
    let mut taken = Vec::new(alloc);
    for number in numbers {
        let dataset = shelf.look(*number, steps);
        if is_taken(search, viewer, dataset) {
            taken.push(*number)?;
        }
    }
    Ok(taken)
}

/// The numbers of the datasets that the search finds among those that the viewer sees. It looks once at each dataset that
/// matches the texts of the search, and at no other. A dataset that the viewer doesn't see has no number here.
pub fn find_datasets<L: Ledger>(
    alloc: Global,
    search: &Search,
    index: &Index,
    viewer: &Viewer<'_>,
    shelf: &Shelf,
    steps: &mut Steps<L>,
) -> Result<Seq<u32>, AllocError>
    requires stands { StandsFor index.now shelf.now }
    requires same { viewer.now.datasets ≡ datasets_of shelf.now }
    requires valid { IsValidShelf shelf.now }
    ensures exist { IfOk result (λ numbers. All (λ number. IsSome (package_at number shelf.now)) numbers) }
    ensures found { IfOk result (λ numbers.
        IsPermutation (datasets_at shelf.now numbers) (found search.now (datasets_for viewer.now))) }
    ensures names { IfOk result (λ numbers. IsTrue (have_distinct_names (datasets_at shelf.now numbers))) }
    ensures steps { OnOk result (steps.new ≡ steps.old + length (numbers_matching search.now shelf.now)) }
    ensures bound { steps.new ≤ steps.old + length (numbers_matching search.now shelf.now) }
{
    let query = SearchQuery::read(alloc, search.q.as_str(), search.fq.as_str())?;
    let numbers = index.find(&query, shelf, steps)?;
    let taken = taken(alloc, search, viewer, shelf, numbers.as_slice(), steps)?;
    Ok(Seq::from(taken))
}
