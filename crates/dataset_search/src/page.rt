//! A page of the datasets that a search found.
ghost use Rattle.std.specs.Prelude.{◌≡◌, ◌+◌, ◌≤◌, IfOk, IsPermutation, IsSome, IsTrue, OnOk, List, length};
ghost use Rattle.std.specs.List.{All};
ghost use Rattle.packages.specs.Shelf.{datasets_at, package_at};
ghost use Rattle.packages.specs.declared.package.Package.{Package};
ghost use Rattle.dataset_search.specs.Found.{page};
ghost use Rattle.dataset_search.specs.Order.{have_distinct_names};

use crate::lent_dataset::LentDataset;
use crate::order::SortOrder;
use crate::search::Search;
use packages::shelf::Shelf;
use portal_base::seq::Seq;
use portal_base::steps::Steps;
use sorted_pages::order::first_in_order;
use sorted_pages::page::page_of;
use std::alloc::{AllocError, Global};
use std::sync::ledger::Ledger;

// The datasets at these numbers.
fn lend_datasets<'a, L: Ledger>(
    alloc: Global,
    shelf: &'a Shelf,
    numbers: &[u32],
    steps: &mut Steps<L>,
) -> Result<Vec<LentDataset<'a>>, AllocError>
    requires { All (λ number. IsSome (package_at number shelf.now)) numbers.now }
    ensures datasets { IfOk result (λ datasets. datasets.items ≡ datasets_at shelf.now numbers.now) }
    ensures steps { OnOk result (steps.new ≡ steps.old + length numbers.now) }
    ensures bound { steps.new ≤ steps.old + length numbers.now }
{
    let mut datasets = Vec::with_capacity(alloc, numbers.len())?;
    for number in numbers {
        datasets.push(LentDataset::of(shelf.look(*number, steps)))?;
    }
    Ok(datasets)
}

// The datasets, lent once more.
fn lend_again<'a>(
    alloc: Global,
    datasets: &[LentDataset<'a>],
) -> Result<Vec<LentDataset<'a>>, AllocError>
    ensures { IfOk result (λ lent. lent.items ≡ datasets.now) }
{
    let mut lent = Vec::with_capacity(alloc, datasets.len())?;
    for dataset in datasets {
        lent.push(LentDataset::of(dataset.dataset()))?;
    }
    Ok(lent)
}

/// The datasets of the search's page, in the order of its sort, if these numbers are those of the datasets that it found. The
/// numbers can stand in any order. The function looks once at each, and sorts only the datasets on the page and before it.
pub fn find_page<'a, L: Ledger>(
    alloc: Global,
    search: &Search,
    shelf: &'a Shelf,
    numbers: &Seq<u32>,
    steps: &mut Steps<L>,
) -> Result<Vec<LentDataset<'a>>, AllocError>
    requires exist { All (λ number. IsSome (package_at number shelf.now)) numbers.now }
    requires names { IsTrue (have_distinct_names (datasets_at shelf.now numbers.now)) }
    ensures page { (datasets : List Package) → IsPermutation (datasets_at shelf.now numbers.now) datasets →
        IfOk result (λ listed. listed.items ≡ page search.now datasets) }
    ensures steps { OnOk result (steps.new ≡ steps.old + length numbers.now) }
    ensures bound { steps.new ≤ steps.old + length numbers.now }
{
    let mut datasets = lend_datasets(alloc, shelf, numbers.as_slice(), steps)?;
    let end = search.page.end_within(datasets.len());
    let order = SortOrder {
        keys: search.sort.as_slice(),
    };
    let first = first_in_order(datasets.as_mut_slice(), &order, end);
    lend_again(alloc, page_of(first, search.page))
}
