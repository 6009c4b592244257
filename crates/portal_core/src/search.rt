//! The answer to a `package_search`: what a body finds among the datasets that its caller sees. It changes nothing.
ghost use Rattle.std.specs.Prelude.{◌≡◌, IfOk, IsPermutation, IsSome, IsTrue, map};
ghost use Rattle.std.specs.List.{All};
ghost use Rattle.dataset_answers.specs.Dictionary.{package_dictionary};
ghost use Rattle.packages.specs.Shelf.{datasets_at, datasets_of, package_at};
ghost use Rattle.dataset_search.specs.Found.{found, page};
ghost use Rattle.dataset_search.specs.Order.{have_distinct_names};
ghost use Rattle.datastore_answers.specs.Summaries.{summaries_of};
ghost use Rattle.datastore_answers.specs.Tables.{tables_of};
ghost use Rattle.portal_calls.specs.Stop.{Finds};
ghost use Rattle.visibility.specs.TableSummary.{summaries_seen};
ghost use Rattle.visibility.specs.Viewer.{datasets_for, people_for};
ghost use Rattle.portal_state.specs.Indexes.{IsIndexed};
ghost use Rattle.portal_state.specs.Search.{found_dictionary, search_outcome};

use dataset_answers::dictionary::package_json;
use dataset_search::find::find_datasets;
use dataset_search::lent_dataset::LentDataset;
use dataset_search::page::find_page;
use dataset_search::search::{Search, read_search};
use datastore_answers::tables::Tables;
use facets::laws::search_facets_do_not_depend_on_the_order;
use facets::request::{FacetRequest, read_request};
use facets::search::search_facets;
use packages::shelf::Shelf;
use portal_base::dictionary::Value;
use portal_base::json_value::Json;
use portal_base::key_errors::KeyErrors;
use portal_base::seq::Seq;
use portal_base::steps::Steps;
use portal_calls::stop::{Stop, validate};
use portal_state::indexes::Indexes;
use std::alloc::{AllocError, Global};
use std::sync::ledger::Ledger;
use visibility::viewer::Viewer;

/// The dictionaries of these datasets, which tell whether a resource has a table.
fn dictionaries_json(
    alloc: Global,
    viewer: &Viewer<'_>,
    tables: &Tables,
    datasets: &[LentDataset<'_>],
) -> Result<Seq<Json>, AllocError>
    ensures { IfOk result (λ list. list
        ≡ map (package_dictionary (people_for viewer.now) (summaries_of (tables_of tables.now))) datasets.now) }
{
    let mut list = Vec::with_capacity(alloc, datasets.len())?;
    for dataset in datasets {
        list.push(package_json(alloc, viewer, tables, dataset.dataset())?)?;
    }
    Ok(Seq::from(list))
}

/// The dictionaries of the page of the datasets at these numbers, which are those that the search found. They tell of no table
/// but those of datasets that the caller sees.
fn results_json<L: Ledger>(
    alloc: Global,
    viewer: &Viewer<'_>,
    shelf: &Shelf,
    tables: &Tables,
    search: &Search,
    numbers: &Seq<u32>,
    steps: &mut Steps<L>,
) -> Result<Seq<Json>, AllocError>
    requires exist { All (λ number. IsSome (package_at number shelf.now)) numbers.now }
    requires names { IsTrue (have_distinct_names (datasets_at shelf.now numbers.now)) }
    requires found { IsPermutation (datasets_at shelf.now numbers.now) (found search.now (datasets_for viewer.now)) }
    ensures { IfOk result (λ list. list ≡ map (package_dictionary (people_for viewer.now)
        (summaries_seen (datasets_for viewer.now) (summaries_of (tables_of tables.now))))
        (page search.now (found search.now (datasets_for viewer.now)))) }
{
    let page = find_page(alloc, search, shelf, numbers, steps)?;
    dictionaries_json(alloc, viewer, tables, page.as_slice())
}

/// The dictionary of what a search finds, with the facets that are asked for. It finds among the datasets that the caller
/// sees before it counts.
fn found_json<L: Ledger>(
    alloc: Global,
    viewer: &Viewer<'_>,
    shelf: &Shelf,
    indexes: &Indexes,
    tables: &Tables,
    search: &Search,
    request: &FacetRequest,
    steps: &mut Steps<L>,
) -> Result<Json, AllocError>
    requires indexed { IsIndexed shelf.now indexes.now }
    requires shelf { viewer.now.datasets ≡ datasets_of shelf.now }
    ensures { IfOk result (λ json. json ≡ found_dictionary (people_for viewer.now)
        (summaries_seen (datasets_for viewer.now) (summaries_of (tables_of tables.now))) search.now request.now
        (found search.now (datasets_for viewer.now))) }
{
    search_facets_do_not_depend_on_the_order();
    let numbers = find_datasets(alloc, search, &indexes.index, viewer, shelf, steps)?;
    let results = results_json(alloc, viewer, shelf, tables, search, &numbers, steps)?;
    let facets = search_facets(alloc, viewer, shelf, &numbers, request, steps)?;
    Json::dictionary(
        alloc,
        [
            ("count", Value::Whole(numbers.len())),
            ("results", Value::List(results)),
            ("search_facets", Value::Json(facets)),
        ],
    )
}

/// What the body finds among the datasets that the caller sees, or the refusal of the body.
pub(crate) fn search<L: Ledger>(
    alloc: Global,
    viewer: &Viewer<'_>,
    shelf: &Shelf,
    indexes: &Indexes,
    tables: &Tables,
    body: &Json,
    steps: &mut Steps<L>,
) -> Result<Json, Stop>
    requires indexed { IsIndexed shelf.now indexes.now }
    requires shelf { viewer.now.datasets ≡ datasets_of shelf.now }
    ensures { Finds result (λ json. json) (search_outcome body.now (people_for viewer.now) (datasets_for viewer.now)
        (summaries_seen (datasets_for viewer.now) (summaries_of (tables_of tables.now)))) }
{
    let mut faults = KeyErrors::new(alloc);
    let search = read_search(alloc, &mut faults, body)?;
    let request = read_request(alloc, &mut faults, body)?;
    validate(faults)?;
    Ok(found_json(
        alloc, viewer, shelf, indexes, tables, &search, &request, steps,
    )?)
}
