//! The facets in the reply of a search (CKAN's package_search).
ghost use Rattle.std.specs.Prelude.{◌≡◌, ◌≤◌, ◌+◌, ◌*◌, IfOk, IsSome, OnOk, length, map};
ghost use Rattle.std.specs.List.{All};
ghost use Rattle.packages.specs.Shelf.{datasets_at, package_at};
ghost use Rattle.facets.specs.Request.{field_named};
ghost use Rattle.facets.specs.SearchFacets.{counted_names, display_name, field_dictionary, field_items, item_dictionary};
ghost use Rattle.facets.specs.SearchFacets.{looks_for, search_facets};

use crate::facets::facets_of;
use crate::field::FacetField;
use crate::items::facet_items;
use crate::request::FacetRequest;
use packages::shelf::Shelf;
use portal_base::copy::TryClone;
use portal_base::dictionary::Value;
use portal_base::json_value::Json;
use portal_base::seq::Seq;
use portal_base::steps::Steps;
use portal_base::text::Text;
use std::alloc::{AllocError, Global};
use std::sync::ledger::Ledger;
use visibility::viewer::Viewer;

/// What is displayed for a value of a field.
fn display_name(
    alloc: Global,
    viewer: &Viewer<'_>,
    field: FacetField,
    value: &Text,
) -> Result<Text, AllocError>
    ensures { IfOk result (λ name. name ≡ display_name viewer.now.people.orgs field value.now) }
{
    match field {
        FacetField::Organization => match viewer.org(value) {
            Some(org) => org.title.try_clone(alloc),
            None => value.try_clone(alloc),
        },
        FacetField::Tags | FacetField::ResFormat | FacetField::LicenseId => value.try_clone(alloc),
    }
}

/// The dictionary of a value and its count.
fn item_dictionary(
    alloc: Global,
    viewer: &Viewer<'_>,
    field: FacetField,
    item: &(Text, u64),
) -> Result<Json, AllocError>
    ensures { IfOk result (λ json. json ≡ item_dictionary viewer.now.people.orgs field item.now) }
{
    let display_name = display_name(alloc, viewer, field, &item.0)?;
    Json::dictionary(
        alloc,
        [
            ("count", Value::Whole(item.1 as usize)),
            ("display_name", Value::Json(Json::Text(display_name))),
            ("name", Value::Text(&item.0)),
        ],
    )
}

/// The dictionaries of some values and their counts.
fn item_dictionaries(
    alloc: Global,
    viewer: &Viewer<'_>,
    field: FacetField,
    items: &[(Text, u64)],
) -> Result<Seq<Json>, AllocError>
    ensures { IfOk result (λ list. list ≡ map (item_dictionary viewer.now.people.orgs field) items.now) }
{
    let mut list = Vec::with_capacity(alloc, items.len())?;
    for item in items {
        list.push(item_dictionary(alloc, viewer, field, item)?)?;
    }
    Ok(Seq::from(list))
}

/// The dictionaries of a field's values. Where no values are counted there are none.
fn field_items<L: Ledger>(
    alloc: Global,
    viewer: &Viewer<'_>,
    shelf: &Shelf,
    numbers: &Seq<u32>,
    request: &FacetRequest,
    field: Option<FacetField>,
    steps: &mut Steps<L>,
) -> Result<Seq<Json>, AllocError>
    requires { All (λ number. IsSome (package_at number shelf.now)) numbers.now }
    ensures items { IfOk result (λ items. items
        ≡ field_items viewer.now.people.orgs request.now (datasets_at shelf.now numbers.now) field) }
    ensures steps { OnOk result (steps.new ≡ steps.old + looks_for (length numbers.now) field) }
    ensures bound { steps.new ≤ steps.old + looks_for (length numbers.now) field }
{
    match field {
        Some(field) => {
            let counts = facets_of(alloc, shelf, numbers, field, steps)?;
            let items = facet_items(counts, request.mincount, request.limit);
            item_dictionaries(alloc, viewer, field, items.as_slice())
        }
        None => Ok(Seq::new(alloc)),
    }
}

/// The dictionary of a field, by the field's name.
fn field_dictionary<L: Ledger>(
    alloc: Global,
    viewer: &Viewer<'_>,
    shelf: &Shelf,
    numbers: &Seq<u32>,
    request: &FacetRequest,
    name: &Text,
    steps: &mut Steps<L>,
) -> Result<Json, AllocError>
    requires { All (λ number. IsSome (package_at number shelf.now)) numbers.now }
    ensures dictionary { IfOk result (λ json. json
        ≡ field_dictionary viewer.now.people.orgs request.now (datasets_at shelf.now numbers.now) name.now) }
    ensures steps { OnOk result (steps.new ≡ steps.old + looks_for (length numbers.now) (field_named name.now)) }
    ensures bound { steps.new ≤ steps.old + looks_for (length numbers.now) (field_named name.now) }
{
    let field = FacetField::named(name.as_str());
    let items = field_items(alloc, viewer, shelf, numbers, request, field, steps)?;
    Json::dictionary(
        alloc,
        [("items", Value::List(items)), ("title", Value::Text(name))],
    )
}

/// The facets of the datasets at some numbers of a shelf: a dictionary that has a dictionary for each field that the request
/// names. Organizations are displayed by their titles. The function looks once at each number for each field whose values are
/// counted.
pub fn search_facets<L: Ledger>(
    alloc: Global,
    viewer: &Viewer<'_>,
    shelf: &Shelf,
    numbers: &Seq<u32>,
    request: &FacetRequest,
    steps: &mut Steps<L>,
) -> Result<Json, AllocError>
    requires { All (λ number. IsSome (package_at number shelf.now)) numbers.now }
    ensures facets { IfOk result (λ json. json
        ≡ search_facets viewer.now.people.orgs request.now (datasets_at shelf.now numbers.now)) }
    ensures steps { OnOk result
        (steps.new ≡ steps.old + counted_names request.now.fields * length numbers.now) }
    ensures bound { steps.new ≤ steps.old + counted_names request.now.fields * length numbers.now }
{
    let names = request.fields.as_slice();
    let mut members = Vec::with_capacity(alloc, names.len())?;
    for name in names {
        let key = name.try_clone(alloc)?;
        let dictionary = field_dictionary(alloc, viewer, shelf, numbers, request, name, steps)?;
        members.push((key, dictionary))?;
    }
    Ok(Json::Map(Seq::from(members)))
}
