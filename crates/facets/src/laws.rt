//! Laws of facets and of counters. Each function's contract is a law, and the function does nothing.
ghost use Rattle.std.specs.Prelude.{◌≡◌, ◌≢◌, ◌<◌, ◌≤◌, ◌↔◌, ℕ, List, [], Contains, IsPermutation, IsTrue, filter};
ghost use Rattle.portal_base.specs.Ordered.{IsAscending, dropped, upserted};
ghost use Rattle.portal_base.specs.declared.json_value.Json.{Json};
ghost use Rattle.packages.specs.Order.{dataset_cmp};
ghost use Rattle.packages.specs.declared.package.Package.{Package};
ghost use Rattle.visibility.specs.View.{public_count};
ghost use Rattle.visibility.specs.Visibility.{class_for};
ghost use Rattle.visibility.specs.declared.class.Class.{Class};
ghost use Rattle.visibility.specs.declared.class.Class.TheVariants.{Public};
ghost use Rattle.facets.specs.Counters.{CountersState, StandsFor, class_count, class_counts, entries_with, entries_without};
ghost use Rattle.facets.specs.Counts.{facet_cmp};
ghost use Rattle.facets.specs.Facets.{count_of, facet_counts, has_value, texts_in};
ghost use Rattle.facets.specs.Request.{facet_request};
ghost use Rattle.facets.specs.SearchFacets.{counted_names, search_facets};
ghost use Rattle.facets.specs.declared.request.FacetRequest.{FacetRequest};
ghost use Rattle.org_roles.specs.declared.entry.Org.{Org};
ghost use Rattle.facets.specs.Facts.{facts_of, is_one_of, same_class};
ghost use Rattle.facets.specs.declared.field.FacetField.{FacetField};
ghost use Rattle.facets.specs.declared.field.FacetField.TheVariants.{Organization};

use packages::laws::a_set_has_its_texts;

/// A dataset has a value in a field if the value is one of its texts there, and isn't empty.
pub fn a_dataset_has_its_texts_as_values()
    ensures { (field : FacetField) (value : List ℕ) (dataset : Package) →
        IsTrue (has_value field value dataset) ↔ ((value ≢ []) × Contains (texts_in field dataset) value) }
{}

/// The facets of datasets are the values that some of them have, each with the count of those that have it. They strictly
/// ascend, so that no value is repeated.
pub fn facets_are_the_values_with_their_counts()
    ensures exact { (field : FacetField) (datasets : List Package) (value : List ℕ) (count : ℕ) →
        Contains (facet_counts field datasets) (value, count) ↔
        ((0 < count) × (count ≡ count_of field value datasets)) }
    ensures ascends { (field : FacetField) (datasets : List Package) →
        IsAscending facet_cmp (facet_counts field datasets) }
{
    a_set_has_its_texts();
}

/// The facets of datasets don't depend on their order.
pub fn facets_do_not_depend_on_the_order()
    ensures { (field : FacetField) (datasets others : List Package) → IsPermutation datasets others →
        facet_counts field datasets ≡ facet_counts field others }
{
    a_set_has_its_texts();
}

/// Nor do the facets that a search shows.
pub fn search_facets_do_not_depend_on_the_order()
    ensures { (orgs : List Org) (request : FacetRequest) (datasets others : List Package) →
        IsPermutation datasets others → search_facets orgs request datasets ≡ search_facets orgs request others }
{
    facets_do_not_depend_on_the_order();
}

/// A search counts the values of at most four fields, however many its body names and however often.
pub fn a_request_counts_at_most_four_fields()
    ensures { (body : Json) → counted_names (facet_request body).fields ≤ 4 }
{
    a_set_has_its_texts();
}

/// Counters that stand for some datasets stand for these with a dataset put among them, once its facts are entered.
pub fn counters_follow_what_is_put()
    ensures { (old new : CountersState) (datasets : List Package) (dataset : Package) → StandsFor old datasets →
        new.entries ≡ entries_with dataset.id (facts_of dataset) old →
        StandsFor new (upserted dataset_cmp dataset datasets) }
{}

/// They stand for the datasets without one, once the facts under its id are removed.
pub fn counters_follow_what_is_removed()
    ensures { (old new : CountersState) (datasets : List Package) (dataset : Package) → StandsFor old datasets →
        new.entries ≡ entries_without dataset.id old →
        StandsFor new (dropped (λ d. dataset_cmp d dataset) datasets) }
{}

/// Counters that stand for some datasets count and tally these, by their classes.
pub fn counters_count_the_datasets()
    ensures count { (counters : CountersState) (datasets : List Package) (class : Class) (field : FacetField)
        (value : List ℕ) → StandsFor counters datasets →
        class_count class field value counters
        ≡ count_of field value (filter (λ d. same_class (class_for d) class) datasets) }
    ensures tally { (counters : CountersState) (datasets : List Package) (classes : List Class) (field : FacetField) →
        StandsFor counters datasets →
        class_counts classes field counters ≡ facet_counts field (filter (λ d. is_one_of classes (class_for d)) datasets) }
{}

/// Counters that stand for some datasets count the public ones of each organization.
pub fn counters_give_the_public_counts()
    ensures { (counters : CountersState) (datasets : List Package) (org : List ℕ) → StandsFor counters datasets →
        org ≢ [] → class_count Public Organization org counters ≡ public_count org datasets }
{
    counters_count_the_datasets();
}

/// The test of classes is equality.
pub fn equal_classes_are_the_same()
    ensures same { (class other : Class) → IsTrue (same_class class other) ↔ (class ≡ other) }
    ensures among { (classes : List Class) (class : Class) → IsTrue (is_one_of classes class) ↔ Contains classes class }
{}
