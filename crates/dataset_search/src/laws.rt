//! Laws of searches: functions with an empty body, whose contracts are the laws.
ghost use Rattle.std.specs.Prelude.{◌≡◌, ◌≢◌, ◌↔◌, ◌∷◌, ◌++◌, Contains, IsFalse, IsPermutation, IsTrue, List, filter, length};
ghost use Rattle.std.specs.List.{All};
ghost use Rattle.std.specs.declared.cmp.Ordering.TheVariants.{Equal};
ghost use Rattle.packages.specs.Shelf.{ShelfState, datasets_of};
ghost use Rattle.packages.specs.declared.package.Package.{Package};
ghost use Rattle.packages.specs.declared.package.State.TheVariants.{Deleted, Draft};
ghost use Rattle.portal_base.specs.Ordered.{IsAscending, ascending};
ghost use Rattle.search_index.specs.Items.{matches};
ghost use Rattle.search_index.specs.Reading.{items_of};
ghost use Rattle.sorted_pages.specs.Page.{IsPart};
ghost use Rattle.dataset_search.specs.Found.{found, is_found, numbers_matching, page, takes};
ghost use Rattle.dataset_search.specs.Order.{have_distinct_names, key_cmp, name_cmp, search_cmp};
ghost use Rattle.dataset_search.specs.Sort.{deciding};
ghost use Rattle.dataset_search.specs.declared.search.Search.{Search};
ghost use Rattle.dataset_search.specs.declared.sort.SortKey.{SortKey};

/// A search finds exactly the datasets that match its text and its filter, and that its flags take.
pub fn what_is_found_matches_both_texts()
    ensures { (search : Search) (datasets : List Package) (dataset : Package) →
        Contains (found search datasets) dataset ↔
        (Contains datasets dataset × IsTrue (matches (items_of search.q) dataset)
        × IsTrue (matches (items_of search.fq) dataset) × IsTrue (takes search dataset)) }
{}

/// No search finds a deleted dataset.
pub fn a_deleted_dataset_is_never_found()
    ensures { (search : Search) (datasets : List Package) (dataset : Package) →
        Contains (found search datasets) dataset → dataset.state ≢ Deleted }
{}

/// A search finds private datasets and drafts only if it asks for them, and private drafts only if it asks for both.
pub fn private_datasets_and_drafts_are_found_on_demand()
    ensures private { (search : Search) (datasets : List Package) (dataset : Package) →
        Contains (found search datasets) dataset → IsTrue dataset.private → IsTrue search.include_private }
    ensures drafts { (search : Search) (datasets : List Package) (dataset : Package) →
        Contains (found search datasets) dataset → dataset.state ≡ Draft → IsTrue search.include_drafts }
{}

/// The page is the part from the search's start, of at most as many datasets as the page has room for, of what it finds in
/// the order of its sort. Datasets with different names strictly ascend in that order. To order them is to rearrange them.
pub fn a_page_is_a_part_of_what_is_found_in_order()
    ensures part { (search : Search) (datasets part : List Package) →
        (page search (found search datasets) ≡ part)
        ↔ IsPart search.page.offset search.page.limit (ascending (search_cmp search.sort) (found search datasets)) part }
    ensures ascends { (search : Search) (datasets : List Package) → IsTrue (have_distinct_names datasets) →
        IsAscending (search_cmp search.sort) (ascending (search_cmp search.sort) (found search datasets)) }
    ensures rearranged { (search : Search) (datasets : List Package) →
        IsPermutation (found search datasets) (ascending (search_cmp search.sort) (found search datasets)) }
{}

/// The page of what a search finds among datasets with different names doesn't depend on how these stand.
pub fn a_page_does_not_depend_on_how_datasets_stand()
    ensures { (search : Search) (datasets others : List Package) → IsTrue (have_distinct_names datasets) →
        IsPermutation datasets others → page search (found search datasets) ≡ page search (found search others) }
{}

/// Datasets that a search doesn't find change nothing. One of them more or less, wherever it stands, changes nothing that is
/// found, and what is found alone is found again. Two lists of datasets with different names, each of which has the datasets
/// that are found in the other, have one page and one count. What is found stands in the order of all datasets.
pub fn datasets_that_are_not_found_change_nothing()
    ensures one { (search : Search) (before after : List Package) (dataset : Package) →
        IsFalse (is_found search dataset) →
        found search (before ++ dataset ∷ after) ≡ found search (before ++ after) }
    ensures again { (search : Search) (datasets : List Package) →
        found search (found search datasets) ≡ found search datasets }
    ensures page { (search : Search) (datasets others : List Package) → IsTrue (have_distinct_names datasets) →
        IsTrue (have_distinct_names others) →
        ((dataset : Package) → IsTrue (is_found search dataset) → Contains datasets dataset ↔ Contains others dataset) →
        page search (found search datasets) ≡ page search (found search others) }
    ensures count { (search : Search) (datasets others : List Package) → IsTrue (have_distinct_names datasets) →
        IsTrue (have_distinct_names others) →
        ((dataset : Package) → IsTrue (is_found search dataset) → Contains datasets dataset ↔ Contains others dataset) →
        length (found search datasets) ≡ length (found search others) }
    ensures order { (search : Search) (datasets : List Package) → IsTrue (have_distinct_names datasets) →
        ascending (search_cmp search.sort) (found search datasets)
        ≡ found search (ascending (search_cmp search.sort) datasets) }
{}

/// The numbers that match the texts of a search are as many as the shelf's datasets that match them. A search looks at so many.
pub fn each_matching_dataset_has_a_number()
    ensures { (search : Search) (shelf : ShelfState) → length (numbers_matching search shelf)
        ≡ length (filter (matches (items_of search.q ++ items_of search.fq)) (datasets_of shelf)) }
{}

/// The first key that tells two datasets apart decides how they stand.
pub fn the_first_key_that_tells_datasets_apart_decides()
    ensures { (before after : List SortKey) (key : SortKey) (one other : Package) →
        All (λ earlier. key_cmp earlier one other ≡ Equal) before → key_cmp key one other ≢ Equal →
        search_cmp (before ++ key ∷ after) one other ≡ key_cmp key one other }
{}

/// Datasets that no key of a sort tells apart ascend by name, whatever the keys' directions.
pub fn datasets_that_no_key_tells_apart_ascend_by_name()
    ensures { (keys : List SortKey) (one other : Package) → All (λ key. key_cmp key one other ≡ Equal) keys →
        search_cmp keys one other ≡ name_cmp one other }
{}

/// A key on a field that an earlier key is on decides nothing.
pub fn a_field_named_again_decides_nothing()
    ensures { (keys : List SortKey) (one other : Package) →
        search_cmp (deciding keys) one other ≡ search_cmp keys one other }
{}
