//! Laws of the definitions: functions with an empty body, whose contracts are the laws.
ghost use Rattle.std.specs.Prelude.{◌≡◌, ◌↔◌, ℕ, IsPermutation, List, Option, Result, Some, length, map, true};
ghost use Rattle.portal_base.specs.declared.json_value.Json.{Json};
ghost use Rattle.portal_base.specs.Ordered.{IsAscending};
ghost use Rattle.table_schema.specs.declared.cell.Cell.{Cell};
ghost use Rattle.table_schema.specs.Field.{FieldValue};
ghost use Rattle.datastore_table.specs.declared.row.Row.{Row};
ghost use Rattle.datastore_table.specs.Rows.{row_cmp};
ghost use Rattle.datastore_query.specs.declared.filter.Filter.{Filter};
ghost use Rattle.datastore_query.specs.declared.sort.Sort.{Sort};
ghost use Rattle.datastore_query.specs.declared.sort.SortName.{SortName};
ghost use Rattle.datastore_query.specs.Filter.{IsFiltersReading, IsLeast, entries_of, filters_reading, least};
ghost use Rattle.datastore_query.specs.Filter.{passes_filters};
ghost use Rattle.datastore_query.specs.Listing.{AreSelectedInOrder, IsPage};
ghost use Rattle.datastore_query.specs.Passing.{HasWords, PassesFilters};
ghost use Rattle.datastore_query.specs.Query.{QueryValue, listing, page_rows, selected_rows};
ghost use Rattle.datastore_query.specs.Sort.{in_order, sort_reading};
ghost use Rattle.datastore_query.specs.SortGrammar.{AreSortParts};
ghost use Rattle.datastore_query.specs.SortReading.{IsSortText};
ghost use Rattle.datastore_query.specs.SortText.{part_reading, parts_of};
ghost use Rattle.datastore_query.specs.Words.{has_words};

/// A key is the least of some keys if and only if it is one of them and none of them is less.
pub fn the_least_key_is_the_one_that_none_is_less_than()
    ensures { (keys : List (List ℕ)) (key : List ℕ) → (least keys ≡ Some key) ↔ IsLeast keys key }
{}

/// The entries of a JSON object are read as filters, or as an error, exactly as `IsFiltersReading` says.
pub fn filters_are_read_as_the_rules_say()
    ensures { (fields : List FieldValue) (filters : Json) (read : Result (List Filter) (List ℕ)) →
        (filters_reading fields filters ≡ read) ↔ IsFiltersReading fields (entries_of filters) read }
{}

/// The parts of a sort's text name what its grammar says.
pub fn sort_parts_are_read_as_the_grammar_says()
    ensures { (text : List ℕ) (read : List (Option SortName)) →
        (map part_reading (parts_of text) ≡ read) ↔ AreSortParts text read }
{}

/// A sort's text is read as columns with their directions, or as an error, exactly as `IsSortText` says.
pub fn sorts_are_read_as_the_rules_say()
    ensures { (fields : List FieldValue) (text : List ℕ) (read : Result (List Sort) (List ℕ)) →
        (sort_reading fields text ≡ read) ↔ IsSortText fields text read }
{}

/// A row passes filters if and only if, in the column of each, it has one of the filter's values.
pub fn a_row_passes_by_a_value_of_each_filter()
    ensures { (filters : List Filter) (row : Row) → (passes_filters filters row ≡ true) ↔ PassesFilters filters row }
{}

/// A row has words if and only if each is the case folding of a word in the text of one of its cells.
pub fn a_row_has_the_words_of_its_cells()
    ensures { (words : List (List ℕ)) (row : Row) → (has_words words row ≡ true) ↔ HasWords words row }
{}

/// The rows that a query selects in a table, in order, are exactly those that pass its filters and have its words, each
/// before all rows that its sorts, and then the table's order, put after it. To order rows is to rearrange them.
pub fn selected_rows_stand_in_the_order_of_the_sorts()
    ensures selected { (query : QueryValue) (rows selected : List Row) → IsAscending row_cmp rows →
        (in_order query.sorts (selected_rows query rows) ≡ selected) ↔ AreSelectedInOrder query rows selected }
    ensures rearranged { (sorts : List Sort) (rows : List Row) → IsPermutation rows (in_order sorts rows) }
{}

/// A query's page of a table, and its count of all rows, are exactly what `IsPage` says of the table's rows.
pub fn a_page_is_a_part_of_the_listing()
    ensures { (query : QueryValue) (rows : List Row) (page : List (List Cell)) (total : ℕ) → IsAscending row_cmp rows →
        ((page_rows query rows ≡ page) × (length (listing query rows) ≡ total)) ↔ IsPage query rows page total }
{}
