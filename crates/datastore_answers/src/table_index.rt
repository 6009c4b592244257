//! Binary searches for tables by address.
ghost use Rattle.std.specs.Prelude.{◌≡◌, ◌<◌, ◌≤◌, None, MatchOption, IfSome, length, map, slice_get};
ghost use Rattle.std.specs.Prelude.{option_copied, option_map};
ghost use Rattle.std.specs.List.{prefix_len};
ghost use Rattle.std.specs.Cmp.Lexicographic.{slice_cmp};
ghost use Rattle.std.specs.Ordering.{is_le, is_lt, nat_cmp};
ghost use Rattle.portal_base.specs.Ordered.{IsAscending, found};
ghost use Rattle.datastore_answers.specs.Order.{at_address, table_cmp};
ghost use Rattle.datastore_answers.specs.Tables.{table_at, tables_in, without_room};

use crate::resource_table::ResourceTable;
use portal_base::text::Text;
use std::cmp::Ordering;

/// Compares a table's address with that of the dataset's resource with this number.
fn compare_address(table: &ResourceTable, dataset: &Text, number: u32) -> Ordering
    ensures { result ≡ at_address (record { dataset = dataset.now; number = number }) table.now }
{
    match table.address.dataset.cmp(dataset) {
        Ordering::Equal => table.address.number.cmp(&number),
        unequal => unequal,
    }
}

/// The range of the dataset's tables: the index of the first, and the index after the last. Both are binary searches.
pub(crate) fn find_range(tables: &[ResourceTable], dataset: &Text) -> (usize, usize)
    requires { IsAscending table_cmp tables.now }
    ensures from { result.0 ≡ prefix_len (λ t. is_lt (slice_cmp nat_cmp t.address.dataset dataset.now)) tables.now }
    ensures to { result.1 ≡ prefix_len (λ t. is_le (slice_cmp nat_cmp t.address.dataset dataset.now)) tables.now }
    ensures ordered { result.0 ≤ result.1 }
    ensures within { result.1 ≤ length tables.now }
{
    let from = tables.partition_point(|table| table.address.dataset.cmp(dataset).is_lt());
    let to = tables.partition_point(|table| table.address.dataset.cmp(dataset).is_le());
    (from, to)
}

/// The dataset's tables, by two binary searches.
pub(crate) fn tables_in<'a>(tables: &'a [ResourceTable], dataset: &Text) -> &'a [ResourceTable]
    requires { IsAscending table_cmp tables.now }
    ensures { result.now ≡ tables_in dataset.now tables.now }
{
    let (from, to) = find_range(tables, dataset);
    &tables[from..to]
}

/// The count of tables before this address, by a binary search.
fn lower_bound(tables: &[ResourceTable], dataset: &Text, number: u32) -> usize
    requires { IsAscending table_cmp tables.now }
    ensures index { result
        ≡ prefix_len (λ t. is_lt (at_address (record { dataset = dataset.now; number = number }) t)) tables.now }
    ensures within { result ≤ length tables.now }
{
    tables.partition_point(|table| compare_address(table, dataset, number).is_lt())
}

/// The index of the table at this address, if there is one.
pub(crate) fn find_index(tables: &[ResourceTable], dataset: &Text, number: u32) -> Option<usize>
    requires { IsAscending table_cmp tables.now }
    ensures index { MatchOption result
        (found (at_address (record { dataset = dataset.now; number = number })) tables.now ≡ None)
        (λ index. found (at_address (record { dataset = dataset.now; number = number })) tables.now
        ≡ slice_get tables.now index) }
    ensures within { IfSome result (λ index. index < length tables.now) }
{
    let index = lower_bound(tables, dataset, number);
    if index < tables.len() && compare_address(&tables[index], dataset, number).is_eq() {
        Some(index)
    } else {
        None
    }
}

/// The table at this address, if there is one.
#[tactic(auto, using(crate::proofs::TableLemmas::table_found))]
pub(crate) fn find_table<'a>(
    tables: &'a [ResourceTable],
    dataset: &Text,
    number: u32,
) -> Option<&'a ResourceTable>
    requires { IsAscending table_cmp tables.now }
    ensures table { option_map without_room (option_copied result)
        ≡ table_at number (tables_in dataset.now (map without_room tables.now)) }
    ensures found { option_copied result
        ≡ found (at_address (record { dataset = dataset.now; number = number })) tables.now }
{
    match find_index(tables, dataset, number) {
        Some(index) => Some(&tables[index]),
        None => None,
    }
}
