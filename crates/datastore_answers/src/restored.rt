//! Tables that are restored from a list of them, if they are consistent with each other.
ghost use Rattle.std.specs.Prelude.{◌≡◌, ◌↔◌, ◌==◌, ◌&&◌, ◌||◌, not, IsTrue, IfSome, All, map, is_some};
ghost use Rattle.std.specs.Prelude.{slice_get};
ghost use Rattle.std.specs.List.{list_all};
ghost use Rattle.std.specs.List.Sorted.{IsPermutation, IsSortedBy};
ghost use Rattle.std.specs.Ordering.{is_lt};
ghost use Rattle.portal_base.specs.Ordered.{IsAscending, are_apart, ascending};
ghost use Rattle.table_schema.specs.Written.{IsDescribed};
ghost use Rattle.datastore_table.specs.Meets.{IsTable};
ghost use Rattle.datastore_table.specs.References.{is_self};
ghost use Rattle.datastore_answers.specs.Consistent.{AreConsistent, are_resolved, is_another, is_fitted, links_found};
ghost use Rattle.datastore_answers.specs.Consistent.{own_resolved};
ghost use Rattle.datastore_answers.specs.Linked.{holds_in, is_linked, target_of};
ghost use Rattle.datastore_answers.specs.Order.{table_cmp};
ghost use Rattle.datastore_answers.specs.Restored.{are_related, are_restorable};
ghost use Rattle.datastore_answers.specs.Tables.{without_room, table_at, tables_in, tables_of};

use crate::batches::target;
use crate::resolution::fits;
use crate::resource_table::ResourceTable;
use crate::table_index::find_table;
use crate::tables::Tables;
use datastore_table::keeps_references;
use portal_base::seq::Seq;
use table_schema::Foreign;

impl Tables {
    /// The tables of a list, which may be in any order. The result is `None` exactly if two tables have the same
    /// address, a table doesn't have one target for each of its foreign keys, a reference of a table to itself has
    /// another number than the table's, a foreign key to another table doesn't fit its target's table, or a reference
    /// of a row finds no row. Each reference is looked up in the index of the table that it references. It takes no
    /// memory.
    pub fn restore(tables: Seq<ResourceTable>) -> Option<Tables>
        ensures exactly { is_some result ≡ are_restorable (map without_room tables) }
        ensures tables { IfSome result (λ made. tables_of made ≡ ascending table_cmp (map without_room tables)) }
        ensures consistent { IfSome result (λ made.
            All (λ (t : ResourceTable). IsDescribed t.table.schema) tables → AreConsistent (tables_of made)) }
    {
        let tables = in_order(tables)?;
        if are_related(tables.as_slice()) {
            Some(Tables { tables })
        } else {
            None
        }
    }
}

// ---- relations of tables in order

// Whether the tables relate to each other as consistent tables do.
fn are_related(all: &[ResourceTable]) -> bool
    requires { IsAscending table_cmp all.now }
    ensures related { result ≡ are_related (map without_room all.now) }
    ensures valid { IsTrue result →
        All (λ (t : ResourceTable). IsTable t.table.schema t.table.rows t.table.next_id) (map without_room all.now) }
{
    are_resolved(all) && keep_references(all, all)
}

// Whether each foreign key of these tables to another table references one that it fits, and each reference of their
// rows to another table finds its row.
fn keep_references(all: &[ResourceTable], tables: &[ResourceTable]) -> bool
    requires { IsAscending table_cmp all.now }
    ensures kept { result ≡
        (list_all (λ t. links_found (tables_in t.address.dataset (map without_room all.now)) t 0 t.table.schema.foreign)
        tables.now
        && list_all (λ t. is_linked (tables_in t.address.dataset (map without_room all.now)) t) tables.now) }
    ensures valid { IsTrue result →
        All (λ (t : ResourceTable). IsTable t.table.schema t.table.rows t.table.next_id) tables.now }
{
    are_found(all, tables) && are_linked(all, tables)
}

// ---- the tables that foreign keys reference

// Whether each foreign key of these tables to another table references one that it fits.
fn are_found(all: &[ResourceTable], tables: &[ResourceTable]) -> bool
    requires { IsAscending table_cmp all.now }
    ensures { result ≡ list_all
        (λ t. links_found (tables_in t.address.dataset (map without_room all.now)) t 0 t.table.schema.foreign)
        tables.now }
{
    tables.iter().all(|table| is_found(all, table))
}

fn is_found(all: &[ResourceTable], table: &ResourceTable) -> bool
    requires { IsAscending table_cmp all.now }
    ensures { result ≡ links_found (tables_in table.now.address.dataset (map without_room all.now)) table.now 0
        table.now.table.schema.foreign }
{
    for (index, foreign) in table.table.schema().foreign().as_slice().iter().enumerate() {
        if !is_found_at(all, table, index, foreign) {
            return false;
        }
    }
    true
}

// Whether this holds of the foreign key with this index, counted from 0.
fn is_found_at(
    all: &[ResourceTable],
    table: &ResourceTable,
    index: usize,
    foreign: &Foreign,
) -> bool
    requires { IsAscending table_cmp all.now }
    ensures { result ≡ (is_self foreign.now || is_another
        (tables_in table.now.address.dataset (map without_room all.now)) table.now foreign.now
        (slice_get table.now.targets index)) }
{
    if foreign.resource.is_empty() {
        return true;
    }
    match table.targets.as_slice().get(index) {
        Some(number) => {
            *number != table.address.number && is_fitted(all, table, foreign, *number)
        }
        None => false,
    }
}

// Whether the foreign key fits the table of the dataset's resource with this number.
fn is_fitted(all: &[ResourceTable], table: &ResourceTable, foreign: &Foreign, number: u32) -> bool
    requires { IsAscending table_cmp all.now }
    ensures { result ≡ is_fitted table.now foreign.now
        (table_at number (tables_in table.now.address.dataset (map without_room all.now))) }
{
    match find_table(all, &table.address.dataset, number) {
        Some(target) => fits(table.table.schema(), foreign, target.table.schema()),
        None => false,
    }
}

// ---- the rows that rows reference

// Whether each reference of these tables' rows to another table finds its row.
fn are_linked(all: &[ResourceTable], tables: &[ResourceTable]) -> bool
    requires { IsAscending table_cmp all.now }
    ensures linked { result
        ≡ list_all (λ t. is_linked (tables_in t.address.dataset (map without_room all.now)) t) tables.now }
    ensures valid { IsTrue result →
        All (λ (t : ResourceTable). IsTable t.table.schema t.table.rows t.table.next_id) tables.now }
{
    for table in tables {
        table.table.rows_meet_schema();
        if !is_linked(all, table) {
            return false;
        }
    }
    true
}

fn is_linked(all: &[ResourceTable], table: &ResourceTable) -> bool
    requires { IsAscending table_cmp all.now }
    ensures { result ≡ is_linked (tables_in table.now.address.dataset (map without_room all.now)) table.now }
{
    for (index, foreign) in table.table.schema().foreign().as_slice().iter().enumerate() {
        if !is_linked_at(all, table, index, foreign) {
            return false;
        }
    }
    true
}

// Whether this holds by the foreign key with this index, counted from 0.
fn is_linked_at(
    all: &[ResourceTable],
    table: &ResourceTable,
    index: usize,
    foreign: &Foreign,
) -> bool
    requires { IsAscending table_cmp all.now }
    ensures { result ≡ (is_self foreign.now || holds_in
        (target_of (tables_in table.now.address.dataset (map without_room all.now)) table.now index) foreign.now
        table.now.table.rows) }
{
    if foreign.resource.is_empty() {
        return true;
    }
    match target(all, table, index) {
        Some(target) => keeps_references(&table.table, foreign, &target.table),
        None => true,
    }
}

// ---- targets

// Whether each table has one target for each foreign key.
fn are_resolved(tables: &[ResourceTable]) -> bool
    ensures { result ≡ are_resolved tables.now }
{
    tables.iter().all(|table| is_resolved(table))
}

fn is_resolved(table: &ResourceTable) -> bool
    ensures { result
        ≡ own_resolved table.now.address.number table.now.table.schema.foreign table.now.targets }
{
    own_resolved(
        table.address.number,
        table.table.schema().foreign().as_slice(),
        table.targets.as_slice(),
    )
}

// Whether there is one target for each foreign key, and that of a reference to the table itself is its own number.
#[tactic(auto, using(crate::proofs::RestoredLemmas::other_length))]
fn own_resolved(own: u32, foreigns: &[Foreign], numbers: &[u32]) -> bool
    ensures { result ≡ own_resolved own foreigns.now numbers.now }
{
    if foreigns.len() != numbers.len() {
        return false;
    }
    for at in 0..foreigns.len() {
        if !is_own(own, &foreigns[at], numbers[at]) {
            return false;
        }
    }
    true
}

// Whether the foreign key isn't a reference to the table itself, or has its number.
fn is_own(own: u32, foreign: &Foreign, number: u32) -> bool
    ensures { result ≡ (not (is_self foreign.now) || number == own) }
{
    !foreign.resource.is_empty() || number == own
}

// ---- order

// The tables by their addresses, unless two have the same.
fn in_order(tables: Seq<ResourceTable>) -> Option<Vec<ResourceTable>>
    ensures exactly { is_some result ≡ are_apart table_cmp tables }
    ensures tables { IfSome result (λ sorted. sorted.items ≡ ascending table_cmp tables) }
    ensures ascending { IfSome result (λ sorted. IsAscending table_cmp sorted.items) }
{
    let tables = sorted(tables);
    if ascends(tables.as_slice()) {
        Some(tables)
    } else {
        None
    }
}

// The tables by their addresses. Those with the same are in any order.
fn sorted(tables: Seq<ResourceTable>) -> Vec<ResourceTable>
    ensures permutation { IsPermutation tables result.items }
    ensures sorted { IsSortedBy (λ t u. is_lt (table_cmp t u)) result.items }
{
    let mut tables = tables.into_vec();
    tables.sort_unstable_by(|first, second| first.address.order(&second.address));
    tables
}

// Whether each table is before the next one.
fn ascends(tables: &[ResourceTable]) -> bool
    ensures { IsTrue result ↔ IsAscending table_cmp tables.now }
{
    tables.is_sorted_by(|table, next| table.address.order(&next.address).is_lt())
}
