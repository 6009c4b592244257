//! Filters whose values are in order, and the rows that pass them.
ghost use Rattle.std.specs.Prelude.{◌≡◌, IfOk, IsTrue, true};
ghost use Rattle.std.specs.List.{list_all, list_any};
ghost use Rattle.std.specs.List.Sorted.{IsSorted};
ghost use Rattle.datastore_table.specs.Cells.{cell_at};
ghost use Rattle.table_schema.specs.Order.{cell_cmp, same_cell};
ghost use Rattle.datastore_query.specs.Filter.{has_value, is_id, passes_filter, passes_filters};
ghost use Rattle.datastore_query.specs.OrderedValues.{AreOrdered};

use crate::column::Column;
use crate::filter::Filter;
use datastore_table::Row;
use portal_base::copy::TryClone;
use std::alloc::{AllocError, Global};
use std::cmp::Ordering;
use std::marker::Model;
use table_schema::Cell;

/// A filter whose values are in order, so that a row's cell is found among them by halving. Contracts see it as the
/// filter.
#[derive(Drop)]
pub(crate) struct OrderedFilter<'a> {
    filter: &'a Filter,
    values: Vec<Cell>,
}

impl<'a> Model for OrderedFilter<'a> {
    ghost use Rattle.datastore_query.specs.declared.filter.Filter.{Filter};
    ghost use Rattle.datastore_query.specs.OrderedValues.{AreOrdered};

    ghost Value = { Filter };

    ghost view = { λ ordered. ordered.filter.now };

    ghost invariant = { λ ordered. AreOrdered ordered.filter.now.values ordered.values.items };
}

// The cells in order.
fn in_order(mut cells: Vec<Cell>) -> Vec<Cell>
    ensures { AreOrdered cells.items result.items }
{
    cells.sort_unstable_by(
        |one: &Cell, other: &Cell| -> Ordering
            ensures { result ≡ cell_cmp one.now other.now }
        { one.order(other) },
    );
    cells
}

impl<'a> OrderedFilter<'a> {
    fn of(alloc: Global, filter: &'a Filter) -> Result<OrderedFilter<'a>, AllocError>
        ensures { IfOk result (λ ordered. ordered ≡ filter.now) }
    {
        let copies = filter.values.try_clone(alloc)?;
        let values = in_order(copies.into_vec());
        Ok(OrderedFilter { filter, values })
    }
}

/// The filters, each with its values in order.
pub(crate) fn with_values_in_order<'a>(
    alloc: Global,
    filters: &'a [Filter],
) -> Result<Vec<OrderedFilter<'a>>, AllocError>
    ensures { IfOk result (λ ordered. ordered.items ≡ filters.now) }
{
    let mut ordered = Vec::with_capacity(alloc, filters.len())?;
    for filter in filters {
        ordered.push(OrderedFilter::of(alloc, filter)?)?;
    }
    Ok(ordered)
}

// ---- looking a cell up

// Whether the cell at this index is equal to this one.
fn is_same_at(values: &[Cell], index: usize, cell: &Cell) -> bool
    ensures { IsTrue result → list_any (same_cell cell.now) values.now ≡ true }
{
    match values.get(index) {
        Some(value) => cell.is_same(value),
        None => false,
    }
}

fn is_one_of(values: &[Cell], cell: &Cell) -> bool
    ensures { result ≡ list_any (same_cell cell.now) values.now }
{
    values.iter().any(|value| cell.is_same(value))
}

// Whether the cell is among the values, which are in order. It is found by halving. Where two cells are equal in the order
// but not the same, all values are looked through.
fn is_among(values: &[Cell], cell: &Cell) -> bool
    requires { IsSorted cell_cmp values.now }
    ensures { result ≡ list_any (same_cell cell.now) values.now }
{
    let found = values.binary_search_by(
        |value: &Cell| -> Ordering
            ensures { result ≡ cell_cmp value.now cell.entry.now }
        { value.order(cell) },
    );
    match found {
        Ok(index) => is_same_at(values, index, cell) || is_one_of(values, cell),
        Err(_) => false,
    }
}

// ---- passing

// Whether the value is this `_id`.
fn is_id(id: u64, value: &Cell) -> bool
    ensures { result ≡ is_id id value.now }
{
    match value {
        Cell::Int(number) => i128::from(*number) == i128::from(id),
        _ => false,
    }
}

// Whether the `_id` is among the values, which are in order.
#[tactic(auto, using(crate::proofs::ValueLemmas::ids_as_cells))]
fn is_id_among(values: &[Cell], id: u64) -> bool
    requires { IsSorted cell_cmp values.now }
    ensures { result ≡ list_any (is_id id) values.now }
{
    match i64::try_from(id) {
        Ok(number) => is_among(values, &Cell::Int(number)),
        Err(_) => values.iter().any(|value| is_id(id, value)),
    }
}

// Whether the cell at this index is among the values, which are in order.
fn is_cell_among(values: &[Cell], cells: &[Cell], index: usize) -> bool
    requires { IsSorted cell_cmp values.now }
    ensures { result ≡ list_any (same_cell (cell_at cells.now index)) values.now }
{
    match cells.get(index) {
        Some(cell) => is_among(values, cell),
        None => is_among(values, &Cell::Null),
    }
}

// Whether the row has one of the values, which are in order, in the column.
fn has_one_of(row: &Row, column: Column, values: &[Cell]) -> bool
    requires { IsSorted cell_cmp values.now }
    ensures { result ≡ list_any (has_value column row.now) values.now }
{
    match column {
        Column::Id => is_id_among(values, row.id),
        Column::Field(index) => is_cell_among(values, row.cells.as_slice(), index),
    }
}

fn passes_filter(row: &Row, filter: &OrderedFilter) -> bool
    ensures { result ≡ passes_filter row.now filter.now }
{
    has_one_of(row, filter.filter.column, filter.values.as_slice())
}

/// Whether a row passes all filters.
pub(crate) fn passes_filters(row: &Row, filters: &[OrderedFilter]) -> bool
    ensures { result ≡ passes_filters filters.now row.now }
{
    filters.iter().all(|filter| passes_filter(row, filter))
}
