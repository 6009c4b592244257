//! The order of rows by the columns of a sort.
ghost use Rattle.std.specs.Prelude.{◌≡◌, IfOk, take};
ghost use Rattle.portal_base.specs.Ordered.{IsAscending};
ghost use Rattle.table_schema.specs.Order.{cell_cmp};
ghost use Rattle.datastore_table.specs.Cells.{cell_at};
ghost use Rattle.datastore_table.specs.Rows.{row_cmp};
ghost use Rattle.datastore_query.specs.Sort.{column_cmp, in_order, sort_cmp, sorts_cmp};

use crate::column::Column;
use crate::lent_row::LentRow;
use crate::sort::{Sort, deciding};
use datastore_table::Row;
use portal_base::ordered::Ordered;
use sorted_pages::direction::Direction;
use sorted_pages::order::{Order, first_in_order};
use sorted_pages::page::leading;
use std::alloc::{AllocError, Global};
use std::cmp::Ordering;
use table_schema::Cell;

// Compares two cells. Most are of one type, so that their values alone are compared.
#[tactic(auto, using(crate::proofs::OrderLemmas::text_order, crate::proofs::OrderLemmas::whole_order, crate::proofs::OrderLemmas::number_order))]
fn compare_values(one: &Cell, other: &Cell) -> Ordering
    ensures { result ≡ cell_cmp one.now other.now }
{
    match (one, other) {
        (Cell::Text(one), Cell::Text(other)) => one.as_str().cmp(other.as_str()),
        (Cell::Int(one), Cell::Int(other)) => one.cmp(other),
        (Cell::Number(one), Cell::Number(other)) => one.cmp(other),
        _ => one.order(other),
    }
}

fn compare_cells(one: &Row, other: &Row, index: usize) -> Ordering
    ensures { result ≡ cell_cmp (cell_at one.now.cells index) (cell_at other.now.cells index) }
{
    let (one, other) = (one.cells.as_slice(), other.cells.as_slice());
    match (one.get(index), other.get(index)) {
        (Some(one), Some(other)) => compare_values(one, other),
        (Some(one), None) => one.order(&Cell::Null),
        (None, Some(other)) => Cell::Null.order(other),
        (None, None) => Cell::Null.order(&Cell::Null),
    }
}

fn compare_in(column: Column, one: &Row, other: &Row) -> Ordering
    ensures { result ≡ column_cmp column one.now other.now }
{
    match column {
        Column::Id => one.compare(other),
        Column::Field(index) => compare_cells(one, other, index),
    }
}

fn compare_by(sort: &Sort, one: &Row, other: &Row) -> Ordering
    ensures { result ≡ sort_cmp sort.now one.now other.now }
{
    match sort.direction {
        Direction::Ascending => compare_in(sort.column, one, other),
        Direction::Descending => compare_in(sort.column, other, one),
    }
}

// Compares two rows by one column after another, and last by `_id`.
fn compare(sorts: &[Sort], one: &Row, other: &Row) -> Ordering
    ensures { result ≡ sorts_cmp sorts.now one.now other.now }
{
    for sort in sorts {
        let ordering = compare_by(sort, one, other);
        if !ordering.is_eq() {
            return ordering;
        }
    }
    compare_in(Column::Id, one, other)
}

// The order of rows by the columns of sorts, and last by `_id`.
#[derive(Drop)]
struct SortOrder<'s> {
    sorts: &'s [Sort],
}

impl<'s, 'a> Order<LentRow<'a>> for SortOrder<'s> {
    ghost use Rattle.datastore_query.specs.Sort.{sorts_cmp, sorts_cmp_total};

    ghost cmp = { λ order. sorts_cmp order.sorts.now };

    ghost total = { λ order. sorts_cmp_total order.sorts.now };

    fn compare(&self, one: &LentRow<'a>, other: &LentRow<'a>) -> Ordering {
        compare(self.sorts, one.row(), other.row())
    }
}

/// This many of the first rows in the order of the sorts, or all rows if there are fewer. The rows are in ascending order
/// of their `_id`. They are compared once by each column, however often the sorts name it, and not at all if the sorts
/// name none.
#[tactic(auto, using(crate::proofs::DecidingLemmas::deciding_order, crate::proofs::OrderLemmas::ascending_apart))]
pub(crate) fn first_by_sorts<'s, 'a>(
    alloc: Global,
    rows: &'s mut [LentRow<'a>],
    sorts: &[Sort],
    count: usize,
) -> Result<&'s [LentRow<'a>], AllocError>
    requires { IsAscending row_cmp rows.old }
    ensures { IfOk result (λ first. first.now ≡ take count (in_order sorts.now rows.old)) }
{
    if sorts.is_empty() {
        return Ok(leading(rows, count));
    }
    let deciding = deciding(alloc, sorts)?;
    let order = SortOrder {
        sorts: deciding.as_slice(),
    };
    Ok(first_in_order(rows, &order, count))
}
