//! The rows of a query: their selection, and their cells.
ghost use Rattle.std.specs.Prelude.{◌≡◌, All, IfOk, filter, map};
ghost use Rattle.table_schema.specs.Printed.{IsValue};
ghost use Rattle.datastore_query.specs.Column.{projected};
ghost use Rattle.datastore_query.specs.Query.{is_selected};

use crate::column::{Column, projected};
use crate::filter::Filter;
use crate::lent_row::LentRow;
use crate::ordered_filter::{OrderedFilter, passes_filters, with_values_in_order};
use crate::words::{WordSet, has_words};
use datastore_table::Row;
use portal_base::seq::Seq;
use portal_base::text::Text;
use std::alloc::{AllocError, Global};
use table_schema::Cell;

/// The rows, lent once more.
pub(crate) fn lend_again<'a>(
    alloc: Global,
    rows: &[LentRow<'a>],
) -> Result<Vec<LentRow<'a>>, AllocError>
    ensures { IfOk result (λ lent. lent.items ≡ rows.now) }
{
    let mut lent = Vec::with_capacity(alloc, rows.len())?;
    for row in rows {
        lent.push(LentRow::of(row.row()))?;
    }
    Ok(lent)
}

// Whether a row passes the filters and has the words.
fn is_selected(
    alloc: Global,
    filters: &[OrderedFilter],
    words: &WordSet,
    row: &Row,
) -> Result<bool, AllocError>
    requires { All IsValue row.now.cells }
    ensures { IfOk result (λ selected. selected ≡ is_selected filters.now words.now row.now) }
{
    if passes_filters(row, filters) {
        has_words(alloc, words, row)
    } else {
        Ok(false)
    }
}

// The rows that pass the filters and have the words.
fn select<'a>(
    alloc: Global,
    filters: &[OrderedFilter],
    words: &WordSet,
    rows: &'a [Row],
) -> Result<Vec<LentRow<'a>>, AllocError>
    requires { All (λ row. All IsValue row.cells) rows.now }
    ensures { IfOk result (λ selected. selected.items ≡ filter (is_selected filters.now words.now) rows.now) }
{
    let mut selected = Vec::new(alloc);
    for row in rows {
        if is_selected(alloc, filters, words, row)? {
            selected.push(LentRow::of(row))?;
        }
    }
    Ok(selected)
}

/// The rows that pass the filters and have the words.
pub(crate) fn selected<'a>(
    alloc: Global,
    filters: &[Filter],
    words: &[Text],
    rows: &'a [Row],
) -> Result<Vec<LentRow<'a>>, AllocError>
    requires { All (λ row. All IsValue row.cells) rows.now }
    ensures { IfOk result (λ selected. selected.items ≡ filter (is_selected filters.now words.now) rows.now) }
{
    let ordered = with_values_in_order(alloc, filters)?;
    let set = WordSet::of(alloc, words)?;
    select(alloc, ordered.as_slice(), &set, rows)
}

/// The cells of rows in these columns.
pub(crate) fn projections(
    alloc: Global,
    columns: &[Column],
    rows: &[LentRow],
) -> Result<Vec<Seq<Cell>>, AllocError>
    ensures { IfOk result (λ cells. cells.items ≡ map (projected columns.now) rows.now) }
{
    let mut cells = Vec::with_capacity(alloc, rows.len())?;
    for row in rows {
        cells.push(projected(alloc, columns, row.row())?)?;
    }
    Ok(cells)
}
