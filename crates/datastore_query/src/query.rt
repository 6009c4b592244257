//! The query: how it is read, and the page that it returns.
ghost use Rattle.std.specs.Prelude.{◌≡◌, ◌++◌, All, IfErr, IfOk, IsTrue, Ok, OnOk, drop, length, map, slice_get, take};
ghost use Rattle.std.specs.Prelude.{unwrap_or};
ghost use Rattle.portal_base.specs.Ordered.{IsAscending};
ghost use Rattle.table_schema.specs.declared.cell.Cell.TheVariants.{Null};
ghost use Rattle.table_schema.specs.Printed.{IsValue, cell_value};
ghost use Rattle.table_schema.specs.Values.{is_map};
ghost use Rattle.datastore_table.specs.Rows.{row_cmp};
ghost use Rattle.datastore_query.specs.Column.{column_name, projected};
ghost use Rattle.datastore_query.specs.Distinct.{are_alike, listed_rows};
ghost use Rattle.datastore_query.specs.Query.{IsFault, filtered_ids, firsts, listing, page_rows, part_errors};
ghost use Rattle.datastore_query.specs.Query.{query_errors, query_reading};
ghost use Rattle.datastore_query.specs.Sort.{in_order};

use crate::column::{Column, columns_of, names_of, value_in};
use crate::distinct::distinct_rows;
use crate::fault::QueryFault;
use crate::field_names::FieldNames;
use crate::filter::{Filter, filters_of};
use crate::lent_row::LentRow;
use crate::order::first_by_sorts;
use crate::ordered_filter::{passes_filters, with_values_in_order};
use crate::page::{LentPage, Page};
use crate::parts::Parts;
use crate::rows::{lend_again, projections, selected};
use crate::sort::{Sort, sorts_of};
use datastore_table::{Row, Table};
use portal_base::json_value::Json;
use portal_base::seq::Seq;
use portal_base::text::Text;
use portal_base::tokens::tokens;
use sorted_pages::page::{PageBounds, page_of};
use std::alloc::{AllocError, Global};
use std::marker::Model;

/// A query that was read by a table's schema. A contract sees its parts as they were read.
#[derive(Drop)]
pub struct Query {
    filters: Seq<Filter>,
    words: Seq<Text>,
    columns: Seq<Column>,
    sorts: Seq<Sort>,
    distinct: bool,
    limit: u64,
    offset: u64,
}

impl Model for Query {
    ghost use Rattle.datastore_query.specs.Query.{QueryValue};

    ghost Value = { QueryValue };

    ghost view = { λ q. record {
      filters = q.filters;
      words = q.words;
      columns = q.columns;
      sorts = q.sorts;
      distinct = q.distinct;
      limit = q.limit;
      offset = q.offset;
    } };
}

// Adds the error of a part, if it has one.
fn add_error<T: Drop>(
    errors: &mut Vec<(Text, Text)>,
    part: &'static str,
    read: Result<T, Text>,
) -> Result<(), AllocError>
    ensures { OnOk result (errors.new.items ≡ errors.old.items ++ part_errors part.now read) }
{
    if let Err(message) = read {
        errors.push((Text::from_static(part), message))?;
    }
    Ok(())
}

// The errors of the parts, each with the name of its part.
fn query_errors(
    alloc: Global,
    columns: Result<Seq<Column>, Text>,
    filters: Result<Seq<Filter>, Text>,
    sorts: Result<Seq<Sort>, Text>,
) -> Result<Seq<(Text, Text)>, AllocError>
    ensures { IfOk result (λ errors. errors ≡ query_errors columns filters sorts) }
{
    let mut errors = Vec::new(alloc);
    add_error(&mut errors, "fields", columns)?;
    add_error(&mut errors, "filters", filters)?;
    add_error(&mut errors, "sort", sorts)?;
    Ok(Seq::from(errors))
}

impl Query {
    /// Reads a query by the table's schema. The error has each faulty part with its message, or is out of memory.
    pub fn read(alloc: Global, table: &Table, parts: &Parts) -> Result<Query, QueryFault>
        requires { IsTrue (is_map parts.now.filters) }
        ensures query { IfOk result (λ query. query_reading table.now.schema.fields parts.now ≡ Ok query) }
        ensures fault { IfErr result (IsFault (query_reading table.now.schema.fields parts.now)) }
    {
        let fields = FieldNames::of(alloc, table.schema().fields().as_slice())?;
        Query::read_by(alloc, &fields, parts)
    }

    // Reads a query by the table's fields.
    fn read_by(alloc: Global, fields: &FieldNames, parts: &Parts) -> Result<Query, QueryFault>
        requires { IsTrue (is_map parts.now.filters) }
        ensures query { IfOk result (λ query. query_reading fields.now parts.now ≡ Ok query) }
        ensures fault { IfErr result (IsFault (query_reading fields.now parts.now)) }
    {
        let columns = columns_of(alloc, fields, &parts.fields)?;
        let filters = filters_of(alloc, fields, &parts.filters)?;
        let sorts = sorts_of(alloc, fields, parts.sort.as_str())?;
        let words = tokens(alloc, parts.q.as_str())?;
        match (columns, filters, sorts) {
            (Ok(columns), Ok(filters), Ok(sorts)) => Ok(Query {
                filters,
                words,
                columns,
                sorts,
                distinct: parts.distinct,
                limit: parts.limit,
                offset: parts.offset,
            }),
            (columns, filters, sorts) => Err(QueryFault::Fields(query_errors(
                alloc, columns, filters, sorts,
            )?)),
        }
    }

    /// The names of the columns that the query returns, in its order.
    pub fn column_names(&self, alloc: Global, table: &Table) -> Result<Seq<Text>, AllocError>
        ensures { IfOk result (λ names. names ≡ map (column_name table.now.schema.fields) self.now.columns) }
    {
        let fields = table.schema().fields().as_slice();
        names_of(alloc, fields, self.columns.as_slice())
    }

    /// Runs the query on the table's rows and returns the page. The error is out of memory.
    #[tactic(auto, using(crate::proofs::ListedLemmas::page_values))]
    pub fn run(&self, alloc: Global, table: &Table) -> Result<Page, AllocError>
        ensures columns { IfOk result (λ page. page.columns
            ≡ map (column_name table.now.schema.fields) self.now.columns) }
        ensures rows { IfOk result (λ page. page.rows ≡ page_rows self.now table.now.rows) }
        ensures total { IfOk result (λ page. page.total ≡ length (listing self.now table.now.rows)) }
        ensures values { IfOk result (λ page. All (All IsValue) page.rows) }
    {
        let columns = self.column_names(alloc, table)?;
        let page = self.lent_page(alloc, table)?;
        let rows = projections(alloc, self.columns.as_slice(), page.rows.as_slice())?;
        Ok(Page {
            columns,
            rows: Seq::from(rows),
            total: page.total,
        })
    }

    /// Runs the query on the table's rows and returns the rows of the page, of which nothing is copied. The error is out
    /// of memory.
    #[tactic(auto, using(crate::proofs::ListedLemmas::page_of_rows, crate::proofs::ListedLemmas::count_of_rows, crate::proofs::ListedLemmas::values_of_rows))]
    pub fn lent_page<'a>(&self, alloc: Global, table: &'a Table) -> Result<LentPage<'a>, AllocError>
        ensures rows { IfOk result (λ page. map (projected self.now.columns) page.rows.items
            ≡ page_rows self.now table.now.rows) }
        ensures total { IfOk result (λ page. page.total ≡ length (listing self.now table.now.rows)) }
        ensures values { IfOk result (λ page. All (λ row. All IsValue row.cells) page.rows.items) }
    {
        self.page_among(alloc, table.rows())
    }

    /// The JSON value of the cell of a row in the column at this index of the query's columns, and null if there is no
    /// such column.
    pub fn cell_json(&self, alloc: Global, row: &LentRow, index: usize) -> Result<Json, AllocError>
        requires { All IsValue row.now.cells }
        ensures { IfOk result (λ json. json
            ≡ cell_value (unwrap_or (slice_get (projected self.now.columns row.now) index) Null)) }
    {
        match self.columns.as_slice().get(index) {
            Some(column) => value_in(alloc, row.row(), *column),
            None => Ok(Json::Null),
        }
    }

    /// The `_id`s of the table's rows that pass the query's filters.
    pub fn ids(&self, alloc: Global, table: &Table) -> Result<Seq<u64>, AllocError>
        ensures { IfOk result (λ ids. ids ≡ filtered_ids self.now table.now.rows) }
    {
        let filters = with_values_in_order(alloc, self.filters.as_slice())?;
        let mut ids = Vec::new(alloc);
        for row in table.rows() {
            if passes_filters(row, filters.as_slice()) {
                ids.push(row.id)?;
            }
        }
        Ok(Seq::from(ids))
    }
}

impl Query {
    fn bounds(&self) -> PageBounds
        ensures offset { result.offset ≡ self.now.offset }
        ensures limit { result.limit ≡ self.now.limit }
    {
        PageBounds {
            offset: self.offset,
            limit: self.limit,
        }
    }

    // The rows of the page among these rows.
    #[tactic(auto, using(crate::proofs::RowLemmas::ascending_filtered))]
    fn page_among<'a>(&self, alloc: Global, rows: &'a [Row]) -> Result<LentPage<'a>, AllocError>
        requires ascending { IsAscending row_cmp rows.now }
        requires values { All (λ row. All IsValue row.cells) rows.now }
        ensures rows { IfOk result (λ page. page.rows.items
            ≡ take self.now.limit (drop self.now.offset (listed_rows self.now rows.now))) }
        ensures total { IfOk result (λ page. page.total ≡ length (listed_rows self.now rows.now)) }
    {
        let mut selected = selected(alloc, self.filters.as_slice(), self.words.as_slice(), rows)?;
        if self.distinct {
            self.distinct_page(alloc, selected.as_mut_slice())
        } else {
            self.ordered_page(alloc, selected.as_mut_slice())
        }
    }

    // The rows of the page of the selected rows.
    #[tactic(auto, using(crate::proofs::RowLemmas::page_within))]
    fn ordered_page<'a>(
        &self,
        alloc: Global,
        rows: &mut [LentRow<'a>],
    ) -> Result<LentPage<'a>, AllocError>
        requires { IsAscending row_cmp rows.old }
        ensures rows { IfOk result (λ page. page.rows.items
            ≡ take self.now.limit (drop self.now.offset (in_order self.now.sorts rows.old))) }
        ensures total { IfOk result (λ page. page.total ≡ length (in_order self.now.sorts rows.old)) }
    {
        let total = rows.len() as u64;
        let end = self.bounds().end_within(rows.len());
        let first = first_by_sorts(alloc, rows, self.sorts.as_slice(), end)?;
        let rows = lend_again(alloc, page_of(first, self.bounds()))?;
        Ok(LentPage { rows, total })
    }

    // The rows of the page of the selected rows of which only the first of equal ones are listed.
    #[tactic(auto, using(crate::proofs::RowLemmas::all_in_order))]
    fn distinct_page<'a>(
        &self,
        alloc: Global,
        rows: &mut [LentRow<'a>],
    ) -> Result<LentPage<'a>, AllocError>
        requires { IsAscending row_cmp rows.old }
        ensures rows { IfOk result (λ page. page.rows.items ≡ take self.now.limit (drop self.now.offset
            (firsts (are_alike self.now.columns) (in_order self.now.sorts rows.old)))) }
        ensures total { IfOk result (λ page. page.total
            ≡ length (firsts (are_alike self.now.columns) (in_order self.now.sorts rows.old))) }
    {
        let count = rows.len();
        let ordered = first_by_sorts(alloc, rows, self.sorts.as_slice(), count)?;
        let distinct = distinct_rows(alloc, self.columns.as_slice(), ordered)?;
        let rows = lend_again(alloc, page_of(distinct.as_slice(), self.bounds()))?;
        let total = distinct.len() as u64;
        Ok(LentPage { rows, total })
    }
}
