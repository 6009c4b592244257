//! The dictionary in which a reply shows a page of a table's rows.
ghost use Rattle.std.specs.Prelude.{◌≡◌, All, IfOk, map, pos};
ghost use Rattle.table_schema.specs.Printed.{IsValue};
ghost use Rattle.row_records.specs.Records.{member_at, record_of};
ghost use Rattle.datastore_query.specs.Column.{projected};
ghost use Rattle.portal_state.specs.Page.{column_dictionary, column_type, page_dictionary, page_members, page_with};
ghost use Rattle.portal_state.specs.Queries.{page_of};

use datastore_answers::dictionary::type_name;
use datastore_query::{FieldNames, LentPage, LentRow, Query};
use datastore_table::Table;
use portal_base::copy::TryClone;
use portal_base::dictionary::Value;
use portal_base::json_value::Json;
use portal_base::seq::Seq;
use portal_base::text::Text;
use portal_state::search_body::Search;
use row_records::{Column, columns_of};
use std::alloc::{AllocError, Global};

// ---- columns

/// The type of the column of that name. The type of `_id` is `int`.
fn column_type(fields: &FieldNames, name: &Text) -> &'static str
    ensures { result.now ≡ column_type fields.now name.now }
{
    match fields.find(name.as_str()) {
        Some(field) => type_name(field.form().kind()),
        None => "int",
    }
}

fn column_json(alloc: Global, fields: &FieldNames, name: &Text) -> Result<Json, AllocError>
    ensures { IfOk result (λ json. json ≡ column_dictionary fields.now name.now) }
{
    Json::dictionary(
        alloc,
        [
            ("id", Value::Text(name)),
            ("type", Value::Static(column_type(fields, name))),
        ],
    )
}

fn columns_json(alloc: Global, fields: &FieldNames, names: &[Text]) -> Result<Seq<Json>, AllocError>
    ensures { IfOk result (λ list. list ≡ map (column_dictionary fields.now) names.now) }
{
    let mut list = Vec::with_capacity(alloc, names.len())?;
    for name in names {
        list.push(column_json(alloc, fields, name)?)?;
    }
    Ok(Seq::from(list))
}

// ---- records

/// The name of a column with the value of a row's cell there.
fn member_of(
    alloc: Global,
    query: &Query,
    column: &Column,
    row: &LentRow,
) -> Result<(Text, Json), AllocError>
    requires { All IsValue row.now.cells }
    ensures { IfOk result (λ member. member ≡ member_at (projected query.now.columns row.now) column.now) }
{
    let value = query.cell_json(alloc, row, column.index)?;
    let name = column.name.try_clone(alloc)?;
    Ok((name, value))
}

/// The row as a record of these columns. Each column has one value, however often the query names it.
fn record_json(
    alloc: Global,
    query: &Query,
    columns: &[Column],
    row: &LentRow,
) -> Result<Json, AllocError>
    requires { All IsValue row.now.cells }
    ensures { IfOk result (λ json. json ≡ record_of columns.now (projected query.now.columns row.now)) }
{
    let mut members = Vec::with_capacity(alloc, columns.len())?;
    for column in columns {
        members.push(member_of(alloc, query, column, row)?)?;
    }
    Ok(Json::Map(Seq::from(members)))
}

/// The rows as records of these columns.
fn records_json(
    alloc: Global,
    query: &Query,
    columns: &[Column],
    rows: &[LentRow],
) -> Result<Seq<Json>, AllocError>
    requires { All (λ row. All IsValue row.cells) rows.now }
    ensures { IfOk result (λ list. list ≡ map (record_of columns.now) (map (projected query.now.columns) rows.now)) }
{
    let mut list = Vec::with_capacity(alloc, rows.len())?;
    for row in rows {
        list.push(record_json(alloc, query, columns, row)?)?;
    }
    Ok(Seq::from(list))
}

// ---- the page

fn count_json(count: u64) -> Json
    ensures { result ≡ Json.Whole (pos count) }
{
    Json::Whole(i128::from(count))
}

/// The dictionary of a page with these columns and records. It has the count of rows on all pages where the body asks
/// for it.
fn dictionary_of(
    alloc: Global,
    search: &Search,
    id: Text,
    columns: Seq<Json>,
    records: Seq<Json>,
    total: u64,
) -> Result<Json, AllocError>
    ensures { IfOk result (λ json. json ≡ page_members search.now id columns records total) }
{
    let limit = count_json(search.parts.limit);
    let offset = count_json(search.parts.offset);
    if search.total {
        let total = count_json(total);
        return Json::dictionary(
            alloc,
            [
                ("fields", Value::List(columns)),
                ("limit", Value::Json(limit)),
                ("offset", Value::Json(offset)),
                ("records", Value::List(records)),
                ("resource_id", Value::Json(Json::Text(id))),
                ("total", Value::Json(total)),
            ],
        );
    }
    Json::dictionary(
        alloc,
        [
            ("fields", Value::List(columns)),
            ("limit", Value::Json(limit)),
            ("offset", Value::Json(offset)),
            ("records", Value::List(records)),
            ("resource_id", Value::Json(Json::Text(id))),
        ],
    )
}

/// The columns of these names, in order, of the fields of a table.
fn table_columns_json(alloc: Global, table: &Table, names: &[Text]) -> Result<Seq<Json>, AllocError>
    ensures { IfOk result (λ list. list ≡ map (column_dictionary table.now.schema.fields) names.now) }
{
    let fields = FieldNames::of(alloc, table.schema().fields().as_slice())?;
    columns_json(alloc, &fields, names)
}

/// The dictionary of a page with these rows of the table, of the resource of that id.
fn page_json(
    alloc: Global,
    table: &Table,
    id: Text,
    search: &Search,
    query: &Query,
    page: &LentPage,
) -> Result<Json, AllocError>
    requires { All (λ row. All IsValue row.cells) page.now.rows.items }
    ensures { IfOk result (λ json. json ≡ page_dictionary table.now.schema.fields id search.now
        (page_with table.now.schema.fields page.now.rows.items page.now.total query.now)) }
{
    let names = query.column_names(alloc, table)?;
    let listed = table_columns_json(alloc, table, names.as_slice())?;
    let columns = columns_of(alloc, names.as_slice())?;
    let records = records_json(alloc, query, columns.as_slice(), page.rows.as_slice())?;
    dictionary_of(alloc, search, id, listed, records, page.total)
}

/// The dictionary of the page of the query, of the rows of the table of the resource of that id. No row is copied.
#[tactic(auto, using(crate::proofs::PageLemmas::page_is))]
pub(crate) fn query_page(
    alloc: Global,
    table: &Table,
    id: Text,
    search: &Search,
    query: &Query,
) -> Result<Json, AllocError>
    ensures { IfOk result (λ json. json ≡ page_dictionary table.now.schema.fields id search.now
        (page_of table.now.schema.fields table.now.rows query.now)) }
{
    let page = query.lent_page(alloc, table)?;
    page_json(alloc, table, id, search, query, &page)
}
