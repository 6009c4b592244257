//! The dictionaries that describe tables in replies.
ghost use Rattle.std.specs.Prelude.{◌≡◌, map, IfOk};
ghost use Rattle.portal_base.specs.declared.json_value.Json.{Json};
ghost use Rattle.portal_base.specs.declared.json_value.Json as json;
ghost use Rattle.table_schema.specs.Written.{name_at, names_value};
ghost use Rattle.datastore_answers.specs.Dictionary.{type_name, field_dictionary, fields_shown, key_shown};
ghost use Rattle.datastore_answers.specs.Dictionary.{create_dictionary, delete_rows_dictionary, description_dictionary};
ghost use Rattle.datastore_answers.specs.Dictionary.{delete_dictionary};
ghost use Rattle.datastore_answers.specs.Dictionary.{info_dictionary, meta_dictionary, method_name};
ghost use Rattle.datastore_answers.specs.Dictionary.{upsert_dictionary};

use crate::resource_table::ResourceTable;
use datastore_table::Method;
use portal_base::dictionary::Value;
use portal_base::json_value::Json;
use portal_base::seq::Seq;
use portal_base::text::Text;
use std::alloc::{AllocError, Global};
use table_schema::{Field, Kind, Schema};

/// The type of a column.
pub fn type_name(kind: Kind) -> &'static str
    ensures { result.now ≡ type_name kind }
{
    match kind {
        Kind::Text => "text",
        Kind::Integer => "int",
        Kind::Number => "numeric",
        Kind::Boolean => "bool",
        Kind::Date => "date",
        Kind::Time => "time",
        Kind::Datetime => "timestamp",
        Kind::Year => "year",
        Kind::YearMonth => "yearmonth",
    }
}

fn field_json(alloc: Global, field: &Field) -> Result<Json, AllocError>
    ensures { IfOk result (λ json. json ≡ field_dictionary field.now) }
{
    Json::dictionary(
        alloc,
        [
            ("id", Value::Text(field.name())),
            ("type", Value::Static(type_name(field.form().kind()))),
        ],
    )
}

fn field_list(alloc: Global, fields: &[Field]) -> Result<Seq<Json>, AllocError>
    ensures { IfOk result (λ list. list ≡ map field_dictionary fields.now) }
{
    let mut list = Vec::with_capacity(alloc, fields.len())?;
    for field in fields {
        list.push(field_json(alloc, field)?)?;
    }
    Ok(Seq::from(list))
}

/// The table's fields.
pub(crate) fn fields_json(alloc: Global, schema: &Schema) -> Result<Json, AllocError>
    ensures { IfOk result (λ json. json ≡ fields_shown schema.now) }
{
    Ok(Json::List(field_list(alloc, schema.fields().as_slice())?))
}

/// The name of the field with this index, or the empty text if there is none.
pub(crate) fn name_at(fields: &[Field], index: u32) -> &str
    ensures { result.now ≡ name_at fields.now index }
{
    match fields.get(index as usize) {
        Some(field) => field.name().as_str(),
        None => "",
    }
}

fn names_at(alloc: Global, fields: &[Field], indices: &[u32]) -> Result<Json, AllocError>
    ensures { IfOk result (λ json. json ≡ names_value fields.now indices.now) }
{
    let mut list = Vec::with_capacity(alloc, indices.len())?;
    for column in indices {
        let name = Text::from_str(alloc, name_at(fields, *column))?;
        list.push(Json::Text(name))?;
    }
    Ok(Json::List(Seq::from(list)))
}

/// The names of the key's fields.
pub(crate) fn key_json(alloc: Global, schema: &Schema) -> Result<Json, AllocError>
    ensures { IfOk result (λ json. json ≡ key_shown schema.now) }
{
    names_at(alloc, schema.fields().as_slice(), schema.key().as_slice())
}

fn meta_json(alloc: Global, count: usize, key: Json) -> Result<Json, AllocError>
    ensures { IfOk result (λ json. json ≡ meta_dictionary count key) }
{
    Json::dictionary(
        alloc,
        [
            ("count", Value::Whole(count)),
            ("primary_key", Value::Json(key)),
        ],
    )
}

/// A table: its fields, the count of its rows, and its key.
pub(crate) fn info_json(alloc: Global, table: &ResourceTable) -> Result<Json, AllocError>
    ensures { IfOk result (λ json. json ≡ info_dictionary table.now) }
{
    let schema = table.table.schema();
    let key = key_json(alloc, schema)?;
    let meta = meta_json(alloc, table.table.rows().len(), key)?;
    let fields = fields_json(alloc, schema)?;
    Json::dictionary(
        alloc,
        [("fields", Value::Json(fields)), ("meta", Value::Json(meta))],
    )
}

fn description_json(
    alloc: Global,
    fields: Json,
    key: Json,
    resource: Text,
) -> Result<Json, AllocError>
    ensures { IfOk result (λ json. json ≡ description_dictionary fields key resource) }
{
    Json::dictionary(
        alloc,
        [
            ("fields", Value::Json(fields)),
            ("primary_key", Value::Json(key)),
            ("resource_id", Value::Json(Json::Text(resource))),
        ],
    )
}

/// The reply to the creation of a table, or to records for an existing one: the id of its resource, its fields and
/// its key.
pub(crate) fn create_json(
    alloc: Global,
    resource: Text,
    schema: &Schema,
) -> Result<Json, AllocError>
    ensures { IfOk result (λ json. json ≡ create_dictionary resource schema.now) }
{
    let fields = fields_json(alloc, schema)?;
    let key = key_json(alloc, schema)?;
    description_json(alloc, fields, key, resource)
}

fn method_name(method: Method) -> &'static str
    ensures { result.now ≡ method_name method }
{
    match method {
        Method::Upsert => "upsert",
        Method::Insert => "insert",
        Method::Update => "update",
    }
}

/// The reply to records for the table of the resource with this id.
pub(crate) fn upsert_json(
    alloc: Global,
    resource: Text,
    method: Method,
    records: &Seq<Json>,
) -> Result<Json, AllocError>
    ensures { IfOk result (λ json. json ≡ upsert_dictionary resource method records.now) }
{
    Json::dictionary(
        alloc,
        [
            ("count", Value::Whole(records.len())),
            ("method", Value::Static(method_name(method))),
            ("resource_id", Value::Json(Json::Text(resource))),
        ],
    )
}

/// The reply to the deletion of the table of the resource with this id.
pub(crate) fn delete_json(alloc: Global, resource: Text) -> Result<Json, AllocError>
    ensures { IfOk result (λ json. json ≡ delete_dictionary resource) }
{
    Json::dictionary(alloc, [("resource_id", Value::Json(Json::Text(resource)))])
}

/// The reply to the deletion of this count of rows from the table of the resource with this id.
pub(crate) fn delete_rows_json(
    alloc: Global,
    count: usize,
    resource: Text,
) -> Result<Json, AllocError>
    ensures { IfOk result (λ json. json ≡ delete_rows_dictionary count resource) }
{
    Json::dictionary(
        alloc,
        [
            ("deleted", Value::Whole(count)),
            ("resource_id", Value::Json(Json::Text(resource))),
        ],
    )
}
