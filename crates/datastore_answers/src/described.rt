//! Tables as the bodies of calls describe them: by fields and a key, or by a Table Schema descriptor.
ghost use Rattle.std.specs.Prelude.{◌≡◌, ◌∷◌, [], map, codes, Err, IfOk, None, Ok, OnOk, Some, option_copied};
ghost use Rattle.std.specs.Prelude.{unwrap_or};
ghost use Rattle.std.specs.Result.{result_map_both};
ghost use Rattle.portal_base.specs.KeyErrors.{kind_message, error_if};
ghost use Rattle.portal_base.specs.Kinds.{list_at, message_of, present, text_at, texts_at};
ghost use Rattle.portal_base.specs.declared.json_value.Json as json;
ghost use Rattle.packages.specs.LocatedResource.{located_now};
ghost use Rattle.table_schema.specs.Keys.{schema_reading};
ghost use Rattle.table_schema.specs.Messages.{schema_fault_text};
ghost use Rattle.datastore_answers.specs.TableAnswers.{address_of};
ghost use Rattle.datastore_answers.specs.Described.{are_fields, are_names, by_fields, described_table, described_new};
ghost use Rattle.datastore_answers.specs.Described.{descriptor_of, descriptor_error, descriptor_field, fields_fit};
ghost use Rattle.datastore_answers.specs.Described.{fields_error, is_field, is_name, is_schema, key_fits, name_given};
ghost use Rattle.datastore_answers.specs.Described.{schema_or_error, unless_errors, table_of_descriptor};
ghost use Rattle.datastore_answers.specs.Described.{both_given_error, existing_table_errors};
ghost use Rattle.datastore_answers.specs.Described.{type_given, descriptor_type, type_shown, empty_table};
ghost use Rattle.datastore_answers.specs.Tables.{without_room, tables_in, tables_of};
ghost use Rattle.datastore_answers.specs.Errors.{error_of};

use crate::dictionary::{name_at, type_name};
use crate::errors::is_map;
use crate::lookup::address_of;
use crate::resource_table::ResourceTable;
use crate::tables::Tables;
use datastore_table::Table;
use packages::named::LocatedResource;
use portal_base::copy::TryClone;
use portal_base::dictionary::Value;
use portal_base::json_value::Json;
use portal_base::key_errors::KeyErrors;
use portal_base::kinds::{KindFault, list_at, present, text_at, texts_at};
use portal_base::seq::Seq;
use portal_base::text::Text;
use std::alloc::{AllocError, Global};
use table_schema::{Field, Schema, SchemaFault};

// ---- fields as a descriptor

fn descriptor_type(name: &str) -> &'static str
    ensures { result.now ≡ descriptor_type name.now }
{
    match name {
        "text" => "string",
        "int" => "integer",
        "numeric" => "number",
        "float" => "number",
        "bool" => "boolean",
        "date" => "date",
        "time" => "time",
        "timestamp" => "datetime",
        _ => "",
    }
}

fn name_given(alloc: Global, item: &Json) -> Result<Json, AllocError>
    ensures { IfOk result (λ json. json ≡ name_given (text_at (codes "id") item.now)) }
{
    match text_at(item, "id") {
        Ok(Some(name)) => Ok(Json::Text(name.try_clone(alloc)?)),
        _ => Ok(Json::Null),
    }
}

fn type_given(item: &Json) -> &str
    ensures { result.now ≡ type_given (text_at (codes "type") item.now) }
{
    match text_at(item, "type") {
        Ok(Some(name)) => name.as_str(),
        Ok(None) => "text",
        Err(_) => "",
    }
}

// A column as a field of a descriptor.
fn descriptor_field(alloc: Global, item: &Json) -> Result<Json, AllocError>
    ensures { IfOk result (λ json. json ≡ descriptor_field item.now) }
{
    if !is_map(item) {
        return Ok(Json::Null);
    }
    let name = name_given(alloc, item)?;
    Json::dictionary(
        alloc,
        [
            ("name", Value::Json(name)),
            ("type", Value::Static(descriptor_type(type_given(item)))),
        ],
    )
}

fn descriptor_fields(alloc: Global, items: &[Json]) -> Result<Seq<Json>, AllocError>
    ensures { IfOk result (λ list. list ≡ map descriptor_field items.now) }
{
    let mut list = Vec::with_capacity(alloc, items.len())?;
    for item in items {
        list.push(descriptor_field(alloc, item)?)?;
    }
    Ok(Seq::from(list))
}

fn texts_json(alloc: Global, texts: &[Text]) -> Result<Seq<Json>, AllocError>
    ensures { IfOk result (λ list. list ≡ map json.Text texts.now) }
{
    let mut list = Vec::with_capacity(alloc, texts.len())?;
    for text in texts {
        list.push(Json::Text(text.try_clone(alloc)?))?;
    }
    Ok(Seq::from(list))
}

// The descriptor with these fields and this key.
fn descriptor_json(alloc: Global, fields: Seq<Json>, names: Seq<Json>) -> Result<Json, AllocError>
    ensures { IfOk result (λ made. made
        ≡ json.Map ((codes "fields", json.List fields) ∷ (codes "primaryKey", json.List names) ∷ [])) }
{
    Json::dictionary(
        alloc,
        [
            ("fields", Value::List(fields)),
            ("primaryKey", Value::List(names)),
        ],
    )
}

// The descriptor of these columns and this key.
fn descriptor_of(alloc: Global, items: &[Json], key: &[Text]) -> Result<Json, AllocError>
    ensures { IfOk result (λ json. json ≡ descriptor_of items.now key.now) }
{
    let fields = descriptor_fields(alloc, items)?;
    let names = texts_json(alloc, key)?;
    descriptor_json(alloc, fields, names)
}

// ---- a table by a descriptor

fn schema_fault_message(alloc: Global, fault: &SchemaFault) -> Result<Text, AllocError>
    ensures { IfOk result (λ text. text ≡ schema_fault_text fault.now) }
{
    Ok(Text::from(format!(in alloc; "{fault}")?))
}

// The schema that a descriptor describes, or its error.
fn schema_or_error(alloc: Global, descriptor: &Json) -> Result<Result<Schema, Text>, AllocError>
    ensures { IfOk result (λ read. read ≡ schema_or_error (schema_reading descriptor.now)) }
{
    match Schema::of_json(alloc, descriptor) {
        Ok(schema) => Ok(Ok(schema)),
        Err(SchemaFault::OutOfMemory) => Err(AllocError),
        Err(fault) => Ok(Err(schema_fault_message(alloc, &fault)?)),
    }
}

// The resource's table without rows.
fn empty_table(
    alloc: Global,
    placed: &LocatedResource<'_>,
    schema: Schema,
    targets: Seq<u32>,
) -> Result<ResourceTable, AllocError>
    ensures table { IfOk result
        (λ t. without_room t ≡ empty_table (address_of (located_now placed.now)) schema targets) }
{
    let address = address_of(alloc, placed)?;
    let Ok(table) = Table::create(alloc, schema) else {
        return Err(AllocError);
    };
    Ok(ResourceTable {
        address,
        targets,
        table,
    })
}

// The resource's table without rows, with the schema that a descriptor describes, or the descriptor's error.
fn table_of_descriptor(
    alloc: Global,
    placed: &LocatedResource<'_>,
    tables: &Tables,
    descriptor: &Json,
) -> Result<Result<ResourceTable, Text>, AllocError>
    ensures { IfOk result (λ read. result_map_both without_room (λ message. message) read
        ≡ table_of_descriptor (located_now placed.now) (tables_in placed.now.dataset.now.id (tables_of tables.now))
        descriptor.now) }
{
    let schema = match schema_or_error(alloc, descriptor)? {
        Ok(schema) => schema,
        Err(message) => return Ok(Err(message)),
    };
    match tables.resolved_targets(alloc, placed, &schema)? {
        Ok(targets) => Ok(Ok(empty_table(alloc, placed, schema, targets)?)),
        Err(message) => Ok(Err(message)),
    }
}

// ---- a table by a body

// The table if there are no errors, and else the errors.
fn unless_errors(
    errors: KeyErrors,
    read: Result<ResourceTable, Text>,
) -> Result<ResourceTable, KeyErrors>
    ensures { result_map_both without_room (λ errors. errors) result
        ≡ unless_errors errors (result_map_both without_room (λ message. message) read) }
{
    match read {
        Ok(table) => if errors.is_empty() {
            Ok(table)
        } else {
            Err(errors)
        },
        Err(_message) => Err(errors),
    }
}

fn add_error_if(
    errors: &mut KeyErrors,
    key: &'static str,
    error: Option<Text>,
) -> Result<(), AllocError>
    ensures { OnOk result (errors.new ≡ error_if key.now error errors.old) }
{
    match error {
        Some(message) => errors.add_error(Text::from_static(key), message),
        None => Ok(()),
    }
}

// The error, if there is one.
fn error_of(alloc: Global, read: &Result<ResourceTable, Text>) -> Result<Option<Text>, AllocError>
    ensures { IfOk result (λ message. message ≡ error_of read.now) }
{
    match read {
        Ok(_table) => Ok(None),
        Err(message) => Ok(Some(message.try_clone(alloc)?)),
    }
}

// The error of a schema that is given together with fields.
fn both_given_error(body: &Json) -> Option<Text>
    ensures { result ≡ both_given_error (present (codes "schema") body.now) }
{
    match present(body, "schema") {
        Some(_descriptor) => Some(Text::from_static("Give fields or schema, not both")),
        None => None,
    }
}

// The table that fields describe, given it or the fields' error. `errors` has the key's error already.
fn by_fields(
    alloc: Global,
    body: &Json,
    errors: KeyErrors,
    read: Result<ResourceTable, Text>,
) -> Result<Result<ResourceTable, KeyErrors>, AllocError>
    requires key { errors
        ≡ error_if (codes "primary_key") (kind_message (texts_at (codes "primary_key") body.now)) [] }
    ensures { IfOk result (λ described. result_map_both without_room (λ errors. errors) described
        ≡ by_fields (texts_at (codes "primary_key") body.now) (present (codes "schema") body.now)
        (result_map_both without_room (λ message. message) read)) }
{
    let mut errors = errors;
    add_error_if(&mut errors, "fields", error_of(alloc, &read)?)?;
    add_error_if(&mut errors, "schema", both_given_error(body))?;
    Ok(unless_errors(errors, read))
}

fn names_or_none(alloc: Global, read: Option<Option<Seq<Text>>>) -> Seq<Text>
    ensures { result ≡ unwrap_or (unwrap_or read None) [] }
{
    match read {
        Some(Some(names)) => names,
        _ => Seq::new(alloc),
    }
}

// The table that these columns describe, or the body's errors.
fn by_columns(
    alloc: Global,
    placed: &LocatedResource<'_>,
    tables: &Tables,
    body: &Json,
    items: &[Json],
) -> Result<Result<ResourceTable, KeyErrors>, AllocError>
    ensures { IfOk result (λ described. result_map_both without_room (λ errors. errors) described
        ≡ described_new (located_now placed.now) (tables_in placed.now.dataset.now.id (tables_of tables.now))
        (Ok (Some items.now)) (texts_at (codes "primary_key") body.now) (present (codes "schema") body.now)) }
{
    let mut errors = KeyErrors::new(alloc);
    let read = texts_at(alloc, body, "primary_key")?;
    let key = names_or_none(alloc, errors.check(alloc, "primary_key", read)?);
    let descriptor = descriptor_of(alloc, items, key.as_slice())?;
    let described = table_of_descriptor(alloc, placed, tables, &descriptor)?;
    by_fields(alloc, body, errors, described)
}

// The errors of a body whose `fields` isn't a list.
fn by_no_list(
    alloc: Global,
    body: &Json,
    why: KindFault,
) -> Result<Result<ResourceTable, KeyErrors>, AllocError>
    ensures { IfOk result (λ described. result_map_both without_room (λ errors. errors) described
        ≡ by_fields (texts_at (codes "primary_key") body.now) (present (codes "schema") body.now)
        (Err (message_of why))) }
{
    let mut errors = KeyErrors::new(alloc);
    let read = texts_at(alloc, body, "primary_key")?;
    let _key = errors.check(alloc, "primary_key", read)?;
    by_fields(alloc, body, errors, Err(why.message(alloc)?))
}

// The table that a descriptor describes without fields, or the body's errors.
fn by_schema(
    alloc: Global,
    placed: &LocatedResource<'_>,
    tables: &Tables,
    body: &Json,
) -> Result<Result<ResourceTable, KeyErrors>, AllocError>
    ensures { IfOk result (λ described. result_map_both without_room (λ errors. errors) described
        ≡ described_new (located_now placed.now) (tables_in placed.now.dataset.now.id (tables_of tables.now))
        (Ok None) (texts_at (codes "primary_key") body.now) (present (codes "schema") body.now)) }
{
    let mut errors = KeyErrors::new(alloc);
    let Some(descriptor) = present(body, "schema") else {
        errors.add_error(
            Text::from_static("fields"),
            Text::from_static("Missing value"),
        )?;
        return Ok(Err(errors));
    };
    let described = table_of_descriptor(alloc, placed, tables, descriptor)?;
    add_error_if(&mut errors, "schema", error_of(alloc, &described)?)?;
    Ok(unless_errors(errors, described))
}

/// The new table, without rows, that a body describes, or the body's errors.
pub(crate) fn described_new(
    alloc: Global,
    placed: &LocatedResource<'_>,
    tables: &Tables,
    body: &Json,
) -> Result<Result<ResourceTable, KeyErrors>, AllocError>
    ensures { IfOk result (λ described. result_map_both without_room (λ errors. errors) described
        ≡ described_table (located_now placed.now) (tables_in placed.now.dataset.now.id (tables_of tables.now))
        body.now None) }
{
    match list_at(body, "fields") {
        Ok(None) => by_schema(alloc, placed, tables, body),
        Ok(Some(items)) => by_columns(alloc, placed, tables, body, items.as_slice()),
        Err(why) => by_no_list(alloc, body, why),
    }
}

// ---- an existing table

fn type_shown(name: &str) -> &str
    ensures { result.now ≡ type_shown name.now }
{
    if name == "float" { "numeric" } else { name }
}

// Whether the column has this name.
fn is_named(item: &Json, name: &Text) -> bool
    ensures { result ≡ is_name name.now (text_at (codes "id") item.now) }
{
    match text_at(item, "id") {
        Ok(Some(given)) => given.as_str() == name.as_str(),
        _ => false,
    }
}

// Whether the column has the field's name and type.
fn is_field(field: &Field, item: &Json) -> bool
    ensures { result ≡ is_field field.now item.now }
{
    is_named(item, field.name()) && type_shown(type_given(item)) == type_name(field.form().kind())
}

fn are_fields(fields: &[Field], items: &[Json]) -> bool
    ensures { result ≡ are_fields fields.now items.now }
{
    if fields.len() != items.len() {
        return false;
    }
    for at in 0..fields.len() {
        if !is_field(&fields[at], &items[at]) {
            return false;
        }
    }
    true
}

// Whether these are the names of the fields with these indices, in order.
fn are_names(fields: &[Field], indices: &[u32], names: &[Text]) -> bool
    ensures { result ≡ are_names fields.now indices.now names.now }
{
    if indices.len() != names.len() {
        return false;
    }
    for at in 0..indices.len() {
        if name_at(fields, indices[at]) != names[at].as_str() {
            return false;
        }
    }
    true
}

fn fields_fit(schema: &Schema, items: Option<&Seq<Json>>) -> bool
    ensures { result ≡ fields_fit schema.now (option_copied items.entry) }
{
    match items {
        Some(items) => are_fields(schema.fields().as_slice(), items.as_slice()),
        None => true,
    }
}

fn key_fits(schema: &Schema, key: &Result<Option<Seq<Text>>, KindFault>) -> bool
    ensures { result ≡ key_fits schema.now key.now }
{
    match key {
        Ok(Some(names)) => are_names(
            schema.fields().as_slice(),
            schema.key().as_slice(),
            names.as_slice(),
        ),
        _ => true,
    }
}

// The error of `fields`, which covers a key that differs from the table's.
fn fields_error(
    alloc: Global,
    schema: &Schema,
    body: &Json,
    key: &Result<Option<Seq<Text>>, KindFault>,
) -> Result<Option<Text>, AllocError>
    ensures { IfOk result (λ error. error ≡ fields_error schema.now (list_at (codes "fields") body.now) key.now) }
{
    match list_at(body, "fields") {
        Ok(items) => if fields_fit(schema, items) && key_fits(schema, key) {
            Ok(None)
        } else {
            Ok(Some(Text::from_static("Table exists with other fields")))
        },
        Err(why) => Ok(Some(why.message(alloc)?)),
    }
}

// Whether both schemas have the same descriptor text.
fn is_written_as(alloc: Global, schema: &Schema, read: &Schema) -> Result<bool, AllocError>
    ensures { IfOk result (λ same. same ≡ is_schema schema.now (Ok read.now)) }
{
    let own = schema.to_json(alloc)?.text(alloc)?;
    let given = read.to_json(alloc)?.text(alloc)?;
    Ok(given.as_str() == own.as_str())
}

// Whether the descriptor reads as this schema.
fn is_schema(alloc: Global, schema: &Schema, descriptor: &Json) -> Result<bool, AllocError>
    ensures { IfOk result (λ same. same ≡ is_schema schema.now (schema_reading descriptor.now)) }
{
    match Schema::of_json(alloc, descriptor) {
        Ok(read) => is_written_as(alloc, schema, &read),
        Err(SchemaFault::OutOfMemory) => Err(AllocError),
        Err(_) => Ok(false),
    }
}

// The error of a descriptor that is given without fields.
fn same_schema_error(
    alloc: Global,
    schema: &Schema,
    descriptor: &Json,
) -> Result<Option<Text>, AllocError>
    ensures { IfOk result (λ error. error ≡ descriptor_error schema.now (Ok None) (Some descriptor.now)) }
{
    if is_schema(alloc, schema, descriptor)? {
        Ok(None)
    } else {
        Ok(Some(Text::from_static("Table exists with other fields")))
    }
}

fn descriptor_error(alloc: Global, schema: &Schema, body: &Json) -> Result<Option<Text>, AllocError>
    ensures { IfOk result (λ error. error ≡ descriptor_error schema.now (list_at (codes "fields") body.now)
        (present (codes "schema") body.now)) }
{
    let Some(descriptor) = present(body, "schema") else {
        return Ok(None);
    };
    match list_at(body, "fields") {
        Ok(None) => same_schema_error(alloc, schema, descriptor),
        _ => Ok(Some(Text::from_static("Give fields or schema, not both"))),
    }
}

/// The errors of a body for an existing table with this schema.
pub(crate) fn existing_table_errors(
    alloc: Global,
    schema: &Schema,
    body: &Json,
) -> Result<KeyErrors, AllocError>
    ensures { IfOk result (λ errors. errors ≡ existing_table_errors schema.now body.now) }
{
    let mut errors = KeyErrors::new(alloc);
    let key = texts_at(alloc, body, "primary_key")?;
    let error = fields_error(alloc, schema, body, &key)?;
    let _key = errors.check(alloc, "primary_key", key)?;
    add_error_if(&mut errors, "fields", error)?;
    add_error_if(
        &mut errors,
        "schema",
        descriptor_error(alloc, schema, body)?,
    )?;
    Ok(errors)
}
