//! Errors of the bodies of calls on tables, and the methods and records that are read from bodies.
ghost use Rattle.std.specs.Prelude.{◌≡◌, ◌++◌, [], IfOk, IsTrue, codes};
ghost use Rattle.std.specs.List.{list_all};
ghost use Rattle.std.specs.Result.{result_map_both};
ghost use Rattle.portal_base.specs.Kinds.{text_at};
ghost use Rattle.table_schema.specs.Values.{is_map};
ghost use Rattle.datastore_table.specs.Put.{needs_key};
ghost use Rattle.datastore_answers.specs.Errors.{fault_text, field_text, read_method, method_named, method_or_default};
ghost use Rattle.datastore_answers.specs.Errors.{read_records, row_text};
ghost use Rattle.datastore_answers.specs.Errors.{non_dictionary_error, require_key};

use datastore_table::{Method, TableFault};
use portal_base::json_value::Json;
use portal_base::kinds::{list_at, text_at};
use portal_base::seq::Seq;
use portal_base::text::Text;
use std::alloc::{AllocError, Global};
use table_schema::CellFault;

// ---- faults of a table

// The error of the record with this number.
fn row_error(alloc: Global, number: u64, text: &'static str) -> Result<Text, AllocError>
    ensures { IfOk result (λ error. error ≡ row_text number ++ text.now) }
{
    Ok(Text::from(format!(in alloc; "row {number}{text}")?))
}

// The error of a field of the record with this number.
fn field_error(
    alloc: Global,
    number: u64,
    field: &Text,
    text: &'static str,
) -> Result<Text, AllocError>
    ensures { IfOk result (λ error. error ≡ field_text number field.now ++ text.now) }
{
    let field = field.as_str();
    Ok(Text::from(format!(in alloc; "row {number}, {field}{text}")?))
}

fn cell_error(alloc: Global, number: u64, field: &Text, why: CellFault) -> Result<Text, AllocError>
    ensures { IfOk result (λ text. text ≡ fault_text (TableFault.Cell number field.now why)) }
{
    let field = field.as_str();
    Ok(Text::from(format!(in alloc; "row {number}, {field}: {why}")?))
}

fn unknown_field_error(alloc: Global, number: u64, field: &Text) -> Result<Text, AllocError>
    ensures { IfOk result (λ text. text ≡ fault_text (TableFault.UnknownField number field.now)) }
{
    let field = field.as_str();
    Ok(Text::from(format!(in alloc; "row {number}: no field {field}")?))
}

fn referenced_error(alloc: Global, id: u64) -> Result<Text, AllocError>
    ensures { IfOk result (λ text. text ≡ fault_text (TableFault.Referred id)) }
{
    Ok(Text::from(format!(in alloc; "row with _id {id} is referred to")?))
}

/// The message of a table's fault.
pub(crate) fn fault_text(alloc: Global, fault: &TableFault) -> Result<Text, AllocError>
    ensures { IfOk result (λ text. text ≡ fault_text fault.now) }
{
    match fault {
        TableFault::Cell(number, field, why) => cell_error(alloc, *number, field, *why),
        TableFault::UnknownField(number, field) => unknown_field_error(alloc, *number, field),
        TableFault::KeyMissing(number) => row_error(alloc, *number, ": key missing"),
        TableFault::KeyTaken(number) => row_error(alloc, *number, ": key taken"),
        TableFault::NoSuchKey(number) => row_error(alloc, *number, ": no such key"),
        TableFault::Unique(number, field) => field_error(alloc, *number, field, ": not unique"),
        TableFault::Foreign(number) => row_error(alloc, *number, ": no row referred to"),
        TableFault::Referred(id) => referenced_error(alloc, *id),
        TableFault::NoKey => Ok(Text::from_static("Table has no key")),
        TableFault::Full => Ok(Text::from_static("Table is full")),
        TableFault::OutOfMemory => Ok(Text::from_static("out of memory")),
    }
}

// ---- methods

fn method_named(name: &Text) -> Result<Method, Text>
    ensures { result ≡ method_named name.now }
{
    match name.as_str() {
        "upsert" => Ok(Method::Upsert),
        "insert" => Ok(Method::Insert),
        "update" => Ok(Method::Update),
        _ => Err(Text::from_static("Method must be upsert, insert or update")),
    }
}

fn needs_key(method: Method) -> bool
    ensures { result ≡ needs_key method }
{
    match method {
        Method::Insert => false,
        Method::Upsert | Method::Update => true,
    }
}

/// The method that a body names, `upsert` if it names none, or the error.
fn method_or_default(alloc: Global, body: &Json) -> Result<Result<Method, Text>, AllocError>
    ensures { IfOk result (λ read. read ≡ method_or_default (text_at (codes "method") body.now)) }
{
    match text_at(body, "method") {
        Ok(None) => Ok(Ok(Method::Upsert)),
        Ok(Some(name)) => Ok(method_named(name)),
        Err(fault) => Ok(Err(fault.message(alloc)?)),
    }
}

/// The method, or an error if it needs a key and the table has none.
fn require_key(key: &[u32], read: Result<Method, Text>) -> Result<Method, Text>
    ensures { result ≡ require_key key.now read }
{
    match read {
        Ok(method) => if needs_key(method) && key.is_empty() {
            Err(Text::from_static("Table has no key"))
        } else {
            Ok(method)
        },
        Err(message) => Err(message),
    }
}

/// The method of a body for a table with this key, or the method's error.
pub(crate) fn read_method(
    alloc: Global,
    key: &[u32],
    body: &Json,
) -> Result<Result<Method, Text>, AllocError>
    ensures { IfOk result (λ read. read ≡ read_method key.now body.now) }
{
    Ok(require_key(key, method_or_default(alloc, body)?))
}

// ---- records

/// Whether the value is a dictionary.
pub(crate) fn is_map(value: &Json) -> bool
    ensures { result ≡ is_map value.now }
{
    matches!(value, Json::Map(_))
}

fn not_a_dictionary(alloc: Global, number: usize) -> Result<Text, AllocError>
    ensures { IfOk result (λ text. text ≡ row_text number ++ codes ": not a dictionary") }
{
    Ok(Text::from(format!(in alloc; "row {number}: not a dictionary")?))
}

/// The error of the first item that isn't a dictionary, if there is one.
fn non_dictionary_error(alloc: Global, items: &[Json]) -> Result<Option<Text>, AllocError>
    ensures error { IfOk result (λ error. error ≡ non_dictionary_error 1 items.now) }
{
    for (index, item) in items.iter().enumerate() {
        if !is_map(item) {
            return Ok(Some(not_a_dictionary(alloc, index + 1)?));
        }
    }
    Ok(None)
}

/// The records of a body, `none` if it has none, or the records' error.
pub(crate) fn read_records<'a>(
    alloc: Global,
    none: &'a Seq<Json>,
    body: &'a Json,
) -> Result<Result<&'a Seq<Json>, Text>, AllocError>
    requires { none.now ≡ [] }
    ensures records { IfOk result (λ read. result_map_both (λ records. records.now) (λ message. message) read
        ≡ read_records body.now) }
    ensures maps { IfOk result (λ read. IfOk read (λ records. IsTrue (list_all is_map records.now))) }
{
    match list_at(body, "records") {
        Ok(None) => Ok(Ok(none)),
        Ok(Some(items)) => match non_dictionary_error(alloc, items.as_slice())? {
            None => Ok(Ok(items)),
            Some(message) => Ok(Err(message)),
        },
        Err(fault) => Ok(Err(fault.message(alloc)?)),
    }
}
