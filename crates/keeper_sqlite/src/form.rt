//! The form of the keeper's table, as the schema of a database shows it.
ghost use Rattle.std.specs.Prelude.{◌≡◌};
ghost use Rattle.std.specs.List.{list_any};
ghost use Rattle.keeper_sqlite.specs.Form.{is_kept_name, is_plain_column, is_integer_column, is_text_column};
ghost use Rattle.keeper_sqlite.specs.Form.{has_columns, is_key, has_key, has_form, is_other_table, is_kept_view, is_name_taken};

use sqlite_items::Items;
use sqlite_schema::names::same_name;
use sqlite_schema::schema::{Column, Kind, Schema, Table, View};
use sqlite_value::keys::Collation;

/// Whether the keeper's name is taken: by a table in another form than the keeper's, or by a view.
pub(crate) fn is_name_taken(schema: &Schema) -> bool
    ensures { result ≡ is_name_taken schema.now }
{
    has_other_table(schema.tables.as_slice()) || has_kept_view(schema.views.as_slice())
}

/// Whether one of the tables has the keeper's name, and another form.
fn has_other_table(tables: &[Table]) -> bool
    ensures { result ≡ list_any is_other_table tables.now }
{
    tables.iter().any(|table| is_other_table(table))
}

/// Whether one of the views has the keeper's name.
fn has_kept_view(views: &[View]) -> bool
    ensures { result ≡ list_any is_kept_view views.now }
{
    views.iter().any(|view| is_kept_name(view.name.as_slice()))
}

/// Whether the name is that of the keeper's table.
fn is_kept_name(name: &[u8]) -> bool
    ensures { result ≡ is_kept_name name.now }
{
    same_name(name, b"kept")
}

/// Whether this is a table of the keeper's name in another form.
fn is_other_table(table: &Table) -> bool
    ensures { result ≡ is_other_table table.now }
{
    is_kept_name(table.name.as_slice()) && !has_form(table)
}

/// Whether the table has the form that the keeper gives it.
fn has_form(table: &Table) -> bool
    ensures { result ≡ has_form table.now }
{
    has_columns(table.columns.as_slice())
        && is_key(table.primary.as_slice())
        && has_key(table.uniques.as_slice())
}

/// Whether these are the columns of the keeper's table.
fn has_columns(columns: &[Column]) -> bool
    ensures { result ≡ has_columns columns.now }
{
    match columns {
        [kind, name, body] => is_integer_column(kind, "kind")
            && is_text_column(name, "name")
            && is_text_column(body, "body"),
        _ => false,
    }
}

/// Whether this is a strict column of integers.
fn is_integer_column(column: &Column, name: &str) -> bool
    ensures { result ≡ is_integer_column name.now column.now }
{
    is_plain_column(column, name) && matches!(column.kind, Kind::Integer)
}

/// Whether this is a strict column of texts.
fn is_text_column(column: &Column, name: &str) -> bool
    ensures { result ≡ is_text_column name.now column.now }
{
    is_plain_column(column, name) && matches!(column.kind, Kind::Text)
}

/// Whether the column has this name, takes values of its type alone, never NULL, and compares by bytes.
fn is_plain_column(column: &Column, name: &str) -> bool
    ensures { result ≡ is_plain_column name.now column.now }
{
    same_name(column.name.as_slice(), name.as_bytes())
        && column.is_strict
        && column.not_null
        && matches!(column.collation, Collation::Binary)
}

/// Whether these are the places of the key.
fn is_key(places: &[usize]) -> bool
    ensures { result ≡ is_key places.now }
{
    places == [1, 2].as_slice()
}

/// Whether the key is the only rule on several columns.
fn has_key(uniques: &[Items<usize>]) -> bool
    ensures { result ≡ has_key uniques.now }
{
    match uniques {
        [places] => is_key(places.as_slice()),
        _ => false,
    }
}
