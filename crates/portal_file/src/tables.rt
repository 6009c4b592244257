//! The values of a table's keys, by their kinds.
ghost use Rattle.std.specs.Prelude.{◌≡◌, option_map};
ghost use Rattle.std.specs.Option.{option_copied};
ghost use Rattle.portal_file.specs.Tables.{optional_text, text_at, text_or, truth_at};
ghost use Rattle.toml.specs.Data.{get_member};
ghost use Rattle.toml.specs.View.{table_view, view};

use toml::{Table, Value};

/// The value at a key.
pub fn value_at<'a>(table: &'a Table, key: &str) -> Option<&'a Value>
    ensures { option_map (λ value. view value.now) result ≡ get_member key.now (table_view table.now) }
{
    table.get(key)
}

/// The text at a required key.
pub fn text_at<'a>(table: &'a Table, key: &str) -> Option<&'a str>
    ensures { option_copied result ≡ text_at key.now (table_view table.now) }
{
    match value_at(table, key) {
        Some(value) => value.as_str(),
        None => None,
    }
}

/// The text at a key, or the default if the key is absent.
pub fn text_or<'a>(table: &'a Table, key: &str, default: &'a str) -> Option<&'a str>
    ensures { option_copied result ≡ text_or key.now default.now (table_view table.now) }
{
    match value_at(table, key) {
        Some(value) => value.as_str(),
        None => Some(default),
    }
}

/// The text at an optional key.
pub fn optional_text<'a>(table: &'a Table, key: &str) -> Option<Option<&'a str>>
    ensures { option_map option_copied result ≡ optional_text key.now (table_view table.now) }
{
    match value_at(table, key) {
        Some(value) => match value.as_str() {
            Some(text) => Some(Some(text)),
            None => None,
        },
        None => Some(None),
    }
}

/// The truth value at a key, or false if the key is absent.
pub fn truth_at(table: &Table, key: &str) -> Option<bool>
    ensures { result ≡ truth_at key.now (table_view table.now) }
{
    match value_at(table, key) {
        Some(value) => value.as_bool(),
        None => Some(false),
    }
}
