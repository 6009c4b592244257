//! The names of fields.
ghost use Rattle.std.specs.Prelude.{◌≡◌, ◌==◌};
ghost use Rattle.std.specs.List.{list_any};
ghost use Rattle.std.specs.Str.{chars};
ghost use Rattle.lexical_forms.specs.FieldName.{is_field_name, begins_with_space, ends_with_space};
ghost use Rattle.lexical_forms.specs.FieldName.{begins_with_underscore};

use crate::split::{split_first, split_last};

/// The maximum length of a field name in bytes.
const MAX_FIELD_NAME_BYTES: usize = 63;

/// Whether the text is a valid field name: it isn't empty, neither starts nor ends with white space, doesn't start with
/// `_`, contains no double quote, and has at most 63 bytes.
pub fn is_field_name(name: &str) -> bool
    ensures { result ≡ is_field_name name.now }
{
    !name.is_empty()
        && name.len() <= MAX_FIELD_NAME_BYTES
        && !begins_with_space(name)
        && !ends_with_space(name)
        && !begins_with_underscore(name.as_bytes())
        && !has_quote(name.as_bytes())
}

fn begins_with_space(name: &str) -> bool
    ensures { result ≡ begins_with_space (chars name.now) }
{
    match split_first(name) {
        Some((character, _)) => character.is_whitespace(),
        None => false,
    }
}

fn ends_with_space(name: &str) -> bool
    ensures { result ≡ ends_with_space (chars name.now) }
{
    match split_last(name) {
        Some((_, character)) => character.is_whitespace(),
        None => false,
    }
}

fn begins_with_underscore(name: &[u8]) -> bool
    ensures { result ≡ begins_with_underscore name.now }
{
    match name {
        [first, ..] => *first == b'_',
        [] => false,
    }
}

fn has_quote(name: &[u8]) -> bool
    ensures { result ≡ list_any (λ c. c == 34) name.now }
{
    name.iter().any(|byte| *byte == b'"')
}
