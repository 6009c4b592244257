//! The fields of a head: Content-Length, Transfer-Encoding and Authorization.
ghost use Rattle.std.specs.Prelude.{◌≡◌, if◌then◌else◌, Option, Some, None, IfOk};
ghost use Rattle.std.specs.Option.{option_copied};
ghost use Rattle.std.specs.List.{list_all};
ghost use Rattle.std.specs.Str.{is_utf8};
ghost use Rattle.portal_base.specs.Kinds.{digits_spelled};
ghost use Rattle.http_front.specs.Fields.{is_named, first_named, has_named, is_same_number, agrees, length_text};
ghost use Rattle.http_front.specs.Fields.{has_bad_length, length_given, token_of};

use crate::head::Field;
use portal_base::kinds::digits_spelled;
use portal_base::text::Text;
use std::alloc::{AllocError, Global};
use std::str;

const LENGTH: &str = "content-length";

// Whether the field has this name, in any case.
fn is_named(name: &str, field: &Field) -> bool
    ensures { result ≡ is_named name.now field.now }
{
    field.0.as_slice().eq_ignore_ascii_case(name.as_bytes())
}

// The value of the first field of this name.
fn first_named<'a>(name: &str, fields: &'a [Field]) -> Option<&'a [u8]>
    ensures { option_copied result ≡ first_named name.now fields.now }
{
    let field = fields.iter().find(|field| is_named(name, field))?;
    Some(field.1.as_slice())
}

/// Whether there is a field of this name.
pub fn has_named(name: &str, fields: &[Field]) -> bool
    ensures { result ≡ has_named name.now fields.now }
{
    fields.iter().any(|field| is_named(name, field))
}

#[tactic(auto, using(crate::proofs::FieldLemmas::not_digits))]
fn length_in(value: &[u8]) -> Option<u64>
    ensures { result ≡ digits_spelled value.now }
{
    match str::from_utf8(value) {
        Ok(text) => digits_spelled(text),
        Err(_) => None,
    }
}

fn is_same_number(first: Option<u64>, second: Option<u64>) -> bool
    ensures { result ≡ is_same_number first second }
{
    match (first, second) {
        (Some(first), Some(second)) => first == second,
        _ => false,
    }
}

fn agrees(first: &[u8], field: &Field) -> bool
    ensures { result ≡ agrees first.now field.now }
{
    !is_named(LENGTH, field) || is_same_number(length_in(first), length_in(field.1.as_slice()))
}

// The text of the first Content-Length.
fn length_text(fields: &[Field]) -> Option<&[u8]>
    ensures { option_copied result ≡ length_text fields.now }
{
    first_named(LENGTH, fields)
}

fn all_agree(first: &[u8], fields: &[Field]) -> bool
    ensures { result ≡ list_all (agrees first.now) fields.now }
{
    fields.iter().all(|field| agrees(first, field))
}

/// Whether a Content-Length isn't 1 to 18 digits, or two differ.
pub fn has_bad_length(fields: &[Field]) -> bool
    ensures { result ≡ has_bad_length fields.now }
{
    match length_text(fields) {
        Some(first) => !all_agree(first, fields),
        None => false,
    }
}

/// The length of the body, if a Content-Length gives it.
pub fn length_given(fields: &[Field]) -> Option<u64>
    ensures { result ≡ length_given fields.now }
{
    match length_text(fields) {
        Some(value) => length_in(value),
        None => None,
    }
}

/// The value of the first Authorization, if it is UTF-8.
pub fn token_of(alloc: Global, fields: &[Field]) -> Result<Option<Text>, AllocError>
    ensures { IfOk result (λ token. token ≡ token_of fields.now) }
{
    match first_named("authorization", fields) {
        Some(value) => text_of(alloc, value),
        None => Ok(None),
    }
}

#[tactic(auto, using(crate::proofs::FieldLemmas::is_text, crate::proofs::FieldLemmas::is_no_text))]
fn text_of(alloc: Global, value: &[u8]) -> Result<Option<Text>, AllocError>
    ensures { IfOk result (λ text. text ≡ (if is_utf8 value.now then Some value.now else None)) }
{
    match str::from_utf8(value) {
        Ok(text) => {
            let text = Text::from_str(alloc, text)?;
            Ok(Some(text))
        }
        Err(_) => Ok(None),
    }
}
