//! Keys of the rows of a table's rows.
ghost use Rattle.std.specs.Prelude.{◌≡◌, ◌≢◌, ◌↔◌, ◌<◌, ◌^◌, ◌++◌, IfOk, List, MatchOption, Some, ℕ};
ghost use Rattle.portal_rows.specs.Readings.{digits_from, with_digit};
ghost use Rattle.portal_rows.specs.TableRows.{row_key, twenty_digits};

use crate::tables::row_key;
use portal_base::text::Text;
use std::alloc::{AllocError, Global};

/// The count of the digits at the end of a key.
const DIGITS: usize = 20;

/// Reads the key of the row of a row, in the table of the resource with this id. The result is some `_id` exactly if the
/// key is that of the row with this `_id`.
pub fn read_row_key(alloc: Global, resource: &Text, key: &Text) -> Result<Option<u64>, AllocError>
    ensures { IfOk result (λ found. (id : ℕ) →
        (found ≡ Some id) ↔ ((id < 2 ^ 64) × (key.now ≡ row_key resource.now id))) }
{
    match last_number(key.as_bytes()) {
        Some(id) => id_if_written(alloc, resource, key, id),
        None => Ok(None),
    }
}

/// The `_id`, if the key is that of its row.
fn id_if_written(
    alloc: Global,
    resource: &Text,
    key: &Text,
    id: u64,
) -> Result<Option<u64>, AllocError>
    ensures { IfOk result (λ found. MatchOption found
        (key.now ≢ row_key resource.now id)
        (λ same. (same ≡ id) × (key.now ≡ row_key resource.now id))) }
{
    let written = row_key(alloc, resource, id)?;
    if *key == written {
        Ok(Some(id))
    } else {
        Ok(None)
    }
}

/// The number of the last twenty bytes, if they are the digits of a `u64`.
fn last_number(bytes: &[u8]) -> Option<u64>
    ensures { (front : List ℕ) (id : ℕ) → id < 2 ^ 64 → bytes.now ≡ front ++ twenty_digits id → result ≡ Some id }
{
    if bytes.len() < DIGITS {
        return None;
    }
    number_of(&bytes[bytes.len() - DIGITS..])
}

fn number_of(digits: &[u8]) -> Option<u64>
    ensures { result ≡ digits_from 0 digits.now }
{
    let mut number = 0;
    for digit in digits {
        number = with_digit(number, *digit)?;
    }
    Some(number)
}

/// The number with one more digit, if that is a decimal digit and the number still fits.
fn with_digit(number: u64, digit: u8) -> Option<u64>
    ensures { result ≡ with_digit number digit }
{
    match digit {
        b'0'..=b'9' => u64::try_from(u128::from(number) * 10 + u128::from(digit - b'0')).ok(),
        _ => None,
    }
}
