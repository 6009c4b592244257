//! Numbers that texts spell.
ghost use Rattle.std.specs.Prelude.{◌≡◌, drop};
ghost use Rattle.harvest_rows.specs.Readings.{digits_from, number_spelled, with_digit};

/// The number that the bytes spell, or zero.
#[tactic(auto, unfolding(crate::specs::Readings::number_spelled))]
pub(crate) fn number_spelled(text: &[u8]) -> u64
    ensures { result ≡ number_spelled text.now }
{
    digits_value(text).unwrap_or(0)
}

/// The number of these digits, if they are those of a `u64`.
fn digits_value(digits: &[u8]) -> Option<u64>
    ensures { result ≡ digits_from 0 digits.now }
{
    let mut number = 0;
    for digit in digits {
        number = with_digit(number, *digit)?;
    }
    Some(number)
}

/// The number with one more digit, if that is a decimal digit and the number still fits.
fn with_digit(number: u64, digit: u8) -> Option<u64>
    ensures { result ≡ with_digit number digit }
{
    match digit {
        b'0'..=b'9' => u64::try_from(u128::from(number) * 10 + u128::from(digit - b'0')).ok(),
        _ => None,
    }
}

/// The bytes from an index on.
pub(crate) fn bytes_from(bytes: &[u8], start: usize) -> &[u8]
    ensures { result.now ≡ drop start bytes.now }
{
    if start < bytes.len() {
        &bytes[start..]
    } else {
        &[]
    }
}
