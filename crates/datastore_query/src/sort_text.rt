//! The parts of a sort's text. Commas separate the parts. Each part is a name, with or without a direction after it.
ghost use Rattle.std.specs.Prelude.{◌≡◌, ◌<◌, ◌+◌, false, None, Some, length, take, drop, slice_index};
ghost use Rattle.std.specs.Prelude.{IfSome, IfNone, IsUtf8};
ghost use Rattle.datastore_query.specs.SortText.{comma_from, is_between_quotes, is_unclosed};
ghost use Rattle.datastore_query.specs.SortText.{name_of, quoted_after};

// Whether the text after this byte is between double quotes.
fn quoted_after(quoted: bool, byte: u8) -> bool
    ensures { result ≡ quoted_after quoted byte }
{
    if byte == b'"' { !quoted } else { quoted }
}

// The position of the first comma outside double quotes.
fn comma_in(text: &[u8]) -> Option<usize>
    ensures position { result ≡ comma_from false text.now }
    ensures within { IfSome result (λ position. position < length text.now) }
    ensures comma { IfSome result (λ position. slice_index text.now position ≡ 44) }
{
    let mut quoted = false;
    for (position, byte) in text.iter().enumerate() {
        if *byte == b',' && !quoted {
            return Some(position);
        }
        quoted = quoted_after(quoted, *byte);
    }
    None
}

/// The text before the first comma outside double quotes, and the text after it.
pub(crate) fn split_at_comma(text: &str) -> Option<(&str, &str)>
    ensures none { IfNone result (comma_from false text.now ≡ None) }
    ensures some { IfSome result (λ parts. comma_from false text.now ≡ Some (length parts.0.now)) }
    ensures front { IfSome result (λ parts. parts.0.now ≡ take (length parts.0.now) text.now) }
    ensures after { IfSome result (λ parts. parts.1.now ≡ drop (length parts.0.now + 1) text.now) }
    ensures shorter { IfSome result (λ parts. length parts.1.now < length text.now) }
    ensures utf8 { IfSome result (λ parts. IsUtf8 parts.1.now) }
{
    let position = comma_in(text.as_bytes())?;
    Some((&text[..position], &text[position + 1..]))
}

/// Whether the text leaves a double quote open.
pub(crate) fn is_unclosed(text: &[u8]) -> bool
    ensures { result ≡ is_unclosed text.now }
{
    let mut quoted = false;
    for byte in text {
        quoted = quoted_after(quoted, *byte);
    }
    quoted
}

// Whether the text begins and ends with a double quote and has no other.
fn is_between_quotes(text: &[u8]) -> bool
    ensures { result ≡ is_between_quotes text.now }
{
    match text {
        [b'"', inner @ .., b'"'] => !inner.contains(&b'"'),
        _ => false,
    }
}

/// The name, without the double quotes that it may have around it.
pub(crate) fn name_of(text: &str) -> &str
    ensures { result.now ≡ name_of text.now }
{
    if is_between_quotes(text.as_bytes()) {
        &text[1..text.len() - 1]
    } else {
        text
    }
}
