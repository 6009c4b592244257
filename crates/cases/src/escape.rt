//! Escapes, by which a case file has bytes that don't show.
ghost use Rattle.std.specs.Prelude.{◌≡◌};
ghost use Rattle.cases.specs.Escape.{byte_of_letter, value_of_digit};

use std::alloc::{AllocError, Global};
use std::fmt::Write;

/// Which part of an escape the next byte is.
#[derive(Clone, Copy)]
enum Part {
    Outside,
    Letter,
    High,
    Low(u8),
}

/// Why a column can't be read.
#[derive(Drop)]
pub enum EscapeFault {
    /// The text after a `\` is no escape.
    NotEscape,
    OutOfMemory,
}

/// The byte that the letter after `\` stands for.
fn byte_of(letter: u8) -> Option<u8>
    ensures { result ≡ byte_of_letter letter }
{
    match letter {
        b'n' => Some(b'\n'),
        b'r' => Some(b'\r'),
        b't' => Some(b'\t'),
        b's' => Some(b' '),
        b'\\' => Some(b'\\'),
        _ => None,
    }
}

/// The value of a hexadecimal digit.
fn value_of(digit: u8) -> Option<u8>
    ensures { result ≡ value_of_digit digit }
{
    match digit {
        b'0'..=b'9' => Some(digit - b'0'),
        b'A'..=b'F' => Some(digit - b'A' + 10),
        b'a'..=b'f' => Some(digit - b'a' + 10),
        _ => None,
    }
}

/// The part after the byte, and the byte that is complete with it, if one is. None where no escape goes on so.
fn step(part: Part, byte: u8) -> Option<(Part, Option<u8>)> {
    match part {
        Part::Outside if byte == b'\\' => Some((Part::Letter, None)),
        Part::Outside => Some((Part::Outside, Some(byte))),
        Part::Letter if byte == b'x' => Some((Part::High, None)),
        Part::Letter => Some((Part::Outside, Some(byte_of(byte)?))),
        Part::High => Some((Part::Low(value_of(byte)?), None)),
        Part::Low(high) => {
            let low = value_of(byte)?;
            Some((Part::Outside, Some(high.wrapping_mul(16).wrapping_add(low))))
        }
    }
}

/// The bytes that the text stands for.
pub fn unescaped(alloc: Global, text: &[u8]) -> Result<Vec<u8>, EscapeFault> {
    let mut bytes = Vec::new(alloc);
    let mut part = Part::Outside;
    for byte in text {
        let Some((next, complete)) = step(part, *byte) else {
            return Err(EscapeFault::NotEscape);
        };
        part = next;
        if let Some(byte) = complete
            && bytes.push(byte).is_err()
        {
            return Err(EscapeFault::OutOfMemory);
        }
    }
    match part {
        Part::Outside => Ok(bytes),
        _ => Err(EscapeFault::NotEscape),
    }
}

/// Adds the character, by an escape where it doesn't show or divides columns.
fn push_escaped(text: &mut String, character: char) -> Result<(), AllocError> {
    match character {
        '\n' => text.push_str("\\n"),
        '\r' => text.push_str("\\r"),
        '\t' => text.push_str("\\t"),
        '\\' => text.push_str("\\\\"),
        '|' => text.push_str("\\x7C"),
        '\0'..='\x1F' | '\x7F' => {
            let code = character as u32;
            write!(text, "\\x{code:02X}")
        }
        _ => text.push(character),
    }
}

/// The bytes as a case file has them: as text where they are UTF-8, and else each that isn't ASCII by its number.
pub fn escaped(alloc: Global, bytes: &[u8]) -> Result<String, AllocError> {
    let mut text = String::new(alloc);
    match std::str::from_utf8(bytes) {
        Ok(characters) => {
            for character in characters.chars() {
                push_escaped(&mut text, character)?;
            }
        }
        Err(_) => {
            for byte in bytes {
                if byte.is_ascii() {
                    push_escaped(&mut text, char::from(*byte))?;
                } else {
                    write!(text, "\\x{byte:02X}")?;
                }
            }
        }
    }
    Ok(text)
}
