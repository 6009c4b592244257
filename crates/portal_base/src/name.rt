//! Names of datasets, organizations and users, which are parts of addresses.
ghost use Rattle.std.specs.Prelude.{◌≡◌, List, MatchOption, IfOk, IsOkUnless, Err, IsTrue};
ghost use Rattle.portal_base.specs.Name.{name_fault, has_name_length, has_name_characters, is_name_character};
ghost use Rattle.portal_base.specs.Name.{is_portal_address, is_id_character, has_id_characters, is_id_shaped};
ghost use Rattle.portal_base.specs.Name.{is_reserved, is_some_name};
ghost use Rattle.portal_base.specs.Name.{name_fault_message};

use crate::characters::count_of_characters;
use crate::text::Text;
use std::alloc::{AllocError, Global};
use std::marker::Model;
use thiserror::Error;

/// A name: at least two characters, each a lower-case ASCII letter, a digit, `-` or `_`. Reserved texts are no names. A
/// contract sees a name as the list of its bytes.
#[derive(Drop)]
pub struct Name {
    text: Text,
}

impl Model for Name {
    ghost use Rattle.std.specs.Prelude.{ℕ, List, ◌≡◌, true};

    ghost Value = { List ℕ };

    ghost use Rattle.portal_base.specs.Name.{is_some_name};

    ghost view = { λ name. name.text };

    ghost invariant = { λ name. is_some_name name.text ≡ true };
}

/// Why a text is no name. `OutOfMemory` says nothing about the text.
#[derive(Debug, Drop, Error)]
pub enum NameFault {
    /// The text has fewer than two characters, or more than the limit.
    #[error("a name has the wrong length")]
    Length,
    /// The text has a character that names may not have.
    #[error("a name has a character that is not allowed")]
    Character,
    /// The text is reserved for the portal, or has the form of an id.
    #[error("a name is reserved")]
    Reserved,
    #[error("out of memory")]
    OutOfMemory,
}

impl NameFault {
    /// The message for the caller, where names have at most `longest` characters. Only that of `Length` takes memory.
    pub fn message(&self, alloc: Global, longest: usize) -> Result<Text, AllocError>
        ensures { IfOk result (λ text. text ≡ name_fault_message longest self.now) }
    {
        let words = match self {
            NameFault::Length => {
                let words = format!(in alloc; "Name must have 2 to {longest} characters")?;
                return Ok(Text::from(words));
            }
            NameFault::Character => "Name may hold only lower-case ASCII letters, digits, - and _",
            NameFault::Reserved => "That name is reserved",
            NameFault::OutOfMemory => "Want of memory",
        };
        Ok(Text::from_static(words))
    }
}

impl Name {
    /// Reads a name of 2 to `longest` characters (Unicode scalar values). If the text has several faults, the error is
    /// the first in the order of `NameFault`.
    pub fn read(alloc: Global, text: &str, longest: usize) -> Result<Name, NameFault>
        ensures same { IfOk result (λ name. name ≡ text.now) }
        ensures fault { MatchOption (name_fault text.now longest)
            (IsOkUnless result NameFault.OutOfMemory)
            (λ fault. result ≡ Err fault) }
    {
        if let Some(fault) = name_fault(text, longest) {
            return Err(fault);
        }
        match Text::from_str(alloc, text) {
            Ok(text) => Ok(Name { text }),
            Err(_) => Err(NameFault::OutOfMemory),
        }
    }

    pub fn as_str(&self) -> &str
        ensures same { result.now ≡ self.now }
        ensures name { IsTrue (is_some_name self.now) }
    {
        self.text.as_str()
    }

    pub fn into_text(self) -> Text
        ensures same { result ≡ self }
        ensures name { IsTrue (is_some_name self) }
    {
        self.text
    }
}

/// The first fault of the text as a name of at most `longest` characters, if it has one.
pub fn name_fault(text: &str, longest: usize) -> Option<NameFault>
    ensures { result ≡ name_fault text.now longest }
{
    if !has_name_length(text, longest) {
        return Some(NameFault::Length);
    }
    if !has_name_characters(text) {
        return Some(NameFault::Character);
    }
    if is_reserved(text) {
        return Some(NameFault::Reserved);
    }
    None
}

/// Whether the text has from two to `longest` characters.
fn has_name_length(text: &str, longest: usize) -> bool
    ensures { result ≡ has_name_length text.now longest }
{
    let count = count_of_characters(text);
    2 <= count && count <= longest
}

/// Whether all characters of the text are allowed in names.
fn has_name_characters(text: &str) -> bool
    ensures { result ≡ has_name_characters text.now }
{
    text.chars().all(is_name_character)
}

/// Whether the character is allowed in names.
fn is_name_character(character: char) -> bool
    ensures { result ≡ is_name_character character }
{
    matches!(character, 'a'..='z' | '0'..='9' | '-' | '_')
}

/// Whether the text is reserved for the portal, or has the form of an id.
fn is_reserved(text: &str) -> bool
    ensures { result ≡ is_reserved text.now }
{
    is_portal_address(text) || text.starts_with("hv-") || is_id_shaped(text.as_bytes())
}

/// Whether the text is an address of the portal.
fn is_portal_address(text: &str) -> bool
    ensures { result ≡ is_portal_address text.now }
{
    text == "new" || text == "edit" || text == "search"
}

/// Whether the bytes have the form of an id.
fn is_id_shaped(bytes: &[u8]) -> bool
    ensures { result ≡ is_id_shaped bytes.now }
{
    bytes.len() == 36 && has_id_characters(bytes)
}

/// Whether an id may have each byte at its position.
fn has_id_characters(bytes: &[u8]) -> bool
    ensures { result ≡ has_id_characters bytes.now }
{
    bytes
        .iter()
        .enumerate()
        .all(|(position, byte)| is_id_character(position, *byte))
}

/// Whether an id may have this byte at this position, counted from 0.
fn is_id_character(position: usize, byte: u8) -> bool
    ensures { result ≡ is_id_character position byte }
{
    if position == 8 || position == 13 || position == 18 || position == 23 {
        byte == b'-'
    } else {
        matches!(byte, b'0'..=b'9' | b'a'..=b'f')
    }
}
