//! JSON values.
ghost use Rattle.std.specs.Prelude.{find, bytes_eq, ◌≡◌, ◌⊎◌, Ok, Err, IfOk, IfErr};
ghost use Rattle.std.specs.Option.{option_copied};
ghost use Rattle.portal_base.specs.Json.{json_text, json_reading, member_of, first_of, IsReadable};

mod copy;
mod read;
mod write;

use crate::seq::Seq;
use crate::text::Text;
use read::value_of;
use serde_json::Value;
use std::alloc::{AllocError, Global};
use thiserror::Error;

/// A JSON value (RFC 8259) whose numbers are whole.
#[derive(Drop)]
pub enum Json {
    Null,
    Truth(bool),
    Whole(i128),
    Text(Text),
    List(Seq<Json>),
    Map(Seq<(Text, Json)>),
}

/// Why bytes cannot be read as a `Json`.
#[derive(Debug, Drop, Error, Clone, Copy, PartialEq, Eq)]
pub enum JsonFault {
    /// The bytes are not the UTF-8 text of one JSON value of at most 127 levels.
    #[error("not JSON")]
    NotJson,
    /// A number is neither an `i64` nor a `u64`.
    #[error("a number with a fraction, or of more than 64 bits")]
    Fraction,
    #[error("out of memory")]
    OutOfMemory,
}

impl From<AllocError> for JsonFault {
    ghost use Rattle.std.specs.Prelude.{◌≡◌};
    ghost use Rattle.portal_base.specs.declared.json_value.JsonFault.TheVariants.{OutOfMemory};

    ghost from_gives = { λ _ fault. fault ≡ OutOfMemory };

    fn from(_refused: AllocError) -> JsonFault {
        JsonFault::OutOfMemory
    }
}

impl Json {
    /// Reads a JSON text (RFC 8259) in UTF-8. If an object repeats a key, its last value counts. The keys of the result
    /// ascend by bytes.
    pub fn read(alloc: Global, bytes: &[u8]) -> Result<Json, JsonFault>
        ensures value { IfOk result (λ j. json_reading bytes.now ≡ Ok j) }
        ensures fault { IfErr result (λ fault. (fault ≡ JsonFault.OutOfMemory)
            ⊎ (json_reading bytes.now ≡ Err fault)) }
        ensures readable { IfOk result IsReadable }
    {
        match Value::from_slice(alloc, bytes) {
            Ok(value) => value_of(alloc, &value),
            Err(error) if error.is_memory() => Err(JsonFault::OutOfMemory),
            Err(_) => Err(JsonFault::NotJson),
        }
    }

    /// The JSON text without white space (RFC 8259, section 2). A map keeps the order of its entries, and a number is
    /// its decimal digits. The only error is `AllocError`, if memory runs out.
    pub fn text(&self, alloc: Global) -> Result<Text, AllocError>
        ensures text { IfOk result (λ t. t ≡ json_text self.now) }
        ensures reads_back { IfOk result
            (λ t. IsReadable self.now → json_reading t ≡ Ok self.now) }
    {
        match serde_json::to_string(alloc, self) {
            Ok(string) => Ok(Text::from(string)),
            Err(_) => Err(AllocError),
        }
    }

    /// Moves out the value that `get` returns, and drops the rest.
    pub fn take(self, key: &str) -> Option<Json>
        ensures { result ≡ member_of key.now self }
    {
        match self {
            Json::Map(entries) => take_value(entries, key),
            _ => None,
        }
    }

    /// The value of the first entry with that key, if this is a map that has one.
    pub fn get(&self, key: &str) -> Option<&Json>
        ensures { option_copied result ≡ member_of key.now self.now }
    {
        match self {
            Json::Map(entries) => first_value(entries.as_slice(), key),
            _ => None,
        }
    }
}

// The value of the first entry with that key.
fn first_value<'a>(entries: &'a [(Text, Json)], key: &str) -> Option<&'a Json>
    ensures { option_copied result ≡ first_of key.now entries.now }
{
    for entry in entries {
        if key == entry.0.as_str() {
            return Some(&entry.1);
        }
    }
    None
}

fn take_entry(entries: Seq<(Text, Json)>, key: &str) -> Option<(Text, Json)>
    ensures { result ≡ find (λ e. bytes_eq key.now e.0) entries }
{
    entries
        .into_vec()
        .into_iter()
        .find(|entry| key == entry.0.as_str())
}

fn take_value(entries: Seq<(Text, Json)>, key: &str) -> Option<Json>
    ensures { result ≡ first_of key.now entries }
{
    match take_entry(entries, key) {
        Some((_key, value)) => Some(value),
        None => None,
    }
}
