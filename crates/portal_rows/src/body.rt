//! Bodies of rows, which are the texts of JSON values.
ghost use Rattle.std.specs.Prelude.{◌≡◌, ◌≢◌, ◌↔◌, IsTrue, IfOk, IfSome, OnOk, Some, None, option_copied};
ghost use Rattle.portal_base.specs.Json.{json_text, json_reading, IsReadable};
ghost use Rattle.portal_base.specs.declared.json_value.Json.{Json};
ghost use Rattle.portal_rows.specs.JsonRow.{json_row};
ghost use Rattle.portal_rows.specs.Readings.{text_member};

use portal_base::json_value::{Json, JsonFault};
use portal_base::kinds::text_in;
use portal_base::text::Text;
use portal_keeper::row::{KeptRow, RowKind};
use std::alloc::{AllocError, Global};

/// The row of this kind and key whose body is the text of the value.
pub(crate) fn json_row(
    alloc: Global,
    kind: RowKind,
    key: Text,
    value: &Json,
) -> Result<KeptRow, AllocError>
    ensures { IfOk result (λ row. row ≡ json_row kind key value.now) }
{
    let body = value.text(alloc)?;
    Ok(KeptRow { kind, key, body })
}

/// The value of a body, if it is JSON. A value that can be read is the value of its own text.
pub(crate) fn value_of_body(alloc: Global, body: &Text) -> Result<Option<Json>, AllocError>
    ensures readable { IfOk result (λ found. IfSome found IsReadable) }
    ensures back { IfOk result (λ found. (value : Json) → IsReadable value → body.now ≡ json_text value →
        found ≡ Some value) }
{
    match Json::read(alloc, body.as_str().as_bytes()) {
        Ok(value) => Ok(Some(value)),
        Err(fault) => none_unless_memory(fault),
    }
}

/// No value for a text that is none, and the error if memory ran out.
fn none_unless_memory(fault: JsonFault) -> Result<Option<Json>, AllocError>
    ensures none { IfOk result (λ found. found ≡ None) }
    ensures fault { OnOk result (fault ≢ JsonFault.OutOfMemory) }
{
    match fault {
        JsonFault::OutOfMemory => Err(AllocError),
        JsonFault::NotJson | JsonFault::Fraction => Ok(None),
    }
}

/// Whether the body is the text of the value.
pub(crate) fn is_text_of(alloc: Global, body: &Text, value: &Json) -> Result<bool, AllocError>
    ensures { IfOk result (λ same. IsTrue same ↔ (body.now ≡ json_text value.now)) }
{
    let text = value.text(alloc)?;
    Ok(*body == text)
}

/// The text at a key of a dictionary.
pub(crate) fn text_member<'a>(value: &'a Json, key: &str) -> Option<&'a Text>
    ensures { option_copied result ≡ text_member key.now value.now }
{
    text_in(value.get(key)?)
}
