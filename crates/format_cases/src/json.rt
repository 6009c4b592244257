//! JSON texts as they are written once they are read, and members of dictionaries.
use cases::{Buffer, Case, invalid};
use portal_base::json_value::{Json, JsonFault};
use std::alloc::{AllocError, Global};
use std::io;

/// The JSON value of the bytes; `InvalidData` where they are none.
pub fn json_of(alloc: Global, bytes: &[u8]) -> io::Result<Json> {
    match Json::read(alloc, bytes) {
        Ok(value) => Ok(value),
        Err(_) => Err(invalid()),
    }
}

fn push_rewritten(alloc: Global, answer: &mut Buffer, bytes: &[u8]) -> Result<(), JsonFault> {
    let value = Json::read(alloc, bytes)?;
    answer.push(value.text(alloc)?.as_str());
    Ok(())
}

/// Bytes: the text that is written of the value that is read, or why none is read.
pub fn rewritten(alloc: Global, case: &Case, answer: &mut Buffer) -> io::Result<()> {
    if let Err(fault) = push_rewritten(alloc, answer, case.bytes(0)) {
        answer.push_value(&fault);
    }
    Ok(())
}

/// A value's text.
fn text_of(alloc: Global, value: Option<&Json>) -> Result<Buffer, AllocError> {
    let mut text = Buffer::new(alloc);
    match value {
        Some(value) => text.push(value.text(alloc)?.as_str()),
        None => text.push("none"),
    }
    Ok(text)
}

/// A JSON text and a key: the member of that key. It is the same whether it is found or taken out.
pub fn member(alloc: Global, case: &Case, answer: &mut Buffer) -> io::Result<()> {
    let key = case.text(1)?;
    let value = json_of(alloc, case.bytes(0))?;
    answer.push_buffer(&text_of(alloc, value.get(key))?);
    answer.push_difference(", but taken ", &text_of(alloc, value.take(key).as_ref())?);
    Ok(())
}
