//! Descriptors: the one that is written of the schema that is read, and the first fault.
use cases::{Buffer, Case};
use std::alloc::{AllocError, Global};
use std::io;
use table_schema::{Schema, SchemaFault};

/// The schema of the one field that is so described.
pub fn schema_of_field(alloc: Global, field: &str) -> Result<Schema, SchemaFault> {
    let mut descriptor = Buffer::new(alloc);
    descriptor.push_all(&["{\"fields\":[", field, "]}"]);
    Schema::read(alloc, descriptor.bytes()?)
}

/// Writes the descriptor of the schema that is read, or the first fault.
fn push_descriptor(
    alloc: Global,
    answer: &mut Buffer,
    descriptor: &[u8],
) -> Result<(), AllocError> {
    match Schema::read(alloc, descriptor) {
        Ok(schema) => {
            let value = schema.to_json(alloc)?;
            answer.push(value.text(alloc)?.as_str());
        }
        Err(fault) => answer.push_value(&fault),
    }
    Ok(())
}

/// A descriptor: the one that is written of its schema, or its first fault. The one that is written is that of its own
/// schema too.
pub fn rewritten(alloc: Global, case: &Case, answer: &mut Buffer) -> io::Result<()> {
    push_descriptor(alloc, answer, case.bytes(0))?;
    if answer.bytes()?.starts_with(b"{") {
        let mut second = Buffer::new(alloc);
        push_descriptor(alloc, &mut second, answer.bytes()?)?;
        answer.push_difference(", but the second time ", &second);
    }
    Ok(())
}

/// The descriptor of that number of fields, whose names are their indexes.
fn descriptor_of(alloc: Global, count: u32) -> Buffer {
    let mut text = Buffer::new(alloc);
    text.push("{\"fields\":[");
    for index in 0..count {
        text.push(if index == 0 {
            "{\"name\":\""
        } else {
            ",{\"name\":\""
        });
        text.push_value(&index);
        text.push("\"}");
    }
    text.push("]}");
    text
}

/// A number of fields: how many fields the schema of such a descriptor has, or the fault.
pub fn count_of_fields(alloc: Global, case: &Case, answer: &mut Buffer) -> io::Result<()> {
    let descriptor = descriptor_of(alloc, case.parsed(0)?);
    match Schema::read(alloc, descriptor.bytes()?) {
        Ok(schema) => {
            answer.push_value(&schema.fields().len());
            answer.push(" fields");
        }
        Err(fault) => answer.push_value(&fault),
    }
    Ok(())
}
