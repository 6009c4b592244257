//! Bodies: the dataset or the resource that each describes, or the errors of its keys.
ghost use Rattle.std.specs.Prelude.{IfNone, IsTrue};

use crate::dataset_text::{push_dataset, push_errors, push_resource};
use crate::json::json_of;
use crate::old_dataset::dataset_of;
use crate::short_text::in_full;
use cases::{Buffer, Case};
use packages::build::{BuildFault, build};
use packages::package::Package;
use packages::resources::resource_of;
use portal_base::json_value::Json;
use std::alloc::Global;
use std::io;

/// The body of a column, in which texts are in short.
fn body_of(alloc: Global, text: &str) -> io::Result<Json> {
    let full = in_full(alloc, text)?;
    json_of(alloc, full.bytes()?)
}

/// Writes the errors of a body, or that there is no memory.
fn push_fault(answer: &mut Buffer, fault: &BuildFault) {
    match fault {
        BuildFault::Fields(errors) => push_errors(answer, errors.as_slice()),
        BuildFault::OutOfMemory => answer.push("out of memory"),
    }
}

/// Writes the dataset that a call builds, or the errors of its body.
fn push_built(alloc: Global, answer: &mut Buffer, body: &Json, old: Option<&Package>, whole: bool)
    requires { IfNone old (IsTrue whole) }
{
    match build(alloc, body, old, whole) {
        Ok(dataset) => push_dataset(answer, &dataset),
        Err(fault) => push_fault(answer, &fault),
    }
}

/// `create`, or `update` or `patch` with the name of a dataset, and the body: the dataset that is built, or the error
/// of each faulty key.
pub fn dataset(alloc: Global, case: &Case, answer: &mut Buffer) -> io::Result<()> {
    let body = body_of(alloc, case.text(1)?)?;
    match case.text(0)?.split_once(' ') {
        None => push_built(alloc, answer, &body, None, true),
        Some((action, name)) => {
            let old = dataset_of(alloc, name)?;
            push_built(alloc, answer, &body, Some(&old), action == "update");
        }
    }
    Ok(())
}

/// A resource's number, and its body: the resource, or the error of each faulty key.
pub fn resource(alloc: Global, case: &Case, answer: &mut Buffer) -> io::Result<()> {
    let body = body_of(alloc, case.text(1)?)?;
    match resource_of(alloc, &body, case.parsed(0)?) {
        Ok(resource) => push_resource(answer, &resource),
        Err(fault) => push_fault(answer, &fault),
    }
    Ok(())
}
