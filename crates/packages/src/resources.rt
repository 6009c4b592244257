//! A single resource: the values of its body, and the body's errors.
ghost use Rattle.std.specs.Prelude.{◌≡◌, [], IfOk, IfErr, OnOk};
ghost use Rattle.portal_base.specs.KeyErrors.{with_rule_errors};
ghost use Rattle.packages.specs.Body.{IsRefusal};
ghost use Rattle.packages.specs.Resources.{resource_checks, resource_errors, resource_for};
ghost use Rattle.packages.specs.Reading.{with_texts_read};

use crate::build::{BuildFault, unless_error};
use crate::package::{LONGEST_DESCRIPTION, LONGEST_TEXT, Resource};
use crate::texts::read_text;
use portal_base::json_value::Json;
use portal_base::key_errors::KeyErrors;
use std::alloc::{AllocError, Global};

/// What is read of a resource's body: the resource, in which a faulty key counts as absent, and the errors of the keys.
#[derive(Drop)]
pub struct ResourceReading {
    pub resource: Resource,
    pub errors: KeyErrors,
}

/// Reads each key of a resource's body once: into the resource with this number, or to its error. The texts are empty by
/// default.
pub fn read_resource(alloc: Global, body: &Json, number: u32) -> Result<ResourceReading, AllocError>
    ensures errors { IfOk result (λ read. read.errors ≡ resource_errors body.now) }
    ensures built { IfOk result (λ read. read.errors ≡ [] → read.resource ≡ resource_for number body.now) }
{
    let mut errors = KeyErrors::new(alloc);
    let mut resource = Resource::blank(alloc, number);
    read_texts(alloc, &mut errors, body, &mut resource)?;
    Ok(ResourceReading { resource, errors })
}

/// Reads the texts of the body in their order into the resource, and adds their errors.
fn read_texts(
    alloc: Global,
    faults: &mut KeyErrors,
    body: &Json,
    resource: &mut Resource,
) -> Result<(), AllocError>
    ensures errors { OnOk result (faults.new ≡ with_rule_errors (resource_checks body.now) faults.old) }
    ensures resource { OnOk result (resource.new ≡ with_texts_read body.now resource.old) }
{
    read_text(
        alloc,
        faults,
        body,
        "name",
        LONGEST_TEXT,
        &mut resource.name,
    )?;
    read_text(alloc, faults, body, "url", LONGEST_TEXT, &mut resource.url)?;
    read_text(
        alloc,
        faults,
        body,
        "format",
        LONGEST_TEXT,
        &mut resource.format,
    )?;
    read_text(
        alloc,
        faults,
        body,
        "mimetype",
        LONGEST_TEXT,
        &mut resource.mimetype,
    )?;
    read_text(
        alloc,
        faults,
        body,
        "description",
        LONGEST_DESCRIPTION,
        &mut resource.description,
    )
}

/// The resource with this number that a body describes, or the body's faulty keys.
pub fn resource_of(alloc: Global, body: &Json, number: u32) -> Result<Resource, BuildFault>
    ensures built { IfOk result (λ resource. resource ≡ resource_for number body.now) }
    ensures faultless { OnOk result (resource_errors body.now ≡ []) }
    ensures errors { IfErr result (IsRefusal (resource_errors body.now)) }
{
    let read = read_resource(alloc, body, number)?;
    unless_error(read.errors)?;
    Ok(read.resource)
}
