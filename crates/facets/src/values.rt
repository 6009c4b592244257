//! The values of a dataset in a field, each once.
ghost use Rattle.std.specs.Prelude.{◌≡◌, ◌∷◌, ◌++◌, [], IfOk, OnOk, filter, map};
ghost use Rattle.packages.specs.Tags.{text_set};
ghost use Rattle.facets.specs.Counts.{is_value};
ghost use Rattle.facets.specs.Facets.{texts_in};
ghost use Rattle.facets.specs.Tally.{own_values};

use crate::field::FacetField;
use packages::package::{Package, Resource};
use packages::tags::sort_and_dedup;
use portal_base::copy::TryClone;
use portal_base::text::Text;
use std::alloc::{AllocError, Global};

/// Adds a copy of the text, unless it is empty.
pub(crate) fn push_value(
    alloc: Global,
    values: &mut Vec<Text>,
    text: &Text,
) -> Result<(), AllocError>
    ensures { OnOk result (values.new.items ≡ values.old.items ++ filter is_value (text.now ∷ [])) }
{
    if !text.is_empty() {
        values.push(text.try_clone(alloc)?)?;
    }
    Ok(())
}

/// Adds some texts, each once.
fn push_set(values: &mut Vec<Text>, texts: Vec<Text>) -> Result<(), AllocError>
    ensures { OnOk result (values.new.items ≡ values.old.items ++ text_set texts.items) }
{
    let mut texts = texts;
    sort_and_dedup(&mut texts);
    values.append(&mut texts)
}

/// Copies of those of the texts that aren't empty.
fn values_in(alloc: Global, texts: &[Text]) -> Result<Vec<Text>, AllocError>
    ensures { IfOk result (λ values. values.items ≡ filter is_value texts.now) }
{
    let mut values = Vec::new(alloc);
    for text in texts {
        push_value(alloc, &mut values, text)?;
    }
    Ok(values)
}

/// Copies of the resources' formats that aren't empty.
fn formats_in(alloc: Global, resources: &[Resource]) -> Result<Vec<Text>, AllocError>
    ensures { IfOk result (λ values. values.items ≡ filter is_value (map (λ r. r.format) resources.now)) }
{
    let mut values = Vec::new(alloc);
    for resource in resources {
        push_value(alloc, &mut values, &resource.format)?;
    }
    Ok(values)
}

/// Adds the values among some texts, each once.
pub(crate) fn push_own(
    alloc: Global,
    values: &mut Vec<Text>,
    texts: &[Text],
) -> Result<(), AllocError>
    ensures { OnOk result (values.new.items ≡ values.old.items ++ own_values texts.now) }
{
    push_set(values, values_in(alloc, texts)?)
}

/// Adds the formats of some resources, each once.
fn push_formats(
    alloc: Global,
    values: &mut Vec<Text>,
    resources: &[Resource],
) -> Result<(), AllocError>
    ensures { OnOk result
        (values.new.items ≡ values.old.items ++ own_values (map (λ r. r.format) resources.now)) }
{
    push_set(values, formats_in(alloc, resources)?)
}

/// Adds the values of a dataset in a field, each once.
pub(crate) fn push_values(
    alloc: Global,
    values: &mut Vec<Text>,
    dataset: &Package,
    field: FacetField,
) -> Result<(), AllocError>
    ensures { OnOk result (values.new.items ≡ values.old.items ++ own_values (texts_in field dataset.now)) }
{
    match field {
        FacetField::Organization => push_value(alloc, values, &dataset.owner_org),
        FacetField::Tags => push_own(alloc, values, dataset.tags.as_slice()),
        FacetField::ResFormat => push_formats(alloc, values, dataset.resources.as_slice()),
        FacetField::LicenseId => push_value(alloc, values, &dataset.license_id),
    }
}
