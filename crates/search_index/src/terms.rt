//! The terms of a dataset.
ghost use Rattle.std.specs.Prelude.{◌≡◌, ◌∷◌, ◌++◌, [], IfOk, OnOk, flat_map, map};
ghost use Rattle.search_index.specs.declared.field.Field.TheVariants.{Anywhere, ResFormat, Tags};
ghost use Rattle.search_index.specs.Terms.{anywhere_terms, own_terms, resource_terms, term, terms_of, value_terms, word_terms};

use crate::field::Field;
use packages::package::{Package, Resource};
use packages::tags::sort_and_dedup;
use portal_base::text::Text;
use portal_base::tokens::tokens;
use std::alloc::{AllocError, Global};

/// Adds the term of a value.
pub(crate) fn push_value(
    alloc: Global,
    terms: &mut Vec<Text>,
    field: Field,
    value: &Text,
) -> Result<(), AllocError>
    ensures { OnOk result (terms.new.items ≡ terms.old.items ++ term field value.now ∷ []) }
{
    terms.push(field.term(alloc, value.as_str())?)?;
    Ok(())
}

/// Adds the terms of a text's words.
pub(crate) fn push_words(
    alloc: Global,
    terms: &mut Vec<Text>,
    field: Field,
    text: &str,
) -> Result<(), AllocError>
    ensures { OnOk result (terms.new.items ≡ terms.old.items ++ word_terms field text.now) }
{
    for token in tokens(alloc, text)?.as_slice() {
        push_value(alloc, terms, field, token)?;
    }
    Ok(())
}

/// Adds the terms of the words of a resource's name, description and format.
fn push_resource(
    alloc: Global,
    terms: &mut Vec<Text>,
    resource: &Resource,
) -> Result<(), AllocError>
    ensures { OnOk result (terms.new.items ≡ terms.old.items ++ resource_terms resource.now) }
{
    push_words(alloc, terms, Field::Anywhere, resource.name.as_str())?;
    push_words(alloc, terms, Field::Anywhere, resource.description.as_str())?;
    push_words(alloc, terms, Field::Anywhere, resource.format.as_str())
}

/// Adds the terms of the words of all resources.
fn push_resources(
    alloc: Global,
    terms: &mut Vec<Text>,
    resources: &[Resource],
) -> Result<(), AllocError>
    ensures { OnOk result (terms.new.items ≡ terms.old.items ++ flat_map resource_terms resources.now) }
{
    for resource in resources {
        push_resource(alloc, terms, resource)?;
    }
    Ok(())
}

/// Adds the terms of the words of all tags.
fn push_tags(alloc: Global, terms: &mut Vec<Text>, tags: &[Text]) -> Result<(), AllocError>
    ensures { OnOk result (terms.new.items ≡ terms.old.items ++ flat_map (word_terms Anywhere) tags.now) }
{
    for tag in tags {
        push_words(alloc, terms, Field::Anywhere, tag.as_str())?;
    }
    Ok(())
}

/// Adds the terms of the words of the name, the title and the notes.
fn push_own_words(alloc: Global, terms: &mut Vec<Text>, dataset: &Package) -> Result<(), AllocError>
    ensures { OnOk result (terms.new.items ≡ terms.old.items ++ own_terms dataset.now) }
{
    push_words(alloc, terms, Field::Anywhere, dataset.name.as_str())?;
    push_words(alloc, terms, Field::Anywhere, dataset.title.as_str())?;
    push_words(alloc, terms, Field::Anywhere, dataset.notes.as_str())
}

/// Adds the terms of the words of all texts that are looked through.
fn push_anywhere(alloc: Global, terms: &mut Vec<Text>, dataset: &Package) -> Result<(), AllocError>
    ensures { OnOk result (terms.new.items ≡ terms.old.items ++ anywhere_terms dataset.now) }
{
    push_own_words(alloc, terms, dataset)?;
    push_tags(alloc, terms, dataset.tags.as_slice())?;
    push_resources(alloc, terms, dataset.resources.as_slice())
}

/// Adds the terms of the tags as values.
fn push_tag_values(alloc: Global, terms: &mut Vec<Text>, tags: &[Text]) -> Result<(), AllocError>
    ensures { OnOk result (terms.new.items ≡ terms.old.items ++ map (term Tags) tags.now) }
{
    for tag in tags {
        push_value(alloc, terms, Field::Tags, tag)?;
    }
    Ok(())
}

/// Adds the terms of the formats of all resources.
fn push_formats(
    alloc: Global,
    terms: &mut Vec<Text>,
    resources: &[Resource],
) -> Result<(), AllocError>
    ensures { OnOk result
        (terms.new.items ≡ terms.old.items ++ map (λ resource. term ResFormat resource.format) resources.now) }
{
    for resource in resources {
        push_value(alloc, terms, Field::ResFormat, &resource.format)?;
    }
    Ok(())
}

/// Adds the terms of the fields that are searched by values.
fn push_values(alloc: Global, terms: &mut Vec<Text>, dataset: &Package) -> Result<(), AllocError>
    ensures { OnOk result (terms.new.items ≡ terms.old.items ++ value_terms dataset.now) }
{
    push_value(alloc, terms, Field::Name, &dataset.name)?;
    push_value(alloc, terms, Field::Organization, &dataset.owner_org)?;
    push_tag_values(alloc, terms, dataset.tags.as_slice())?;
    push_formats(alloc, terms, dataset.resources.as_slice())
}

/// The terms of a dataset, each once, ordered by bytes.
pub(crate) fn terms_of(alloc: Global, dataset: &Package) -> Result<Vec<Text>, AllocError>
    ensures { IfOk result (λ terms. terms.items ≡ terms_of dataset.now) }
{
    let mut terms = Vec::new(alloc);
    push_anywhere(alloc, &mut terms, dataset)?;
    push_words(alloc, &mut terms, Field::Title, dataset.title.as_str())?;
    push_words(alloc, &mut terms, Field::Notes, dataset.notes.as_str())?;
    push_values(alloc, &mut terms, dataset)?;
    sort_and_dedup(&mut terms);
    Ok(terms)
}
