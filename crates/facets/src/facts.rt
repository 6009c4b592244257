//! The facts of a dataset that facets read.
ghost use Rattle.std.specs.Prelude.{◌≡◌, ◌++◌, [], IfOk, OnOk, map};
ghost use Rattle.std.specs.Str.{bytes_eq};
ghost use Rattle.portal_base.specs.Kinds.{is_among};
ghost use Rattle.visibility.specs.declared.class.Class.TheVariants.{Public};
ghost use Rattle.facets.specs.Counts.{has_text};
ghost use Rattle.facets.specs.Facts.{facts_of, texts_at, same_class};
ghost use Rattle.facets.specs.Tally.{own_values};

use crate::field::FacetField;
use crate::values::{push_own, push_value};
use packages::package::{Package, Resource};
use portal_base::copy::TryClone;
use portal_base::seq::Seq;
use portal_base::text::Text;
use std::alloc::{AllocError, Global};
use visibility::class::{Class, class_of};

/// The class of a dataset, and its texts in each field.
pub struct Facts {
    pub(crate) class: Class,
    pub(crate) organization: Text,
    pub(crate) tags: Seq<Text>,
    /// The formats of its resources, in their order.
    pub(crate) formats: Seq<Text>,
    pub(crate) license_id: Text,
}

// Written by hand, so that the proof of a function that drops facts has one step and not a case for each variant.
impl Drop for Facts {
    fn drop(self) {
        let Self {
            class: _class,
            organization: _organization,
            tags: _tags,
            formats: _formats,
            license_id: _license_id,
        } = self;
    }
}

/// The formats of some resources, in their order.
fn formats_of(alloc: Global, resources: &[Resource]) -> Result<Seq<Text>, AllocError>
    ensures { IfOk result (λ formats. formats ≡ map (λ r. r.format) resources.now) }
{
    let mut formats = Vec::with_capacity(alloc, resources.len())?;
    for resource in resources {
        formats.push(resource.format.try_clone(alloc)?)?;
    }
    Ok(Seq::from(formats))
}

/// Whether one of the texts is this one.
fn has(texts: &[Text], text: &str) -> bool
    ensures { result ≡ is_among texts.now text.now }
{
    texts.iter().any(|other| other.as_str() == text)
}

/// Whether two classes are equal.
pub(crate) fn is_same_class(class: &Class, other: &Class) -> bool
    ensures { result ≡ same_class class.now other.now }
{
    match class {
        Class::Public => matches!(other, Class::Public),
        Class::Inside(org) => matches!(other, Class::Inside(other_org) if org == other_org),
        Class::Editing(org) => matches!(other, Class::Editing(other_org) if org == other_org),
    }
}

impl Facts {
    /// The facts of a dataset without texts. It takes no memory.
    fn blank(alloc: Global) -> Facts
        ensures { result ≡
            record { class = Public; organization = []; tags = []; formats = []; license_id = [] } }
    {
        Facts {
            class: Class::Public,
            organization: Text::new(alloc),
            tags: Seq::new(alloc),
            formats: Seq::new(alloc),
            license_id: Text::new(alloc),
        }
    }

    /// Copies the organization and the license.
    fn copy_texts(&mut self, alloc: Global, dataset: &Package) -> Result<(), AllocError>
        ensures { OnOk result (self.new ≡ record self.old {
          organization = dataset.now.owner_org;
          license_id = dataset.now.license_id;
        }) }
    {
        self.organization = dataset.owner_org.try_clone(alloc)?;
        self.license_id = dataset.license_id.try_clone(alloc)?;
        Ok(())
    }

    /// Copies the tags and the formats.
    fn copy_lists(&mut self, alloc: Global, dataset: &Package) -> Result<(), AllocError>
        ensures { OnOk result (self.new ≡ record self.old {
          tags = dataset.now.tags;
          formats = map (λ r. r.format) dataset.now.resources;
        }) }
    {
        self.tags = dataset.tags.try_clone(alloc)?;
        self.formats = formats_of(alloc, dataset.resources.as_slice())?;
        Ok(())
    }

    pub(crate) fn of(alloc: Global, dataset: &Package) -> Result<Facts, AllocError>
        ensures { IfOk result (λ facts. facts ≡ facts_of dataset.now) }
    {
        let mut facts = Facts::blank(alloc);
        facts.copy_texts(alloc, dataset)?;
        facts.copy_lists(alloc, dataset)?;
        facts.class = class_of(alloc, dataset)?;
        Ok(facts)
    }

    /// Whether one of the texts in a field is this one.
    fn has(&self, field: FacetField, text: &str) -> bool
        ensures { result ≡ is_among (texts_at field self.now) text.now }
    {
        match field {
            FacetField::Organization => self.organization.as_str() == text,
            FacetField::Tags => has(self.tags.as_slice(), text),
            FacetField::ResFormat => has(self.formats.as_slice(), text),
            FacetField::LicenseId => self.license_id.as_str() == text,
        }
    }

    /// Whether the dataset has the value, which isn't empty.
    pub(crate) fn has_value(&self, field: FacetField, value: &str) -> bool
        ensures { result ≡ has_text (texts_at field) value.now self.now }
    {
        !value.is_empty() && self.has(field, value)
    }

    /// Adds the values in a field, each once.
    pub(crate) fn push_values(
        &self,
        alloc: Global,
        values: &mut Vec<Text>,
        field: FacetField,
    ) -> Result<(), AllocError>
        ensures { OnOk result (values.new.items ≡ values.old.items ++ own_values (texts_at field self.now)) }
    {
        match field {
            FacetField::Organization => push_value(alloc, values, &self.organization),
            FacetField::Tags => push_own(alloc, values, self.tags.as_slice()),
            FacetField::ResFormat => push_own(alloc, values, self.formats.as_slice()),
            FacetField::LicenseId => push_value(alloc, values, &self.license_id),
        }
    }
}
