//! The fields whose values are counted.
ghost use Rattle.std.specs.Prelude.{◌≡◌};
ghost use Rattle.facets.specs.Request.{field_named};

/// A field of a dataset by which a search shows counts.
#[derive(Clone, Copy, PartialEq, Eq)]
pub enum FacetField {
    /// The name of the organization that owns the dataset.
    Organization,
    Tags,
    /// The formats of the resources.
    ResFormat,
    LicenseId,
}

impl FacetField {
    /// The field with this name, if it is one whose values are counted.
    pub fn named(name: &str) -> Option<FacetField>
        ensures { result ≡ field_named name.now }
    {
        match name {
            "organization" => Some(FacetField::Organization),
            "tags" => Some(FacetField::Tags),
            "res_format" => Some(FacetField::ResFormat),
            "license_id" => Some(FacetField::LicenseId),
            _ => None,
        }
    }
}
