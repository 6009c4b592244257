//! The sort of a search: the fields that datasets are compared by, and how its text is read.
ghost use Rattle.std.specs.Prelude.{◌≡◌, IfOk, OnOk, map, option_map};
ghost use Rattle.dataset_search.specs.Sort.{default_sort, field_named, has_field, is_same_field, key_reading, sort_reading};
ghost use Rattle.dataset_search.specs.Sort.{all_keys, deciding, with_key};
ghost use Rattle.portal_base.specs.Kinds.{is_comma};
ghost use Rattle.std.specs.List.{slice_split};

use portal_base::seq::Seq;
use sorted_pages::direction::{Direction, directed};
use std::alloc::{AllocError, Global};

/// What datasets can be sorted by.
#[derive(Clone, Copy, Debug, Drop, PartialEq, Eq)]
pub enum SortField {
    Name,
    Title,
    Modified,
    Created,
    /// All datasets have one score.
    Score,
}

/// A field that datasets are sorted by, and the direction.
#[derive(Clone, Copy, Debug, Drop, PartialEq, Eq)]
pub struct SortKey {
    pub field: SortField,
    pub direction: Direction,
}

// The field with the name.
fn field_named(name: &str) -> Option<SortField>
    ensures { result ≡ field_named name.now }
{
    match name {
        "name" => Some(SortField::Name),
        "title" | "title_string" => Some(SortField::Title),
        "metadata_modified" => Some(SortField::Modified),
        "metadata_created" => Some(SortField::Created),
        "score" => Some(SortField::Score),
        _ => None,
    }
}

// The field and the direction of a part, if it names a field.
fn key_of(part: &str) -> Option<SortKey>
    ensures { result ≡ key_reading part.now }
{
    let (name, direction) = directed(part.trim());
    let field = field_named(name)?;
    Some(SortKey { field, direction })
}

// Whether two fields are one.
fn is_same_field(field: SortField, other: SortField) -> bool
    ensures { result ≡ is_same_field field other }
{
    match field {
        SortField::Name => matches!(other, SortField::Name),
        SortField::Title => matches!(other, SortField::Title),
        SortField::Modified => matches!(other, SortField::Modified),
        SortField::Created => matches!(other, SortField::Created),
        SortField::Score => matches!(other, SortField::Score),
    }
}

// Whether one of the keys is on the field.
fn has_field(keys: &[SortKey], field: SortField) -> bool
    ensures { result ≡ has_field field keys.now }
{
    keys.iter().any(|key| is_same_field(key.field, field))
}

// Adds the key, unless there is one on its field.
fn add_key(keys: &mut Vec<SortKey>, key: SortKey) -> Result<(), AllocError>
    ensures { OnOk result (keys.new.items ≡ with_key keys.old.items key) }
{
    if !has_field(keys.as_slice(), key.field) {
        keys.push(key)?;
    }
    Ok(())
}

/// The sort of a search that gives none: the last modified dataset comes first.
pub(crate) fn default_sort(alloc: Global) -> Result<Seq<SortKey>, AllocError>
    ensures { IfOk result (λ keys. keys ≡ default_sort) }
{
    let key = SortKey {
        field: SortField::Modified,
        direction: Direction::Descending,
    };
    Ok(Seq::from(vec![in alloc; key]?))
}

// Reads the parts of a text. One that names no field is none.
fn parts_of(alloc: Global, text: &str) -> Result<Vec<Option<SortKey>>, AllocError>
    ensures { IfOk result (λ parts. parts.items ≡ map key_reading (slice_split is_comma text.now)) }
{
    let mut parts = Vec::new(alloc);
    for part in text.split(',') {
        parts.push(key_of(part))?;
    }
    Ok(parts)
}

// The first key of each field, if each part was read.
fn first_keys(alloc: Global, parts: &[Option<SortKey>]) -> Result<Option<Seq<SortKey>>, AllocError>
    ensures { IfOk result (λ keys. keys ≡ option_map deciding (all_keys parts.now)) }
{
    let mut keys = Vec::new(alloc);
    for part in parts {
        let Some(key) = part else {
            return Ok(None);
        };
        add_key(&mut keys, *key)?;
    }
    Ok(Some(Seq::from(keys)))
}

/// Reads the text of a sort, if it can be read. The empty text means the default. Of several keys on one field the first is
/// kept, so that a long text costs no comparison more.
pub(crate) fn read_sort(alloc: Global, text: &str) -> Result<Option<Seq<SortKey>>, AllocError>
    ensures { IfOk result (λ keys. keys ≡ sort_reading text.now) }
{
    if text.is_empty() {
        return Ok(Some(default_sort(alloc)?));
    }
    let parts = parts_of(alloc, text)?;
    first_keys(alloc, parts.as_slice())
}
