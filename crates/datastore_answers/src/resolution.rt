//! The resources that the foreign keys of a new table reference.
ghost use Rattle.std.specs.Prelude.{◌≡◌, ◌++◌, codes, find, IfOk, option_copied, option_map, slice_get};
ghost use Rattle.packages.specs.LocatedResource.{located_now};
ghost use Rattle.table_schema.specs.Keys.{same_kind};
ghost use Rattle.datastore_answers.specs.Resolution.{resolved_targets, is_named_table, link_text, resolved_target};
ghost use Rattle.datastore_answers.specs.Resolution.{refers, refers_to_key};
ghost use Rattle.datastore_answers.specs.Resolution.{table_named};
ghost use Rattle.datastore_answers.specs.Tables.{without_room, tables_in, tables_of};

use crate::resource_table::ResourceTable;
use crate::tables::Tables;
use packages::named::LocatedResource;
use packages::package::{Package, Resource};
use portal_base::seq::Seq;
use portal_base::text::Text;
use std::alloc::{AllocError, Global};
use table_schema::{Field, Foreign, Kind, Schema};

// ---- the fit of a key

fn is_same_kind(one: Kind, other: Kind) -> bool
    ensures { result ≡ same_kind one other }
{
    one == other
}

// Whether the field can reference that of the other table, which has this name and the same kind.
fn refers(field: Option<&Field>, target: Option<&Field>, name: &Text) -> bool
    ensures { result ≡ refers (option_copied field.entry) (option_copied target.entry) name.now }
{
    match (field, target) {
        (Some(field), Some(target)) => {
            target.name().as_str() == name.as_str()
                && is_same_kind(field.form().kind(), target.form().kind())
        }
        _ => false,
    }
}

fn field_at(fields: &[Field], index: u32) -> Option<&Field>
    ensures { option_copied result ≡ slice_get fields.now index }
{
    fields.get(index as usize)
}

// Whether the names are those of the other table's whole key in order, and the fields with these indices have the
// same kinds.
fn refers_to_key(
    fields: &[Field],
    others: &[Field],
    indices: &[u32],
    key: &[u32],
    target: &[Text],
) -> bool
    ensures { result ≡ refers_to_key fields.now others.now indices.now key.now target.now }
{
    if indices.len() != key.len() || key.len() != target.len() {
        return false;
    }
    for at in 0..key.len() {
        let field = field_at(fields, indices[at]);
        let other = field_at(others, key[at]);
        if !refers(field, other, &target[at]) {
            return false;
        }
    }
    true
}

/// Whether the foreign key names the whole key of the table, with equal kinds.
pub(crate) fn fits(schema: &Schema, foreign: &Foreign, target: &Schema) -> bool
    ensures { result ≡ refers_to_key schema.now.fields target.now.fields foreign.now.fields target.now.key
        foreign.now.target }
{
    refers_to_key(
        schema.fields().as_slice(),
        target.fields().as_slice(),
        foreign.fields.as_slice(),
        target.key().as_slice(),
        foreign.target.as_slice(),
    )
}

// The error of the foreign key with this number.
fn link_error(alloc: Global, number: usize, text: &'static str) -> Result<Text, AllocError>
    ensures { IfOk result (λ error. error ≡ link_text number ++ text.now) }
{
    Ok(Text::from(format!(in alloc; "foreign key {number}{text}")?))
}

impl Tables {
    // ---- the table with a name

    // Whether the resource has the name and a table.
    fn is_named_table(&self, dataset: &Text, name: &Text, resource: &Resource) -> bool
        ensures { result ≡ is_named_table (tables_in dataset.now (tables_of self.now)) name.now resource.now }
    {
        resource.name.as_str() == name.as_str() && self.get(dataset, resource.number).is_some()
    }

    // The first of the dataset's resources that has the name and a table.
    fn first_named_table<'a>(&self, dataset: &'a Package, name: &Text) -> Option<&'a Resource>
        ensures { option_copied result
            ≡ find (is_named_table (tables_in dataset.now.id (tables_of self.now)) name.now) dataset.now.resources }
    {
        dataset.resources.as_slice().iter().find(|resource| self.is_named_table(
            &dataset.id,
            name,
            resource,
        ))
    }

    // The table of that resource.
    fn table_named(&self, dataset: &Package, name: &Text) -> Option<&ResourceTable>
        ensures { option_map without_room (option_copied result)
            ≡ table_named dataset.now.resources (tables_in dataset.now.id (tables_of self.now)) name.now }
    {
        match self.first_named_table(dataset, name) {
            Some(resource) => self.get(&dataset.id, resource.number),
            None => None,
        }
    }

    // ---- the foreign keys of a schema

    // The resource that the foreign key with this number references, or the key's error.
    fn resolved_target(
        &self,
        alloc: Global,
        placed: &LocatedResource<'_>,
        schema: &Schema,
        number: usize,
        foreign: &Foreign,
    ) -> Result<Result<u32, Text>, AllocError>
        ensures { IfOk result (λ resolved. resolved ≡ resolved_target (located_now placed.now)
            (tables_in placed.now.dataset.now.id (tables_of self.now)) schema.now number foreign.now) }
    {
        if foreign.resource.is_empty() {
            return Ok(Ok(placed.resource.number));
        }
        match self.table_named(placed.dataset, &foreign.resource) {
            None => Ok(Err(link_error(alloc, number, ": no such table")?)),
            Some(target) => if fits(schema, foreign, target.table.schema()) {
                Ok(Ok(target.address.number))
            } else {
                Ok(Err(link_error(alloc, number, ": not that table's key")?))
            },
        }
    }

    /// The resources that the foreign keys of a new table with this schema reference, in the schema's order, or the
    /// error of the first key without one.
    pub(crate) fn resolved_targets(
        &self,
        alloc: Global,
        placed: &LocatedResource<'_>,
        schema: &Schema,
    ) -> Result<Result<Seq<u32>, Text>, AllocError>
        ensures { IfOk result (λ resolved. resolved ≡ resolved_targets (located_now placed.now)
            (tables_in placed.now.dataset.now.id (tables_of self.now)) schema.now) }
    {
        let mut targets = Vec::new(alloc);
        for (index, foreign) in schema.foreign().as_slice().iter().enumerate() {
            match self.resolved_target(alloc, placed, schema, index + 1, foreign)? {
                Ok(number) => targets.push(number)?,
                Err(message) => return Ok(Err(message)),
            }
        }
        Ok(Ok(Seq::from(targets)))
    }
}
