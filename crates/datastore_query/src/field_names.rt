//! The fields of a schema by their names.
ghost use Rattle.std.specs.BTreeMap.{get_by};
ghost use Rattle.std.specs.Cmp.Lexicographic.{slice_cmp};
ghost use Rattle.std.specs.Option.{option_copied};
ghost use Rattle.std.specs.Ordering.{nat_cmp};
ghost use Rattle.std.specs.Prelude.{◌≡◌, IfOk, find, slice_get};
ghost use Rattle.std.specs.Str.{bytes_eq};
ghost use Rattle.datastore_query.specs.Column.{field_index};
ghost use Rattle.datastore_query.specs.FieldNames.{FindsFields};

use std::alloc::{AllocError, Global};
use std::collections::BTreeMap;
use std::marker::Model;
use table_schema::Field;

/// Fields that are found by their names, in a number of steps in proportion to the logarithm of their count. Contracts
/// see them as the list of the fields.
#[derive(Drop)]
pub struct FieldNames<'a> {
    fields: &'a [Field],
    by_name: BTreeMap<&'a str, usize>,
}

impl<'a> Model for FieldNames<'a> {
    ghost use Rattle.std.specs.BTreeMap.{get_by};
    ghost use Rattle.std.specs.Cmp.Lexicographic.{slice_cmp};
    ghost use Rattle.std.specs.Ordering.{nat_cmp};
    ghost use Rattle.std.specs.Prelude.{List};
    ghost use Rattle.table_schema.specs.Field.{FieldValue};
    ghost use Rattle.datastore_query.specs.FieldNames.{FindsFields};

    ghost Value = { List FieldValue };

    ghost view = { λ names. names.fields.now };

    ghost invariant = { λ names. FindsFields names.fields.now
        (λ name. get_by (λ k. slice_cmp nat_cmp name k.now) names.by_name) };
}

// The index of each field by its name. Of fields with one name it is that of the first.
fn indices<'a>(alloc: Global, fields: &'a [Field]) -> Result<BTreeMap<&'a str, usize>, AllocError>
    ensures { IfOk result (λ by_name. FindsFields fields.now
        (λ name. get_by (λ k. slice_cmp nat_cmp name k.now) by_name)) }
{
    let mut by_name = BTreeMap::new(alloc);
    let mut index = fields.len();
    while index > 0 {
        index -= 1;
        by_name.insert(fields[index].name().as_str(), index)?;
    }
    Ok(by_name)
}

fn field_at<'a>(fields: &'a [Field], index: usize) -> Option<&'a Field>
    ensures { option_copied result ≡ slice_get fields.now index }
{
    fields.get(index)
}

impl<'a> FieldNames<'a> {
    pub fn of(alloc: Global, fields: &'a [Field]) -> Result<FieldNames<'a>, AllocError>
        ensures { IfOk result (λ names. names ≡ fields.now) }
    {
        let by_name = indices(alloc, fields)?;
        Ok(FieldNames { fields, by_name })
    }

    pub fn as_slice(&self) -> &'a [Field]
        ensures { result.now ≡ self.now }
    {
        self.fields
    }

    /// The index of the first field with this name.
    pub fn index_of(&self, name: &str) -> Option<usize>
        ensures { result ≡ field_index self.now name.now }
    {
        match self.by_name.get(name) {
            Some(index) => Some(*index),
            None => None,
        }
    }

    /// The first field with this name.
    pub fn find(&self, name: &str) -> Option<&'a Field>
        ensures { option_copied result ≡ find (λ field. bytes_eq field.name name.now) self.now }
    {
        match self.index_of(name) {
            Some(index) => field_at(self.as_slice(), index),
            None => None,
        }
    }
}
