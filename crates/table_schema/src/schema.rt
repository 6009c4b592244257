//! Schemas of tables.
ghost use Rattle.std.specs.Prelude.{◌≡◌, ◌⊎◌, ◌≤◌, IfOk, IfErr, IsOk, Ok, Err, length};
ghost use Rattle.std.specs.Arc.{arc_value};
ghost use Rattle.table_schema.specs.Descriptor.{field_items};
ghost use Rattle.table_schema.specs.Keys.{schema_reading, bytes_reading, columns_in, schema_with_keys, fields_from};
ghost use Rattle.table_schema.specs.Written.{schema_value};

use crate::column::{Column, columns_of, field_items};
use crate::fault::SchemaFault;
use crate::field::Field;
use crate::foreign::Foreign;
use crate::keys::{foreign_keys_of, has_index, key_of, missing_of};
use crate::listed::ListedTexts;
use crate::members::Members;
use crate::to_json::{fields_json, foreign_keys_json, names_json, texts_json};
use portal_base::json_value::{Json, JsonFault};
use portal_base::seq::Seq;
use std::alloc::{AllocError, Global};
use std::marker::Model;
use std::sync::Arc;

/// The schema of a table, as its descriptor gives it (Table Schema v1).
#[derive(Drop)]
pub struct Schema {
    fields: Seq<Field>,
    key: Seq<u32>,
    foreign: Seq<Foreign>,
    /// The texts that are missing values. The fields share this list.
    missing: Arc<ListedTexts>,
}

impl Model for Schema {
    ghost use Rattle.std.specs.Arc.{arc_value};
    ghost use Rattle.table_schema.specs.Field.{SchemaValue, schema_from};
    ghost use Rattle.table_schema.specs.Written.{IsDescribed};

    ghost Value = { SchemaValue };

    ghost view = { λ s. schema_from s.fields s.key s.foreign (arc_value s.missing) };

    ghost invariant = { λ s. IsDescribed (schema_from s.fields s.key s.foreign (arc_value s.missing)) };
}

impl Schema {
    /// Reads the bytes of a descriptor (Table Schema v1). Returns the first error: those of the fields come first, in
    /// order, and those of the keys last. In a field the order is its name, its type, what isn't supported, and its
    /// options and constraints.
    pub fn read(alloc: Global, bytes: &[u8]) -> Result<Schema, SchemaFault>
        ensures value { IfOk result (λ schema. bytes_reading bytes.now ≡ Ok schema) }
        ensures fault { IfErr result (λ fault. (fault ≡ SchemaFault.OutOfMemory)
            ⊎ (bytes_reading bytes.now ≡ Err fault)) }
    {
        match Json::read(alloc, bytes) {
            Ok(value) => Schema::of_json(alloc, &value),
            Err(JsonFault::OutOfMemory) => Err(SchemaFault::OutOfMemory),
            Err(_) => Err(SchemaFault::NotJson),
        }
    }

    /// Reads a descriptor that is given as a JSON value. The errors are those of `read`. `NotJson` and `NoFields` take
    /// no memory.
    #[tactic(auto, unfolding(crate::specs::Keys::schema_reading))]
    pub fn of_json(alloc: Global, value: &Json) -> Result<Schema, SchemaFault>
        ensures value { IfOk result (λ schema. schema_reading value.now ≡ Ok schema) }
        ensures fault { IfErr result (λ fault. (fault ≡ SchemaFault.OutOfMemory)
            ⊎ (schema_reading value.now ≡ Err fault)) }
        ensures memory { result ≡ Err SchemaFault.OutOfMemory → IsOk (field_items value.now) }
    {
        let items = field_items(value)?;
        let columns = columns_of(alloc, items.as_slice())?;
        match schema_with_keys(alloc, columns, value)? {
            Some(schema) => Ok(schema),
            None => Err(SchemaFault::BadKey),
        }
    }

    pub fn fields(&self) -> &Seq<Field>
        ensures { result.now ≡ self.now.fields }
    {
        &self.fields
    }

    /// The indices of the primary key's fields, counted from 0.
    pub fn key(&self) -> &Seq<u32>
        ensures { result.now ≡ self.now.key }
    {
        &self.key
    }

    pub fn foreign(&self) -> &Seq<Foreign>
        ensures { result.now ≡ self.now.foreign }
    {
        &self.foreign
    }

    /// The descriptor of the schema. It reads back as the same schema.
    #[tactic(auto, unfolding(crate::specs::Written::schema_value))]
    pub fn to_json(&self, alloc: Global) -> Result<Json, AllocError>
        ensures value { IfOk result (λ value. value ≡ schema_value self.now) }
        ensures back { IfOk result (λ value. schema_reading value ≡ Ok self.now) }
    {
        let fields = self.fields.as_slice();
        let mut members = Members::new(alloc);
        members.add("fields", fields_json(alloc, fields)?)?;
        members.add(
            "foreignKeys",
            foreign_keys_json(alloc, fields, self.foreign.as_slice())?,
        )?;
        members.add("missingValues", texts_json(alloc, self.missing.as_slice())?)?;
        members.add(
            "primaryKey",
            names_json(alloc, fields, self.key.as_slice())?,
        )?;
        Ok(members.into_json())
    }
}

// The schema of these fields, or none if its missing values or keys are invalid.
fn schema_with_keys(
    alloc: Global,
    columns: Vec<Column>,
    value: &Json,
) -> Result<Option<Schema>, AllocError>
    requires { columns_in value.now ≡ Ok columns.items }
    ensures { IfOk result (λ schema. schema ≡ schema_with_keys columns.items value.now) }
{
    let Some(missing) = missing_of(alloc, value)? else {
        return Ok(None);
    };
    let Some(key) = key_of(alloc, columns.as_slice(), value)? else {
        return Ok(None);
    };
    let Some(foreign) = foreign_keys_of(alloc, columns.as_slice(), key.as_slice(), value)? else {
        return Ok(None);
    };
    let missing = Arc::new(alloc, missing)?;
    let fields = fields_of(alloc, columns, &missing, key.as_slice())?;
    Ok(Some(Schema {
        fields,
        key,
        foreign,
        missing,
    }))
}

// The fields, with the parts that the whole schema gives them.
fn fields_of(
    alloc: Global,
    columns: Vec<Column>,
    missing: &Arc<ListedTexts>,
    key: &[u32],
) -> Result<Seq<Field>, AllocError>
    requires { length columns.items ≤ 500 }
    ensures { IfOk result (λ fields. fields ≡ fields_from (arc_value missing.now) key.now 0 columns.items) }
{
    let mut fields = Vec::with_capacity(alloc, columns.len())?;
    for column in columns {
        let in_key = has_index(key, fields.len() as u32);
        let missing = Arc::try_clone(missing)?;
        fields.push(Field::of_column(column, missing, in_key))?;
    }
    Ok(Seq::from(fields))
}
