//! What is read from the rows of tables.
ghost use Rattle.std.specs.Prelude.{◌≡◌, ◌≢◌, ◌↔◌, ◌^◌, IfOk, IfSome, MatchOption, Some, codes, option_and_then};
ghost use Rattle.std.specs.Prelude.{option_copied};
ghost use Rattle.portal_base.specs.Json.{json_text, member_of};
ghost use Rattle.portal_base.specs.Kinds.{list_in};
ghost use Rattle.portal_rows.specs.Readings.{all_read, head_reading, next_id_reading, number_in, schema_member_reading};
ghost use Rattle.portal_rows.specs.Readings.{targets_reading};
ghost use Rattle.portal_rows.specs.TableRows.{IsHead, IsHeadBody, IsTableRow, head_value};
ghost use Rattle.portal_rows.specs.declared.tables.TableHead.{TableHead};

use crate::body::{is_text_of, value_of_body};
use crate::tables::{TableHead, head_json};
use portal_base::json_value::Json;
use portal_base::kinds::list_in;
use portal_base::seq::Seq;
use portal_base::text::Text;
use portal_keeper::row::{KeptRow, RowKind};
use std::alloc::{AllocError, Global};
use table_schema::{Schema, SchemaFault};

/// Reads the row of a table. The result is some head exactly if the row is that of a table with this head.
pub fn read_table_row(alloc: Global, row: &KeptRow) -> Result<Option<TableHead>, AllocError>
    ensures { IfOk result (λ found. (head : TableHead) → (found ≡ Some head) ↔ IsTableRow head row.now) }
{
    match row.kind {
        RowKind::Table => read_head(alloc, &row.body),
        _ => Ok(None),
    }
}

/// Reads the body of the row of a table.
fn read_head(alloc: Global, body: &Text) -> Result<Option<TableHead>, AllocError>
    ensures { IfOk result (λ found. (head : TableHead) → (found ≡ Some head) ↔ IsHeadBody head body.now) }
{
    match head_of_body(alloc, body)? {
        Some(head) => head_if_written(alloc, body, head),
        None => Ok(None),
    }
}

/// The head that the body says, if it says one. Another text may say it too.
fn head_of_body(alloc: Global, body: &Text) -> Result<Option<TableHead>, AllocError>
    ensures sound { IfOk result (λ found. IfSome found IsHead) }
    ensures complete { IfOk result (λ found. (head : TableHead) → IsHeadBody head body.now → found ≡ Some head) }
{
    match value_of_body(alloc, body)? {
        Some(value) => head_in(alloc, &value),
        None => Ok(None),
    }
}

/// The head, if the body is its text.
fn head_if_written(
    alloc: Global,
    body: &Text,
    head: TableHead,
) -> Result<Option<TableHead>, AllocError>
    ensures { IfOk result (λ found. MatchOption found
        (body.now ≢ json_text (head_value head))
        (λ same. (same ≡ head) × (body.now ≡ json_text (head_value head)))) }
{
    let value = head_json(alloc, &head.schema, head.next_id, head.targets.as_slice())?;
    if is_text_of(alloc, body, &value)? {
        Ok(Some(head))
    } else {
        Ok(None)
    }
}

/// The head that the value says.
fn head_in(alloc: Global, value: &Json) -> Result<Option<TableHead>, AllocError>
    ensures { IfOk result (λ head. head ≡ head_reading value.now) }
{
    let Some(next_id) = next_id_in(value) else {
        return Ok(None);
    };
    let Some(schema) = schema_in(alloc, value)? else {
        return Ok(None);
    };
    match targets_in(alloc, value)? {
        Some(targets) => Ok(Some(TableHead {
            schema,
            next_id,
            targets,
        })),
        None => Ok(None),
    }
}

/// The `_id` of the next row that the value says.
fn next_id_in(value: &Json) -> Option<u64>
    ensures { result ≡ next_id_reading value.now }
{
    next_id_of(value.get("next_id")?)
}

fn next_id_of(value: &Json) -> Option<u64>
    ensures { result ≡ number_in (2 ^ 64) value.now }
{
    match value {
        Json::Whole(number) => u64::try_from(*number).ok(),
        _ => None,
    }
}

/// The schema whose descriptor the value has.
fn schema_in(alloc: Global, value: &Json) -> Result<Option<Schema>, AllocError>
    ensures { IfOk result (λ schema. schema ≡ schema_member_reading value.now) }
{
    let Some(descriptor) = value.get("schema") else {
        return Ok(None);
    };
    match Schema::of_json(alloc, descriptor) {
        Ok(schema) => Ok(Some(schema)),
        Err(SchemaFault::OutOfMemory) => Err(AllocError),
        Err(_) => Ok(None),
    }
}

/// The targets that the value says.
fn targets_in(alloc: Global, value: &Json) -> Result<Option<Seq<u32>>, AllocError>
    ensures { IfOk result (λ targets. targets ≡ targets_reading value.now) }
{
    match target_values(value) {
        Some(values) => targets_of(alloc, values.as_slice()),
        None => Ok(None),
    }
}

fn target_values(value: &Json) -> Option<&Seq<Json>>
    ensures { option_copied result ≡ option_and_then list_in (member_of (codes "targets") value.now) }
{
    list_in(value.get("targets")?)
}

fn targets_of(alloc: Global, values: &[Json]) -> Result<Option<Seq<u32>>, AllocError>
    ensures { IfOk result (λ targets. targets ≡ all_read (number_in (2 ^ 32)) values.now) }
{
    let mut targets = Vec::with_capacity(alloc, values.len())?;
    for value in values {
        let Some(target) = target_of(value) else {
            return Ok(None);
        };
        targets.push(target)?;
    }
    Ok(Some(Seq::from(targets)))
}

fn target_of(value: &Json) -> Option<u32>
    ensures { result ≡ number_in (2 ^ 32) value.now }
{
    match value {
        Json::Whole(number) => u32::try_from(*number).ok(),
        _ => None,
    }
}
