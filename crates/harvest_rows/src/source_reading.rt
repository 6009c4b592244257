//! Harvest sources that are read from their rows.
ghost use Rattle.std.specs.Prelude.{◌≡◌, ◌≢◌, ◌↔◌, IfOk, MatchOption, Some};
ghost use Rattle.portal_base.specs.Json.{json_text};
ghost use Rattle.harvest_sources.specs.declared.source.HarvestSource.{HarvestSource};
ghost use Rattle.harvest_rows.specs.Readings.{source_in, source_read};
ghost use Rattle.harvest_rows.specs.Rows.{IsSourceBody, IsSourceRow, source_value};

use crate::body::json_read;
use crate::keys::{number_of, text_of};
use crate::sources::source_json;
use harvest_sources::HarvestSource;
use portal_base::copy::TryClone;
use portal_base::json_value::Json;
use portal_base::text::Text;
use portal_keeper::row::{KeptRow, RowKind};
use std::alloc::{AllocError, Global};

/// Reads the row of a source. The result is some source exactly if the row is the row of this source. So it is
/// none exactly if the row is the row of no source.
pub fn read_source(alloc: Global, row: &KeptRow) -> Result<Option<HarvestSource>, AllocError>
    ensures { IfOk result (λ found. (source : HarvestSource) →
        (found ≡ Some source) ↔ IsSourceRow source row.now) }
{
    match row.kind {
        RowKind::Source => read_body(alloc, &row.key, &row.body),
        _ => Ok(None),
    }
}

/// Reads the body of the row of the source of that name.
fn read_body(alloc: Global, name: &Text, body: &Text) -> Result<Option<HarvestSource>, AllocError>
    ensures { IfOk result (λ found. (source : HarvestSource) →
        (found ≡ Some source) ↔ IsSourceBody source name.now body.now) }
{
    match source_read(alloc, name, body)? {
        Some(source) => source_if_written(alloc, body, source),
        None => Ok(None),
    }
}

/// The source, if the body is its text.
fn source_if_written(
    alloc: Global,
    body: &Text,
    source: HarvestSource,
) -> Result<Option<HarvestSource>, AllocError>
    ensures { IfOk result (λ found. MatchOption found
        (body.now ≢ json_text (source_value source))
        (λ same. (same ≡ source) × (body.now ≡ json_text (source_value source)))) }
{
    let value = source_json(alloc, &source)?;
    let text = value.text(alloc)?;
    if *body == text {
        Ok(Some(source))
    } else {
        Ok(None)
    }
}

/// The source of that name which the body is read as, if the body is JSON.
fn source_read(alloc: Global, name: &Text, body: &Text) -> Result<Option<HarvestSource>, AllocError>
    ensures { IfOk result (λ found. found ≡ source_read name.now body.now) }
{
    match json_read(alloc, body)? {
        Some(value) => Ok(Some(source_in(alloc, name, &value)?)),
        None => Ok(None),
    }
}

/// The source of that name which the value is read as.
#[tactic(auto, unfolding(crate::specs::Readings::source_in))]
fn source_in(alloc: Global, name: &Text, value: &Json) -> Result<HarvestSource, AllocError>
    ensures { IfOk result (λ source. source ≡ source_in name.now value.now) }
{
    Ok(HarvestSource {
        name: name.try_clone(alloc)?,
        title: Text::from_str(alloc, text_of(value, "title"))?,
        url: Text::from_str(alloc, text_of(value, "url"))?,
        owner_org: Text::from_str(alloc, text_of(value, "owner_org"))?,
        next_job: number_of(value, "next_job"),
    })
}
