//! The rows of harvest sources.
ghost use Rattle.std.specs.Prelude.{◌≡◌, IfOk};
ghost use Rattle.harvest_rows.specs.Rows.{source_row, source_value};

use harvest_sources::HarvestSource;
use portal_base::copy::TryClone;
use portal_base::dictionary::Value;
use portal_base::json_value::Json;
use portal_keeper::row::{KeptRow, RowKind};
use std::alloc::{AllocError, Global};

/// The row of a source. Its key is the source's name.
pub fn source_row(alloc: Global, source: &HarvestSource) -> Result<KeptRow, AllocError>
    ensures { IfOk result (λ row. row ≡ source_row source.now) }
{
    let value = source_json(alloc, source)?;
    let body = value.text(alloc)?;
    let key = source.name.try_clone(alloc)?;
    Ok(KeptRow {
        kind: RowKind::Source,
        key,
        body,
    })
}

/// The body of a source's row.
pub(crate) fn source_json(alloc: Global, source: &HarvestSource) -> Result<Json, AllocError>
    ensures { IfOk result (λ value. value ≡ source_value source.now) }
{
    Json::dictionary(
        alloc,
        [
            ("next_job", Value::Whole(source.next_job as usize)),
            ("owner_org", Value::Text(&source.owner_org)),
            ("title", Value::Text(&source.title)),
            ("url", Value::Text(&source.url)),
        ],
    )
}
