//! Rows of the table, read as kept rows.
ghost use Rattle.std.specs.Prelude.{◌≡◌, ◌≢◌, ◌<◌, ℕ, List, pos, length, map, Any, IsUtf8, IfOk, IfSome, IsNone, IsErrOf};
ghost use Rattle.sqlite.specs.Order.{column};
ghost use Rattle.sqlite.specs.declared.types.Value.TheVariants.{Int, Text as TextValue};
ghost use Rattle.portal_keeper.specs.Rows.{kind_number};
ghost use Rattle.portal_keeper.specs.declared.row.RowKind.{RowKind};
ghost use Rattle.keeper_sqlite.specs.RowValues.{values_of, IsForeign};

use crate::faults::fault_of;
use portal_base::text::Text;
use portal_keeper::change::KeepFault;
use portal_keeper::row::{KeptRow, RowKind};
use sqlite::Row;
use std::alloc::Global;

/// The kept rows that these rows of the table are. The fault is `Failed` if one of them is no kept row.
pub(crate) fn read_rows(alloc: Global, rows: &[Row]) -> Result<Vec<KeptRow>, KeepFault>
    ensures rows { IfOk result (λ kept. rows.now ≡ map values_of kept.items) }
    ensures failed { IsErrOf result KeepFault.Failed → Any IsForeign rows.now }
{
    let mut kept = Vec::new(alloc);
    for row in rows {
        let row = read_row(row)?;
        if kept.push(row).is_err() {
            return Err(KeepFault::OutOfMemory);
        }
    }
    Ok(kept)
}

/// The kept row that this row of the table is.
fn read_row(row: &Row) -> Result<KeptRow, KeepFault>
    ensures row { IfOk result (λ kept. row.now ≡ values_of kept) }
    ensures failed { IsErrOf result KeepFault.Failed → IsForeign row.now }
{
    if row.column_count() != 3 {
        return Err(KeepFault::Failed);
    }
    let kind = read_kind(row)?;
    let key = read_text(row, 1)?;
    let body = read_text(row, 2)?;
    Ok(KeptRow { kind, key, body })
}

/// The kind that the first value is the number of.
fn read_kind(row: &Row) -> Result<RowKind, KeepFault>
    requires { 0 < length row.now }
    ensures kind { IfOk result (λ kind. column row.now 0 ≡ Int (pos (kind_number kind))) }
    ensures failed { IsErrOf result KeepFault.Failed
        → (kind : RowKind) → column row.now 0 ≢ Int (pos (kind_number kind)) }
{
    let number: u64 = match row.get(0) {
        Ok(number) => number,
        Err(error) => return Err(fault_of(error)),
    };
    match kind_of_number(number) {
        Some(kind) => Ok(kind),
        None => Err(KeepFault::Failed),
    }
}

/// The kind of that number, if there is one.
fn kind_of_number(number: u64) -> Option<RowKind>
    ensures kind { IfSome result (λ kind. kind_number kind ≡ number) }
    ensures none { IsNone result → (kind : RowKind) → kind_number kind ≢ number }
{
    RowKind::of_number(u8::try_from(number).ok()?)
}

/// The text at this place.
fn read_text(row: &Row, at: usize) -> Result<Text, KeepFault>
    requires { at < length row.now }
    ensures text { IfOk result (λ text. column row.now at ≡ TextValue text) }
    ensures failed { IsErrOf result KeepFault.Failed
        → (text : List ℕ) → IsUtf8 text → column row.now at ≢ TextValue text }
{
    let text: String = match row.get(at) {
        Ok(text) => text,
        Err(error) => return Err(fault_of(error)),
    };
    Ok(Text::from(text))
}
