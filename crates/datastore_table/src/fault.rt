//! The faults that refuse a change of a table.

use portal_base::text::Text;
use std::alloc::AllocError;
use table_schema::CellFault;
use thiserror::Error;

/// Why a batch or a removal is refused. The number of a record counts from 1.
#[derive(Debug, Drop, Error, PartialEq, Eq)]
pub enum TableFault {
    /// The record's value is invalid for this field.
    #[error("row {0}, {field}: {2}", field = .1.as_str())]
    Cell(u64, Text, CellFault),
    /// The record has a value under this name, which no field has.
    #[error("row {0}: no field {field}", field = .1.as_str())]
    UnknownField(u64, Text),
    /// A field of the primary key is Null in the record.
    #[error("row {0}: key missing")]
    KeyMissing(u64),
    /// A row has the record's key already.
    #[error("row {0}: key taken")]
    KeyTaken(u64),
    /// No row has the record's key.
    #[error("row {0}: no such key")]
    NoSuchKey(u64),
    /// Another row has the record's value in this unique field.
    #[error("row {0}, {field}: not unique", field = .1.as_str())]
    Unique(u64, Text),
    /// No row has the key that the record refers to.
    #[error("row {0}: no row referred to")]
    Foreign(u64),
    /// A remaining row refers to the row with this `_id`.
    #[error("row with _id {0} is referred to")]
    Referred(u64),
    /// The method is upsert or update, and the table has no primary key.
    #[error("Table has no key")]
    NoKey,
    /// The table would have more than 1,000,000 rows.
    #[error("Table is full")]
    Full,
    #[error("out of memory")]
    OutOfMemory,
}

impl From<AllocError> for TableFault {
    ghost use Rattle.std.specs.Prelude.{◌≡◌};
    ghost use Rattle.datastore_table.specs.declared.fault.TableFault.TheVariants.{OutOfMemory};

    ghost from_gives = { λ _ fault. fault ≡ OutOfMemory };

    fn from(_refused: AllocError) -> TableFault {
        TableFault::OutOfMemory
    }
}
