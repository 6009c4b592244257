//! The errors of loading rows.

use portal_base::outside::Failed;
use portal_base::text::Text;
use std::alloc::AllocError;
use std::error::Error;
use std::fmt;
use table_schema::CellFault;

/// The error of a loader. Columns and rows are counted from 1, and row 1 is the first row after the header.
#[derive(Debug, Drop, PartialEq, Eq)]
pub enum LoadFault {
    /// The column has an invalid name: a text other than the empty one that isn't the name of a field, or that an
    /// earlier column has. If there is no header, the column is 1.
    Header(u32),
    /// The count of columns in the row differs from that of the header.
    Width(u64),
    /// The text of the field with this name isn't a valid cell.
    Cell(u64, Text, CellFault),
    /// The row isn't UTF-8. Row 0 is the header.
    NotUtf8(u64),
    /// The source failed.
    ReadFault,
    /// The source gave more than 2^40 bytes.
    TooLong,
    /// An earlier call returned an error.
    Spent,
    OutOfMemory,
}

impl fmt::Display for LoadFault {
    ghost use Rattle.std.specs.Prelude.{Some};
    ghost use Rattle.typed_csv.specs.Messages.{load_fault_text};

    ghost output = { λ fault. Some (load_fault_text fault) };

    fn fmt<W: fmt::Write>(&self, f: &mut fmt::Formatter<W>) -> fmt::Result {
        match self {
            LoadFault::Header(column) => write!(f, "header {column}"),
            LoadFault::Width(row) => write!(f, "row {row}: width"),
            LoadFault::Cell(row, field, fault) => {
                let field = field.as_str();
                write!(f, "row {row}, {field}: {fault}")
            }
            LoadFault::NotUtf8(row) => write!(f, "row {row}: not UTF-8"),
            LoadFault::ReadFault => f.write_str("the source failed"),
            LoadFault::TooLong => f.write_str("input too long"),
            LoadFault::Spent => f.write_str("spent"),
            LoadFault::OutOfMemory => f.write_str("out of memory"),
        }
    }
}

impl Error for LoadFault {}

impl From<Failed> for LoadFault {
    ghost use Rattle.std.specs.Prelude.{◌≡◌};
    ghost use Rattle.typed_csv.specs.declared.fault.LoadFault.TheVariants.{ReadFault};

    ghost from_gives = { λ _ fault. fault ≡ ReadFault };

    fn from(_failed: Failed) -> LoadFault {
        LoadFault::ReadFault
    }
}

impl From<AllocError> for LoadFault {
    ghost use Rattle.std.specs.Prelude.{◌≡◌};
    ghost use Rattle.typed_csv.specs.declared.fault.LoadFault.TheVariants.{OutOfMemory};

    ghost from_gives = { λ _ fault. fault ≡ OutOfMemory };

    fn from(_refused: AllocError) -> LoadFault {
        LoadFault::OutOfMemory
    }
}
