//! The errors of a descriptor.

use portal_base::text::Text;
use std::alloc::AllocError;
use std::error::Error;
use std::fmt;

/// The first error of a descriptor. Fields are counted from 1.
#[derive(Debug, Drop)]
pub enum SchemaFault {
    /// It isn't a JSON dictionary.
    NotJson,
    /// `fields` isn't a list of 1 to 500 dictionaries.
    NoFields,
    /// `type` isn't the name of a type.
    UnknownKind(u32),
    /// A constraint or an option has an invalid value, or doesn't apply to the type.
    BadConstraint(u32),
    /// An earlier field has the same name.
    RepeatedName(u32),
    /// `missingValues`, `primaryKey` or `foreignKeys` has an invalid value or names an unknown or repeated field, or a
    /// foreign key to the same table doesn't refer to the whole primary key.
    BadKey,
    /// A type, a format or a constraint of Table Schema isn't supported. The text names it.
    Unsupported(Text),
    /// `name` isn't a valid field name.
    BadName(u32),
    OutOfMemory,
}

impl fmt::Display for SchemaFault {
    ghost use Rattle.std.specs.Prelude.{Some};
    ghost use Rattle.table_schema.specs.Messages.{schema_fault_text};

    ghost output = { λ fault. Some (schema_fault_text fault) };

    fn fmt<W: fmt::Write>(&self, f: &mut fmt::Formatter<W>) -> fmt::Result {
        match self {
            SchemaFault::NotJson => f.write_str("not JSON"),
            SchemaFault::NoFields => f.write_str("no fields"),
            SchemaFault::UnknownKind(number) => write!(f, "field {number}: unknown type"),
            SchemaFault::BadConstraint(number) => write!(f, "field {number}: bad constraint"),
            SchemaFault::RepeatedName(number) => write!(f, "field {number}: repeated name"),
            SchemaFault::BadKey => f.write_str("bad key"),
            SchemaFault::Unsupported(what) => {
                let what = what.as_str();
                write!(f, "unsupported: {what}")
            }
            SchemaFault::BadName(number) => write!(f, "field {number}: bad name"),
            SchemaFault::OutOfMemory => f.write_str("out of memory"),
        }
    }
}

impl Error for SchemaFault {}

impl From<AllocError> for SchemaFault {
    ghost use Rattle.std.specs.Prelude.{◌≡◌};
    ghost use Rattle.table_schema.specs.declared.fault.SchemaFault.TheVariants.{OutOfMemory};

    ghost from_gives = { λ _ fault. fault ≡ OutOfMemory };

    fn from(_refused: AllocError) -> SchemaFault {
        SchemaFault::OutOfMemory
    }
}
