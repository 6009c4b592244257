//! The columns of rows, in the order of their names.
ghost use Rattle.std.specs.Prelude.{◌≡◌, IfOk};
ghost use Rattle.row_records.specs.Records.{columns_of};

use portal_base::copy::TryClone;
use portal_base::ordered::{Ordered, replace_or_put, reserve};
use portal_base::text::Text;
use std::alloc::{AllocError, Global};
use std::cmp::Ordering;

/// A column of rows: its name, and the index of its cell in a row, counted from 0.
#[derive(Drop)]
pub struct Column {
    pub name: Text,
    pub index: usize,
}

impl Ordered for Column {
    ghost use Rattle.row_records.specs.Records.{column_cmp, column_cmp_total};

    ghost order = { column_cmp };

    ghost total = { column_cmp_total };

    /// Compares the names.
    fn compare(&self, other: &Column) -> Ordering {
        self.name.cmp(&other.name)
    }
}

/// The columns with these names, sorted by name. The names are in the order of the cells in a row. Of columns with the
/// same name only the first is kept.
pub fn columns_of(alloc: Global, names: &[Text]) -> Result<Vec<Column>, AllocError>
    ensures { IfOk result (λ columns. columns.items ≡ columns_of names.now) }
{
    let mut columns = Vec::new(alloc);
    let mut index = names.len();
    while index > 0 {
        index -= 1;
        let name = names[index].try_clone(alloc)?;
        reserve(&mut columns)?;
        replace_or_put(&mut columns, Column { name, index });
    }
    Ok(columns)
}
