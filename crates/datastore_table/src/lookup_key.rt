//! The key of a look-up, and the digests of cells.
ghost use Rattle.std.specs.Prelude.{◌≡◌, [], fold};
ghost use Rattle.std.specs.Hash.DefaultHasher as sip;
ghost use Rattle.datastore_table.specs.Cells.{cell_at, cells_at, has_null, same_cells};
ghost use Rattle.datastore_table.specs.Index.{digest_of, lookup_cells, with_cell, with_column};

use crate::cells::{are_same_at, are_same_between, has_null, has_null_at};
use std::hash::{DefaultHasher, Hasher};
use table_schema::Cell;

/// The cells that a look-up searches for.
#[derive(Clone, Copy)]
pub(crate) enum LookupKey<'a> {
    /// These cells, in the order of the columns.
    OfKey(&'a [Cell]),
    /// The cells of a row in these columns.
    OfRow(&'a [Cell], &'a [u32]),
}

impl LookupKey<'_> {
    /// The digest of the cells for a look-up in these columns.
    pub(crate) fn digest(self, columns: &[u32]) -> u64
        ensures { result ≡ digest_of columns.now (lookup_cells self.entry) }
    {
        match self {
            LookupKey::OfKey(cells) => digest_of(columns, cells),
            LookupKey::OfRow(cells, elsewhere) => digest_at(columns, cells, elsewhere),
        }
    }

    /// Whether a row with these cells has the look-up key in these columns.
    pub(crate) fn are_at(self, columns: &[u32], cells: &[Cell]) -> bool
        ensures { result ≡ same_cells (cells_at columns.now cells.now) (lookup_cells self.entry) }
    {
        match self {
            LookupKey::OfKey(key) => are_same_at(cells, columns, key),
            LookupKey::OfRow(others, elsewhere) => are_same_between(
                cells, columns, others, elsewhere,
            ),
        }
    }
}

/// A hasher that has hashed these columns.
fn hasher_of(columns: &[u32]) -> DefaultHasher
    ensures { result ≡ fold with_column sip.initial columns.now }
{
    let mut hasher = DefaultHasher::new();
    for column in columns {
        hasher.write_u32(*column);
    }
    hasher
}

/// Hashes a cell. A text ends with a byte that no text contains.
fn take_cell(hasher: &mut DefaultHasher, cell: &Cell)
    ensures { hasher.new ≡ with_cell hasher.old cell.now }
{
    match cell {
        Cell::Text(text) => {
            hasher.write(text.as_str().as_bytes());
            hasher.write_u8(255);
        }
        other => hasher.write_i128(other.rank()),
    }
}

/// A digest of cells. Equal lists of cells have equal digests. Unequal lists seldom do.
pub(crate) fn cells_digest(cells: &[Cell]) -> u64
    ensures { result ≡ digest_of [] cells.now }
{
    digest_of(&[], cells)
}

/// The digest of these cells for these columns.
fn digest_of(columns: &[u32], cells: &[Cell]) -> u64
    ensures { result ≡ digest_of columns.now cells.now }
{
    let mut hasher = hasher_of(columns);
    for cell in cells {
        take_cell(&mut hasher, cell);
    }
    hasher.finish()
}

/// The digest, for these columns, of the cells in the columns `elsewhere`.
pub(crate) fn digest_at(columns: &[u32], cells: &[Cell], elsewhere: &[u32]) -> u64
    ensures { result ≡ digest_of columns.now (cells_at elsewhere.now cells.now) }
{
    let mut hasher = hasher_of(columns);
    for column in elsewhere {
        take_cell_at(&mut hasher, cells, *column as usize);
    }
    hasher.finish()
}

fn take_cell_at(hasher: &mut DefaultHasher, cells: &[Cell], column: usize)
    ensures { hasher.new ≡ with_cell hasher.old (cell_at cells.now column) }
{
    match cells.get(column) {
        Some(cell) => take_cell(hasher, cell),
        None => take_cell(hasher, &Cell::Null),
    }
}
