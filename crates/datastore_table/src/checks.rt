//! Foreign keys between two tables: the checks of a batch, of a removal and of all rows against another table.
ghost use Rattle.std.specs.Prelude.{◌≡◌, ◌<◌, length, not};
ghost use Rattle.std.specs.List.{list_all};
ghost use Rattle.datastore_table.specs.Batch.{referred_checked};
ghost use Rattle.datastore_table.specs.References.{foreign_checked, foreign_fields, is_broken};

use crate::batch::Batch;
use crate::fault::TableFault;
use crate::ids::Ids;
use crate::meets::is_none_broken;
use crate::references::check_all;
use crate::removal::{Removal, check_referred_from};
use crate::rows::CurrentRows;
use crate::rows_by_id::RowsById;
use crate::table::Table;
use digest_index::DigestIndex;
use table_schema::Foreign;

/// Checks that each row of the batch refers by this foreign key to a row of the target. `foreign` is the index of the
/// foreign key in the schema of the batch, from 0. A row with Null in the foreign key refers to nothing. The foreign
/// key is expected to name the target's whole primary key in order, with equal kinds. The error `Foreign` has the
/// number of the first record that refers to no row.
pub fn check_foreign(batch: &Batch, foreign: u32, target: &Table) -> Result<(), TableFault>
    requires { foreign < length batch.now.schema.foreign }
    ensures { result ≡ foreign_checked (foreign_fields batch.now.schema.foreign foreign) target.now.schema.key
        target.now.rows batch.now.work.changed batch.now.work.written }
{
    let columns = foreign_fields(batch.schema.foreign().as_slice(), foreign);
    let none = DigestIndex::new(target.alloc());
    let rows = CurrentRows {
        rows: RowsById::of_slice(target.rows()),
        index: target.index(),
        written: RowsById::none(),
        written_index: &none,
    };
    check_all(
        columns,
        target.schema().key().as_slice(),
        &rows,
        &RowsById::of_slice(batch.work.changed()),
        &RowsById::none(),
        batch.work.written(),
    )
}

/// Checks that no row of the referring table refers by this foreign key to a row of the removal. `foreign` is the index
/// of the foreign key in the schema of the referring table, from 0. The error `Referred` has the least `_id` of a row
/// of the removal that is referred to.
pub fn check_referred(removal: &Removal, referring: &Table, foreign: u32) -> Result<(), TableFault>
    requires { foreign < length referring.now.schema.foreign }
    ensures { result ≡ referred_checked (foreign_fields referring.now.schema.foreign foreign) removal.now.keys
        referring.now.rows }
{
    let columns = foreign_fields(referring.schema().foreign().as_slice(), foreign);
    let none = Ids::none(referring.alloc());
    check_referred_from(
        columns,
        removal.keys.as_slice(),
        &removal.index,
        referring.rows(),
        &none,
    )
}

/// Whether each row of the referring table refers by this foreign key to a row of the target. A row with Null in the
/// foreign key refers to nothing. The foreign key is expected to name the target's whole primary key in order, with
/// equal kinds.
pub fn keeps_references(referring: &Table, foreign: &Foreign, target: &Table) -> bool
    ensures { result ≡ list_all (λ row. not (is_broken foreign.now.fields target.now.schema.key target.now.rows row))
        referring.now.rows }
{
    is_none_broken(
        foreign.fields.as_slice(),
        target.schema().key().as_slice(),
        target.rows(),
        target.index(),
        referring.rows(),
    )
}

// The columns of the foreign key at this index.
fn foreign_fields(foreigns: &[Foreign], index: u32) -> &[u32]
    ensures { result.now ≡ foreign_fields foreigns.now index }
{
    match foreigns.get(index as usize) {
        Some(foreign) => foreign.fields.as_slice(),
        None => &[],
    }
}
