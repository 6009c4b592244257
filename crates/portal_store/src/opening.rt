//! How a store is opened.
ghost use Rattle.std.specs.Prelude.{◌≡◌, [], codes, Some, None, Ok, Err, IsSome, IfOk, option_copied};
ghost use Rattle.sqlite.specs.Files.{file_state, IsOpened};
ghost use Rattle.sqlite.specs.Held.{IsNew};
ghost use Rattle.sqlite.specs.Start.{FindsIn};
ghost use Rattle.sqlite.specs.State.{HasCleanDisk};
ghost use Rattle.sqlite_wal.specs.Files.{image_at};
ghost use Rattle.portal_store.specs.Opening.{empty_memory};
ghost use Rattle.portal_store.specs.Stores.{IsInFile, IfInFile};
ghost use Rattle.portal_store.specs.declared.store.Store.TheVariants.{Memory};

use crate::fault::{StoreFault, open_fault};
use crate::store::Store;
use keeper_sqlite::SqliteKeeper;
use portal_base::seq::Seq;
use portal_keeper::memory::MemoryKeeper;
use sqlite::{Connection, FileFrom, FileStore, Start};
use std::alloc::Global;

/// A keeper in memory without rows. No call of it fails, but for want of memory.
fn empty_memory(alloc: Global) -> MemoryKeeper
    ensures { result ≡ empty_memory }
{
    MemoryKeeper::new(alloc, Seq::new(alloc), Seq::new(alloc))
}

/// Opens the SQLite database in the file at the location, or makes it.
fn open_file<S: Start>(
    rt: &HostRuntime,
    location: &str,
    start: S,
) -> Result<SqliteKeeper<FileStore<FileFrom<S>>>, StoreFault>
    ensures empty { location.now ≡ [] → result ≡ Err StoreFault.Failed }
    ensures special { location.now ≡ codes ":memory:" → result ≡ Err StoreFault.Failed }
    ensures fresh { IfOk result (λ keeper. IsNew keeper.connection × (keeper.faults ≡ 0)) }
    ensures opened { IfOk result (λ keeper. HasCleanDisk (file_state keeper.connection) → IsOpened keeper.connection) }
    ensures found { IfOk result (λ keeper. HasCleanDisk (file_state keeper.connection)
        → FindsIn (image_at S.Start) (file_state keeper.connection)) }
    ensures guarded { IfOk result (λ keeper. HasCleanDisk (file_state keeper.connection)
        → (file_state keeper.connection).IsShielded) }
{
    if location.is_empty() {
        return Err(StoreFault::Failed);
    }
    match Connection::open_from(rt, location, false, start) {
        Ok(connection) => Ok(SqliteKeeper::adopt(connection)),
        Err((error, _left)) => Err(open_fault(error)),
    }
}

/// Opens the store in the file at the location, or a store in memory without rows if there is no location.
///
/// The file is a SQLite database, with its log beside it: the location with `-wal` after it. The file is made if it isn't
/// there and its folder is. The store has both files for itself until it is dropped. A program passes `Unknown` as
/// `start`; the clauses hold for any, and say what the connection shows by what the files held.
///
/// An empty location and `:memory:` are `Failed`, by clauses. What the host has at a location isn't observable, so no
/// clause says the rest. `Failed` are a location that begins with `file:`; anything but a regular file, as a folder, a
/// FIFO or a device; a file with a second name, or with a rollback journal of SQLite; a file that is neither empty nor a
/// SQLite database; a store that is in use; and what the host refuses. The file itself isn't changed then, but an empty
/// log may be left beside it.
pub fn open_store<S: Start>(
    rt: &HostRuntime,
    alloc: Global,
    location: Option<&str>,
    start: S,
) -> Result<Store<FileStore<FileFrom<S>>>, StoreFault>
    ensures memory { option_copied location.entry ≡ None → result ≡ Ok (Memory empty_memory) }
    ensures empty { option_copied location.entry ≡ Some [] → result ≡ Err StoreFault.Failed }
    ensures special { option_copied location.entry ≡ Some (codes ":memory:") → result ≡ Err StoreFault.Failed }
    ensures file { IsSome (option_copied location.entry) → IfOk result IsInFile }
    ensures fresh { IfOk result (λ store. IfInFile store (λ keeper. IsNew keeper.connection × (keeper.faults ≡ 0))) }
    ensures opened { IfOk result (λ store. IfInFile store (λ keeper. HasCleanDisk (file_state keeper.connection)
        → IsOpened keeper.connection)) }
    ensures found { IfOk result (λ store. IfInFile store (λ keeper. HasCleanDisk (file_state keeper.connection)
        → FindsIn (image_at S.Start) (file_state keeper.connection))) }
    ensures guarded { IfOk result (λ store. IfInFile store (λ keeper. HasCleanDisk (file_state keeper.connection)
        → (file_state keeper.connection).IsShielded)) }
{
    match location {
        None => Ok(Store::Memory(empty_memory(alloc))),
        Some(location) => match open_file(rt, location, start) {
            Ok(keeper) => Ok(Store::File(keeper)),
            Err(fault) => Err(fault),
        },
    }
}
