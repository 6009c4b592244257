//! The store of a run of the program.
ghost use Rattle.std.specs.Prelude.{◌≡◌, ◌⊎◌, IfErr, None, map, string_bytes};
ghost use Rattle.portal_words.specs.Commands.{command_of};
ghost use Rattle.portal_store.specs.RunStore.{status_for_fault};

use crate::fault::StoreFault;
use crate::location::{is_large, store_location};
use crate::opening::open_store;
use crate::store::Store;
use portal_status::status::Status;
use portal_words::{Command, WordsFault};
use sqlite::{FileFrom, FileStore, Unknown};

/// The store of the program: in memory, or in a file.
pub type RunStore = Store<FileStore<FileFrom<Unknown>>>;

/// The status for a store that isn't opened.
fn status_of_fault(fault: StoreFault) -> Status
    ensures { result ≡ status_for_fault fault }
{
    match fault {
        StoreFault::Failed => Status::KeeperFault,
        StoreFault::OutOfMemory => Status::OutOfMemory,
    }
}

/// The store in the file that `PORTAL_STORE` names, or one in memory if it names none.
fn named_store(rt: &HostRuntime) -> Result<RunStore, StoreFault> {
    let location = store_location(rt)?;
    open_store(rt, rt.alloc(), location.as_deref(), Unknown)
}

/// The store of a run with these words: that in the file which `PORTAL_STORE` names, or one in memory if it names none. Words
/// that name no command open no file. If the store isn't opened, the status says so.
pub fn store_for(rt: &HostRuntime, words: &[String]) -> Result<RunStore, Status>
    ensures fault { IfErr result (λ status. (status ≡ Status.KeeperFault) ⊎ (status ≡ Status.OutOfMemory)) }
    ensures no_command { command_of (map string_bytes words.now) ≡ None →
        IfErr result (λ status. status ≡ Status.OutOfMemory) }
{
    let store = match Command::read(rt.alloc(), words) {
        Ok(_command) => named_store(rt),
        Err(WordsFault::BadWords) => open_store(rt, rt.alloc(), None, Unknown),
        Err(WordsFault::OutOfMemory) => Err(StoreFault::OutOfMemory),
    };
    match store {
        Ok(store) => Ok(store),
        Err(fault) => Err(status_of_fault(fault)),
    }
}

/// Whether `PORTAL_STORE` names a large file, whose rows take a moment to read.
pub fn is_store_large(rt: &HostRuntime) -> bool {
    match store_location(rt) {
        Ok(Some(location)) => is_large(rt, location.as_str()),
        _ => false,
    }
}
