//! The location of the store, which the environment names.
ghost use Rattle.std.specs.Prelude.{◌≡◌};
ghost use Rattle.portal_store.specs.Location.{location_in};

use crate::fault::StoreFault;
use std::alloc::Global;
use std::{env, fs};

/// The length from which a file is large, in bytes. It has some thousand rows, which take a moment to read.
const LARGE: u64 = 1_048_576;

/// The location in the value of a variable of the environment, if the variable is set.
pub fn location_in(value: Result<String, env::VarError>) -> Result<Option<String>, StoreFault>
    ensures { result ≡ location_in value }
{
    match value {
        Ok(location) => Ok(Some(location)),
        Err(env::VarError::NotPresent) => Ok(None),
        Err(env::VarError::NotUnicode) => Err(StoreFault::Failed),
        Err(env::VarError::OutOfMemory) => Err(StoreFault::OutOfMemory),
    }
}

/// The location that `PORTAL_STORE` names, if it is set, by `location_in`. The environment isn't observable.
pub fn store_location(
    rt: &(impl env::Env + Alloc<A = Global>),
) -> Result<Option<String>, StoreFault> {
    location_in(env::var(rt, "PORTAL_STORE"))
}

/// Whether there is a large file at the location: one of at least 1 MiB. What the host has isn't observable.
pub(crate) fn is_large(files: &impl fs::Files, location: &str) -> bool {
    match fs::metadata(files, location) {
        Ok(metadata) => metadata.len() >= LARGE,
        Err(_) => false,
    }
}
