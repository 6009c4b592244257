//! What is read of a dataset that a catalogue lists.

use crate::cause::Cause;
use harvest_records::HarvestRecord;
use portal_base::copy::TryClone;
use std::alloc::{AllocError, Global};

/// The record of a dataset, or why there is none.
#[derive(Drop)]
pub enum Reading {
    Good(HarvestRecord),
    Bad(Cause),
}

impl TryClone for Reading {
    fn try_clone(&self, alloc: Global) -> Result<Reading, AllocError> {
        match self {
            Reading::Good(description) => Ok(Reading::Good(description.try_clone(alloc)?)),
            Reading::Bad(cause) => Ok(Reading::Bad(*cause)),
        }
    }
}
