//! The caller of an action.
use crate::copy::TryClone;
use crate::text::Text;
use std::alloc::{AllocError, Global};

/// The caller of an action: anonymous, or the user with this name.
#[derive(Drop)]
pub enum Caller {
    Anonymous,
    Named(Text),
}

impl TryClone for Caller {
    fn try_clone(&self, alloc: Global) -> Result<Caller, AllocError> {
        match self {
            Caller::Anonymous => Ok(Caller::Anonymous),
            Caller::Named(name) => Ok(Caller::Named(name.try_clone(alloc)?)),
        }
    }
}
