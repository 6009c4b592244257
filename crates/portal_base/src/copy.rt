//! Copies that are equal to the original.
ghost use Rattle.std.specs.Prelude.{◌≡◌, IfOk};

use std::alloc::{AllocError, Global};

/// A value that can be copied exactly. Unlike with `Clone`, contracts see the copy as the same value.
pub trait TryClone {
    /// A copy, or `AllocError` if memory runs out.
    fn try_clone(&self, alloc: Global) -> Result<Self, AllocError>
        ensures { IfOk result (λ copy. copy ≡ self.now) };
}
