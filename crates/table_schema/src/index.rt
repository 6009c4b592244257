//! The indices of lists whose items are found by halving.
ghost use Rattle.std.specs.Prelude.{IfOk};
ghost use Rattle.table_schema.specs.Index.{AreBelow};

use std::alloc::{AllocError, Global};

/// The indices of a list of this length.
pub(crate) fn indices_below(alloc: Global, count: usize) -> Result<Vec<usize>, AllocError>
    ensures { IfOk result (λ indices. AreBelow count indices.items) }
{
    let mut indices = Vec::with_capacity(alloc, count)?;
    for index in 0..count {
        indices.push(index)?;
    }
    Ok(indices)
}
