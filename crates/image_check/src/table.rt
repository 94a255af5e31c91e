//! Tables by number.

ghost use Rattle.std.specs.Prelude.{None, IfOk};
ghost use Rattle.pblk_model.specs.Tables.{IsTable};

use std::alloc::{AllocError, Global};

/// A table of so many places, with nothing at any.
pub(crate) fn none_of<T: Drop>(alloc: Global, count: usize) -> Result<Vec<Option<T>>, AllocError>
    ensures { IfOk result (λ v. IsTable count (λ _. None) v.items) }
{
    let mut none = Vec::with_capacity(alloc, count)?;
    for _place in 0..count {
        none.push(None)?;
    }
    Ok(none)
}
