//! Lists of blocks of which nothing is known yet.
ghost use Rattle.std.specs.Prelude.{◌≡◌, IfOk, Option, None, replicate, vec_len};

use std::alloc::{AllocError, Global};

/// A `None` for each of so many blocks: what was sent before the first visit, or what a flow has recorded. The
/// one error is out of memory.
pub fn nothing_yet<T: Drop>(alloc: Global, count: u32) -> Result<Vec<Option<T>>, AllocError>
    ensures items { IfOk result (λ list. list.items ≡ replicate count None) }
    ensures length { IfOk result (λ list. vec_len list ≡ count) }
{
    let mut list = Vec::new(alloc);
    for _ in 0..count {
        list.push(None)?;
    }
    Ok(list)
}
