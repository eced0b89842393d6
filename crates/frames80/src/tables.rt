//! Tables with a place for each address or procedure.

ghost use Rattle.std.specs.Prelude.{◌≡◌, All, IfOk, length};

use std::alloc::{AllocError, Global};

/// A table of `places` elements that are all `value`.
///
/// # Errors
/// `AllocError` only if memory runs out.
pub fn table<T: Copy>(alloc: Global, value: T, places: usize) -> Result<Vec<T>, AllocError>
    ensures places { IfOk result (λ v. length v.items ≡ places) }
    ensures values { IfOk result (λ v. All (λ x. x ≡ value) v.items) }
{
    let mut table = Vec::with_capacity(alloc, places)?;
    for _ in 0..places {
        table.push(value)?;
    }
    Ok(table)
}
