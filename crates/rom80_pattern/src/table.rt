//! Tables whose entries are all one value at first.

ghost use Rattle.std.specs.Prelude.{◌≡◌, ℕ, length, slice_index_or, IfOk};

use std::alloc::{AllocError, Global};

/// Makes a table of `count` entries, each of them `value`.
pub fn table<T: Copy>(alloc: Global, value: T, count: usize) -> Result<Vec<T>, AllocError>
    ensures whole { IfOk result (λ made. length made.items ≡ count) }
    ensures each { IfOk result (λ made. (k : ℕ) → slice_index_or made.items k value ≡ value) }
{
    let mut made = Vec::with_capacity(alloc, count)?;
    for _ in 0..count {
        made.push(value)?;
    }
    Ok(made)
}
