//! The bytes of a memory.

ghost use Rattle.std.specs.Prelude.{◌≡◌, IfOk};

use machine80::Bus;
use std::alloc::{AllocError, Global};

/// The 65536 bytes of a memory, by address.
///
/// # Errors
/// `AllocError` only if memory runs out.
pub fn memory_bytes<B: Bus>(alloc: Global, bus: &B) -> Result<Vec<u8>, AllocError>
    ensures { IfOk result (λ bytes. bytes.items ≡ B.memory bus.now) }
{
    let mut bytes = Vec::with_capacity(alloc, 65536)?;
    for address in 0..65536usize {
        bytes.push(bus.load(address as u16))?;
    }
    Ok(bytes)
}
