//! The memory of chunks in one piece, with a byte if none covers it.

ghost use Rattle.std.specs.Prelude.{◌≡◌, ℕ, length, slice_index, ◌<◌, IfOk};
ghost use Rattle.image80.specs.Placing.{Holds};
ghost use Rattle.rom80.specs.Rom.{byte_or};

use image80::Chunk;
use std::alloc::{AllocError, Global};

/// The memory of the chunks: 65536 bytes by address, each that of the last chunk over it, and `fill` if there is none. The
/// time grows with the number of the chunks' bytes, and not with that of the chunks.
pub(crate) fn memory_of(alloc: Global, chunks: &[Chunk], fill: u8) -> Result<Vec<u8>, AllocError>
    ensures bytes { IfOk result (λ memory. (address : ℕ) → address < 65536 → slice_index memory.items address ≡ byte_or fill chunks.now address) }
    ensures whole { IfOk result (λ memory. length memory.items ≡ 65536) }
{
    let mut memory = vec![in alloc; fill; 65536]?;
    for chunk in chunks {
        place(&mut memory, chunk);
    }
    Ok(memory)
}

/// Copies the chunk's bytes to their addresses in the memory, which must have 65536 bytes, and leaves the other bytes
/// unchanged.
fn place(memory: &mut Vec<u8>, chunk: &Chunk)
    requires { length memory.old.items ≡ 65536 }
    ensures { Holds memory.old.items chunk.now memory.new.items }
{
    let first = usize::from(chunk.address);
    memory[first..first + chunk.bytes.len()].copy_from_slice(&chunk.bytes);
}
