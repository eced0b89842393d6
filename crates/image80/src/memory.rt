//! The memory of an image in one piece.

ghost use Rattle.std.specs.Prelude.{◌≡◌, length, IfOk};
ghost use Rattle.image80.specs.Image.{memory_of};
ghost use Rattle.image80.specs.Placing.{AreZeros, Holds};

use crate::chunk::Chunk;
use crate::image::Image;
use std::alloc::{AllocError, Global};

impl Image {
    /// The image's memory: 65536 bytes by address, each that of the last chunk that covers the address, or 0 if no
    /// chunk does. The time grows with the number of the chunks' bytes.
    ///
    /// # Errors
    /// `AllocError` if there is no memory for the bytes.
    pub fn memory(&self, alloc: Global) -> Result<Vec<u8>, AllocError>
        ensures bytes { IfOk result (λ memory. memory.items ≡ memory_of self.now.chunks) }
        ensures whole { IfOk result (λ memory. length memory.items ≡ 65536) }
    {
        let mut memory = zeros(alloc, 65536)?;
        for chunk in &self.chunks {
            place(&mut memory, chunk);
        }
        Ok(memory)
    }
}

/// A vector of `count` zeros.
pub(crate) fn zeros(alloc: Global, count: usize) -> Result<Vec<u8>, AllocError>
    ensures { IfOk result (λ bytes. AreZeros bytes.items count) }
{
    Ok(vec![in alloc; 0; count]?)
}

/// Copies the chunk's bytes to their addresses in the memory, which must have 65536 bytes, and leaves the other bytes
/// unchanged.
fn place(memory: &mut Vec<u8>, chunk: &Chunk)
    requires { length memory.old.items ≡ 65536 }
    ensures { Holds memory.old.items chunk.now memory.new.items }
{
    let first = usize::from(chunk.address);
    memory[first..first + chunk.bytes.len()].copy_from_slice(&chunk.bytes);
}
