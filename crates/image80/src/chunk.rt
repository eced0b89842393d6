//! The bytes of an image, in pieces.

use std::marker::Model;

/// Consecutive bytes of an image and the address of the first of them.
///
/// A chunk holds what one content record carries: at most 65531 bytes, the last of which lies below 65536. Whoever
/// makes a chunk must ensure this.
#[derive(Debug, Drop)]
pub struct Chunk {
    /// The address of the first byte.
    pub address: u16,
    /// The bytes, at consecutive addresses.
    pub bytes: Vec<u8>,
}

impl Model for Chunk {
    ghost use Rattle.image80.specs.Image.{PlacedBytes, IsChunk};

    ghost Value = { PlacedBytes };

    ghost view = { λ c. record { address = c.address; bytes = c.bytes.items } };

    ghost invariant = { λ c. IsChunk (record { address = c.address; bytes = c.bytes.items }) };
}

impl Chunk {
    ghost use Rattle.std.specs.Prelude.{◌≡◌, IfSome, is_some};
    ghost use Rattle.image80.specs.Image.{covers, byte_of};

    /// The chunk's byte at the address, `None` if the chunk doesn't cover the address.
    pub(crate) fn byte(&self, address: u16) -> Option<u8>
        ensures value { IfSome result (λ byte. byte ≡ byte_of self.now address) }
        ensures covered { is_some result ≡ covers self.now address }
    {
        let offset = address.checked_sub(self.address)?;
        self.bytes.get(usize::from(offset)).copied()
    }
}
