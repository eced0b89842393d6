//! A memory in one piece.

ghost use Rattle.std.specs.Prelude.{◌≡◌, IfOk};
ghost use Rattle.image80.specs.Image.{memory_of};

use crate::bus::Bus;
use image80::Image;
use std::alloc::{AllocError, Global};
use std::marker::Model;

/// A memory of 65536 bytes in one piece.
#[derive(Drop)]
pub struct FlatBus {
    /// The 65536 bytes, by address.
    bytes: Vec<u8>,
}

impl Model for FlatBus {
    ghost use Rattle.std.specs.Prelude.{◌≡◌, ℕ, List, length};

    ghost Value = { List ℕ };

    ghost view = { λ b. b.bytes.items };

    ghost invariant = { λ b. length b.bytes.items ≡ 65536 };
}

impl FlatBus {
    /// The memory of an image: its bytes at their addresses, and 0 everywhere else.
    ///
    /// # Errors
    /// `AllocError` if there is no memory for it.
    pub fn new(alloc: Global, image: &Image) -> Result<Self, AllocError>
        ensures { IfOk result (λ bus. bus ≡ memory_of image.now.chunks) }
    {
        Ok(FlatBus {
            bytes: image.memory(alloc)?,
        })
    }
}

impl Bus for FlatBus {
    ghost memory = { λ b. b };

    /// The byte at an address.
    fn load(&self, address: u16) -> u8 {
        self.bytes[usize::from(address)]
    }

    /// Writes one byte at an address, and leaves every other unchanged.
    fn store(&mut self, address: u16, byte: u8) {
        self.bytes[usize::from(address)] = byte;
    }
}
