//! A memory in pages.

ghost use Rattle.std.specs.Prelude.{◌≡◌, ◌+◌, ◌*◌, ◌≤◌, IfOk, length, take, drop};
ghost use Rattle.image80.specs.Image.{memory_of};

use crate::bus::Bus;
use image80::Image;
use std::alloc::{AllocError, Global};
use std::marker::Model;

/// A memory of 65536 bytes in 256 pages of 256 bytes. All pages are made at once, so that a store takes no memory,
/// and are adjacent, so that a load needn't find its page first.
#[derive(Drop)]
pub struct PagedBus {
    /// The 256 pages, by address.
    pages: Vec<[u8; 256]>,
}

impl Model for PagedBus {
    ghost use Rattle.std.specs.Prelude.{ℕ, List};
    ghost use Rattle.machine80.specs.Pages.{memory_in_pages, ArePages};

    ghost Value = { List ℕ };

    ghost view = { λ b. memory_in_pages b.pages.items };

    ghost invariant = { λ b. ArePages b.pages.items };
}

impl PagedBus {
    /// The memory of an image: its bytes at their addresses, and 0 everywhere else.
    ///
    /// # Errors
    /// `AllocError` if there is no memory for it.
    pub fn new(alloc: Global, image: &Image) -> Result<Self, AllocError>
        ensures { IfOk result (λ bus. bus ≡ memory_of image.now.chunks) }
    {
        let bytes = image.memory(alloc)?;
        PagedBus::of_bytes(alloc, &bytes)
    }

    /// Makes a memory of these bytes by address, which must be 65536.
    ///
    /// # Errors
    /// `AllocError` if there is no memory for it.
    pub fn of_bytes(alloc: Global, bytes: &[u8]) -> Result<Self, AllocError>
        requires { length bytes.now ≡ 65536 }
        ensures { IfOk result (λ bus. bus ≡ bytes.now) }
    {
        let mut pages = Vec::with_capacity(alloc, 256)?;
        for number in 0..256 {
            pages.push(page_of(bytes, number))?;
        }
        Ok(PagedBus { pages })
    }
}

/// The page with this number: the 256 bytes from `number` times 256 on. `bytes` must have all of them.
fn page_of(bytes: &[u8], number: usize) -> [u8; 256]
    requires { number * 256 + 256 ≤ length bytes.now }
    ensures page { result ≡ take 256 (drop (number * 256) bytes.now) }
    ensures whole { length result ≡ 256 }
{
    let mut page = [0; 256];
    let first = number * 256;
    page.copy_from_slice(&bytes[first..first + 256]);
    page
}

impl Bus for PagedBus {
    ghost memory = { λ b. b };

    /// The byte at an address.
    fn load(&self, address: u16) -> u8 {
        self.pages.as_slice().as_flattened()[usize::from(address)]
    }

    /// Writes one byte at an address, and leaves every other unchanged.
    fn store(&mut self, address: u16, byte: u8) {
        self.pages[usize::from(address / 256)][usize::from(address % 256)] = byte;
    }
}
