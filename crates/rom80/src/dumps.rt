//! The image of dumps.

ghost use Rattle.std.specs.Prelude.{◌≡◌, ℕ, ◌≤◌, ◌+◌, ◌<◌, ◌↔◌, ◌++◌, ◌||◌, true, [], length, OnOk, OnErr, IsErrOf};
ghost use Rattle.image80.specs.Image.{byte_at, covers};
ghost use Rattle.image80.specs.Regions.{Arranges};
ghost use Rattle.rom80.specs.Rom.{chunks_of, byte_among, is_among, is_covered, ShareAnAddress};

use crate::fault::RomFault;
use crate::laws::chunks_hold_their_bytes;
use crate::placing::{chunks_of, no_regions};
use image80::{Chunk, Image};
use omf_core::Name;
use std::alloc::{AllocError, Global};
use std::marker::Model;

/// Dumps of read-only memories, each at its address, no two of which have an address in common: the chunks of an image.
#[derive(Drop)]
pub struct Dumps {
    /// The chunks of the dumps, in the order in which these were added.
    chunks: Vec<Chunk>,
}

impl Model for Dumps {
    ghost use Rattle.std.specs.Prelude.{List};
    ghost use Rattle.image80.specs.Image.{PlacedBytes};

    ghost Value = { List PlacedBytes };

    ghost view = { λ d. d.chunks.items };
}

impl Dumps {
    /// A list of no dumps.
    pub fn new(alloc: Global) -> Dumps
        ensures { result ≡ [] }
    {
        Dumps {
            chunks: Vec::new(alloc),
        }
    }

    /// Adds a dump whose first byte has the address `first`: the memory then has its bytes there, and every other
    /// byte is as before. A dump is kept in a chunk of its first 65531 bytes and, if it is longer, a second one of
    /// the rest.
    ///
    /// # Errors
    /// `EmptyFile` exactly if there are no bytes, `PastMemory` if they go past FFFF, and otherwise `DumpsOverlap`
    /// exactly if an address belongs to an earlier dump and to this one; `Memory` only if memory ran out. Nothing is
    /// added then.
    pub fn add(&mut self, alloc: Global, first: u16, bytes: &[u8]) -> Result<(), RomFault>
        ensures added { OnOk result (self.new ≡ self.old ++ chunks_of first bytes.now) }
        ensures memory { OnOk result ((address : ℕ) → byte_at self.new address ≡ byte_among first bytes.now (byte_at self.old address) address) }
        ensures covered { OnOk result ((address : ℕ) →
            is_covered self.new address ≡ (is_covered self.old address || is_among first (length bytes.now) address)) }
        ensures refused { OnErr result (self.new ≡ self.old) }
        ensures empty { IsErrOf result RomFault.EmptyFile ↔ (length bytes.now ≡ 0) }
        ensures past { IsErrOf result RomFault.PastMemory ↔ (65536 < first + length bytes.now) }
        ensures overlap { IsErrOf result RomFault.DumpsOverlap
            ↔ ((first + length bytes.now ≤ 65536) × ShareAnAddress self.old first (length bytes.now)) }
    {
        chunks_hold_their_bytes();
        if bytes.is_empty() {
            return Err(RomFault::EmptyFile);
        }
        if bytes.len() > 65536 - usize::from(first) {
            return Err(RomFault::PastMemory);
        }
        if share_an_address(&self.chunks, usize::from(first), bytes.len()) {
            return Err(RomFault::DumpsOverlap);
        }
        match self.append(alloc, first, bytes) {
            Ok(()) => Ok(()),
            Err(_) => Err(RomFault::Memory),
        }
    }

    /// Appends the chunks of a dump from `first` on, which must end in memory and isn't checked against the others.
    /// When memory runs out, nothing is appended.
    fn append(&mut self, alloc: Global, first: u16, bytes: &[u8]) -> Result<(), AllocError>
        requires { first + length bytes.now ≤ 65536 }
        ensures added { OnOk result (self.new ≡ self.old ++ chunks_of first bytes.now) }
        ensures refused { OnErr result (self.new ≡ self.old) }
    {
        let mut more = chunks_of(alloc, first, bytes)?;
        self.chunks.append(&mut more)
    }

    /// The image of this name whose memory has the dumps' bytes, and 0 everywhere else, and which starts at `start`.
    /// The image has empty regions: whoever runs the image must give it others.
    pub fn into_image(self, alloc: Global, name: Name, start: u16) -> Image
        ensures chunks { result.chunks ≡ self }
        ensures name { result.name ≡ name }
        ensures start { result.start ≡ start }
        ensures regions { Arranges [] (record { first = 0; length = 0 }) [] result.regions }
    {
        Image {
            name,
            chunks: self.chunks,
            regions: no_regions(alloc),
            start,
        }
    }
}

/// Whether any chunk covers one of the `count` addresses from `first` on. The addresses must lie in memory.
fn share_an_address(chunks: &[Chunk], first: usize, count: usize) -> bool
    requires { first + count ≤ 65536 }
    ensures { result ≡ true ↔ ShareAnAddress chunks.now first count }
{
    for chunk in chunks {
        if meets(chunk, first, count) {
            return true;
        }
    }
    false
}

/// Whether the chunk covers one of the `count` addresses from `first` on. The addresses must lie in memory.
fn meets(chunk: &Chunk, first: usize, count: usize) -> bool
    requires { first + count ≤ 65536 }
    ensures { result ≡ true ↔ ((address : ℕ) × (covers chunk.now address ≡ true) × (is_among first count address ≡ true)) }
{
    let from = first.max(usize::from(chunk.address));
    from < first + count && from < usize::from(chunk.address) + chunk.bytes.len()
}
