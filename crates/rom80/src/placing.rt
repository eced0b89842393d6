//! The chunks of bytes.

ghost use Rattle.std.specs.Prelude.{◌≡◌, ◌≤◌, ◌+◌, ◌<◌, ◌++◌, [], length, IfOk, OnOk};
ghost use Rattle.image80.specs.Regions.{Arranges};
ghost use Rattle.rom80.specs.Rom.{chunks_at, chunks_of};

use image80::{Chunk, Range, Regions};
use std::alloc::{AllocError, Global};

/// The bytes that one content record carries at most.
const CONTENT: usize = 65531;

/// Regions without any address, for an image whose regions don't matter.
pub fn no_regions(alloc: Global) -> Regions
    ensures { Arranges [] (record { first = 0; length = 0 }) [] result }
{
    let stack = Range {
        first: 0,
        length: 0,
    };
    Regions::from_disjoint(alloc, Vec::new(alloc), stack, Vec::new(alloc))
}

/// Makes the chunks of bytes whose first has the address `first`: one of the first 65531 bytes and, if there are
/// more, one of the rest. There are none of no bytes. The bytes must end in memory.
pub(crate) fn chunks_of(alloc: Global, first: u16, bytes: &[u8]) -> Result<Vec<Chunk>, AllocError>
    requires { first + length bytes.now ≤ 65536 }
    ensures { IfOk result (λ chunks. chunks.items ≡ chunks_of first bytes.now) }
{
    let split = bytes.len().min(CONTENT);
    let mut chunks = Vec::new(alloc);
    push_chunk(alloc, &mut chunks, usize::from(first), &bytes[..split])?;
    push_chunk(
        alloc,
        &mut chunks,
        usize::from(first) + CONTENT,
        &bytes[split..],
    )?;
    Ok(chunks)
}

/// Appends a chunk of the bytes at an address; nothing if there are no bytes, and then the address may lie past memory.
/// Otherwise the bytes must end in memory. They must fit one content record: 65531 at most.
fn push_chunk(
    alloc: Global,
    chunks: &mut Vec<Chunk>,
    address: usize,
    bytes: &[u8],
) -> Result<(), AllocError>
    requires in_record { length bytes.now ≤ 65531 }
    requires in_memory { 0 < length bytes.now → address + length bytes.now ≤ 65536 }
    ensures { OnOk result (chunks.new.items ≡ chunks.old.items ++ chunks_at address bytes.now) }
{
    if bytes.is_empty() {
        return Ok(());
    }
    let chunk = Chunk {
        address: address as u16,
        bytes: Vec::from_slice(alloc, bytes)?,
    };
    chunks.push(chunk)?;
    Ok(())
}
