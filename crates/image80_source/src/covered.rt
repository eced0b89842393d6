//! Tables of marks, a byte for each address: 1 if it is marked, else 0.

ghost use Rattle.std.specs.Prelude.{◌≡◌, ◌≤◌, ◌+◌, ◌==◌, ◌&&◌, nat_le, nat_lt, length, slice_index, IfOk};
ghost use Rattle.image80.specs.Image.{covers};
ghost use Rattle.image80.specs.Placing.{AreZeros};
ghost use Rattle.image80.specs.RegionMap.{IsMarked};
ghost use Rattle.image80_source.specs.Lines.{is_covered};
ghost use Rattle.image80_source.specs.Placed.{AreMarksOf};
ghost use Rattle.image80_source.specs.SourceText.{begins};

use crate::line::Line;
use image80::Chunk;
use std::alloc::{AllocError, Global};

/// The number of addresses of the 8080's memory.
pub(crate) const ADDRESSES: usize = 65_536;

/// The marks of the addresses at which the chunks have a byte.
pub(crate) fn marks_of_chunks(alloc: Global, chunks: &[Chunk]) -> Result<Vec<u8>, AllocError>
    ensures { IfOk result (λ marks. AreMarksOf (is_covered chunks.now) marks.items) }
{
    let mut marks = zeros(alloc, ADDRESSES)?;
    for chunk in chunks {
        mark_chunk(&mut marks, chunk);
    }
    Ok(marks)
}

/// The marks of the addresses at which a line begins.
pub(crate) fn marks_of_lines(alloc: Global, lines: &[Line<'_>]) -> Result<Vec<u8>, AllocError>
    ensures { IfOk result (λ marks. AreMarksOf (begins lines.now) marks.items) }
{
    let mut marks = zeros(alloc, ADDRESSES)?;
    for line in lines {
        mark(&mut marks, line.at);
    }
    Ok(marks)
}

/// A vector of `count` zeros.
fn zeros(alloc: Global, count: usize) -> Result<Vec<u8>, AllocError>
    ensures { IfOk result (λ bytes. AreZeros bytes.items count) }
{
    Ok(vec![in alloc; 0; count]?)
}

/// Marks the addresses of the chunk's bytes in a table of 65536 addresses.
fn mark_chunk(marks: &mut Vec<u8>, chunk: &Chunk)
    requires { length marks.old.items ≡ 65536 }
    ensures { IsMarked marks.old.items (covers chunk.now) 1 marks.new.items }
{
    mark_span(marks, chunk.address, chunk.bytes.len());
}

/// Marks `count` addresses from one on, none of which may be past FFFF, in a table of 65536 addresses.
fn mark_span(marks: &mut Vec<u8>, first: u16, count: usize)
    requires whole { length marks.old.items ≡ 65536 }
    requires within { first + count ≤ 65536 }
    ensures { IsMarked marks.old.items (λ address. nat_le first address && nat_lt address (first + count)) 1 marks.new.items }
{
    let first = usize::from(first);
    for address in first..first + count {
        marks[address] = 1;
    }
}

/// Marks an address in a table of 65536 addresses.
fn mark(marks: &mut Vec<u8>, address: u16)
    requires { length marks.old.items ≡ 65536 }
    ensures { IsMarked marks.old.items (λ other. address == other) 1 marks.new.items }
{
    marks[usize::from(address)] = 1;
}

/// Whether an address is marked; `false` past the table's end.
pub(crate) fn is_marked(marks: &[u8], address: usize) -> bool
    ensures { result ≡ (slice_index marks.now address == 1) }
{
    match marks.get(address) {
        Some(mark) => *mark == 1,
        None => false,
    }
}
