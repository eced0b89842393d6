//! The addresses at which an image has bytes.

ghost use Rattle.std.specs.Prelude.{◌≡◌, ◌<◌, ◌&&◌, ◌||◌, ℕ, length, ◌==◌, IfOk};
ghost use Rattle.image80.specs.Range.{in_ranges};
ghost use Rattle.verify80_suggest.specs.Bytes.{has_byte, in_span};
ghost use Rattle.verify80_cases.specs.Marks.{AreMarks, marked};

use frames80::table;
use image80::{Chunk, Range};
use std::alloc::{AllocError, Global};

/// How many addresses there are.
const ADDRESSES: usize = 65_536;

/// For each address whether one of the chunks has a byte there.
///
/// # Errors
/// `AllocError` only if memory runs out.
pub(crate) fn find_bytes(alloc: Global, chunks: &[Chunk]) -> Result<Vec<bool>, AllocError>
    ensures { IfOk result (λ marks. AreMarks (has_byte chunks.now) 65536 marks.items) }
{
    let mut marks = table(alloc, false, ADDRESSES)?;
    for chunk in chunks {
        mark_span(&mut marks, chunk.address, chunk.bytes.len());
    }
    Ok(marks)
}

/// Marks `count` addresses from `first` on, up to FFFF. `marks` must have an entry for each
/// address.
fn mark_span(marks: &mut Vec<bool>, first: u16, count: usize)
    requires { length marks.old.items ≡ 65536 }
    ensures size { length marks.new.items ≡ 65536 }
    ensures each { (address : ℕ) → address < 65536 →
        marked marks.new.items address ≡ (marked marks.old.items address || in_span first count address) }
{
    let from = usize::from(first);
    let mut address = from;
    while address < ADDRESSES && address - from < count {
        marks[address] = true;
        address += 1;
    }
}

/// For each address whether it may be code: the image has a byte there, and it is in a range of
/// `rom`, if that has any. `bytes` must have an entry for each address.
///
/// # Errors
/// `AllocError` only if memory runs out.
pub(crate) fn find_room(
    alloc: Global,
    bytes: &[bool],
    rom: &[Range],
) -> Result<Vec<bool>, AllocError>
    requires { length bytes.now ≡ 65536 }
    ensures { IfOk result (λ marks. AreMarks (λ address. marked bytes.now address && (length rom.now == 0 || in_ranges rom.now address)) 65536 marks.items) }
{
    let mut marks = Vec::new(alloc);
    for address in 0..65_536_u32 {
        let inside = bytes[address as usize] && (rom.is_empty() || is_in(rom, address as u16));
        marks.push(inside)?;
    }
    Ok(marks)
}

/// Whether an address is in one of these ranges.
pub(crate) fn is_in(ranges: &[Range], address: u16) -> bool
    ensures { result ≡ in_ranges ranges.now address }
{
    ranges.iter().any(|range| range.contains(address))
}
