//! The instructions of an image's code in sequence.

ghost use Rattle.std.specs.Prelude.{◌≡◌, ◌≤◌, ◌<◌, false, ℕ, None, IfOk, IfSome, length, slice_index_or};
ghost use Rattle.image80.specs.Range.{in_range};
ghost use Rattle.image80.specs.Regions.{in_code};

use crate::contents::bytes_at;
use crate::covered::ADDRESSES;
use decode80::{Fetched, Instr, ahead, decode, spelling_laws};
use image80::{Image, Range};
use std::alloc::{AllocError, Global};

/// By address, the instruction that begins there if those of each range of code follow one another from its first byte
/// on: 65,536 entries. A byte that begins no instruction, or one whose instruction leaves the range, has none, and the
/// next byte begins one.
///
/// # Errors
/// `AllocError` only if memory runs out.
pub fn code_in_sequence(alloc: Global, image: &Image) -> Result<Vec<Option<Fetched>>, AllocError>
    ensures whole { IfOk result (λ table. length table.items ≡ 65536) }
    ensures code { IfOk result (λ table. (at : ℕ) → in_code image.now.regions at ≡ false → slice_index_or table.items at None ≡ None) }
{
    let memory = image.memory(alloc)?;
    let mut table = empty_table(alloc, ADDRESSES)?;
    for range in image.regions.code() {
        enter_range(&memory, *range, &mut table);
    }
    Ok(table)
}

/// A table of `count` addresses without instructions.
fn empty_table(alloc: Global, count: usize) -> Result<Vec<Option<Fetched>>, AllocError>
    ensures whole { IfOk result (λ table. length table.items ≡ count) }
    ensures none { IfOk result (λ table. (at : ℕ) → slice_index_or table.items at None ≡ None) }
{
    vec![in alloc; None; count]
}

/// Enters the instructions of a range of code into a table of 65536 addresses.
fn enter_range(memory: &[u8], range: Range, table: &mut Vec<Option<Fetched>>)
    requires { length table.old.items ≡ 65536 }
    ensures whole { length table.new.items ≡ 65536 }
    ensures others { (at : ℕ) → in_range range at ≡ false → slice_index_or table.new.items at None ≡ slice_index_or table.old.items at None }
{
    let first = usize::from(range.first);
    let limit = ADDRESSES.min(first + usize::from(range.length));
    let mut at = first;
    while at < limit {
        match instruction_in(memory, at, limit - at) {
            Some((instr, length)) => {
                table[at] = Some(Fetched {
                    instr,
                    next: ahead(at as u16, length as u16),
                });
                at += length;
            }
            None => at += 1,
        }
    }
}

/// The instruction that begins at an address, and its length, 1 to 3; `None` if none does, or it is longer than `room`.
fn instruction_in(memory: &[u8], at: usize, room: usize) -> Option<(Instr, usize)>
    requires { at < 65536 }
    ensures { IfSome result (λ found. (1 ≤ found.1) × (found.1 ≤ 3)) }
{
    spelling_laws();
    let (instr, length) = decode(bytes_at(memory, at))?;
    if length <= room {
        Some((instr, length))
    } else {
        None
    }
}
