//! Whether a program's bytes have memory on a board.

ghost use Rattle.std.specs.Prelude.{◌≡◌, ◌↔◌, ◌<◌, ◌≤◌, ◌+◌, ◌==◌, ◌++◌, if◌then◌else◌, None, filter, length, OnOk};
ghost use Rattle.std.specs.List.{AllByRecursion, flat_map};
ghost use Rattle.image80.specs.Range.{in_range, in_ranges};
ghost use Rattle.place80.specs.PlaceFault.{absolute_places};
ghost use Rattle.place80_text.specs.Board.{AreMapped, first_unmapped, is_mapped, lack_words, places_of, restart_places, unmapped_from, unmapped_text};
ghost use Rattle.place80_text.specs.Map.{segment_line};

use crate::segment_lines::append_segment;
use image80::Range;
use omf_core::segment_id::{ABSOLUTE, CODE};
use omf_model::{Common, Content, Module};
use place80::Placed;
use std::alloc::AllocError;
use text80::word_digits;
use thiserror::Error;

/// The memory of a board. A range has the addresses that it contains; it needn't end in memory, and ranges may overlap.
#[derive(Clone, Copy)]
pub struct Board<'a> {
    /// Memory that is only read.
    pub rom: &'a [Range],
    /// Memory that is read and written.
    pub ram: &'a [Range],
}

/// An address of a segment at which a board has no memory for it.
#[derive(Clone, Copy, Debug, PartialEq, Eq, Error)]
#[error("OutsideRanges {segment:02X}")]
pub struct Unmapped {
    /// The segment's id: 0 absolute content or a restart, 1 CODE, 2 DATA, 3 STACK, 4 MEMORY, 6 to 254 named commons,
    /// 255 the unnamed common.
    pub segment: u8,
    /// The address without memory, which may be past FFFF.
    pub address: u64,
}

/// The first address of a program's bytes at which the board has no memory for them: CODE, absolute contents and the jump of a
/// restart lie in ROM or RAM, and every other segment in RAM. Segments come in their order, then absolute contents, then
/// the restart. `None` exactly if each address has memory.
pub fn first_unmapped(
    program: &Module,
    segments: &[Placed],
    restart: bool,
    board: Board<'_>,
) -> Option<Unmapped>
    ensures first { result ≡ first_unmapped board.entry.rom.now board.entry.ram.now (places_of program.now segments.now restart) }
    ensures exact { (result ≡ None) ↔ AreMapped board.entry.rom.now board.entry.ram.now (places_of program.now segments.now restart) }
{
    first_of_segments(segments, board)
        .or(first_of_contents(program.contents(), board))
        .or(first_of_restart(restart, board))
}

/// The first address of the segments at which the board has no memory for them, `None` if each has memory.
fn first_of_segments(segments: &[Placed], board: Board<'_>) -> Option<Unmapped>
    ensures { result ≡ first_unmapped board.entry.rom.now board.entry.ram.now segments.now }
{
    for placed in segments {
        let (first, count) = (u64::from(placed.base), u64::from(placed.length));
        if let Some(found) = unmapped_from(board, placed.id, first, count) {
            return Some(found);
        }
    }
    None
}

/// The first address of the absolute contents at which the board has no memory for them, `None` if each has memory.
fn first_of_contents(contents: &[Content], board: Board<'_>) -> Option<Unmapped>
    ensures { result ≡ first_unmapped board.entry.rom.now board.entry.ram.now (absolute_places contents.now) }
{
    for content in contents {
        if let Some(found) = first_of_content(content, board) {
            return Some(found);
        }
    }
    None
}

/// The first address of an absolute content at which the board has no memory for it; `None` if each has memory, or
/// the content isn't absolute.
fn first_of_content(content: &Content, board: Board<'_>) -> Option<Unmapped>
    ensures { let own = content.now in result ≡ (if own.segment == 0 then
        unmapped_from board.entry.rom.now board.entry.ram.now 0 own.offset (length own.bytes) else None) }
{
    if content.segment == ABSOLUTE {
        let (first, count) = (u64::from(content.offset), content.bytes.len() as u64);
        unmapped_from(board, ABSOLUTE, first, count)
    } else {
        None
    }
}

/// The first of the addresses 0 to 2, which a restart's jump takes, at which the board has no memory; `None` if each
/// has memory, or there is no restart.
fn first_of_restart(restart: bool, board: Board<'_>) -> Option<Unmapped>
    ensures { result ≡ first_unmapped board.entry.rom.now board.entry.ram.now (restart_places restart) }
{
    if restart {
        unmapped_from(board, ABSOLUTE, 0, 3)
    } else {
        None
    }
}

/// The first of `count` addresses from `first` on at which the board has no memory for a segment with this id, `None`
/// if each has memory. The addresses must all be below the greatest `u64`.
fn unmapped_from(board: Board<'_>, segment: u8, first: u64, count: u64) -> Option<Unmapped>
    requires { first + count ≤ u64.MAX }
    ensures { result ≡ unmapped_from board.entry.rom.now board.entry.ram.now segment first count }
{
    for address in first..first + count {
        if !is_mapped(board, segment, address) {
            return Some(Unmapped { segment, address });
        }
    }
    None
}

/// Whether the board has memory at an address for a segment with this id: ROM or RAM for CODE and absolute content,
/// RAM for any other.
fn is_mapped(board: Board<'_>, segment: u8, address: u64) -> bool
    ensures { result ≡ is_mapped board.entry.rom.now board.entry.ram.now segment address }
{
    is_in(board.ram, address)
        || ((segment == CODE || segment == ABSOLUTE) && is_in(board.rom, address))
}

/// Whether the address lies in one of the ranges.
fn is_in(ranges: &[Range], address: u64) -> bool
    ensures { result ≡ in_ranges ranges.now address }
{
    ranges.iter().any(|range| contains(*range, address))
}

/// Whether the address lies in the range, which may go past FFFF.
fn contains(range: Range, address: u64) -> bool
    ensures { result ≡ in_range range address }
{
    let first = u64::from(range.first);
    first <= address && address < first + u64::from(range.length)
}

/// Appends the lines for an address without memory: that of its segment, unless it belongs to absolute content or a
/// restart, and one that says which ranges lack the address, as `2100 is in no --ram-range`. Each segment's length must
/// be below 65536.
///
/// # Errors
/// `AllocError` only if memory runs out; the text may then have a part of these lines.
pub fn append_unmapped(
    text: &mut Vec<u8>,
    commons: &[Common],
    segments: &[Placed],
    found: Unmapped,
) -> Result<(), AllocError>
    requires { AllByRecursion (λ p. p.length < 65536) segments.now }
    ensures { OnOk result (text.new.items ≡ text.old.items ++ unmapped_text commons.now segments.now found) }
{
    append_own(text, commons, segments, found.segment)?;
    text.extend_from_slice(&word_digits((found.address % 65536) as u16))?;
    text.extend_from_slice(lack_words(found.segment))
}

/// Appends the line of the segment with this id; nothing if there is none. Each segment's length must be below 65536.
fn append_own(
    text: &mut Vec<u8>,
    commons: &[Common],
    segments: &[Placed],
    id: u8,
) -> Result<(), AllocError>
    requires { AllByRecursion (λ p. p.length < 65536) segments.now }
    ensures { OnOk result (text.new.items ≡ text.old.items ++ flat_map (segment_line commons.now) (filter (λ p. p.id == id) segments.now)) }
{
    for placed in segments {
        if placed.id == id {
            append_segment(text, commons, *placed)?;
        }
    }
    Ok(())
}

/// The end of the line for an address without memory: ` is in no --ram-range`, or for CODE and absolute content ` is
/// in no --rom-range or --ram-range`.
fn lack_words(id: u8) -> &'static [u8]
    ensures { result.now ≡ lack_words id }
{
    if id == CODE || id == ABSOLUTE {
        b" is in no --rom-range or --ram-range\n"
    } else {
        b" is in no --ram-range\n"
    }
}
