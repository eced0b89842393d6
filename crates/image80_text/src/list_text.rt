//! The listing of an image's code.

ghost use Rattle.std.specs.Prelude.{◌≡◌, ◌+◌, ◌<◌, ◌≤◌, ◌++◌, length, IfOk, IfSome, OnOk};
ghost use Rattle.std.specs.List.{flat_map};
ghost use Rattle.image80_text.specs.Listing.{bytes_from, columns, instruction_of, line_length, list_line, listing_of, range_lines};

use decode80::{Instr, decode, spelling_laws, write_text};
use image80::{Image, Range};
use std::alloc::{AllocError, Global};
use text80::{append_digits, word_digits};

/// The listing of an image's code: the instructions of each range, by address, from the range's first byte on. A line
/// has the address, the bytes as digits padded with spaces to six places, and the text. A byte that begins no
/// instruction, or one whose instruction leaves the range, is a line of its own with the text `??`.
///
/// # Errors
/// `AllocError` only if memory runs out.
pub fn listing(alloc: Global, image: &Image) -> Result<Vec<u8>, AllocError>
    ensures { IfOk result (λ text. text.items ≡ listing_of image.now) }
{
    let memory = image.memory(alloc)?;
    let mut text = Vec::new(alloc);
    append_ranges(alloc, &memory, image.regions.code(), &mut text)?;
    Ok(text)
}

/// Appends the listing of each range of code, in order. `memory` must have 65536 bytes.
fn append_ranges(
    alloc: Global,
    memory: &[u8],
    ranges: &[Range],
    text: &mut Vec<u8>,
) -> Result<(), AllocError>
    requires { length memory.now ≡ 65536 }
    ensures { OnOk result (text.new.items ≡ text.old.items ++ flat_map (range_lines memory.now) ranges.now) }
{
    for range in ranges {
        append_range(alloc, memory, *range, text)?;
    }
    Ok(())
}

/// Appends the listing of one range of code, from its first byte to its last. `memory` must have 65536 bytes.
fn append_range(
    alloc: Global,
    memory: &[u8],
    range: Range,
    text: &mut Vec<u8>,
) -> Result<(), AllocError>
    requires { length memory.now ≡ 65536 }
    ensures { OnOk result (text.new.items ≡ text.old.items ++ range_lines memory.now range) }
{
    let mut at = range.first;
    let mut left = usize::from(range.length);
    while left > 0 {
        let length = append_line(alloc, memory, at, left, text)?;
        at = at.wrapping_add(length as u16);
        left -= length;
    }
    Ok(())
}

/// Appends the line of the instruction at an address and returns its length; or, if none begins there or it is longer
/// than the `left` bytes that its range has from there on, the line of one byte with the text `??`, and returns 1.
/// `memory` must have 65536 bytes, and `left` be at least 1.
fn append_line(
    alloc: Global,
    memory: &[u8],
    at: u16,
    left: usize,
    text: &mut Vec<u8>,
) -> Result<usize, AllocError>
    requires whole { length memory.now ≡ 65536 }
    requires some { 0 < left }
    ensures line { OnOk result (text.new.items ≡ text.old.items
        ++ list_line at (bytes_from memory.now at) (instruction_of (bytes_from memory.now at) left)) }
    ensures length { IfOk result (λ n. n ≡ line_length (instruction_of (bytes_from memory.now at) left)) }
    ensures some { IfOk result (λ n. (1 ≤ n) × (n ≤ 3)) }
    ensures within { IfOk result (λ n. n ≤ left) }
{
    let bytes = bytes_at(memory, at);
    match instruction_in(bytes, left) {
        Some((instr, length)) => {
            append_columns(at, &bytes[..length], text)?;
            write_text(alloc, instr, text)?;
            text.push(b'\n')?;
            Ok(length)
        }
        None => {
            append_columns(at, &bytes[..1], text)?;
            text.extend_from_slice(b"??\n".as_slice())?;
            Ok(1)
        }
    }
}

/// The bytes at an address and at the two addresses after it, which wrap around at FFFF. `memory` must have 65536
/// bytes.
fn bytes_at(memory: &[u8], at: u16) -> [u8; 3]
    requires { length memory.now ≡ 65536 }
    ensures { result ≡ bytes_from memory.now at }
{
    [
        memory[usize::from(at)],
        memory[usize::from(at.wrapping_add(1))],
        memory[usize::from(at.wrapping_add(2))],
    ]
}

/// The instruction that the bytes begin with, and its length, 1 to 3. `None` if they begin with none, or it is longer
/// than `left`.
fn instruction_in(bytes: [u8; 3], left: usize) -> Option<(Instr, usize)>
    ensures value { result ≡ instruction_of bytes left }
    ensures length { IfSome result (λ found. (1 ≤ found.1) × (found.1 ≤ 3)) }
    ensures within { IfSome result (λ found. found.1 ≤ left) }
{
    spelling_laws();
    let (instr, length) = decode(bytes)?;
    if length <= left {
        Some((instr, length))
    } else {
        None
    }
}

/// Appends the columns before the text of a line: the address, and the digits of the bytes, which must be three at
/// most, padded with spaces to six places, each column with a space behind it.
///
/// # Errors
/// `AllocError` only if memory runs out.
pub fn append_columns(at: u16, bytes: &[u8], text: &mut Vec<u8>) -> Result<(), AllocError>
    requires { length bytes.now ≤ 3 }
    ensures { OnOk result (text.new.items ≡ text.old.items ++ columns at bytes.now) }
{
    text.extend_from_slice(&word_digits(at))?;
    text.push(b' ')?;
    append_digits(bytes, text)?;
    let blanks = b"      ".as_slice();
    text.extend_from_slice(&blanks[2 * bytes.len()..])?;
    text.push(b' ')?;
    Ok(())
}
