//! The lines of instructions and of data.

ghost use Rattle.std.specs.Prelude.{◌≡◌, ◌-◌, ◌<◌, ◌≤◌, ◌++◌, codes, drop, length, OnOk};
ghost use Rattle.std.specs.List.{flat_map};
ghost use Rattle.decode80.specs.Spelling.{spelling};
ghost use Rattle.text80.specs.Digits.{byte_text};
ghost use Rattle.decode80.specs.Text.{text};
ghost use Rattle.image80_text.specs.Listing.{columns};
ghost use Rattle.loader80_trace.specs.Lines.{filled};
ghost use Rattle.loader80_trace.specs.Cover.{count_text, data_from, data_line, instruction_line, is_data};

use crate::covering::places::{Layout, is_data};
use decode80::{Instr, encode, write_text};
use image80_text::append_columns;
use machine80::Bus;
use std::alloc::{AllocError, Global};
use std::fmt::Write;
use text80::{byte_digits, word_digits};

/// Appends the line of an instruction at an address, with its count behind the text if `shown`.
pub(crate) fn append_instruction(
    alloc: Global,
    shown: bool,
    count: u64,
    at: u16,
    instr: Instr,
    lines: &mut Vec<u8>,
) -> Result<(), AllocError>
    ensures { OnOk result (lines.new.items ≡ lines.old.items ++ instruction_line shown count at instr) }
{
    append_bytes(at, instr, lines)?;
    if shown {
        append_filled(alloc, instr, lines)?;
        append_count(alloc, count, lines)?;
    } else {
        write_text(alloc, instr, lines)?;
    }
    lines.push(b'\n')?;
    Ok(())
}

/// Appends the columns before an instruction's text: its address and its bytes.
fn append_bytes(at: u16, instr: Instr, lines: &mut Vec<u8>) -> Result<(), AllocError>
    ensures { OnOk result (lines.new.items ≡ lines.old.items ++ columns at (spelling instr)) }
{
    let (bytes, length) = encode(instr);
    append_columns(at, &bytes[..length], lines)
}

/// Appends an instruction's text, padded with spaces to ten places.
fn append_filled(alloc: Global, instr: Instr, lines: &mut Vec<u8>) -> Result<(), AllocError>
    ensures { OnOk result (lines.new.items ≡ lines.old.items ++ filled (text instr)) }
{
    let before = lines.len();
    write_text(alloc, instr, lines)?;
    fill_from(before, lines)?;
    Ok(())
}

/// Appends spaces until ten bytes stand from the place `before` on; none if there are that many already. The place must
/// not lie behind the end of the lines.
fn fill_from(before: usize, lines: &mut Vec<u8>) -> Result<(), AllocError>
    requires { before ≤ length lines.old.items }
    ensures { OnOk result (lines.new.items ≡ lines.old.items ++ drop (length lines.old.items - before) (codes "          ")) }
{
    let spaces = b"          ".as_slice();
    let shown = spaces.len().min(lines.len() - before);
    lines.extend_from_slice(&spaces[shown..])
}

/// Appends a bar and the count of an instruction, or `-` if it is 0.
fn append_count(alloc: Global, count: u64, lines: &mut Vec<u8>) -> Result<(), AllocError>
    ensures { OnOk result (lines.new.items ≡ lines.old.items ++ (codes " | " ++ count_text count)) }
{
    lines.extend_from_slice(b" | ".as_slice())?;
    if count == 0 {
        lines.push(b'-')?;
        return Ok(());
    }
    let mut text = String::new(alloc);
    write!(text, "{count}")?;
    lines.extend_from_slice(text.as_bytes())?;
    Ok(())
}

/// Appends the line of the data from an address on, eight bytes at most: the address, the digits and `DATA`.
pub(crate) fn append_data(
    layout: &Layout<'_>,
    at: u16,
    lines: &mut Vec<u8>,
) -> Result<(), AllocError>
    ensures { OnOk result (lines.new.items ≡ lines.old.items
        ++ data_line (is_data layout.now.regions.now layout.now.reached.now) layout.now.memory.now at) }
{
    lines.extend_from_slice(&word_digits(at))?;
    lines.push(b' ')?;
    append_data_bytes(layout, at, lines)?;
    lines.extend_from_slice(b" DATA\n".as_slice())?;
    Ok(())
}

/// Appends the digits of the bytes of data from an address on, up to the next byte that is none, eight at most.
fn append_data_bytes(layout: &Layout<'_>, at: u16, lines: &mut Vec<u8>) -> Result<(), AllocError>
    ensures { OnOk result (lines.new.items ≡ lines.old.items
        ++ flat_map byte_text (data_from (is_data layout.now.regions.now layout.now.reached.now) layout.now.memory.now 8 at)) }
{
    let first = usize::from(at);
    for offset in 0..8 {
        let address = first + offset;
        if !is_data(layout, address) {
            return Ok(());
        }
        lines.extend_from_slice(&byte_digits(layout.memory.load(address as u16)))?;
    }
    Ok(())
}
