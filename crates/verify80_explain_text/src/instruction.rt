//! An instruction as the verifier fetches it, in a line.

ghost use Rattle.std.specs.Prelude.{◌≡◌, ◌-◌, ◌≤◌, ◌++◌, codes, drop, length, OnOk};
ghost use Rattle.decode80.specs.Text.{text as text_of};
ghost use Rattle.image80_text.specs.Listing.{columns};
ghost use Rattle.verify80_explain_text.specs.Instructions.{byte_of, filled, found_text, instruction_text, unknown_text};

use decode80::{Instr, Program, encode, fetch, write_text};
use image80_text::append_columns;
use std::alloc::{AllocError, Global};
use verify80::ImageCode;

/// Appends the line of the instruction at an address up to the bar: address, bytes and text, with
/// `??` as the text if none can be fetched.
pub(crate) fn append_instruction(
    alloc: Global,
    text: &mut Vec<u8>,
    code: &ImageCode<'_>,
    at: u16,
) -> Result<(), AllocError>
    ensures { OnOk result (text.new.items ≡ text.old.items ++ instruction_text code.now at) }
{
    match fetch(at, code) {
        Ok(found) => append_found(alloc, text, at, found.instr)?,
        Err(_) => append_unknown(text, code, at)?,
    }
    text.extend_from_slice(b" |".as_slice())
}

/// Appends the address, the bytes and the text of an instruction.
fn append_found(alloc: Global, text: &mut Vec<u8>, at: u16, instr: Instr) -> Result<(), AllocError>
    ensures { OnOk result (text.new.items ≡ text.old.items ++ found_text at instr) }
{
    let (bytes, length) = encode(instr);
    append_columns(at, &bytes[..length], text)?;
    append_filled(alloc, text, instr)
}

/// Appends an instruction's text, padded with spaces to ten characters.
fn append_filled(alloc: Global, text: &mut Vec<u8>, instr: Instr) -> Result<(), AllocError>
    ensures { OnOk result (text.new.items ≡ text.old.items ++ filled (text_of instr)) }
{
    let before = text.len();
    write_text(alloc, instr, text)?;
    fill_from(before, text)?;
    Ok(())
}

/// Pads with spaces what `text` has from index `before` on, to ten characters. `before` must be at
/// most the length of `text`.
fn fill_from(before: usize, text: &mut Vec<u8>) -> Result<(), AllocError>
    requires { before ≤ length text.old.items }
    ensures { OnOk result (text.new.items ≡ text.old.items ++ drop (length text.old.items - before) (codes "          ")) }
{
    let spaces = b"          ".as_slice();
    let shown = spaces.len().min(text.len() - before);
    text.extend_from_slice(&spaces[shown..])
}

/// Appends the address of an instruction that can't be fetched, its byte if that is code, and `??`.
fn append_unknown(text: &mut Vec<u8>, code: &ImageCode<'_>, at: u16) -> Result<(), AllocError>
    ensures { OnOk result (text.new.items ≡ text.old.items ++ unknown_text code.now at) }
{
    append_byte(text, code, at)?;
    text.extend_from_slice(b"??        ".as_slice())
}

/// Appends an address, and its byte if that is code, in the columns of a listing.
fn append_byte(text: &mut Vec<u8>, code: &ImageCode<'_>, at: u16) -> Result<(), AllocError>
    ensures { OnOk result (text.new.items ≡ text.old.items ++ columns at (byte_of code.now at)) }
{
    if code.is_code(at) {
        append_columns(at, &[code.byte(at)], text)
    } else {
        append_columns(at, &[], text)
    }
}
