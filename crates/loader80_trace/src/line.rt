//! The line of one instruction of a run.

ghost use Rattle.std.specs.Prelude.{◌≡◌, ◌-◌, ◌≤◌, ◌++◌, codes, drop, length, OnOk};
ghost use Rattle.decode80.specs.Spelling.{spelling};
ghost use Rattle.text80.specs.Digits.{byte_text, word_text};
ghost use Rattle.decode80.specs.Text.{text};
ghost use Rattle.image80_text.specs.Listing.{columns};
ghost use Rattle.loader80_trace.specs.Lines.{byte_shown, filled, front_text, instruction_line, number_text, registers_text};

use decode80::{Instr, Pair, encode, write_text};
use image80_text::{PublicTable, append_columns, append_label};
use machine80::Cpu;
use std::alloc::{AllocError, Global};
use std::fmt::Write;
use text80::{byte_digits, word_digits};

/// Appends the line of an instruction: its address, bytes and text, the byte that it takes from a port or gives to
/// one, if it does, and the registers before it.
///
/// # Errors
/// `AllocError` only if memory runs out.
pub fn append_line(
    alloc: Global,
    instr: Instr,
    byte: Option<u8>,
    before: &Cpu,
    line: &mut Vec<u8>,
) -> Result<(), AllocError>
    ensures { OnOk result (line.new.items ≡ line.old.items ++ instruction_line instr byte before.now) }
{
    append_bytes(before.pc, instr, line)?;
    append_filled(alloc, instr, byte, line)?;
    append_registers(before, line)?;
    line.push(b'\n')?;
    Ok(())
}

/// Appends the columns before an instruction's text: its address and its bytes.
fn append_bytes(at: u16, instr: Instr, line: &mut Vec<u8>) -> Result<(), AllocError>
    ensures { OnOk result (line.new.items ≡ line.old.items ++ columns at (spelling instr)) }
{
    let (bytes, length) = encode(instr);
    append_columns(at, &bytes[..length], line)
}

/// Appends an instruction's text and its port's byte, if it has one, padded with spaces to ten places.
fn append_filled(
    alloc: Global,
    instr: Instr,
    byte: Option<u8>,
    line: &mut Vec<u8>,
) -> Result<(), AllocError>
    ensures { OnOk result (line.new.items ≡ line.old.items ++ filled (text instr ++ byte_shown byte)) }
{
    let before = line.len();
    write_text(alloc, instr, line)?;
    append_shown(byte, line)?;
    fill_from(before, line)?;
    Ok(())
}

/// Appends the byte of a port, as `=2A`; nothing for `None`.
fn append_shown(byte: Option<u8>, line: &mut Vec<u8>) -> Result<(), AllocError>
    ensures { OnOk result (line.new.items ≡ line.old.items ++ byte_shown byte) }
{
    match byte {
        None => Ok(()),
        Some(byte) => append_byte(b"=", byte, line),
    }
}

/// Appends spaces until ten bytes stand from the place `before` on; none if there are that many already. The place must
/// not lie behind the end of the line.
fn fill_from(before: usize, line: &mut Vec<u8>) -> Result<(), AllocError>
    requires { before ≤ length line.old.items }
    ensures { OnOk result (line.new.items ≡ line.old.items ++ drop (length line.old.items - before) (codes "          ")) }
{
    let spaces = b"          ".as_slice();
    let shown = spaces.len().min(line.len() - before);
    line.extend_from_slice(&spaces[shown..])
}

/// Appends a bar and the registers, as ` | A=00 F=02 BC=0000 DE=0000 HL=0000 SP=4000`.
fn append_registers(cpu: &Cpu, line: &mut Vec<u8>) -> Result<(), AllocError>
    ensures { OnOk result (line.new.items ≡ line.old.items ++ registers_text cpu.now) }
{
    append_byte(b" | A=", cpu.registers.a, line)?;
    append_byte(b" F=", cpu.flags_byte(), line)?;
    append_word(b" BC=", cpu.pair(Pair::Bc), line)?;
    append_word(b" DE=", cpu.pair(Pair::De), line)?;
    append_word(b" HL=", cpu.pair(Pair::Hl), line)?;
    append_word(b" SP=", cpu.sp, line)?;
    Ok(())
}

/// Appends a name and the two hexadecimal digits of a byte.
fn append_byte(name: &[u8], byte: u8, line: &mut Vec<u8>) -> Result<(), AllocError>
    ensures { OnOk result (line.new.items ≡ line.old.items ++ (name.now ++ byte_text byte)) }
{
    line.extend_from_slice(name)?;
    line.extend_from_slice(&byte_digits(byte))
}

/// Appends a name and the four hexadecimal digits of a word.
fn append_word(name: &[u8], word: u16, line: &mut Vec<u8>) -> Result<(), AllocError>
    ensures { OnOk result (line.new.items ≡ line.old.items ++ (name.now ++ word_text word)) }
{
    line.extend_from_slice(name)?;
    line.extend_from_slice(&word_digits(word))
}

/// The options of a run's lines: whether they are numbered, and the names of addresses.
#[derive(Clone, Copy)]
pub struct LineForm<'a> {
    /// Whether each line begins with the number of steps that were made before it.
    pub numbered: bool,
    /// The publics whose names stand on lines of their own before the instructions at their addresses; it may have none.
    pub publics: &'a PublicTable,
}

/// Appends what comes before an instruction's line: the line of the name of its address, if it has one, and its
/// number, if lines are numbered.
///
/// # Errors
/// `AllocError` only if memory runs out.
pub fn append_front(
    alloc: Global,
    publics: &PublicTable,
    numbered: bool,
    at: u16,
    number: u64,
    line: &mut Vec<u8>,
) -> Result<(), AllocError>
    ensures { OnOk result (line.new.items ≡ line.old.items ++ front_text publics.now numbered at number) }
{
    append_label(publics, at, line)?;
    append_number(alloc, numbered, number, line)
}

/// Appends the number of a line in decimal and a space if lines are numbered; otherwise nothing.
fn append_number(
    alloc: Global,
    numbered: bool,
    number: u64,
    line: &mut Vec<u8>,
) -> Result<(), AllocError>
    ensures { OnOk result (line.new.items ≡ line.old.items ++ number_text numbered number) }
{
    if !numbered {
        return Ok(());
    }
    let mut text = String::new(alloc);
    write!(text, "{number} ")?;
    line.extend_from_slice(text.as_bytes())
}
