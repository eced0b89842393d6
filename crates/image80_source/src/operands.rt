//! The operands of instructions as an assembler takes them.

ghost use Rattle.std.specs.Prelude.{◌≡◌, ◌<◌, ◌++◌, OnOk, length};
ghost use Rattle.text80.specs.Digits.{word_text};
ghost use Rattle.image80_source.specs.SourceText.{datum_of, instruction_text, number_text, port_operand, with_datum, without_last, word_operand};

use crate::labels::Labels;
use decode80::{Instr, Operand, write_text};
use std::alloc::{AllocError, Global};
use text80::{byte_digits, word_digits};

/// The datum that ends an instruction's text.
#[derive(Clone, Copy)]
pub enum Datum {
    /// None: its text ends with a register, a number of RST, or its mnemonic.
    NoDatum,
    /// A byte.
    OneByte(u8),
    /// A port.
    OnePort(u8),
    /// A word.
    OneWord(u16),
}

/// The datum that ends an instruction's text.
pub(crate) fn datum_of(instr: Instr) -> Datum
    ensures { result ≡ datum_of instr }
{
    match instr {
        Instr::Mvi(_, byte)
        | Instr::MviMemory(byte)
        | Instr::Operate(_, Operand::Immediate(byte)) => Datum::OneByte(byte),
        Instr::In(port) | Instr::Out(port) => Datum::OnePort(port),
        Instr::Lxi(_, word)
        | Instr::Jmp(word)
        | Instr::JumpIf(_, word)
        | Instr::Call(word)
        | Instr::CallIf(_, word)
        | Instr::Shld(word)
        | Instr::Lhld(word)
        | Instr::Sta(word)
        | Instr::Lda(word) => Datum::OneWord(word),
        _ => Datum::NoDatum,
    }
}

/// Appends an instruction's text: its bytes and words as hexadecimal numbers, ports and addresses by their names.
pub(crate) fn append_instruction(
    alloc: Global,
    labels: &Labels<'_>,
    instr: Instr,
    out: &mut Vec<u8>,
) -> Result<(), AllocError>
    ensures { OnOk result (out.new.items ≡ out.old.items ++ instruction_text labels.now instr) }
{
    let mut shown = Vec::new(alloc);
    write_text(alloc, instr, &mut shown)?;
    append_with_datum(labels, &shown, datum_of(instr), out)
}

/// Appends a text that ends with the digits of a datum, with the datum as an assembler takes it.
fn append_with_datum(
    labels: &Labels<'_>,
    shown: &[u8],
    datum: Datum,
    out: &mut Vec<u8>,
) -> Result<(), AllocError>
    ensures { OnOk result (out.new.items ≡ out.old.items ++ with_datum labels.now shown.now datum) }
{
    match datum {
        Datum::NoDatum => out.extend_from_slice(shown),
        Datum::OneByte(byte) => {
            out.extend_from_slice(without_last(shown, 2))?;
            append_number(&byte_digits(byte), out)
        }
        Datum::OnePort(port) => {
            out.extend_from_slice(without_last(shown, 2))?;
            append_port(labels, port, out)
        }
        Datum::OneWord(word) => {
            out.extend_from_slice(without_last(shown, 4))?;
            append_word(labels, word, out)
        }
    }
}

/// A text without its last `count` characters.
fn without_last(shown: &[u8], count: usize) -> &[u8]
    ensures { result.now ≡ without_last count shown.now }
{
    &shown[..shown.len().saturating_sub(count)]
}

/// Appends a hexadecimal number of these digits, with a 0 before it if it begins with a letter.
pub(crate) fn append_number(digits: &[u8], out: &mut Vec<u8>) -> Result<(), AllocError>
    requires { 0 < length digits.now }
    ensures { OnOk result (out.new.items ≡ out.old.items ++ number_text digits.now) }
{
    if digits[0] >= b'A' {
        out.push(b'0')?;
    }
    out.extend_from_slice(digits)?;
    out.push(b'H')?;
    Ok(())
}

/// Appends a word: the label of its address, or a number.
pub(crate) fn append_word(
    labels: &Labels<'_>,
    word: u16,
    out: &mut Vec<u8>,
) -> Result<(), AllocError>
    ensures { OnOk result (out.new.items ≡ out.old.items ++ word_operand labels.now word) }
{
    if labels.has_label(word) {
        return labels.append_name(word, out);
    }
    append_address(word, out)
}

/// Appends an address as a hexadecimal number.
pub(crate) fn append_address(address: u16, out: &mut Vec<u8>) -> Result<(), AllocError>
    ensures { OnOk result (out.new.items ≡ out.old.items ++ number_text (word_text address)) }
{
    append_number(&word_digits(address), out)
}

/// Appends a port: its name, or a number.
fn append_port(labels: &Labels<'_>, port: u8, out: &mut Vec<u8>) -> Result<(), AllocError>
    ensures { OnOk result (out.new.items ≡ out.old.items ++ port_operand labels.now port) }
{
    if labels.has_port(port) {
        out.push(b'P')?;
        return out.extend_from_slice(&byte_digits(port));
    }
    append_number(&byte_digits(port), out)
}
