//! From an instruction to its text.

ghost use Rattle.std.specs.Prelude.{◌≡◌, ◌+◌, ◌<◌, ◌≤◌, ◌++◌, [], OnOk, OnErr, codes, drop, length, take, vec_len, vec_capacity};
ghost use Rattle.decode80.specs.Text.{joined, mnemonic, operand_text, operand_texts, text};

use crate::instr::Instr;
use crate::mnemonics::mnemonic_of;
use crate::operation::Operand;
use std::alloc::{AllocError, Global};
use text80::{byte_digits, digit, word_digits};

/// Appends the text of an instruction: the mnemonic, and if it has operands a space and the operands joined by commas,
/// as `MOV A,M`, `LXI SP,3200`, `IN 01`, `RST 7`, `RNZ`.
///
/// Pairs are written B D H SP PSW, bytes with two and words with four upper case hexadecimal digits, the number of RST with
/// one digit (Intel 8080 Assembly Language Programming Manual). No memory is taken but what `out` grows by.
///
/// # Errors
///
/// `AllocError` if memory runs out, which it can't if `out` has room for the text; `out` is then
/// unchanged.
pub fn write_text(_alloc: Global, instr: Instr, out: &mut Vec<u8>) -> Result<(), AllocError>
    ensures ok { OnOk result (out.new.items ≡ out.old.items ++ text instr) }
    ensures err { OnErr result (out.new.items ≡ out.old.items) }
    ensures full { OnErr result (vec_capacity out.old < vec_len out.old + length (text instr)) }
{
    let before = out.len();
    match append_text(instr, out) {
        Ok(()) => Ok(()),
        Err(refused) => {
            out.truncate(before);
            Err(refused)
        }
    }
}

/// Appends the text of an instruction. If memory runs out, which it can't if `out` has room for the text, a part of it
/// may have been appended after what `out` had.
fn append_text(instr: Instr, out: &mut Vec<u8>) -> Result<(), AllocError>
    ensures ok { OnOk result (out.new.items ≡ out.old.items ++ text instr) }
    ensures err { OnErr result (take (vec_len out.old) out.new.items ≡ out.old.items) }
    ensures full { OnErr result (vec_capacity out.old < vec_len out.old + length (text instr)) }
    ensures capacity { vec_capacity out.old ≤ vec_capacity out.new }
{
    append(mnemonic_of(instr), out)?;
    append_operands(instr, out)
}

/// Appends a space and the operands of an instruction, joined by commas; nothing if it has none. If memory runs out,
/// a part may have been appended.
fn append_operands(instr: Instr, out: &mut Vec<u8>) -> Result<(), AllocError>
    ensures ok { OnOk result (out.new.items ≡ out.old.items ++ joined (operand_texts instr)) }
    ensures err { OnErr result (take (vec_len out.old) out.new.items ≡ out.old.items) }
    ensures full { OnErr result (vec_capacity out.old < vec_len out.old + length (joined (operand_texts instr))) }
    ensures capacity { vec_capacity out.old ≤ vec_capacity out.new }
{
    match instr {
        Instr::Mov(to, from) => append_two(to.text(), from.text(), out),
        Instr::Load(to) => append_two(to.text(), b"M", out),
        Instr::Store(from) => append_two(b"M", from.text(), out),
        Instr::Mvi(to, byte) => append_two(to.text(), &byte_digits(byte), out),
        Instr::MviMemory(byte) => append_two(b"M", &byte_digits(byte), out),
        Instr::Lxi(pair, word) => append_two(pair.text(), &word_digits(word), out),
        single => append_operand(single, out),
    }
}

/// Appends a space and the operand of an instruction, which must have at most one; nothing if it has none. If memory
/// runs out, which it can't if `out` has room for these, a part may have been appended.
fn append_operand(instr: Instr, out: &mut Vec<u8>) -> Result<(), AllocError>
    requires { drop 1 (operand_texts instr) ≡ [] }
    ensures ok { OnOk result (out.new.items ≡ out.old.items ++ joined (operand_texts instr)) }
    ensures err { OnErr result (take (vec_len out.old) out.new.items ≡ out.old.items) }
    ensures full { OnErr result (vec_capacity out.old < vec_len out.old + length (joined (operand_texts instr))) }
    ensures capacity { vec_capacity out.old ≤ vec_capacity out.new }
{
    match instr {
        Instr::Inr(register) | Instr::Dcr(register) => append_one(register.text(), out),
        Instr::InrMemory | Instr::DcrMemory => append_one(b"M", out),
        Instr::Operate(_, operand) => append_value(operand, out),
        Instr::Dad(pair) | Instr::Inx(pair) | Instr::Dcx(pair) => append_one(pair.text(), out),
        Instr::Push(pair) | Instr::Pop(pair) => append_one(pair.text(), out),
        Instr::Stax(pair) | Instr::Ldax(pair) => append_one(pair.text(), out),
        Instr::In(port) | Instr::Out(port) => append_one(&byte_digits(port), out),
        Instr::Jmp(word)
        | Instr::JumpIf(_, word)
        | Instr::Call(word)
        | Instr::CallIf(_, word)
        | Instr::Shld(word)
        | Instr::Lhld(word)
        | Instr::Sta(word)
        | Instr::Lda(word) => append_one(&word_digits(word), out),
        Instr::Rst(number) => append_one(&digit(number.code()), out),
        Instr::Ret
        | Instr::ReturnIf(_)
        | Instr::Rotate(_)
        | Instr::Daa
        | Instr::Cma
        | Instr::Stc
        | Instr::Cmc
        | Instr::Xthl
        | Instr::Pchl
        | Instr::Xchg
        | Instr::Sphl
        | Instr::Ei
        | Instr::Di
        | Instr::Nop
        | Instr::Hlt => Ok(()),
        _ => unreachable!(),
    }
}

/// Appends a space and the operand of an operation on the accumulator: a register, M or a byte. If memory runs out, a
/// part may have been appended.
fn append_value(operand: Operand, out: &mut Vec<u8>) -> Result<(), AllocError>
    ensures ok { OnOk result (out.new.items ≡ out.old.items ++ (codes " " ++ operand_text operand)) }
    ensures err { OnErr result (take (vec_len out.old) out.new.items ≡ out.old.items) }
    ensures full { OnErr result (vec_capacity out.old < vec_len out.old + length (codes " " ++ operand_text operand)) }
    ensures capacity { vec_capacity out.old ≤ vec_capacity out.new }
{
    match operand {
        Operand::Register(register) => append_one(register.text(), out),
        Operand::Memory => append_one(b"M", out),
        Operand::Immediate(byte) => append_one(&byte_digits(byte), out),
    }
}

/// Appends a space and an operand. If memory runs out, which it can't if `out` has room for these, the space may have
/// been appended.
fn append_one(operand: &[u8], out: &mut Vec<u8>) -> Result<(), AllocError>
    ensures ok { OnOk result (out.new.items ≡ out.old.items ++ (codes " " ++ operand.now)) }
    ensures err { OnErr result (take (vec_len out.old) out.new.items ≡ out.old.items) }
    ensures full { OnErr result (vec_capacity out.old < vec_len out.old + length (codes " " ++ operand.now)) }
    ensures capacity { vec_capacity out.old ≤ vec_capacity out.new }
{
    append_after(b" ", operand, out)
}

/// Appends a space and two operands, with a comma between them. If memory runs out, which it can't if `out` has room
/// for these, a part may have been appended.
fn append_two(first: &[u8], second: &[u8], out: &mut Vec<u8>) -> Result<(), AllocError>
    ensures ok { OnOk result (out.new.items ≡ out.old.items ++ (codes " " ++ first.now ++ (codes "," ++ second.now))) }
    ensures err { OnErr result (take (vec_len out.old) out.new.items ≡ out.old.items) }
    ensures full { OnErr result
        (vec_capacity out.old < vec_len out.old + length (codes " " ++ first.now ++ (codes "," ++ second.now))) }
    ensures capacity { vec_capacity out.old ≤ vec_capacity out.new }
{
    append_after(b" ", first, out)?;
    append_after(b",", second, out)
}

/// Appends a separator and an operand. If memory runs out, which it can't if `out` has room for these, the separator
/// may have been appended.
fn append_after(separator: &[u8], operand: &[u8], out: &mut Vec<u8>) -> Result<(), AllocError>
    ensures ok { OnOk result (out.new.items ≡ out.old.items ++ (separator.now ++ operand.now)) }
    ensures err { OnErr result (take (vec_len out.old) out.new.items ≡ out.old.items) }
    ensures full { OnErr result (vec_capacity out.old < vec_len out.old + length (separator.now ++ operand.now)) }
    ensures capacity { vec_capacity out.old ≤ vec_capacity out.new }
{
    append(separator, out)?;
    append(operand, out)
}

/// Appends bytes, or none of them if memory runs out, which it can't if `out` has room for them.
fn append(bytes: &[u8], out: &mut Vec<u8>) -> Result<(), AllocError>
    ensures ok { OnOk result (out.new.items ≡ out.old.items ++ bytes.now) }
    ensures err { OnErr result (take (vec_len out.old) out.new.items ≡ out.old.items) }
    ensures full { OnErr result (vec_capacity out.old < vec_len out.old + length bytes.now) }
    ensures capacity { vec_capacity out.old ≤ vec_capacity out.new }
{
    out.extend_from_slice(bytes)
}
