//! From bytes to an instruction.

ghost use Rattle.std.specs.Prelude.{◌≡◌, ◌↔◌, ℕ, Some, None, IfSome, Contains, length, slice_index};
ghost use Rattle.decode80.specs.declared.instr.Instr.{Instr};
ghost use Rattle.decode80.specs.Decoded.{completed, decoded, length_at, row};
ghost use Rattle.decode80.specs.Spelling.{spelling, unused_bytes, BeginsWith};

use crate::instr::Instr;
use crate::operation::Operand;
use crate::table::ROWS;

/// The instruction that the bytes begin with, and its length, 1 to 3.
///
/// `None` exactly if the first byte is one of the twelve unused ones, 0x08 0x10 0x18 0x20 0x28 0x30 0x38 0xCB 0xD9 0xDD
/// 0xED 0xFD: these begin no instruction (Intel 8080 Assembly Language Programming Manual). The bytes past the length have
/// no part in the answer.
#[inline]
pub fn decode(bytes: [u8; 3]) -> Option<(Instr, usize)>
    // The answer as a value that computes.
    ensures value { result ≡ decoded (slice_index bytes 0) (slice_index bytes 1) (slice_index bytes 2) }
    // The answer is the one instruction whose spelling begins the bytes.
    ensures found { (i : Instr) (n : ℕ) →
        (result ≡ Some (i, n)) ↔ (BeginsWith bytes i × (n ≡ length (spelling i))) }
    ensures none { (result ≡ None) ↔ ((i : Instr) → BeginsWith bytes i → ⊥) }
    ensures unused { (result ≡ None) ↔ Contains unused_bytes (slice_index bytes 0) }
{
    let [first, second, third] = bytes;
    row_at(first).map(|row| complete(row, second, third))
}

/// The length, 1 to 3, of every instruction with this first byte.
///
/// `None` exactly if it is one of the twelve unused bytes, 0x08 0x10 0x18 0x20 0x28 0x30 0x38 0xCB 0xD9 0xDD 0xED 0xFD
/// (Intel 8080 Assembly Language Programming Manual).
#[inline]
pub fn length_of(first: u8) -> Option<usize>
    // The answer as a value that computes.
    ensures value { result ≡ length_at first }
    // Every instruction with this first byte has this length, and there is one.
    ensures each { (i : Instr) → slice_index (spelling i) 0 ≡ first → result ≡ Some (length (spelling i)) }
    ensures some { IfSome result (λ n. (i : Instr) × (slice_index (spelling i) 0 ≡ first) × (length (spelling i) ≡ n)) }
    ensures unused { (result ≡ None) ↔ Contains unused_bytes first }
{
    row_at(first).map(|row| complete(row, 0, 0).1)
}

/// The instruction with this first byte, its operand byte or word being 0; `None` for the twelve unused bytes.
#[inline]
fn row_at(first: u8) -> Option<Instr>
    ensures { result ≡ row first }
{
    ROWS[first as usize]
}

/// An instruction of the opcode table with its operand made of the bytes that follow the opcode, as many as it takes,
/// and its length, 1 to 3.
#[inline]
fn complete(row: Instr, low: u8, high: u8) -> (Instr, usize)
    ensures { result ≡ completed low high row }
{
    let word = u16::from_le_bytes([low, high]);
    match row {
        Instr::Mvi(to, _) => (Instr::Mvi(to, low), 2),
        Instr::MviMemory(_) => (Instr::MviMemory(low), 2),
        Instr::Operate(operation, Operand::Immediate(_)) => {
            (Instr::Operate(operation, Operand::Immediate(low)), 2)
        }
        Instr::In(_) => (Instr::In(low), 2),
        Instr::Out(_) => (Instr::Out(low), 2),
        Instr::Lxi(pair, _) => (Instr::Lxi(pair, word), 3),
        Instr::Jmp(_) => (Instr::Jmp(word), 3),
        Instr::JumpIf(condition, _) => (Instr::JumpIf(condition, word), 3),
        Instr::Call(_) => (Instr::Call(word), 3),
        Instr::CallIf(condition, _) => (Instr::CallIf(condition, word), 3),
        Instr::Shld(_) => (Instr::Shld(word), 3),
        Instr::Lhld(_) => (Instr::Lhld(word), 3),
        Instr::Sta(_) => (Instr::Sta(word), 3),
        Instr::Lda(_) => (Instr::Lda(word), 3),
        alone => (alone, 1),
    }
}
