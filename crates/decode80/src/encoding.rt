//! From an instruction to its bytes.

ghost use Rattle.std.specs.Prelude.{◌≡◌, ◌%◌, ◌/◌, [], ◌∷◌, Some, length, slice_index};
ghost use Rattle.decode80.specs.Decoded.{decoded};
ghost use Rattle.decode80.specs.Spelling.{opcode, padded, spelling};

use crate::instr::Instr;
use crate::operation::Operand;

/// The three bits that name M, the byte that HL points to, in place of a register.
const MEMORY: u8 = 6;

/// The bytes that an instruction is written with, 00 past its length, and that length, 1 to 3.
///
/// `decode` of these bytes gives the instruction and its length again.
pub fn encode(instr: Instr) -> ([u8; 3], usize)
    ensures bytes { result.0 ≡ padded (spelling instr) }
    ensures length { result.1 ≡ length (spelling instr) }
    // What is encoded is decoded as itself.
    ensures again { decoded (slice_index result.0 0) (slice_index result.0 1) (slice_index result.0 2) ≡ Some (instr, result.1) }
{
    spell(instr)
}

/// The bytes of an instruction, filled with 00 to three, and its length, 1 to 3.
fn spell(instr: Instr) -> ([u8; 3], usize)
    ensures bytes { result.0 ≡ padded (spelling instr) }
    ensures length { result.1 ≡ length (spelling instr) }
{
    match instr {
        Instr::Mvi(to, byte) => with_byte(0x06 + 8 * to.code(), byte),
        Instr::MviMemory(byte) => with_byte(0x06 + 8 * MEMORY, byte),
        Instr::Operate(operation, Operand::Immediate(byte)) => {
            with_byte(0xC6 + 8 * operation.code(), byte)
        }
        Instr::In(port) => with_byte(0xDB, port),
        Instr::Out(port) => with_byte(0xD3, port),
        Instr::Lxi(pair, word) => with_word(0x01 + 16 * pair.code(), word),
        Instr::Jmp(to) => with_word(0xC3, to),
        Instr::JumpIf(condition, to) => with_word(0xC2 + 8 * condition.code(), to),
        Instr::Call(to) => with_word(0xCD, to),
        Instr::CallIf(condition, to) => with_word(0xC4 + 8 * condition.code(), to),
        Instr::Shld(address) => with_word(0x22, address),
        Instr::Lhld(address) => with_word(0x2A, address),
        Instr::Sta(address) => with_word(0x32, address),
        Instr::Lda(address) => with_word(0x3A, address),
        alone => ([opcode_alone(alone), 0, 0], 1),
    }
}

/// The three bytes and the length, 2, of an instruction with a byte operand.
fn with_byte(opcode: u8, byte: u8) -> ([u8; 3], usize)
    ensures { result ≡ (opcode ∷ byte ∷ 0 ∷ [], 2) }
{
    ([opcode, byte, 0], 2)
}

/// The three bytes and the length, 3, of an instruction with a word operand, low byte first.
fn with_word(opcode: u8, word: u16) -> ([u8; 3], usize)
    ensures { result ≡ (opcode ∷ word % 256 ∷ word / 256 ∷ [], 3) }
{
    let [low, high] = word.to_le_bytes();
    ([opcode, low, high], 3)
}

/// The opcode of an instruction, which must have one byte only.
fn opcode_alone(instr: Instr) -> u8
    requires { length (spelling instr) ≡ 1 }
    ensures { result ≡ opcode instr }
{
    match instr {
        Instr::Mov(to, from) => 0x40 + 8 * to.code() + from.code(),
        Instr::Load(to) => 0x40 + 8 * to.code() + MEMORY,
        Instr::Store(from) => 0x40 + 8 * MEMORY + from.code(),
        Instr::Operate(operation, Operand::Register(from)) => {
            0x80 + 8 * operation.code() + from.code()
        }
        Instr::Operate(operation, Operand::Memory) => 0x80 + 8 * operation.code() + MEMORY,
        Instr::Dad(pair) => 0x09 + 16 * pair.code(),
        Instr::Inx(pair) => 0x03 + 16 * pair.code(),
        Instr::Dcx(pair) => 0x0B + 16 * pair.code(),
        Instr::Inr(to) => 0x04 + 8 * to.code(),
        Instr::InrMemory => 0x04 + 8 * MEMORY,
        Instr::Dcr(to) => 0x05 + 8 * to.code(),
        Instr::DcrMemory => 0x05 + 8 * MEMORY,
        Instr::Ret => 0xC9,
        Instr::ReturnIf(condition) => 0xC0 + 8 * condition.code(),
        Instr::Rst(number) => 0xC7 + 8 * number.code(),
        Instr::Push(pair) => 0xC5 + 16 * pair.code(),
        Instr::Pop(pair) => 0xC1 + 16 * pair.code(),
        Instr::Stax(pair) => 0x02 + 16 * pair.code(),
        Instr::Ldax(pair) => 0x0A + 16 * pair.code(),
        Instr::Rotate(rotation) => 0x07 + 8 * rotation.code(),
        Instr::Daa => 0x27,
        Instr::Cma => 0x2F,
        Instr::Stc => 0x37,
        Instr::Cmc => 0x3F,
        Instr::Xthl => 0xE3,
        Instr::Pchl => 0xE9,
        Instr::Xchg => 0xEB,
        Instr::Sphl => 0xF9,
        Instr::Ei => 0xFB,
        Instr::Di => 0xF3,
        Instr::Nop => 0x00,
        Instr::Hlt => 0x76,
        _ => unreachable!(),
    }
}
