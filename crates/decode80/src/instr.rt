//! The instructions.

ghost use Rattle.std.specs.Prelude.{nat_eq};
ghost use Rattle.std.specs.Cmp.{partial_equiv_from_equiv};
ghost use Rattle.std.specs.Cmp.Lexicographic.{pointwise, on_texts_equal};
ghost use Rattle.std.specs.Ordering.{on};
ghost use Rattle.decode80.specs.Spelling.{written};

use crate::condition::Condition;
use crate::encoding::encode;
use crate::mnemonics::mnemonic_of;
use crate::operation::{Operand, Operation};
use crate::pair::{IndexPair, Pair, StackPair};
use crate::register::Register;
use crate::restart::Restart;
use crate::rotation::Rotation;
use std::fmt;

/// One of the 244 instructions of the Intel 8080, with its operands.
///
/// A byte operand is the byte after the opcode; a word operand is the two bytes after it, low byte first. There is no
/// value for a move from memory to memory: that opcode is HLT.
#[derive(Clone, Copy)]
pub enum Instr {
    /// MOV r,s: to the first register from the second.
    Mov(Register, Register),
    /// MOV r,M: to the register from the byte that HL points to.
    Load(Register),
    /// MOV M,r: from the register to the byte that HL points to.
    Store(Register),
    /// MVI r,b: to the register, the byte.
    Mvi(Register, u8),
    /// MVI M,b: to the byte that HL points to.
    MviMemory(u8),
    /// LXI r,w: to the pair, the word.
    Lxi(Pair, u16),
    /// DAD r: add the pair to HL, and the carry to CY.
    Dad(Pair),
    /// INX r: add 1 to the pair; no flag changes.
    Inx(Pair),
    /// DCX r: subtract 1 from the pair; no flag changes.
    Dcx(Pair),
    /// INR r: add 1 to the register.
    Inr(Register),
    /// INR M: add 1 to the byte that HL points to.
    InrMemory,
    /// DCR r: subtract 1 from the register.
    Dcr(Register),
    /// DCR M: subtract 1 from the byte that HL points to.
    DcrMemory,
    /// ADD r, ADD M, ADI b, and the same of the other seven operations on the accumulator.
    Operate(Operation, Operand),
    /// JMP w: jump to the address.
    Jmp(u16),
    /// JNZ w and the other conditional jumps: jump to the address if the condition holds.
    JumpIf(Condition, u16),
    /// CALL w: push the address after the instruction, and jump to the operand.
    Call(u16),
    /// CNZ w and the other conditional calls: call the address if the condition holds.
    CallIf(Condition, u16),
    /// RET: returns to the address that it pops.
    Ret,
    /// RNZ and the other conditional returns: return if the condition holds.
    ReturnIf(Condition),
    /// RST n: call the address 8 times n.
    Rst(Restart),
    /// PUSH r: push the pair, its high byte at the upper address.
    Push(StackPair),
    /// POP r: pop the pair.
    Pop(StackPair),
    /// STAX r: from A to the byte that the pair points to.
    Stax(IndexPair),
    /// LDAX r: to A from the byte that the pair points to.
    Ldax(IndexPair),
    /// SHLD w: from HL to the two bytes at the address.
    Shld(u16),
    /// LHLD w: to HL from the two bytes at the address.
    Lhld(u16),
    /// STA w: from A to the byte at the address.
    Sta(u16),
    /// LDA w: to A from the byte at the address.
    Lda(u16),
    /// RLC, RRC, RAL and RAR: rotate A by one bit.
    Rotate(Rotation),
    /// DAA: decimal adjust A.
    Daa,
    /// CMA: complement A.
    Cma,
    /// STC: set the carry.
    Stc,
    /// CMC: complement the carry.
    Cmc,
    /// XTHL: exchange HL with the word on top of the stack.
    Xthl,
    /// PCHL: jump to the address in HL.
    Pchl,
    /// XCHG: exchange DE and HL.
    Xchg,
    /// SPHL: set the stack pointer to HL.
    Sphl,
    /// IN b: to A from the port.
    In(u8),
    /// OUT b: from A to the port.
    Out(u8),
    /// EI: enable interrupts.
    Ei,
    /// DI: disable interrupts.
    Di,
    /// NOP: changes nothing.
    Nop,
    /// HLT: halts.
    Hlt,
}

/// Instructions are equal exactly if their bytes are: no two different ones are written alike.
impl PartialEq for Instr {
    ghost eq = { on written (pointwise nat_eq) };

    ghost laws = { partial_equiv_from_equiv (on_texts_equal written) };

    /// Whether both instructions have the same bytes.
    fn eq(&self, other: &Instr) -> bool {
        encode(*self).0 == encode(*other).0
    }
}

impl Eq for Instr {
    ghost laws = { on_texts_equal written };
}

/// An instruction is shown by its mnemonic and its bytes: `MVI 06 A5`.
impl fmt::Debug for Instr {
    /// Writes the mnemonic, and each byte after a space, as `MVI 06 A5`.
    fn fmt<W: fmt::Write>(&self, f: &mut fmt::Formatter<W>) -> fmt::Result {
        f.write_str(str::from_utf8(mnemonic_of(*self)).unwrap_or("?"))?;
        let (bytes, length) = encode(*self);
        for byte in bytes.iter().take(length) {
            write!(f, " {byte:02X}")?;
        }
        Ok(())
    }
}
