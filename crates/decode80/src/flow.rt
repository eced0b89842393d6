//! How an instruction goes on.

use crate::condition::Condition;

/// How an instruction goes on, and what it does with the stack: to the next instruction; by a jump, a call or a return, under a
/// condition or under none; to the next instruction after a push, a pop, or an exchange of HL with the top of the stack; or not at
/// all.
#[derive(Clone, Copy, PartialEq, Eq)]
pub enum Flow {
    /// To the next instruction, with the stack untouched.
    Continues,
    /// JMP: to this address.
    Jumps(u16),
    /// JNZ and the other conditional jumps: to this address if the condition holds, else to the next instruction.
    JumpsIf(Condition, u16),
    /// PCHL: to the address in HL.
    JumpsToHl,
    /// CALL and RST: to this address, after a push of the return address.
    Calls(u16),
    /// CNZ and the other conditional calls: a call of this address if the condition holds, else to the next instruction.
    CallsIf(Condition, u16),
    /// RET: to the address that it pops.
    Returns,
    /// RNZ and the other conditional returns: a return if the condition holds, else to the next instruction.
    ReturnsIf(Condition),
    /// PUSH: to the next instruction, after a push of a pair.
    Pushes,
    /// POP: to the next instruction, after a pop of a pair.
    Pops,
    /// XTHL: to the next instruction, after an exchange of HL with the top of the stack.
    Exchanges,
    /// HLT: not at all.
    Halts,
}
