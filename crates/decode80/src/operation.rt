//! The eight operations on the accumulator, and their operands.

use crate::register::Register;

/// An operation on the accumulator: a field of three bits, 0 to 7 in this order.
#[derive(Clone, Copy, PartialEq, Eq)]
pub enum Operation {
    /// ADD, ADI: add.
    Add,
    /// ADC, ACI: add with the carry.
    AddCarry,
    /// SUB, SUI: subtract.
    Subtract,
    /// SBB, SBI: subtract with the borrow.
    SubtractBorrow,
    /// ANA, ANI: bitwise and.
    And,
    /// XRA, XRI: bitwise exclusive or.
    ExclusiveOr,
    /// ORA, ORI: bitwise or.
    Or,
    /// CMP, CPI: the flags of a subtraction, and the accumulator stays.
    Compare,
}

impl Operation {
    ghost use Rattle.std.specs.Prelude.{◌≡◌, ◌<◌};
    ghost use Rattle.decode80.specs.Operation.{operation_code};
    ghost use Rattle.decode80.specs.Text.{immediate_text, operation_text};

    /// The three bits that name the operation in an opcode, 0 to 7.
    pub(crate) fn code(self) -> u8
        ensures value { result ≡ operation_code self }
        ensures small { result < 8 }
    {
        match self {
            Operation::Add => 0,
            Operation::AddCarry => 1,
            Operation::Subtract => 2,
            Operation::SubtractBorrow => 3,
            Operation::And => 4,
            Operation::ExclusiveOr => 5,
            Operation::Or => 6,
            Operation::Compare => 7,
        }
    }

    /// The mnemonic of the operation on a register or M, such as ADD.
    pub(crate) fn text(self) -> &'static [u8]
        ensures { result.now ≡ operation_text self }
    {
        match self {
            Operation::Add => b"ADD",
            Operation::AddCarry => b"ADC",
            Operation::Subtract => b"SUB",
            Operation::SubtractBorrow => b"SBB",
            Operation::And => b"ANA",
            Operation::ExclusiveOr => b"XRA",
            Operation::Or => b"ORA",
            Operation::Compare => b"CMP",
        }
    }

    /// The mnemonic of the operation on an immediate byte, such as ADI.
    pub(crate) fn immediate_text(self) -> &'static [u8]
        ensures { result.now ≡ immediate_text self }
    {
        match self {
            Operation::Add => b"ADI",
            Operation::AddCarry => b"ACI",
            Operation::Subtract => b"SUI",
            Operation::SubtractBorrow => b"SBI",
            Operation::And => b"ANI",
            Operation::ExclusiveOr => b"XRI",
            Operation::Or => b"ORI",
            Operation::Compare => b"CPI",
        }
    }
}

/// Where an operation takes its second value from.
#[derive(Clone, Copy, PartialEq, Eq)]
pub enum Operand {
    /// A register.
    Register(Register),
    /// M: the byte that HL points to.
    Memory,
    /// The byte after the opcode, as in ADI.
    Immediate(u8),
}
