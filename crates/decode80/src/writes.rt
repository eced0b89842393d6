//! The registers and the flags that an instruction writes.

use crate::pair::Pair;
use crate::register::Register;

/// The registers that an instruction writes, apart from the program counter, and from the stack pointer if it pushes
/// or pops.
#[derive(Clone, Copy, PartialEq, Eq)]
pub enum Writes {
    /// No register.
    Nothing,
    /// One register of eight bits.
    One(Register),
    /// Both registers of a pair, or the stack pointer.
    Both(Pair),
    /// XCHG: DE and HL.
    DeAndHl,
}

impl Writes {
    ghost use Rattle.std.specs.Prelude.{◌≡◌};
    ghost use Rattle.decode80.specs.Facts.{writes_pair};

    /// Whether a register of this pair is written; for SP, whether the stack pointer is.
    pub fn includes(self, pair: Pair) -> bool
        ensures { result ≡ writes_pair self pair }
    {
        match (self, pair) {
            (Writes::One(Register::B | Register::C), Pair::Bc) => true,
            (Writes::One(Register::D | Register::E), Pair::De) => true,
            (Writes::One(Register::H | Register::L), Pair::Hl) => true,
            (Writes::Both(Pair::Bc), Pair::Bc) => true,
            (Writes::Both(Pair::De), Pair::De) => true,
            (Writes::Both(Pair::Hl), Pair::Hl) => true,
            (Writes::Both(Pair::Sp), Pair::Sp) => true,
            (Writes::DeAndHl, Pair::De | Pair::Hl) => true,
            _ => false,
        }
    }
}

/// The flags that an instruction affects.
#[derive(Clone, Copy, PartialEq, Eq)]
pub enum AffectedFlags {
    /// No flag.
    NoFlags,
    /// The carry flag alone.
    CarryAlone,
    /// Sign, zero, auxiliary carry and parity: all but the carry flag.
    AllButCarry,
    /// All five flags.
    AllFlags,
}

impl AffectedFlags {
    ghost use Rattle.std.specs.Prelude.{◌≡◌};
    ghost use Rattle.decode80.specs.Facts.{affects_carry};

    /// Whether the carry flag is affected.
    pub fn include_carry(self) -> bool
        ensures { result ≡ affects_carry self }
    {
        match self {
            AffectedFlags::CarryAlone | AffectedFlags::AllFlags => true,
            AffectedFlags::NoFlags | AffectedFlags::AllButCarry => false,
        }
    }
}
