//! A comparison that bounds the index of a table:
//!
//! ```text
//! CPI n
//! JNC elsewhere  (or RNC)
//! MOV E,A        (or MOV C,A, MOV L,A)
//! MVI D,0        (or of B, H)
//! LXI H,table
//! DAD D
//! ```
//!
//! Other instructions may come between, if they leave the carry flag, then A but for doubling it, and then the pair.

ghost use Rattle.std.specs.Prelude.{◌≡◌, Contains, IfSome, List, Some, ℕ};
ghost use Rattle.verify80_cases.specs.Trails.{IsPassed, cpi_of};

use crate::changes::{may_change, may_change_a, may_change_carry};
use crate::leads::is_call;
use decode80::{Condition, Instr, Operand, Operation, Pair, Register};

/// How far the code of a comparison that bounds an index has been seen, with the address of its
/// CPI.
#[derive(Clone, Copy)]
pub(crate) enum Bound {
    /// No comparison is seen.
    Unknown,
    /// The carry flag says whether A is below the operand.
    Compared(u16),
    /// A is below the operand, or was before it was doubled.
    Below(u16),
    /// The pair's low byte has what A had.
    Index(u16, Pair),
    /// The pair was added to the table's address, at least once.
    Added(u16),
}

impl Bound {
    /// The address of the CPI that bounds the index in HL; `None` if none does.
    pub(crate) fn comparison(self) -> Option<u16>
        ensures { IfSome result (λ cpi. cpi_of self ≡ Some cpi) }
    {
        match self {
            Bound::Added(cpi) => Some(cpi),
            _ => None,
        }
    }

    /// The state after an instruction at address `at`.
    pub(crate) fn after(self, at: u16, instr: Instr) -> Bound
        ensures { (passed : List ℕ) → Contains passed at → IsPassed passed (cpi_of self) → IsPassed passed (cpi_of result) }
    {
        match instr {
            Instr::Operate(Operation::Compare, Operand::Immediate(_)) => Bound::Compared(at),
            _ if is_call(instr) => Bound::Unknown,
            _ => self.after_other(instr),
        }
    }

    /// The state after an instruction that is neither a CPI nor a call.
    fn after_other(self, instr: Instr) -> Bound
        ensures { (passed : List ℕ) → IsPassed passed (cpi_of self) → IsPassed passed (cpi_of result) }
    {
        match self {
            Bound::Unknown => Bound::Unknown,
            Bound::Compared(cpi) => compared_after(cpi, instr),
            Bound::Below(cpi) => below_after(cpi, instr),
            Bound::Index(cpi, pair) => index_after(cpi, pair, instr),
            Bound::Added(cpi) => added_after(cpi, instr),
        }
    }
}

/// The state after an instruction that follows the CPI while the carry flag still has its result.
fn compared_after(cpi: u16, instr: Instr) -> Bound
    ensures { (passed : List ℕ) → Contains passed cpi → IsPassed passed (cpi_of result) }
{
    match instr {
        Instr::JumpIf(Condition::NoCarry, _) | Instr::ReturnIf(Condition::NoCarry) => Bound::Below(
            cpi,
        ),
        _ if may_change_carry(instr) || may_change_a(instr) => Bound::Unknown,
        _ => Bound::Compared(cpi),
    }
}

/// The state after an instruction while A has the index, which is below the CPI's operand.
fn below_after(cpi: u16, instr: Instr) -> Bound
    ensures { (passed : List ℕ) → Contains passed cpi → IsPassed passed (cpi_of result) }
{
    match instr {
        Instr::Mov(Register::C, Register::A) => Bound::Index(cpi, Pair::Bc),
        Instr::Mov(Register::E, Register::A) => Bound::Index(cpi, Pair::De),
        Instr::Mov(Register::L, Register::A) => Bound::Index(cpi, Pair::Hl),
        _ if may_change_a(instr) => Bound::Unknown,
        _ => Bound::Below(cpi),
    }
}

/// The state after an instruction while `pair` has the index in its low byte.
fn index_after(cpi: u16, pair: Pair, instr: Instr) -> Bound
    ensures { (passed : List ℕ) → Contains passed cpi → IsPassed passed (cpi_of result) }
{
    match (instr, pair) {
        (Instr::Mvi(Register::B, 0), Pair::Bc)
        | (Instr::Mvi(Register::D, 0), Pair::De)
        | (Instr::Mvi(Register::H, 0) | Instr::Dad(Pair::Hl), Pair::Hl) => Bound::Index(cpi, pair),
        (Instr::Xchg, Pair::De) => Bound::Index(cpi, Pair::Hl),
        (Instr::Xchg, Pair::Hl) => Bound::Index(cpi, Pair::De),
        (Instr::Dad(added), _) if added == pair || pair == Pair::Hl => Bound::Added(cpi),
        _ if may_change(instr, pair) => Bound::Unknown,
        _ => Bound::Index(cpi, pair),
    }
}

/// The state after an instruction while HL has the table's address with the index added.
fn added_after(cpi: u16, instr: Instr) -> Bound
    ensures { (passed : List ℕ) → Contains passed cpi → IsPassed passed (cpi_of result) }
{
    match instr {
        Instr::Lxi(Pair::Hl, _) => Bound::Unknown,
        _ => Bound::Added(cpi),
    }
}
