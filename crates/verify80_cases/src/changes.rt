//! What instructions change. What stands before a PCHL is read as if a call may change anything.

ghost use Rattle.std.specs.Prelude.{◌≡◌};
ghost use Rattle.verify80_cases.specs.Changes.{leaves_or_doubles, may_change, may_change_a, may_change_carry, writes_a};

use crate::leads::is_call;
use decode80::{Instr, Operand, Operation, Pair, Register, Rotation, Writes};

/// Whether an instruction may change a register pair; a call may change each.
pub(crate) fn may_change(instr: Instr, pair: Pair) -> bool
    ensures { result ≡ may_change instr pair }
{
    is_call(instr) || instr.writes().includes(pair)
}

/// Whether an instruction may change A otherwise than by doubling it; a call may.
pub(crate) fn may_change_a(instr: Instr) -> bool
    ensures { result ≡ may_change_a instr }
{
    is_call(instr) || writes_a(instr.writes()) && !leaves_or_doubles(instr)
}

/// Whether register A is written.
pub(crate) fn writes_a(writes: Writes) -> bool
    ensures { result ≡ writes_a writes }
{
    matches!(writes, Writes::One(Register::A))
}

/// Whether an instruction is ADD A, ANA A, ORA A or RLC, which leave A as it is or double it.
fn leaves_or_doubles(instr: Instr) -> bool
    ensures { result ≡ leaves_or_doubles instr }
{
    matches!(
        instr,
        Instr::Operate(
            Operation::Add | Operation::And | Operation::Or,
            Operand::Register(Register::A)
        ) | Instr::Rotate(Rotation::Left)
    )
}

/// Whether an instruction may change the carry flag; a call may.
pub(crate) fn may_change_carry(instr: Instr) -> bool
    ensures { result ≡ may_change_carry instr }
{
    is_call(instr) || instr.facts().flags.include_carry()
}
