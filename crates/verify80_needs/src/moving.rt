//! The parts of a state that are needed before an instruction, by what it writes and reads.

use crate::units::Units;
use decode80::{
    AffectedFlags, Flow, Instr, Operand, Operation, Pair, Register, Rotation, Storing, Writes,
};

/// The parts that are needed before an instruction, given those that are needed after it: also the pair by which it stores, and that by
/// which it is decided where it goes.
pub fn parts_before(instr: Instr, need: Units) -> Units {
    let facts = instr.facts();
    let pointer = match facts.storing {
        Storing::ThroughHl => Units::HL,
        Storing::Through(pair) => Units::of_index_pair(pair),
        Storing::Nowhere | Storing::Byte(_) | Storing::Word(_) => Units::NONE,
    };
    let decided = match facts.flow {
        Flow::JumpsIf(condition, _) | Flow::CallsIf(condition, _) | Flow::ReturnsIf(condition) =>
            Units::of_condition(condition),
        Flow::JumpsToHl => Units::HL,
        _ => Units::NONE,
    };
    parts_moved(instr, need).union(pointer).union(decided)
}

/// The parts before an instruction from which those come that are needed after it.
fn parts_moved(instr: Instr, need: Units) -> Units {
    match instr {
        Instr::Xchg => moved(
            need,
            &[
                (Units::D, Units::H),
                (Units::E, Units::L),
                (Units::H, Units::D),
                (Units::L, Units::E),
            ],
        ),
        Instr::Xthl => moved(
            need,
            &[(Units::FIRST, Units::HL), (Units::HL, Units::FIRST)],
        ),
        Instr::Push(pair) => {
            moved(need, &[(Units::of_stack_pair(pair), Units::FIRST)]).shallower()
        }
        Instr::Pop(pair) => moved(need.deeper(), &[(Units::FIRST, Units::of_stack_pair(pair))]),
        // What CY is after a rotation isn't known.
        Instr::Rotate(_) if !need.intersects(Units::A) => need.difference(written_by(instr)),
        _ => {
            let written = written_by(instr);
            let rest = need.difference(written);
            if need.intersects(written.difference(Units::TEST)) {
                rest.union(read_by(instr))
            } else {
                rest
            }
        }
    }
}

/// What is needed before parts are copied, each from the first to the second of a couple.
fn moved(need: Units, copies: &[(Units, Units)]) -> Units {
    let mut before = need;
    for (_, to) in copies {
        before = before.difference(*to);
    }
    for (from, to) in copies {
        if need.intersects(*to) {
            before = before.union(*from);
        }
    }
    before
}

/// The parts that an instruction writes.
fn written_by(instr: Instr) -> Units {
    let facts = instr.facts();
    let registers = match facts.writes {
        Writes::Nothing => Units::NONE,
        Writes::One(Register::A) => Units::A.union(Units::TEST),
        Writes::One(register) => Units::of(register),
        Writes::Both(Pair::Sp) => Units::WORDS,
        Writes::Both(pair) => Units::of_pair(pair),
        Writes::DeAndHl => Units::DE.union(Units::HL),
    };
    let flags = match facts.flags {
        AffectedFlags::NoFlags => Units::NONE,
        AffectedFlags::CarryAlone => Units::CARRY.union(Units::TEST),
        AffectedFlags::AllButCarry => Units::COUNTED,
        AffectedFlags::AllFlags => Units::COUNTED.union(Units::CARRY),
    };
    registers.union(flags)
}

/// The parts that what an instruction writes comes from, as far as it is followed.
fn read_by(instr: Instr) -> Units {
    match instr {
        Instr::Mov(_, register) | Instr::Inr(register) | Instr::Dcr(register) => Units::of(
            register,
        ),
        Instr::Load(_) | Instr::InrMemory | Instr::DcrMemory => Units::HL,
        Instr::Inx(pair) | Instr::Dcx(pair) => Units::of_pair(pair),
        Instr::Dad(pair) => Units::HL.union(Units::of_pair(pair)),
        Instr::Ldax(pair) => Units::of_index_pair(pair),
        Instr::Operate(operation, operand) => read_by_operation(operation, operand),
        Instr::Rotate(Rotation::LeftThroughCarry | Rotation::RightThroughCarry) => {
            Units::A.union(Units::CARRY)
        }
        Instr::Rotate(_) | Instr::Cma => Units::A,
        Instr::Cmc => Units::CARRY,
        _ => Units::NONE,
    }
}

/// The parts that an operation on A reads.
fn read_by_operation(operation: Operation, operand: Operand) -> Units {
    let read = match operand {
        Operand::Register(register) => Units::of(register),
        Operand::Memory => Units::HL,
        Operand::Immediate(_) => Units::NONE,
    };
    match operation {
        Operation::ExclusiveOr | Operation::Subtract if read == Units::A => Units::NONE,
        Operation::AddCarry | Operation::SubtractBorrow => {
            Units::A.union(read).union(Units::CARRY)
        }
        _ => Units::A.union(read),
    }
}
