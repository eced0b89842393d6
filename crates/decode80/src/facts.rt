//! The facts of each instruction.

ghost use Rattle.std.specs.Prelude.{◌≡◌};
ghost use Rattle.decode80.specs.Facts.{goes, operated, popped, popped_flags, stores_to, works};

use crate::flow::Flow;
use crate::instr::Instr;
use crate::operation::Operation;
use crate::pair::{Pair, StackPair};
use crate::register::Register;
use crate::storing::Storing;
use crate::writes::{AffectedFlags, Writes};

/// How an instruction goes on, what it writes, and where it stores.
#[derive(Clone, Copy, PartialEq, Eq)]
pub struct Facts {
    /// How the instruction goes on, and what it does with the stack.
    pub flow: Flow,
    /// The registers that the instruction writes.
    pub writes: Writes,
    /// The flags that the instruction affects.
    pub flags: AffectedFlags,
    /// Where the instruction stores, apart from the stack.
    pub storing: Storing,
}

/// The facts of an instruction that goes on to the next one, writes these registers, affects these flags and stores
/// nothing.
fn works(writes: Writes, flags: AffectedFlags) -> Facts
    ensures { result ≡ works writes flags }
{
    Facts {
        flow: Flow::Continues,
        writes,
        flags,
        storing: Storing::Nowhere,
    }
}

/// The facts of an instruction that goes on to the next one, stores so, affects these flags and writes no register.
fn stores_to(storing: Storing, flags: AffectedFlags) -> Facts
    ensures { result ≡ stores_to storing flags }
{
    Facts {
        flow: Flow::Continues,
        writes: Writes::Nothing,
        flags,
        storing,
    }
}

/// The facts of an instruction with this flow that writes no register, affects no flag and stores nothing, or only on
/// the stack.
fn goes(flow: Flow) -> Facts
    ensures { result ≡ goes flow }
{
    Facts {
        flow,
        writes: Writes::Nothing,
        flags: AffectedFlags::NoFlags,
        storing: Storing::Nowhere,
    }
}

/// The registers that an operation on the accumulator writes: A, or none for a comparison.
fn writes_of_operation(operation: Operation) -> Writes
    ensures { result ≡ operated operation }
{
    match operation {
        Operation::Compare => Writes::Nothing,
        Operation::Add | Operation::AddCarry => Writes::One(Register::A),
        Operation::Subtract | Operation::SubtractBorrow => Writes::One(Register::A),
        Operation::And | Operation::ExclusiveOr | Operation::Or => Writes::One(Register::A),
    }
}

/// The registers that POP of a pair writes: both of the pair, or A for PSW.
fn writes_of_pop(pair: StackPair) -> Writes
    ensures { result ≡ popped pair }
{
    match pair {
        StackPair::Bc => Writes::Both(Pair::Bc),
        StackPair::De => Writes::Both(Pair::De),
        StackPair::Hl => Writes::Both(Pair::Hl),
        StackPair::Psw => Writes::One(Register::A),
    }
}

/// The flags that POP of a pair affects: all for PSW, and none for any other.
fn popped_flags(pair: StackPair) -> AffectedFlags
    ensures { result ≡ popped_flags pair }
{
    match pair {
        StackPair::Bc | StackPair::De | StackPair::Hl => AffectedFlags::NoFlags,
        StackPair::Psw => AffectedFlags::AllFlags,
    }
}

impl Instr {
    ghost use Rattle.decode80.specs.Facts.{facts, flow, storing, writes};

    /// The facts of the instruction: how it goes on, which registers and flags it writes, and where it stores.
    pub fn facts(self) -> Facts
        ensures { result ≡ facts self }
    {
        match self {
            Instr::Mov(to, _) | Instr::Load(to) | Instr::Mvi(to, _) => works(
                Writes::One(to),
                AffectedFlags::NoFlags,
            ),
            Instr::Inr(to) | Instr::Dcr(to) => works(Writes::One(to), AffectedFlags::AllButCarry),
            Instr::Lxi(pair, _) | Instr::Inx(pair) | Instr::Dcx(pair) => works(
                Writes::Both(pair),
                AffectedFlags::NoFlags,
            ),
            Instr::Dad(_) => works(Writes::Both(Pair::Hl), AffectedFlags::CarryAlone),
            Instr::Operate(operation, _) => works(
                writes_of_operation(operation),
                AffectedFlags::AllFlags,
            ),
            Instr::Rotate(_) => works(Writes::One(Register::A), AffectedFlags::CarryAlone),
            Instr::Daa => works(Writes::One(Register::A), AffectedFlags::AllFlags),
            Instr::Cma | Instr::Ldax(_) | Instr::Lda(_) | Instr::In(_) => works(
                Writes::One(Register::A),
                AffectedFlags::NoFlags,
            ),
            Instr::Stc | Instr::Cmc => works(Writes::Nothing, AffectedFlags::CarryAlone),
            Instr::Lhld(_) => works(Writes::Both(Pair::Hl), AffectedFlags::NoFlags),
            Instr::Xchg => works(Writes::DeAndHl, AffectedFlags::NoFlags),
            Instr::Sphl => works(Writes::Both(Pair::Sp), AffectedFlags::NoFlags),
            Instr::Out(_) | Instr::Ei | Instr::Di | Instr::Nop => goes(Flow::Continues),
            Instr::Store(_) | Instr::MviMemory(_) => stores_to(
                Storing::ThroughHl,
                AffectedFlags::NoFlags,
            ),
            Instr::InrMemory | Instr::DcrMemory => stores_to(
                Storing::ThroughHl,
                AffectedFlags::AllButCarry,
            ),
            Instr::Stax(pair) => stores_to(Storing::Through(pair), AffectedFlags::NoFlags),
            Instr::Sta(address) => stores_to(Storing::Byte(address), AffectedFlags::NoFlags),
            Instr::Shld(address) => stores_to(Storing::Word(address), AffectedFlags::NoFlags),
            Instr::Push(_) => goes(Flow::Pushes),
            Instr::Pop(pair) => Facts {
                flow: Flow::Pops,
                writes: writes_of_pop(pair),
                flags: popped_flags(pair),
                storing: Storing::Nowhere,
            },
            Instr::Xthl => Facts {
                flow: Flow::Exchanges,
                writes: Writes::Both(Pair::Hl),
                flags: AffectedFlags::NoFlags,
                storing: Storing::Nowhere,
            },
            Instr::Jmp(to) => goes(Flow::Jumps(to)),
            Instr::JumpIf(condition, to) => goes(Flow::JumpsIf(condition, to)),
            Instr::Pchl => goes(Flow::JumpsToHl),
            Instr::Call(to) => goes(Flow::Calls(to)),
            Instr::CallIf(condition, to) => goes(Flow::CallsIf(condition, to)),
            Instr::Rst(number) => goes(Flow::Calls(number.address())),
            Instr::Ret => goes(Flow::Returns),
            Instr::ReturnIf(condition) => goes(Flow::ReturnsIf(condition)),
            Instr::Hlt => goes(Flow::Halts),
        }
    }

    /// How the instruction goes on, and what it does with the stack.
    pub fn flow(self) -> Flow
        ensures { result ≡ flow self }
    {
        self.facts().flow
    }

    /// The registers that the instruction writes, apart from the stack pointer if it pushes or pops.
    pub fn writes(self) -> Writes
        ensures { result ≡ writes self }
    {
        self.facts().writes
    }

    /// Where the instruction stores, apart from the stack.
    pub fn storing(self) -> Storing
        ensures { result ≡ storing self }
    {
        self.facts().storing
    }
}
