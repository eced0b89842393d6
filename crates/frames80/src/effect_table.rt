//! The effect of each instruction.

ghost use Rattle.std.specs.Prelude.{◌≡◌};
ghost use Rattle.frames80.specs.Effects.{effect_of, written, loaded, in_frame};

use crate::effect::{Change, Effect};
use crate::fault::FrameFault::{Sphl, StackByByte};
use crate::frame_pair::FramePair;
use decode80::{Instr, Pair, Register, StackPair};

/// What an instruction does to the frame of the procedure that executes it.
pub fn effect_of(instr: Instr) -> Effect
    ensures { result ≡ effect_of instr }
{
    match instr {
        Instr::Mov(to, _) | Instr::Load(to) | Instr::Mvi(to, _) | Instr::Inr(to) | Instr::Dcr(to) =>
            Effect::Change(change_of_write(to)),
        Instr::Lxi(pair, word) => effect_of_load(pair, Effect::Change(Change::SetStack(word))),
        Instr::Inx(pair) | Instr::Dcx(pair) => effect_of_load(pair, Effect::Refuse(StackByByte)),
        Instr::Dad(_) | Instr::Lhld(_) => Effect::Change(Change::Forget(FramePair::Hl)),
        Instr::Push(pair) => Effect::Change(in_frame(pair).map_or(Change::PushAny, Change::Push)),
        Instr::Pop(pair) => Effect::Change(in_frame(pair).map_or(Change::Drop, Change::Pop)),
        Instr::Xthl => Effect::Change(Change::Swap),
        Instr::Xchg => Effect::Change(Change::Exchange),
        Instr::Sphl => Effect::Refuse(Sphl),
        Instr::Pchl => Effect::Case,
        Instr::Jmp(to) => Effect::Jump(to),
        Instr::JumpIf(_, to) => Effect::JumpIf(to),
        Instr::Call(to) => Effect::Call(to),
        Instr::CallIf(_, to) => Effect::CallIf(to),
        Instr::Rst(number) => Effect::Call(number.address()),
        Instr::Ret => Effect::Return,
        Instr::ReturnIf(_) => Effect::ReturnIf,
        Instr::Hlt => Effect::Halt,
        Instr::Store(_)
        | Instr::MviMemory(_)
        | Instr::InrMemory
        | Instr::DcrMemory
        | Instr::Stax(_)
        | Instr::Sta(_)
        | Instr::Shld(_)
        | Instr::Ldax(_)
        | Instr::Lda(_)
        | Instr::Operate(_, _)
        | Instr::Rotate(_)
        | Instr::Daa
        | Instr::Cma
        | Instr::Stc
        | Instr::Cmc
        | Instr::In(_)
        | Instr::Out(_)
        | Instr::Ei
        | Instr::Di
        | Instr::Nop => Effect::Change(Change::Keep),
    }
}

/// The change of a frame if an instruction writes register `to`: the register's pair holds no
/// return address any more. Nothing changes for A, which is in no pair.
fn change_of_write(to: Register) -> Change
    ensures { result ≡ written to }
{
    match to {
        Register::B | Register::C => Change::Forget(FramePair::Bc),
        Register::D | Register::E => Change::Forget(FramePair::De),
        Register::H | Register::L => Change::Forget(FramePair::Hl),
        Register::A => Change::Keep,
    }
}

/// The effect of LXI, INX or DCX of `pair`: a register pair holds no return address any more, and
/// for SP the effect is `of_sp`.
fn effect_of_load(pair: Pair, of_sp: Effect) -> Effect
    ensures { result ≡ loaded pair of_sp }
{
    match pair {
        Pair::Bc => Effect::Change(Change::Forget(FramePair::Bc)),
        Pair::De => Effect::Change(Change::Forget(FramePair::De)),
        Pair::Hl => Effect::Change(Change::Forget(FramePair::Hl)),
        Pair::Sp => of_sp,
    }
}

/// The pair of a frame that PUSH or POP of `pair` uses; `None` for PSW, which no frame tracks.
fn in_frame(pair: StackPair) -> Option<FramePair>
    ensures { result ≡ in_frame pair }
{
    match pair {
        StackPair::Bc => Some(FramePair::Bc),
        StackPair::De => Some(FramePair::De),
        StackPair::Hl => Some(FramePair::Hl),
        StackPair::Psw => None,
    }
}
