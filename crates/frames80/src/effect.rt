//! What instructions do to a frame: the kinds of effect.

ghost use Rattle.std.specs.Prelude.{◌≡◌};
ghost use Rattle.frames80.specs.Effects.{change_of};

use crate::fault::FrameFault;
use crate::frame_pair::FramePair;

/// How an instruction changes a frame before it goes on to the next one.
#[derive(Clone, Copy, PartialEq, Eq)]
pub enum Change {
    /// Nothing changes.
    Keep,
    /// PUSH of a pair: what the pair holds goes on top.
    Push(FramePair),
    /// PUSH PSW: a word that is no return address goes on top.
    PushAny,
    /// POP of a pair: the top goes into the pair.
    Pop(FramePair),
    /// POP PSW: the top is dropped.
    Drop,
    /// XTHL: the top and HL change places.
    Swap,
    /// XCHG: DE and HL change places.
    Exchange,
    /// A register of the pair is written: it holds no return address any more.
    Forget(FramePair),
    /// LXI SP with this word: no words are left.
    SetStack(u16),
}

/// What an instruction does: how it changes a frame, and where it goes on.
#[derive(Clone, Copy, PartialEq, Eq)]
pub enum Effect {
    /// Goes on to the next instruction with a changed frame.
    Change(Change),
    /// Goes nowhere: HLT.
    Halt,
    /// JMP to an address.
    Jump(u16),
    /// PCHL, the jump of a DO CASE: it goes on at one of the targets that are declared for its address.
    Case,
    /// A conditional jump to an address.
    JumpIf(u16),
    /// CALL of an address, or RST.
    Call(u16),
    /// A conditional call of an address.
    CallIf(u16),
    /// RET: it goes where the return address says.
    Return,
    /// A conditional return.
    ReturnIf,
    /// Refused with this fault, whatever the frame is: SPHL, INX SP and DCX SP.
    Refuse(FrameFault),
}

impl Effect {
    /// The change that the effect makes to the frame: that of a `Change`, and `Keep` for every
    /// other effect.
    pub fn change(self) -> Change
        ensures { result ≡ change_of self }
    {
        match self {
            Effect::Change(change) => change,
            Effect::Halt
            | Effect::Jump(_)
            | Effect::Case
            | Effect::JumpIf(_)
            | Effect::Call(_)
            | Effect::CallIf(_)
            | Effect::Return
            | Effect::ReturnIf
            | Effect::Refuse(_) => Change::Keep,
        }
    }
}
