//! What becomes of a frame at an instruction.

ghost use Rattle.std.specs.Prelude.{◌≡◌, ◌≢◌, ◌≤◌, length, IfOk, IfErr, Ok, Err};
ghost use Rattle.frames80.specs.Effects.{effect_of};
ghost use Rattle.frames80.specs.Moves.{moves_of, changed};

use crate::effect::{Change, Effect};
use crate::effect_table::effect_of;
use crate::fault::FrameFault;
use crate::frame::Frame;
use crate::frame_pair::FramePair;
use crate::role::Role;
use crate::word::Word;
use decode80::Instr;
use std::alloc::{AllocError, Global};
use std::mem;

/// Where a procedure goes on after an instruction, with its frame there, or with that at the call.
#[derive(Debug, Drop)]
pub enum Moves {
    /// Nowhere: HLT.
    End,
    /// To the next instruction.
    On(Frame),
    /// To an address.
    Jump(Frame, u16),
    /// To the next instruction or to an address.
    Either(Frame, u16),
    /// To each target that is declared for the instruction's address: PCHL.
    Case(Frame),
    /// Calls an address, with the caller's frame at the call.
    Call(Frame, u16),
    /// Calls an address or goes on to the next instruction, with the caller's frame at the call.
    MaybeCall(Frame, u16),
    /// Returns, with this many words popped from beneath its own.
    Return(u32),
    /// Returns, with this many words popped from beneath its own, or goes on to the next
    /// instruction.
    MaybeReturn(Frame, u32),
}

/// The frame after an instruction, and where the procedure goes on with it. `frame` must have at
/// most 1,000,000 words and at most 1,000,000 taken.
///
/// # Errors
/// Each fault comes exactly in its own case, and no two cases overlap: `Sphl` at SPHL,
/// `StackByByte` at INX SP and DCX SP; `SetsStack` at LXI SP, but for the main program with the
/// stack's top; `PopsBelow` at a POP or XTHL of the main program with no words; `ReturnFromMain` at
/// a return of the main program; `ReturnNotOwn` at a return of an entry whose words are not its
/// return address alone. A conditional return is refused like any other. `Memory` comes only if
/// none of these holds and memory runs out.
pub fn next(alloc: Global, frame: &Frame, instr: Instr, role: Role) -> Result<Moves, FrameFault>
    requires taken { frame.now.taken ≤ 1000000 }
    requires words { length frame.now.words ≤ 1000000 }
    ensures moved { IfOk result (λ moves. moves_of role (effect_of instr) frame.now ≡ Ok moves) }
    ensures fault { IfErr result (λ fault. fault ≢ FrameFault.Memory → moves_of role (effect_of instr) frame.now ≡ Err fault) }
    ensures refused { IfErr (moves_of role (effect_of instr) frame.now) (λ fault. result ≡ Err fault) }
{
    let effect = effect_of(instr);
    if let Some(fault) = frame.holding().fault_of(role, effect) {
        return Err(fault);
    }
    Ok(match effect {
        Effect::Change(change) => Moves::On(change_frame(alloc, frame, change)?),
        Effect::Halt => Moves::End,
        Effect::Jump(to) => Moves::Jump(frame.copy(alloc)?, to),
        Effect::JumpIf(to) => Moves::Either(frame.copy(alloc)?, to),
        Effect::Case => Moves::Case(frame.copy(alloc)?),
        Effect::Call(to) => Moves::Call(frame.copy(alloc)?, to),
        Effect::CallIf(to) => Moves::MaybeCall(frame.copy(alloc)?, to),
        Effect::Return => Moves::Return(frame.taken),
        Effect::ReturnIf => Moves::MaybeReturn(frame.copy(alloc)?, frame.taken),
        Effect::Refuse(fault) => return Err(fault),
    })
}

/// A copy of `frame` with a change applied to it. `frame.taken` must be at most 1,000,000. Whether
/// the change is admitted must be checked before: here a pop of no words takes one from beneath,
/// and `SetStack` drops all words. `AllocError` if memory runs out.
fn change_frame(alloc: Global, frame: &Frame, change: Change) -> Result<Frame, AllocError>
    requires { frame.now.taken ≤ 1000000 }
    ensures { IfOk result (λ after. after ≡ changed change frame.now) }
{
    let mut after = frame.copy(alloc)?;
    match change {
        Change::Keep => {}
        Change::Push(pair) => after.words.push(frame.pair(pair))?,
        Change::PushAny => after.words.push(Word::Any)?,
        Change::Pop(pair) => {
            let word = after.pop();
            after.set_pair(pair, word);
        }
        Change::Drop => _ = after.pop(),
        Change::Swap => {
            let word = after.pop();
            after.words.push(frame.hl)?;
            after.set_pair(FramePair::Hl, word);
        }
        Change::Exchange => mem::swap(&mut after.de, &mut after.hl),
        Change::Forget(pair) => after.set_pair(pair, Word::Any),
        Change::SetStack(_) => after.words.clear(),
    }
    Ok(after)
}
