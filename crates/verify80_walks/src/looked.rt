//! A look at a point.

ghost use Rattle.std.specs.Prelude.{◌≡◌, ◌≤◌, true, IfOk, IfSome, Some, length};
ghost use Rattle.frames80.specs.Calls.{room};
ghost use Rattle.verify80_flow.specs.Walks.{Calls, Returns, called, returning};
ghost use Rattle.verify80_walks.specs.Reached.{IsBack, IsLooked};

use crate::fault::Unexplained;
use crate::point::Point;
use frames80::{
    CallFault, Code, Frame, FrameFault, LookFault, MOST_WORDS, Moves, Role, after, next, role_of,
};
use std::alloc::Global;

/// What a look at a point finds: what its instruction does, or why it may not be executed.
#[derive(Drop)]
pub enum Looked {
    /// No instruction may be executed at the address, whatever the frame is.
    Wrong(LookFault),
    /// The instruction may not be executed with the frame.
    Stuck(FrameFault),
    /// Where the instruction leads, and the address after it.
    Moved(Moves, u16),
}

/// A call: the address that is called, and that of the instruction after the call.
#[derive(Clone, Copy)]
pub struct Called {
    /// The address that is called.
    pub target: u16,
    /// The address after the call.
    pub next: u16,
}

/// Executes the instruction of a point on its frame: where it leads, or why it may not be executed.
///
/// # Errors
/// `Limit` if the frame has more than 1,000,000 words, or as many taken. `Memory` if memory runs out.
pub fn look_at<C: Code>(alloc: Global, program: &C, point: &Point) -> Result<Looked, Unexplained>
    ensures { IfOk result (IsLooked (C.code program.now) point.now) }
{
    let found = match program.look(point.at) {
        Ok(found) => found,
        Err(fault) => return Ok(Looked::Wrong(fault)),
    };
    if !is_within(&point.frame) {
        return Err(Unexplained::Limit);
    }
    match next(
        alloc,
        &point.frame,
        found.instr,
        role_of(program, point.procedure),
    ) {
        Ok(moves) => Ok(Looked::Moved(moves, found.next)),
        Err(FrameFault::Memory) => Err(Unexplained::Memory),
        Err(fault) => Ok(Looked::Stuck(fault)),
    }
}

/// Whether a frame is followed further: it has at most 1,000,000 words and at most as many taken.
pub fn is_within(frame: &Frame) -> bool
    ensures words { result ≡ true → length frame.now.words ≤ 1000000 }
    ensures taken { result ≡ true → frame.now.taken ≤ 1000000 }
{
    frame.taken <= MOST_WORDS && frame.words.len() <= MOST_WORDS as usize
}

/// The caller's frame after a callee has returned that took `taken` words; `None` if the caller has
/// fewer to give. `Limit` if the frame has more than 1,000,000 words, or as many taken.
pub(crate) fn frame_after_return(
    alloc: Global,
    frame: &Frame,
    role: Role,
    taken: u32,
) -> Result<Option<Frame>, Unexplained>
    ensures { IfOk result (λ back. IfSome back (IsBack role taken frame.now)) }
{
    if !is_within(frame) {
        return Err(Unexplained::Limit);
    }
    match after(alloc, frame, role, taken, taken) {
        Ok(frame) => Ok(Some(frame)),
        Err(CallFault::ShortArguments) => Ok(None),
        Err(CallFault::Memory) => Err(Unexplained::Memory),
    }
}

/// How many words the procedure has taken, if the point's instruction returns; `None` if it
/// doesn't.
///
/// # Errors
/// `Limit` if the frame has more than 1,000,000 words, or as many taken. `Memory` if memory runs out.
pub fn words_taken<C: Code>(
    alloc: Global,
    program: &C,
    point: &Point,
) -> Result<Option<u32>, Unexplained>
    ensures { IfOk result (λ r.
        IfSome r (Returns (C.code program.now) point.now.procedure point.now.at point.now.frame)) }
{
    match look_at(alloc, program, point)? {
        Looked::Moved(moves, _next) => Ok(returning(&moves)),
        Looked::Wrong(_fault) => Ok(None),
        Looked::Stuck(_fault) => Ok(None),
    }
}

/// With how many words taken a move returns; `None` if it is no return.
fn returning(moves: &Moves) -> Option<u32>
    ensures { result ≡ returning moves.now }
{
    match moves {
        Moves::Return(taken) => Some(*taken),
        Moves::MaybeReturn(_, taken) => Some(*taken),
        _ => None,
    }
}

/// The call that the point's instruction makes; `None` if it makes none.
///
/// # Errors
/// `Limit` if the frame has more than 1,000,000 words, or as many taken. `Memory` if memory runs out.
pub fn call_at<C: Code>(
    alloc: Global,
    program: &C,
    point: &Point,
) -> Result<Option<Called>, Unexplained>
    ensures { IfOk result (λ r. IfSome r (λ call.
        Calls (C.code program.now) point.now.procedure point.now.at point.now.frame call.target call.next)) }
{
    match look_at(alloc, program, point)? {
        Looked::Moved(moves, next) => Ok(call_of(&moves, next)),
        Looked::Wrong(_fault) => Ok(None),
        Looked::Stuck(_fault) => Ok(None),
    }
}

/// The call that a move makes, with `next` as the address after it; `None` if it makes none.
fn call_of(moves: &Moves, next: u16) -> Option<Called>
    ensures called { IfSome result (λ call. called moves.now ≡ Some call.target) }
    ensures next { IfSome result (λ call. call.next ≡ next) }
{
    match moves {
        Moves::Call(_, target) => Some(Called {
            target: *target,
            next,
        }),
        Moves::MaybeCall(_, target) => Some(Called {
            target: *target,
            next,
        }),
        _ => None,
    }
}

/// How many words of a caller's frame a callee may take: those above the bottom word, and in the
/// main program all.
pub fn room(frame: &Frame, role: Role) -> usize
    ensures { result ≡ room role frame.now.words }
{
    match role {
        Role::Main { .. } => frame.words.len(),
        Role::Entry => frame.words.len().saturating_sub(1),
    }
}
