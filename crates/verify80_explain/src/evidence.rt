//! Whether points show a refusal.

ghost use Rattle.std.specs.Prelude.{◌≡◌, ◌↔◌, true, IfOk};
ghost use Rattle.verify80_explain.specs.Evidence.{ClashAt, DifferAt, FaultAt, ShortAt, UnevenAt};

use frames80::{Code, FrameFault, LookFault, role_of};
use std::alloc::Global;
use verify80_flow::Procedure;
use verify80_walks::{Looked, Point, Unexplained, call_at, look_at, room, words_taken};

/// Why an instruction may not be executed.
#[derive(Clone, Copy)]
pub(crate) enum Fault {
    /// Whatever the frame is.
    Look(LookFault),
    /// With the frame that it is reached with.
    Frame(FrameFault),
}

/// In which way two points show a refusal together.
#[derive(Clone, Copy)]
pub(crate) enum Clash {
    /// Two walks are at one address of one procedure, and their counts differ.
    Heights,
    /// Two walks end at returns of one procedure, with different numbers of words taken.
    Returns,
    /// The first is a call, and the second, of its callee, has taken more words than the caller has
    /// to give.
    Shortage,
}

/// Whether the point is at address `at`, and its instruction may not be executed for this reason.
pub(crate) fn is_fault<C: Code>(
    alloc: Global,
    program: &C,
    point: &Point,
    at: u16,
    fault: Fault,
) -> Result<bool, Unexplained>
    ensures { IfOk result (λ r. r ≡ true → FaultAt (C.code program.now) at fault point.now) }
{
    if point.at != at {
        return Ok(false);
    }
    Ok(match (look_at(alloc, program, point)?, fault) {
        (Looked::Wrong(found), Fault::Look(sought)) => is_same_look(found, sought),
        (Looked::Stuck(found), Fault::Frame(sought)) => found == sought,
        _ => false,
    })
}

/// Whether two faults are of the same kind.
fn is_same_look(one: LookFault, other: LookFault) -> bool
    ensures { (result ≡ true) ↔ (one ≡ other) }
{
    match one {
        LookFault::Outside => matches!(other, LookFault::Outside),
        LookFault::Unused => matches!(other, LookFault::Unused),
        LookFault::EnablesInterrupts => matches!(other, LookFault::EnablesInterrupts),
        LookFault::Pchl => matches!(other, LookFault::Pchl),
        LookFault::DirectStore => matches!(other, LookFault::DirectStore),
    }
}

/// Whether two points show a refusal together in this way, and the first of them is at address
/// `at`.
pub(crate) fn is_clash<C: Code>(
    alloc: Global,
    program: &C,
    one: &Point,
    other: &Point,
    at: u16,
    clash: Clash,
) -> Result<bool, Unexplained>
    ensures { IfOk result (λ r. r ≡ true → ClashAt (C.code program.now) at clash one.now other.now) }
{
    if one.at != at {
        return Ok(false);
    }
    match clash {
        Clash::Heights => Ok(do_heights_differ(one, other)),
        Clash::Returns => do_returns_differ(alloc, program, one, other),
        Clash::Shortage => is_shortage(alloc, program, one, other),
    }
}

/// Whether two points are at one address of one procedure, and their counts of words, or of words
/// taken, differ.
fn do_heights_differ(one: &Point, other: &Point) -> bool
    ensures { (result ≡ true) ↔ DifferAt one.now.at one.now other.now }
{
    other.procedure == one.procedure
        && other.at == one.at
        && (other.frame.taken != one.frame.taken
            || other.frame.words.len() != one.frame.words.len())
}

/// Whether two points are at returns of one procedure, and the numbers of words taken differ.
fn do_returns_differ<C: Code>(
    alloc: Global,
    program: &C,
    one: &Point,
    other: &Point,
) -> Result<bool, Unexplained>
    ensures { IfOk result (λ r. r ≡ true → UnevenAt (C.code program.now) one.now.at one.now other.now) }
{
    if other.procedure != one.procedure {
        return Ok(false);
    }
    let Some(taken) = words_taken(alloc, program, one)? else {
        return Ok(false);
    };
    let Some(other_taken) = words_taken(alloc, program, other)? else {
        return Ok(false);
    };
    Ok(taken != other_taken)
}

/// Whether the first point calls the second's procedure, which has taken more words at the second
/// than the caller has to give.
fn is_shortage<C: Code>(
    alloc: Global,
    program: &C,
    one: &Point,
    other: &Point,
) -> Result<bool, Unexplained>
    ensures { IfOk result (λ r. r ≡ true → ShortAt (C.code program.now) one.now.at one.now other.now) }
{
    let room = room(&one.frame, role_of(program, one.procedure));
    if other.frame.taken as usize <= room {
        return Ok(false);
    }
    let Some(call) = call_at(alloc, program, one)? else {
        return Ok(false);
    };
    Ok(other.procedure == Procedure::Entry(call.target))
}
