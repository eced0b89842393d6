//! Whether the points of a search are reached: each comes from earlier ones, as its origin says.

ghost use Rattle.std.specs.Prelude.{◌≡◌, ◌<◌, Some, true, IfOk, IfSome, slice_get};
ghost use Rattle.verify80_flow.specs.Walks.{Begins, LeadsTo};
ghost use Rattle.verify80_walks.specs.Reached.{AreReached, AreWalked, BackFrom, Comes, EntersFrom};
ghost use Rattle.verify80_walks.specs.Ways.{LeadsOn};

use crate::fault::Unexplained;
use crate::looked::{Looked, call_at, frame_after_return, look_at, words_taken};
use crate::point::Point;
use crate::search::Origin;
use frames80::{Code, Frame, Moves, role_of};
use std::alloc::{AllocError, Global};
use verify80_flow::Procedure;

/// Whether each point comes from earlier ones, as its origin says, so that a walk reaches it. False
/// if `origins` doesn't have one entry for each point.
///
/// # Errors
/// `Limit` if the frame of a point has more than 1,000,000 words, or as many taken. `Memory` if memory runs out.
pub fn are_reached<C: Code>(
    alloc: Global,
    program: &C,
    points: &[Point],
    origins: &[Origin],
) -> Result<bool, Unexplained>
    ensures reached { IfOk result (λ r. r ≡ true → AreReached (C.code program.now) points.now origins.now) }
    ensures walked { IfOk result (λ r. r ≡ true → AreWalked (C.code program.now) points.now) }
{
    if origins.len() != points.len() {
        return Ok(false);
    }
    for number in 0..points.len() {
        if !comes_from(
            alloc,
            program,
            points,
            number,
            &points[number],
            origins[number],
        )? {
            return Ok(false);
        }
    }
    Ok(true)
}

/// Whether `point`, which has this number, comes from earlier points as `origin` says.
fn comes_from<C: Code>(
    alloc: Global,
    program: &C,
    points: &[Point],
    number: usize,
    point: &Point,
    origin: Origin,
) -> Result<bool, Unexplained>
    ensures { IfOk result (λ r. r ≡ true → Comes (C.code program.now) points.now number point.now origin) }
{
    match origin {
        Origin::Begins => Ok(begins(alloc, program, point)?),
        Origin::GoesOn(from) => match earlier(points, number, from) {
            Some(one) => leads_on(alloc, program, one, point),
            None => Ok(false),
        },
        Origin::Enters(call) => match earlier(points, number, call) {
            Some(one) => enters(alloc, program, one, point),
            None => Ok(false),
        },
        Origin::ComesBack { call, exit } => {
            let Some(one) = earlier(points, number, call) else {
                return Ok(false);
            };
            let Some(callee) = earlier(points, number, exit) else {
                return Ok(false);
            };
            comes_back(alloc, program, one, callee, point)
        }
    }
}

/// The point with index `i`, if that is less than `number`; `None` if not, or if there is no such point.
fn earlier(points: &[Point], number: usize, i: usize) -> Option<&Point>
    ensures earlier { IfSome result (λ _. i < number) }
    ensures point { IfSome result (λ point. slice_get points.now i ≡ Some point.now) }
{
    if i < number { points.get(i) } else { None }
}

/// Whether a point is the main program's start, with its frame there.
fn begins<C: Code>(alloc: Global, program: &C, point: &Point) -> Result<bool, AllocError>
    ensures { IfOk result (λ r. r ≡ true → Begins (C.code program.now) point.now.procedure point.now.at point.now.frame) }
{
    let frame = Frame::main_entry(alloc)?;
    Ok(
        point.procedure == Procedure::Main
            && point.at == program.start()
            && is_same(&point.frame, &frame),
    )
}

/// Whether two frames are equal.
fn is_same(one: &Frame, other: &Frame) -> bool
    ensures { result ≡ true → one.now ≡ other.now }
{
    *one == *other
}

/// Whether the instruction of the first point leads to the second in the same procedure, with its
/// frame, other than by a call that returns.
fn leads_on<C: Code>(
    alloc: Global,
    program: &C,
    one: &Point,
    other: &Point,
) -> Result<bool, Unexplained>
    ensures { IfOk result (λ r. r ≡ true → LeadsOn (C.code program.now) one.now other.now) }
{
    let Looked::Moved(moves, next) = look_at(alloc, program, one)? else {
        return Ok(false);
    };
    let targets = program.targets(one.at);
    Ok(other.procedure == one.procedure && leads_to(&moves, targets, next, other.at, &other.frame))
}

/// Whether a move leads to address `to` with this frame, other than by a call that returns.
/// `targets` are the declared targets of a PCHL, ascending, and `next` is the address after the instruction.
fn leads_to(moves: &Moves, targets: &[u16], next: u16, to: u16, frame: &Frame) -> bool
    ensures { result ≡ true → LeadsTo moves.now targets.now next to frame.now }
{
    match moves {
        Moves::On(after) => to == next && is_same(frame, after),
        Moves::Jump(after, address) => to == *address && is_same(frame, after),
        Moves::Either(after, address) => (to == next || to == *address) && is_same(frame, after),
        Moves::Case(after) => targets.binary_search(&to).is_ok() && is_same(frame, after),
        Moves::MaybeCall(after, _target) => to == next && is_same(frame, after),
        Moves::MaybeReturn(after, _taken) => to == next && is_same(frame, after),
        Moves::End => false,
        Moves::Call(_frame, _target) => false,
        Moves::Return(_taken) => false,
    }
}

/// Whether the first point calls a procedure, and the second is the procedure's entry, with its
/// frame there.
fn enters<C: Code>(
    alloc: Global,
    program: &C,
    one: &Point,
    other: &Point,
) -> Result<bool, Unexplained>
    ensures { IfOk result (λ r. r ≡ true → EntersFrom (C.code program.now) one.now other.now) }
{
    let frame = Frame::entry(alloc)?;
    let Some(call) = call_at(alloc, program, one)? else {
        return Ok(false);
    };
    Ok(
        other.procedure == Procedure::Entry(call.target)
            && other.at == call.target
            && is_same(&other.frame, &frame),
    )
}

/// Whether point `one` calls a procedure that returns at point `callee`, and `other` is the point
/// after that call, with the frame that this leaves.
fn comes_back<C: Code>(
    alloc: Global,
    program: &C,
    one: &Point,
    callee: &Point,
    other: &Point,
) -> Result<bool, Unexplained>
    ensures { IfOk result (λ r. r ≡ true → BackFrom (C.code program.now) one.now callee.now other.now) }
{
    let Some(call) = call_at(alloc, program, one)? else {
        return Ok(false);
    };
    let Some(taken) = words_taken(alloc, program, callee)? else {
        return Ok(false);
    };
    let role = role_of(program, one.procedure);
    let Some(frame) = frame_after_return(alloc, &one.frame, role, taken)? else {
        return Ok(false);
    };
    Ok(
        other.procedure == one.procedure
            && other.at == call.next
            && callee.procedure == Procedure::Entry(call.target)
            && is_same(&other.frame, &frame),
    )
}
