//! The ring of calls by which a procedure calls itself.

ghost use Rattle.std.specs.Prelude.{IfOk, IfSome};
ghost use Rattle.verify80_explain.specs.Shows.{ByRing};

use crate::explanation::Explanation;
use frames80::{Code, slot};
use indexmap::IndexSet;
use std::alloc::{AllocError, Global};
use verify80_flow::Procedure;
use verify80_walks::{
    CallingPoint, Groups, Origin, Point, Search, Unexplained, are_reached, callers_of,
    calls_between,
};

/// A call, by which a procedure is reached from a first call on.
#[derive(Clone, Copy)]
struct Reach {
    /// The call.
    call: CallingPoint,
    /// The index of the call by which the caller is reached; for the first call its own.
    from: usize,
}

/// The explanation by a ring: the calls at the points `numbers`, if they lead back to the procedure
/// of the first of them and that call is at address `at`, and the calls that lead to that
/// procedure. `None` if any of this isn't so.
pub(crate) fn show_ring<C: Code>(
    alloc: Global,
    program: &C,
    points: &[Point],
    origins: &[Origin],
    at: u16,
    numbers: &[usize],
) -> Result<Option<Explanation>, Unexplained>
    ensures { IfOk result (λ shown. IfSome shown (ByRing (C.code program.now) at)) }
{
    if numbers.is_empty() || numbers[0] >= points.len() {
        return Ok(None);
    }
    if !are_reached(alloc, program, points, origins)? {
        return Ok(None);
    }
    let procedure = points[numbers[0]].procedure;
    let Some(ring) = calls_between(alloc, program, points, numbers, procedure, procedure)? else {
        return Ok(None);
    };
    if ring.is_empty() || ring[0].at != at {
        return Ok(None);
    }
    let callers = callers_of(alloc, origins, numbers[0])?;
    match calls_between(alloc, program, points, &callers, Procedure::Main, procedure)? {
        Some(calls) => Ok(Some(Explanation::Ring { calls, ring })),
        None => Ok(None),
    }
}

/// The numbers of points whose calls lead from the procedure of the first of them, which calls at
/// address `at`, back to that procedure; `None` if there are none.
pub(crate) fn find_ring(
    alloc: Global,
    search: &Search,
    at: u16,
) -> Result<Option<Vec<usize>>, AllocError> {
    let points = search.points.as_slice();
    let calls = search.calls.as_slice();
    // All calls at one address have one callee, so what is reached from it is found once.
    let mut reached = Vec::new(alloc);
    for call in calls {
        if let Some(point) = points.get(call.point) {
            if point.at == at {
                if reached.is_empty() {
                    reached = reach_from(alloc, points, calls, *call)?;
                }
                if let Some(ring) = ring_by(alloc, &reached, *call, point.procedure)? {
                    return Ok(Some(ring));
                }
            }
        }
    }
    Ok(None)
}

/// The calls by which procedures are reached from a call on, breadth first: that call first, and
/// then one for each procedure that is reached.
fn reach_from(
    alloc: Global,
    points: &[Point],
    calls: &[CallingPoint],
    first: CallingPoint,
) -> Result<Vec<Reach>, AllocError> {
    let calls_of = by_caller(alloc, points, calls)?;
    let mut reached = Vec::new(alloc);
    reached.push(Reach {
        call: first,
        from: 0,
    })?;
    reach_all(alloc, calls, &calls_of, &mut reached)?;
    Ok(reached)
}

/// Appends the calls by which procedures are reached from the first of `reached`, breadth first, one
/// for each procedure. `calls_of` has the indices of `calls` by the slot of the caller.
fn reach_all(
    alloc: Global,
    calls: &[CallingPoint],
    calls_of: &Groups,
    reached: &mut Vec<Reach>,
) -> Result<(), AllocError> {
    let mut entered: IndexSet<u16> = IndexSet::new(alloc);
    for from in 0..calls.len() {
        if from >= reached.len() {
            break;
        }
        reach_next(alloc, calls, calls_of, from, &mut entered, reached)?;
    }
    Ok(())
}

/// Appends the calls of the procedure that the call with index `from` among `reached` enters, one for
/// each procedure that isn't in `entered` yet, and adds these to it.
fn reach_next(
    alloc: Global,
    calls: &[CallingPoint],
    calls_of: &Groups,
    from: usize,
    entered: &mut IndexSet<u16>,
    reached: &mut Vec<Reach>,
) -> Result<(), AllocError> {
    let Some(by) = reached.get(from) else {
        return Ok(());
    };
    let callee = Procedure::Entry(by.call.target);
    for number in calls_of.of(alloc, slot(callee))? {
        if let Some(call) = calls.get(number) {
            if entered.insert(call.target)? {
                reached.push(Reach { call: *call, from })?;
            }
        }
    }
    Ok(())
}

/// Groups the calls by the slot of the procedure that makes them.
fn by_caller(
    alloc: Global,
    points: &[Point],
    calls: &[CallingPoint],
) -> Result<Groups, AllocError> {
    let mut groups = Groups::new(alloc);
    for call in calls {
        match points.get(call.point) {
            Some(point) => groups.push(slot(point.procedure))?,
            None => groups.push(usize::MAX)?,
        }
    }
    Ok(groups)
}

/// The points of the calls that lead from `call` back to the procedure `caller`, which makes it,
/// that of `call` first; `None` if none do.
fn ring_by(
    alloc: Global,
    reached: &[Reach],
    call: CallingPoint,
    caller: Procedure,
) -> Result<Option<Vec<usize>>, AllocError> {
    for number in 0..reached.len() {
        if caller == Procedure::Entry(reached[number].call.target) {
            return Ok(Some(calls_back(alloc, reached, number, call)?));
        }
    }
    Ok(None)
}

/// The points of the calls from `call` to the reached call with this index. `call` takes the place
/// of the first reached one, which has the same callee.
fn calls_back(
    alloc: Global,
    reached: &[Reach],
    number: usize,
    call: CallingPoint,
) -> Result<Vec<usize>, AllocError> {
    let mut back = Vec::new(alloc);
    let mut at = number;
    for _ in 0..reached.len() {
        if at == 0 || at >= reached.len() {
            break;
        }
        back.push(reached[at].call.point)?;
        at = reached[at].from;
    }
    back.push(call.point)?;
    back.reverse();
    Ok(back)
}
