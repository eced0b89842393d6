//! The way to a reached point, and calls that lead from one procedure to another.

ghost use Rattle.std.specs.Prelude.{◌≡◌, ◌<◌, IfOk, IfSome, Some, length, slice_get};
ghost use Rattle.frames80.specs.declared.procedure.Procedure.TheVariants.{Main};
ghost use Rattle.frames80.specs.Code.{Code as CodeSeen};
ghost use Rattle.verify80_walks.specs.declared.point.Point.{Point as PointSeen};
ghost use Rattle.verify80_walks.specs.Backwards.{IsBefore, IsWayTo};
ghost use Rattle.verify80_walks.specs.Reached.{AreReached, AreWalked};
ghost use Rattle.verify80_walks.specs.Ways.{IsCalled, IsRoute, Lead};

use crate::fault::Unexplained;
use crate::looked::call_at;
use crate::point::Point;
use crate::route::{Call, Route};
use crate::search::Origin;
use frames80::Code;
use std::alloc::{AllocError, Global};
use verify80_flow::Procedure;

/// The calls that lead to the procedure of point `number`, and the way through it to the point;
/// `None` if the calls don't lead there. There must be a point `number`. Walks must reach all
/// `points`, and each must come from where its entry of `origins` says.
///
/// # Errors
/// `Limit` if the frame of a point has more than 1,000,000 words, or as many taken. `Memory` if memory runs out.
pub fn route_to<C: Code>(
    alloc: Global,
    program: &C,
    points: &[Point],
    origins: &[Origin],
    number: usize,
) -> Result<Option<Route>, Unexplained>
    requires reached { AreReached (C.code program.now) points.now origins.now }
    requires walked { AreWalked (C.code program.now) points.now }
    requires there { number < length points.now }
    ensures { IfOk result (λ route. IfSome route (λ route. (last : PointSeen) → slice_get points.now number ≡ Some last
        → IsRoute (C.code program.now) route last)) }
{
    let callers = callers_of(alloc, origins, number)?;
    let procedure = points[number].procedure;
    let Some(calls) = calls_between(alloc, program, points, &callers, Procedure::Main, procedure)?
    else {
        return Ok(None);
    };
    let way = way_to(alloc, points, origins, number)?;
    Ok(Some(Route { calls, way }))
}

/// The number of the point that comes before point `number` in its procedure: for one after a call,
/// the point that calls. `None` at the procedure's start. The result is below `number`. There must
/// be a point `number`, and `origins` must have an entry for each point.
fn before(points: &[Point], origins: &[Origin], number: usize) -> Option<usize>
    requires paired { length origins.now ≡ length points.now }
    requires there { number < length points.now }
    ensures earlier { IfSome result (λ i. i < number) }
    ensures before { (code : CodeSeen) → AreReached code points.now origins.now → IsBefore code points.now number result }
{
    match origins[number] {
        Origin::Begins => None,
        Origin::Enters(_) => None,
        Origin::GoesOn(before) => earlier(before, number),
        Origin::ComesBack { call, .. } => earlier(call, number),
    }
}

/// `one` if it is less than `number`; else `None`.
fn earlier(one: usize, number: usize) -> Option<usize>
    ensures one { IfSome result (λ i. i ≡ one) }
    ensures below { IfSome result (λ i. i < number) }
    ensures none { one < number → result ≡ Some one }
{
    if one < number { Some(one) } else { None }
}

/// The points from the start of its procedure to point `number`, by the origins. There must be a
/// point `number`, and `origins` must have an entry for each point.
fn way_to(
    alloc: Global,
    points: &[Point],
    origins: &[Origin],
    number: usize,
) -> Result<Vec<Point>, AllocError>
    requires paired { length origins.now ≡ length points.now }
    requires there { number < length points.now }
    ensures { IfOk result (λ way. (code : CodeSeen) (last : PointSeen) → AreReached code points.now origins.now
        → slice_get points.now number ≡ Some last → IsWayTo code way.items last) }
{
    let mut way = Vec::new(alloc);
    let mut at = number;
    way.push(points[at].copy(alloc)?)?;
    while let Some(before) = before(points, origins, at) {
        at = before;
        way.push(points[at].copy(alloc)?)?;
    }
    way.reverse();
    Ok(way)
}

/// The numbers of the points whose calls lead from the main program to the procedure of point
/// `number`, by the origins; where these break off, so do the calls.
///
/// # Errors
/// `AllocError` only if memory runs out.
pub fn callers_of(
    alloc: Global,
    origins: &[Origin],
    number: usize,
) -> Result<Vec<usize>, AllocError> {
    let mut callers = Vec::new(alloc);
    let mut at = number;
    for _ in 0..origins.len() {
        match origins.get(at) {
            Some(Origin::GoesOn(before)) => at = *before,
            Some(Origin::ComesBack { call, .. }) => at = *call,
            Some(Origin::Enters(call)) => {
                callers.push(*call)?;
                at = *call;
            }
            Some(Origin::Begins) | None => break,
        }
    }
    callers.reverse();
    Ok(callers)
}

/// The calls of the points with these numbers, if each calls the procedure of the next and they
/// lead from procedure `from` to procedure `to`; else `None`. Walks must reach all `points`.
///
/// # Errors
/// `Limit` if the frame of a point has more than 1,000,000 words, or as many taken. `Memory` if memory runs out.
pub fn calls_between<C: Code>(
    alloc: Global,
    program: &C,
    points: &[Point],
    numbers: &[usize],
    from: Procedure,
    to: Procedure,
) -> Result<Option<Vec<Call>>, Unexplained>
    requires { AreWalked (C.code program.now) points.now }
    ensures { IfOk result (λ calls. IfSome calls (λ calls. Lead (C.code program.now) from calls.items to)) }
{
    let mut calls = Vec::new(alloc);
    let mut at = from;
    for number in numbers {
        let Some(call) = call_by(alloc, program, points, *number)? else {
            return Ok(None);
        };
        if call.caller != at {
            return Ok(None);
        }
        calls.push(call)?;
        at = Procedure::Entry(call.target);
    }
    if at != to {
        return Ok(None);
    }
    Ok(Some(calls))
}

/// The call at the point with this number; `None` if there is no such point, or if it doesn't call.
/// Walks must reach all `points`.
fn call_by<C: Code>(
    alloc: Global,
    program: &C,
    points: &[Point],
    number: usize,
) -> Result<Option<Call>, Unexplained>
    requires { AreWalked (C.code program.now) points.now }
    ensures { IfOk result (λ call. IfSome call (IsCalled (C.code program.now))) }
{
    if number >= points.len() {
        return Ok(None);
    }
    let point = &points[number];
    let Some(call) = call_at(alloc, program, point)? else {
        return Ok(None);
    };
    Ok(Some(Call {
        caller: point.procedure,
        at: point.at,
        target: call.target,
    }))
}
