//! The chain of calls that a stack bound adds up.

ghost use Rattle.std.specs.Prelude.{◌≡◌, ◌+ℤ◌, true, IfOk, IfSome, pos};
ghost use Rattle.verify80_bounds.specs.Chains.{IsModest};
ghost use Rattle.frames80.specs.Calls.{depth_of};
ghost use Rattle.frames80.specs.Code.{role_of as role_in};
ghost use Rattle.verify80.specs.Looking.{code_of};
ghost use Rattle.verify80_explain.specs.Chains.{CallsAt, ChainsTo, StandsAt};
ghost use Rattle.verify80_walks.specs.Reached.{AreWalked};

use crate::links::find_links;
use frames80::{Code, depth, role_of};
use image80::Image;
use std::alloc::Global;
use verify80::ImageCode;
use verify80_bounds::CallSite;
use verify80_flow::Procedure;
use verify80_walks::{Point, Search, Unexplained, are_reached, call_at, is_within};

/// A chain of calls from the main program, and where its last procedure stands.
#[derive(Drop)]
pub struct Chain {
    /// The calls, from the main program's on, each with the bytes that its caller has on the stack
    /// there. Each return address takes two bytes more.
    pub calls: Vec<CallSite>,
    /// Where the last procedure stands, and what it has on the stack there.
    pub last: Standing,
}

/// How many bytes a procedure has on the stack at an address.
#[derive(Clone, Copy)]
pub struct Standing {
    /// The procedure.
    pub procedure: Procedure,
    /// The address.
    pub at: u16,
    /// By how many bytes the stack has grown since the procedure's start, its return address not
    /// counted; negative if it has shrunk.
    pub depth: i64,
}

/// A chain of calls whose bytes on the stack, with two for each return address, add up to `bytes`:
/// the bound of the main program, as `verify` reports it, or as the refusal `StackTooSmall` names
/// it. The limit is that of [`explain`](crate::explain).
///
/// # Errors
/// `NotShown` if none is found, as when the bound is another number or a procedure calls itself.
/// `Limit` if the points that are found weigh more than the limit, or more than 262,144 of them
/// call, or one has more than 1,000,000 words. `Memory` if memory runs out.
pub fn find_chain(
    alloc: Global,
    image: &Image,
    bytes: u64,
    limit: usize,
) -> Result<Chain, Unexplained>
    ensures chain { IfOk result (ChainsTo (code_of image.now) bytes) }
{
    let code = ImageCode::new(alloc, image)?;
    chain_of(alloc, &code, bytes, limit)
}

/// Searches a program for a chain of calls that adds up to `bytes`. The faults are those of
/// [`find_chain`].
fn chain_of<C: Code>(
    alloc: Global,
    program: &C,
    bytes: u64,
    limit: usize,
) -> Result<Chain, Unexplained>
    ensures { IfOk result (ChainsTo (C.code program.now) bytes) }
{
    let mut search = Search::new(alloc);
    chain_among(alloc, program, &mut search, bytes, limit)
}

/// A chain of calls at the points that a search finds, which adds up to `bytes`; `NotShown` if
/// there is none or the points don't come from one another, and `Limit` if they weigh more than the
/// limit.
fn chain_among<C: Code>(
    alloc: Global,
    program: &C,
    search: &mut Search,
    bytes: u64,
    limit: usize,
) -> Result<Chain, Unexplained>
    ensures { IfOk result (ChainsTo (C.code program.now) bytes) }
{
    if !search.grow(alloc, program, limit)? {
        return Err(Unexplained::Limit);
    }
    let points = search.points.as_slice();
    let Some(links) = find_links(alloc, program, points, search.calls.as_slice(), bytes)? else {
        return Err(Unexplained::NotShown);
    };
    if !are_reached(alloc, program, points, search.origins.as_slice())? {
        return Err(Unexplained::NotShown);
    }
    match chain_by(alloc, program, points, &links.callers, links.last, bytes)? {
        Some(chain) => Ok(chain),
        None => Err(Unexplained::NotShown),
    }
}

/// The chain of the calls at the points `callers`, the last call first, whose last procedure stands
/// at point `last`; `None` if these calls don't lead there from the main program, or don't add up
/// to `bytes`. Walks must reach all `points`.
fn chain_by<C: Code>(
    alloc: Global,
    program: &C,
    points: &[Point],
    callers: &[usize],
    last: usize,
    bytes: u64,
) -> Result<Option<Chain>, Unexplained>
    requires { AreWalked (C.code program.now) points.now }
    ensures { IfOk result (λ chain. IfSome chain (ChainsTo (C.code program.now) bytes)) }
{
    let Some(last) = standing_by(program, points, last)? else {
        return Ok(None);
    };
    let mut calls = Vec::new(alloc);
    let mut procedure = last.procedure;
    let mut sum = last.depth;
    for number in callers {
        let Some(call) = site_by(alloc, program, points, *number)? else {
            return Ok(None);
        };
        let Some(more) = depth_below_call(call.depth, sum) else {
            return Ok(None);
        };
        if procedure != Procedure::Entry(call.target) {
            return Ok(None);
        }
        calls.push(call)?;
        procedure = call.caller;
        sum = more;
    }
    if procedure != Procedure::Main || !is_sum(sum, bytes) {
        return Ok(None);
    }
    calls.reverse();
    Ok(Some(Chain { calls, last }))
}

/// The sum of a caller's depth, two bytes for the return address, and what its callee uses; `None`
/// if it overflows.
fn depth_below_call(depth: i64, below: i64) -> Option<i64>
    ensures { IfSome result (λ sum. sum ≡ (depth +ℤ pos 2) +ℤ below) }
{
    depth.checked_add(2)?.checked_add(below)
}

/// Whether a signed depth equals a number of bytes.
pub(crate) fn is_sum(depth: i64, bytes: u64) -> bool
    ensures { result ≡ true → pos bytes ≡ depth }
{
    i128::from(depth) == i128::from(bytes)
}

/// The procedure, the address and the depth of the point with this number; `None` if there is no
/// such point. Walks must reach all `points`.
fn standing_by<C: Code>(
    program: &C,
    points: &[Point],
    number: usize,
) -> Result<Option<Standing>, Unexplained>
    requires { AreWalked (C.code program.now) points.now }
    ensures { IfOk result (λ standing. IfSome standing (StandsAt (C.code program.now))) }
{
    if number >= points.len() {
        return Ok(None);
    }
    let point = &points[number];
    Ok(Some(Standing {
        procedure: point.procedure,
        at: point.at,
        depth: depth_at(program, point)?,
    }))
}

/// The call at the point with this number, and the caller's depth there; `None` if there is no such
/// point, or if it doesn't call. Walks must reach all `points`.
fn site_by<C: Code>(
    alloc: Global,
    program: &C,
    points: &[Point],
    number: usize,
) -> Result<Option<CallSite>, Unexplained>
    requires { AreWalked (C.code program.now) points.now }
    ensures { IfOk result (λ call. IfSome call (CallsAt (C.code program.now))) }
{
    if number >= points.len() {
        return Ok(None);
    }
    let point = &points[number];
    let Some(call) = call_at(alloc, program, point)? else {
        return Ok(None);
    };
    Ok(Some(CallSite {
        caller: point.procedure,
        at: point.at,
        depth: depth_at(program, point)?,
        target: call.target,
    }))
}

/// The depth of a point's frame in bytes; `Limit` if the frame has more than 1,000,000 words, or as
/// many taken.
pub(crate) fn depth_at<C: Code>(program: &C, point: &Point) -> Result<i64, Unexplained>
    ensures depth { IfOk result (λ d. d ≡ depth_of (role_in (C.code program.now) point.now.procedure) point.now.frame) }
    ensures modest { IfOk result IsModest }
{
    if !is_within(&point.frame) {
        return Err(Unexplained::Limit);
    }
    Ok(depth(&point.frame, role_of(program, point.procedure)))
}
