//! A search for the calls of a chain among the points of a search. Nothing rests on what it finds.

ghost use Rattle.std.specs.Prelude.{All, IfOk};
ghost use Rattle.verify80_bounds.specs.Chains.{IsModest};

use crate::chain::{depth_at, is_sum};
use frames80::{Code, MOST_POINTS, slot};
use indexmap::IndexMap;
use std::alloc::Global;
use verify80_bounds::{Bounds, BoundsFault, CallSite, Depth, find_bounds};
use verify80_flow::Procedure;
use verify80_walks::{CallingPoint, Point, Unexplained};

/// The points of a chain, by their numbers.
#[derive(Drop)]
pub(crate) struct Links {
    /// The points that call, last first.
    pub(crate) callers: Vec<usize>,
    /// The point where the last procedure stands.
    pub(crate) last: usize,
}

/// The points of a chain that adds up to `bytes`; `None` if that isn't the bound of the main
/// program by the points that were found. `Limit` if more than 262,144 of them call.
pub(crate) fn find_links<C: Code>(
    alloc: Global,
    program: &C,
    points: &[Point],
    calls: &[CallingPoint],
    bytes: u64,
) -> Result<Option<Links>, Unexplained> {
    let depths = depths(alloc, program, points)?;
    let sites = sites(alloc, program, points, calls)?;
    links_among(alloc, calls, &depths, &sites, bytes)
}

/// The points of a chain that adds up to `bytes`, by the depths of all points and by the calls as
/// `sites`; `None` and `Limit` as for [`find_links`].
fn links_among(
    alloc: Global,
    calls: &[CallingPoint],
    depths: &[Depth],
    sites: &[CallSite],
    bytes: u64,
) -> Result<Option<Links>, Unexplained>
    requires depths { All (λ d. IsModest d.depth) depths.now }
    requires sites { All (λ s. IsModest s.depth) sites.now }
{
    if sites.len() > MOST_POINTS {
        return Err(Unexplained::Limit);
    }
    match find_bounds(alloc, depths, sites) {
        Ok(bounds) if bounds.get(Procedure::Main) == bytes => {
            links_with(alloc, calls, depths, sites, &bounds)
        }
        Ok(_) | Err(BoundsFault::Recursion(_)) => Ok(None),
        Err(BoundsFault::Memory) => Err(Unexplained::Memory),
    }
}

/// The points of a chain that adds up to the bound of the main program; `None` if there is none by
/// these points.
fn links_with(
    alloc: Global,
    calls: &[CallingPoint],
    depths: &[Depth],
    sites: &[CallSite],
    bounds: &Bounds,
) -> Result<Option<Links>, Unexplained> {
    let lasts = last_points(alloc, depths, bounds)?;
    let nexts = next_calls(alloc, sites, bounds)?;
    links_by(alloc, calls, &lasts, &nexts)
}

/// Follows the chain from the main program on: by `nexts` from call to call, up to the first
/// procedure that `lasts` has a point of. `None` if the chain breaks off.
fn links_by(
    alloc: Global,
    calls: &[CallingPoint],
    lasts: &IndexMap<usize, usize>,
    nexts: &IndexMap<usize, usize>,
) -> Result<Option<Links>, Unexplained> {
    let mut callers = Vec::new(alloc);
    let mut procedure = Procedure::Main;
    loop {
        if let Some(last) = lasts.get(&slot(procedure)) {
            callers.reverse();
            return Ok(Some(Links {
                callers,
                last: *last,
            }));
        }
        if callers.len() > calls.len() {
            return Ok(None);
        }
        let Some(next) = nexts.get(&slot(procedure)) else {
            return Ok(None);
        };
        let Some(call) = calls.get(*next) else {
            return Ok(None);
        };
        callers.push(call.point)?;
        procedure = Procedure::Entry(call.target);
    }
}

/// The procedure and the depth of each point.
fn depths<C: Code>(alloc: Global, program: &C, points: &[Point]) -> Result<Vec<Depth>, Unexplained>
    ensures { IfOk result (λ depths. All (λ d. IsModest d.depth) depths.items) }
{
    let mut depths = Vec::new(alloc);
    for point in points {
        depths.push(Depth {
            procedure: point.procedure,
            depth: depth_at(program, point)?,
        })?;
    }
    Ok(depths)
}

/// The calls, with the depth of the caller at each.
fn sites<C: Code>(
    alloc: Global,
    program: &C,
    points: &[Point],
    calls: &[CallingPoint],
) -> Result<Vec<CallSite>, Unexplained>
    ensures { IfOk result (λ sites. All (λ s. IsModest s.depth) sites.items) }
{
    let mut sites = Vec::new(alloc);
    for call in calls {
        let Some(point) = points.get(call.point) else {
            break;
        };
        sites.push(CallSite {
            caller: point.procedure,
            at: point.at,
            depth: depth_at(program, point)?,
            target: call.target,
        })?;
    }
    Ok(sites)
}

/// For each procedure, by slot, the number of the first of its points whose depth is the
/// procedure's bound.
fn last_points(
    alloc: Global,
    depths: &[Depth],
    bounds: &Bounds,
) -> Result<IndexMap<usize, usize>, Unexplained> {
    let mut lasts = IndexMap::new(alloc);
    for number in 0..depths.len() {
        let place = slot(depths[number].procedure);
        let bytes = bounds.get(depths[number].procedure);
        if is_sum(depths[number].depth, bytes) && lasts.get(&place).is_none() {
            lasts.insert(place, number)?;
        }
    }
    Ok(lasts)
}

/// For each procedure, by slot, the number of its first call at which the depth, two bytes and the
/// callee's bound add up to its own bound.
fn next_calls(
    alloc: Global,
    sites: &[CallSite],
    bounds: &Bounds,
) -> Result<IndexMap<usize, usize>, Unexplained> {
    let mut nexts = IndexMap::new(alloc);
    for number in 0..sites.len() {
        let site = sites[number];
        let place = slot(site.caller);
        let below = i128::from(bounds.get(Procedure::Entry(site.target)));
        let sum = i128::from(site.depth) + 2 + below;
        if i128::from(bounds.get(site.caller)) == sum && nexts.get(&place).is_none() {
            nexts.insert(place, number)?;
        }
    }
    Ok(nexts)
}
