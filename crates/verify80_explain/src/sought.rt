//! What shows a refusal, and whether points of a search do.

ghost use Rattle.std.specs.Prelude.{◌≡◌, IfOk, IfSome};
ghost use Rattle.verify80_explain.specs.declared.sought.Kind.TheVariants.{Fault as OfFault, Clash as OfClash, Ring as OfRing};
ghost use Rattle.verify80_explain.specs.Evidence.{IsSoughtFor, ShowsKind};
ghost use Rattle.verify80_walks.specs.Reached.{AreReached, AreWalked};

use crate::evidence::{Clash, Fault, is_clash, is_fault};
use crate::explanation::Explanation;
use crate::finding::{find_clash, find_fault};
use crate::ring::{find_ring, show_ring};
use frames80::{Code, FrameFault, LookFault};
use std::alloc::Global;
use verify80_flow::Refusal;
use verify80_walks::{Origin, Point, Search, Unexplained, are_reached, route_to};

/// What a search looks for to show a refusal.
#[derive(Clone, Copy)]
pub(crate) struct Sought {
    /// The address that the refusal names.
    pub(crate) at: u16,
    /// What has to be found there.
    pub(crate) kind: Kind,
}

/// The kinds of evidence that show a refusal.
#[derive(Clone, Copy)]
pub(crate) enum Kind {
    /// A point whose instruction may not be executed.
    Fault(Fault),
    /// Two points that show a refusal together.
    Clash(Clash),
    /// Calls that lead back to the procedure of the first of them.
    Ring,
}

impl Sought {
    /// Looks for this fault at an address.
    fn fault(at: u16, fault: Fault) -> Sought
        ensures { result ≡ record { at = at; kind = OfFault fault } }
    {
        Sought {
            at,
            kind: Kind::Fault(fault),
        }
    }

    /// Looks for two points that show a refusal in this way, the first of them at an address.
    fn clash(at: u16, clash: Clash) -> Sought
        ensures { result ≡ record { at = at; kind = OfClash clash } }
    {
        Sought {
            at,
            kind: Kind::Clash(clash),
        }
    }

    /// Looks for calls that lead back to the procedure that makes the call at an address.
    fn ring(at: u16) -> Sought
        ensures { result ≡ record { at = at; kind = OfRing } }
    {
        Sought {
            at,
            kind: Kind::Ring,
        }
    }

    /// What shows a refusal; `None` for `StackTooSmall`, `TooManyPoints` and `Memory`, which no
    /// ways show.
    pub(crate) fn of(refusal: Refusal) -> Option<Sought>
        ensures { IfSome result (IsSoughtFor refusal) }
    {
        Some(match refusal {
            Refusal::FetchOutside(at) => Sought::fault(at, Fault::Look(LookFault::Outside)),
            Refusal::UnusedOpcode(at) => Sought::fault(at, Fault::Look(LookFault::Unused)),
            Refusal::EnablesInterrupts(at) => {
                Sought::fault(at, Fault::Look(LookFault::EnablesInterrupts))
            }
            Refusal::Pchl(at) => Sought::fault(at, Fault::Look(LookFault::Pchl)),
            Refusal::DirectStore(at) => Sought::fault(at, Fault::Look(LookFault::DirectStore)),
            Refusal::Sphl(at) => Sought::fault(at, Fault::Frame(FrameFault::Sphl)),
            Refusal::StackByByte(at) => Sought::fault(at, Fault::Frame(FrameFault::StackByByte)),
            Refusal::SetsStack(at) => Sought::fault(at, Fault::Frame(FrameFault::SetsStack)),
            Refusal::PopsBelow(at) => Sought::fault(at, Fault::Frame(FrameFault::PopsBelow)),
            Refusal::ReturnNotOwn(at) => Sought::fault(at, Fault::Frame(FrameFault::ReturnNotOwn)),
            Refusal::ReturnFromMain(at) => {
                Sought::fault(at, Fault::Frame(FrameFault::ReturnFromMain))
            }
            Refusal::HeightsDiffer(at) => Sought::clash(at, Clash::Heights),
            Refusal::UnevenArguments(at) => Sought::clash(at, Clash::Returns),
            Refusal::ShortArguments(at) => Sought::clash(at, Clash::Shortage),
            Refusal::Recursion(at) => Sought::ring(at),
            Refusal::StackTooSmall(_, _) | Refusal::TooManyPoints | Refusal::Memory => return None,
        })
    }

    /// The explanation by points of a search that shows what is sought; `None` if they don't show
    /// it.
    pub(crate) fn show<C: Code>(
        self,
        alloc: Global,
        program: &C,
        search: &Search,
    ) -> Result<Option<Explanation>, Unexplained>
        ensures { IfOk result (λ shown. IfSome shown (ShowsKind (C.code program.now) self.at self.kind)) }
    {
        let points = search.points.as_slice();
        let origins = search.origins.as_slice();
        match self.kind {
            Kind::Fault(fault) => {
                let Some(number) = find_fault(alloc, program, points, self.at, fault)? else {
                    return Ok(None);
                };
                show_fault(alloc, program, points, origins, self.at, fault, number)
            }
            Kind::Clash(clash) => {
                let Some(pair) = find_clash(alloc, program, points, self.at, clash)? else {
                    return Ok(None);
                };
                show_clash(
                    alloc, program, points, origins, self.at, clash, pair.one, pair.other,
                )
            }
            Kind::Ring => {
                let Some(ring) = find_ring(alloc, search, self.at)? else {
                    return Ok(None);
                };
                show_ring(alloc, program, points, origins, self.at, &ring)
            }
        }
    }
}

/// The way to point `number`, if it is at address `at` and its instruction may not be executed for
/// this reason; `None` if that isn't so, or the points don't come from one another.
fn show_fault<C: Code>(
    alloc: Global,
    program: &C,
    points: &[Point],
    origins: &[Origin],
    at: u16,
    fault: Fault,
    number: usize,
) -> Result<Option<Explanation>, Unexplained>
    ensures { IfOk result (λ shown. IfSome shown (ShowsKind (C.code program.now) at (OfFault fault))) }
{
    if !are_reached(alloc, program, points, origins)? {
        return Ok(None);
    }
    show_reached_fault(alloc, program, points, origins, at, fault, number)
}

/// The way to point `number`, if it is at address `at` and its instruction may not be executed for
/// this reason; else `None`. Walks must reach all `points`, and each must come from where its entry
/// of `origins` says.
pub(crate) fn show_reached_fault<C: Code>(
    alloc: Global,
    program: &C,
    points: &[Point],
    origins: &[Origin],
    at: u16,
    fault: Fault,
    number: usize,
) -> Result<Option<Explanation>, Unexplained>
    requires reached { AreReached (C.code program.now) points.now origins.now }
    requires walked { AreWalked (C.code program.now) points.now }
    ensures { IfOk result (λ shown. IfSome shown (ShowsKind (C.code program.now) at (OfFault fault))) }
{
    if number >= points.len() || !is_fault(alloc, program, &points[number], at, fault)? {
        return Ok(None);
    }
    match route_to(alloc, program, points, origins, number)? {
        Some(route) => Ok(Some(Explanation::Way(route))),
        None => Ok(None),
    }
}

/// The ways to two points, if they show a refusal together in this way and the first is at address
/// `at`; `None` if that isn't so, or the points don't come from one another.
fn show_clash<C: Code>(
    alloc: Global,
    program: &C,
    points: &[Point],
    origins: &[Origin],
    at: u16,
    clash: Clash,
    one: usize,
    other: usize,
) -> Result<Option<Explanation>, Unexplained>
    ensures { IfOk result (λ shown. IfSome shown (ShowsKind (C.code program.now) at (OfClash clash))) }
{
    if one >= points.len() || other >= points.len() {
        return Ok(None);
    }
    if !is_clash(alloc, program, &points[one], &points[other], at, clash)? {
        return Ok(None);
    }
    if !are_reached(alloc, program, points, origins)? {
        return Ok(None);
    }
    let Some(route) = route_to(alloc, program, points, origins, one)? else {
        return Ok(None);
    };
    match route_to(alloc, program, points, origins, other)? {
        Some(second) => Ok(Some(Explanation::Ways(route, second))),
        None => Ok(None),
    }
}
