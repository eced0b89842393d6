//! All refusals of points that the walks of an image reach, each shown by a way.

ghost use Rattle.std.specs.Prelude.{◌≡◌, All, IfOk, IfSome, OnOk};
ghost use Rattle.verify80.specs.Looking.{code_of};
ghost use Rattle.verify80_flow.specs.Refusal.{look_refusal as refusal_by_look, refusal_of};
ghost use Rattle.verify80_explain.specs.Conditions.{AreShownIf};
ghost use Rattle.verify80_explain.specs.Order.{AreShownInOrder};
ghost use Rattle.frames80.specs.Code.{Code};
ghost use Rattle.verify80_walks.specs.Reached.{AreReached, AreWalked};
ghost use Rattle.verify80_explain.specs.Reaching.{refusal_with};
ghost use Rattle.verify80_explain.specs.Shows.{IsShown, Shows};

use crate::conditions::Conditions;
use crate::explanation::Explanation;
use crate::further::show_further;
use crate::place::Place;
use crate::sought::{Kind, Sought, show_reached_fault};
use frames80::{Code, FrameFault, LookFault};
use image80::Image;
use indexmap::IndexSet;
use std::alloc::{AllocError, Global};
use verify80::ImageCode;
use verify80_flow::Refusal;
use verify80_walks::{
    Looked, Origin, Point, Search, Unexplained, are_reached, look_at, points_weight,
};

/// A refusal, and what shows it.
#[derive(Drop)]
pub struct ShownRefusal {
    /// Why the image is refused.
    pub refusal: Refusal,
    /// What shows that the refusal holds.
    pub explanation: Explanation,
}

/// The refusals of points that a search found, and whether they are all.
#[derive(Drop)]
pub struct ShownRefusals {
    /// The refusals by address, those of one address by number, each once.
    pub shown: Vec<ShownRefusal>,
    /// Whether every walk was followed to its end, and all refusals that were found are shown.
    pub are_all: bool,
    /// The refusals behind these, by the conditions on which walks reach them; those on the fewest conditions first.
    pub further: Vec<FurtherRefusals>,
    /// Whether every walk on conditions was followed to its end, and all refusals that were found are shown.
    pub are_all_further: bool,
}

/// Refusals of points that walks reach if conditions hold.
#[derive(Drop)]
pub struct FurtherRefusals {
    /// What is taken for granted.
    pub conditions: Conditions,
    /// The refusals by address, those of one address by number, each once.
    pub shown: Vec<ShownRefusal>,
}

/// A point whose instruction may not be executed, by its number in a search.
#[derive(Clone, Copy)]
pub(crate) struct FaultyPoint {
    /// The refusal of its instruction.
    pub(crate) refusal: Refusal,
    /// The number of the point in the search.
    pub(crate) number: usize,
}

/// All refusals of points, those with the numbers 1 to 11, that walks of the image's program reach,
/// each shown by a way. Walks end at a fault. What lies behind one is followed on conditions: an EI,
/// or a store outside data, is passed over; a procedure that a fault keeps from returning returns;
/// the program begins anew if it loads the stack's top elsewhere than in its main program. Nothing
/// is followed behind a PCHL without targets, or an address without an instruction.
///
/// The limit is on what the points that are found weigh together, as for
/// [`explain`](crate::explain), and on what the points of all ways weigh; half as much is allowed
/// for all searches on conditions. Past it fewer refusals are shown, and `are_all` or
/// `are_all_further` is false.
///
/// # Errors
/// `AllocError` only if memory runs out.
pub fn explain_all(alloc: Global, image: &Image, limit: usize) -> Result<ShownRefusals, AllocError>
    ensures shown { IfOk result (λ all. All (IsShown (code_of image.now)) all.shown.items) }
    ensures further { IfOk result (λ all. All (AreShownIf (code_of image.now)) all.further.items) }
    ensures in_order { IfOk result (λ all. AreShownInOrder all.shown.items) }
{
    let code = ImageCode::new(alloc, image)?;
    let mut shown = Vec::new(alloc);
    let are_all = show_reached(alloc, &code, limit, &mut shown)?;
    sort_shown(&mut shown)?;
    let mut further = Vec::new(alloc);
    let answer = show_further(alloc, &code, limit / 2, &shown, &mut further);
    let are_all_further = is_reached_within(answer)?;
    Ok(ShownRefusals {
        shown,
        are_all,
        further,
        are_all_further,
    })
}

/// Sorts what is shown by address and number, and leaves each refusal once.
pub(crate) fn sort_shown(shown: &mut Vec<ShownRefusal>) -> Result<(), AllocError>
    ensures kept { (code : Code) → All (IsShown code) shown.old.items → OnOk result (All (IsShown code) shown.new.items) }
    ensures in_order { OnOk result (AreShownInOrder shown.new.items) }
{
    shown.sort_by_key(|one| Place::of(one.refusal))?;
    shown.dedup_by_key(|one| Place::of(one.refusal));
    Ok(())
}

/// Appends the refusals of the points that walks of a program reach to `shown`, each with a way that
/// shows it; answers whether none is left out.
fn show_reached<C: Code>(
    alloc: Global,
    program: &C,
    limit: usize,
    shown: &mut Vec<ShownRefusal>,
) -> Result<bool, AllocError>
    ensures { All (IsShown (C.code program.now)) shown.old.items → All (IsShown (C.code program.now)) shown.new.items }
{
    let places = IndexSet::new(alloc);
    let mut search = Search::new(alloc);
    grow_and_show(alloc, program, &mut search, &places, limit, shown)
}

/// Lets a search grow up to the limit and appends the refusals of its points to `shown`, each with a
/// way that shows it, but for those at `places`; answers whether none is left out.
fn grow_and_show<C: Code>(
    alloc: Global,
    program: &C,
    search: &mut Search,
    places: &IndexSet<Place>,
    limit: usize,
    shown: &mut Vec<ShownRefusal>,
) -> Result<bool, AllocError>
    ensures { All (IsShown (C.code program.now)) shown.old.items → All (IsShown (C.code program.now)) shown.new.items }
{
    let is_whole = is_reached_within(search.grow(alloc, program, limit))?;
    let are_shown = is_reached_within(show_found(alloc, program, search, places, limit, shown))?;
    Ok(is_whole && are_shown)
}

/// The answer of a search, with `Limit` and `NotShown` as `false`: not all was found.
pub(crate) fn is_reached_within(reached: Result<bool, Unexplained>) -> Result<bool, AllocError> {
    match reached {
        Ok(is_whole) => Ok(is_whole),
        Err(Unexplained::Memory) => Err(AllocError),
        Err(Unexplained::Limit | Unexplained::NotShown) => Ok(false),
    }
}

/// Appends the refusals of the points that a search has found to `shown`, each with a way that shows
/// it, but for those at `places`; answers whether none is left out.
pub(crate) fn show_found<C: Code>(
    alloc: Global,
    program: &C,
    search: &Search,
    places: &IndexSet<Place>,
    limit: usize,
    shown: &mut Vec<ShownRefusal>,
) -> Result<bool, Unexplained>
    ensures { All (IsShown (C.code program.now)) shown.old.items → All (IsShown (C.code program.now)) shown.new.items }
{
    let points = search.points.as_slice();
    let origins = search.origins.as_slice();
    let found = find_faulty(alloc, program, points)?;
    let faulty = new_among(alloc, found, places)?;
    if !are_reached(alloc, program, points, origins)? {
        return Ok(false);
    }
    show_each(alloc, program, points, origins, &faulty, limit, shown)
}

/// The points of `faulty` whose refusals aren't at `places`.
pub(crate) fn new_among(
    alloc: Global,
    faulty: Vec<FaultyPoint>,
    places: &IndexSet<Place>,
) -> Result<Vec<FaultyPoint>, AllocError> {
    let mut new = Vec::new(alloc);
    for found in faulty.as_slice() {
        if !places.contains(&Place::of(found.refusal)) {
            new.push(*found)?;
        }
    }
    Ok(new)
}

/// Appends the refusals of these points to `shown`, each with a way that shows it, until the ways
/// weigh more than the limit; answers whether none is left out. Walks must reach all `points`, and
/// each must come from where its entry of `origins` says.
fn show_each<C: Code>(
    alloc: Global,
    program: &C,
    points: &[Point],
    origins: &[Origin],
    faulty: &[FaultyPoint],
    limit: usize,
    shown: &mut Vec<ShownRefusal>,
) -> Result<bool, Unexplained>
    requires reached { AreReached (C.code program.now) points.now origins.now }
    requires walked { AreWalked (C.code program.now) points.now }
    ensures { All (IsShown (C.code program.now)) shown.old.items → All (IsShown (C.code program.now)) shown.new.items }
{
    let mut left = limit;
    for found in faulty {
        let Some(explanation) = show_point(alloc, program, points, origins, *found)? else {
            return Ok(false);
        };
        let Some(rest) = left.checked_sub(weight_of(program, &explanation)) else {
            return Ok(false);
        };
        left = rest;
        shown.push(ShownRefusal {
            refusal: found.refusal,
            explanation,
        })?;
    }
    Ok(true)
}

/// The way to a point that shows its refusal; `None` if the checks find no such way. Walks must
/// reach all `points`, and each must come from where its entry of `origins` says.
fn show_point<C: Code>(
    alloc: Global,
    program: &C,
    points: &[Point],
    origins: &[Origin],
    found: FaultyPoint,
) -> Result<Option<Explanation>, Unexplained>
    requires reached { AreReached (C.code program.now) points.now origins.now }
    requires walked { AreWalked (C.code program.now) points.now }
    ensures { IfOk result (λ shown. IfSome shown (Shows (C.code program.now) found.refusal)) }
{
    let Some(sought) = Sought::of(found.refusal) else {
        return Ok(None);
    };
    let Kind::Fault(fault) = sought.kind else {
        return Ok(None);
    };
    show_reached_fault(
        alloc,
        program,
        points,
        origins,
        sought.at,
        fault,
        found.number,
    )
}

/// What the points and the calls of an explanation by a way weigh, `usize::MAX` at most; 0 for
/// other explanations, which no point alone has.
fn weight_of<C: Code>(program: &C, explanation: &Explanation) -> usize {
    match explanation {
        Explanation::Way(route) => {
            points_weight(program, &route.way).saturating_add(route.calls.len())
        }
        _ => 0,
    }
}

/// The first point for each address and refusal, sorted by address and the refusal's number.
pub(crate) fn find_faulty<C: Code>(
    alloc: Global,
    program: &C,
    points: &[Point],
) -> Result<Vec<FaultyPoint>, Unexplained> {
    let mut faulty = Vec::new(alloc);
    for number in 0..points.len() {
        if let Some(refusal) = refusal_at(alloc, program, &points[number])? {
            faulty.push(FaultyPoint { refusal, number })?;
        }
    }
    faulty.sort_by_key(place_of)?;
    faulty.dedup_by_key(|found| place_of(found));
    Ok(faulty)
}

/// The key by which refusals are sorted.
fn place_of(found: &FaultyPoint) -> Place {
    Place::of(found.refusal)
}

/// The refusal of the instruction at a point; `None` if it may be executed there.
pub(crate) fn refusal_at<C: Code>(
    alloc: Global,
    program: &C,
    point: &Point,
) -> Result<Option<Refusal>, Unexplained>
    ensures { IfOk result (λ refusal. refusal ≡ refusal_with (C.code program.now) point.now.procedure point.now.at point.now.frame) }
{
    let at = point.at;
    Ok(match look_at(alloc, program, point)? {
        Looked::Wrong(fault) => Some(look_refusal(fault, at)),
        Looked::Stuck(fault) => Some(frame_refusal(fault, at)),
        Looked::Moved(_moves, _next) => None,
    })
}

/// The refusal of an instruction at an address that has this fault with its frame.
fn frame_refusal(fault: FrameFault, at: u16) -> Refusal
    ensures { result ≡ refusal_of fault at }
{
    match fault {
        FrameFault::Sphl => Refusal::Sphl(at),
        FrameFault::StackByByte => Refusal::StackByByte(at),
        FrameFault::SetsStack => Refusal::SetsStack(at),
        FrameFault::PopsBelow => Refusal::PopsBelow(at),
        FrameFault::ReturnNotOwn => Refusal::ReturnNotOwn(at),
        FrameFault::ReturnFromMain => Refusal::ReturnFromMain(at),
        FrameFault::Memory => Refusal::Memory,
    }
}

/// The refusal of an address at which no instruction may be executed, for this reason.
fn look_refusal(fault: LookFault, at: u16) -> Refusal
    ensures { result ≡ refusal_by_look fault at }
{
    match fault {
        LookFault::Outside => Refusal::FetchOutside(at),
        LookFault::Unused => Refusal::UnusedOpcode(at),
        LookFault::EnablesInterrupts => Refusal::EnablesInterrupts(at),
        LookFault::Pchl => Refusal::Pchl(at),
        LookFault::DirectStore => Refusal::DirectStore(at),
    }
}
