//! All that walks of an image's program reach, on conditions.

ghost use Rattle.std.specs.Prelude.{◌≡◌, ℕ, List, Option, All, IfOk, IfSome, OnOk};
ghost use Rattle.frames80.specs.Code.{Code as CodeSeen};
ghost use Rattle.frames80.specs.Procedures.{slot_of};
ghost use Rattle.std.specs.List.{filter_map};
ghost use Rattle.verify80.specs.Looking.{code_of};
ghost use Rattle.verify80_explain.specs.declared.conditions.Conditions.{Conditions};
ghost use Rattle.verify80_explain.specs.Conditions.{AreConditionsOf, MayBegin, code_from};
ghost use Rattle.verify80_explain.specs.Order.{ArePointsInOrder, number_of};
ghost use Rattle.verify80_walks.specs.Reached.{AreWalked};
ghost use Rattle.verify80_explain.specs.Reaching.{AreReachedOn, AreRefusalsOf, IsReachedAt, IsReachedOn};
ghost use Rattle.verify80_walks.specs.Ways.{IsWalked};

use crate::chain::{Standing, depth_at};
use crate::checking::{keep_begins, keep_conditions};
use crate::conditions::{ConditionalCode, Conditions};
use crate::explaining_all::{is_reached_within, refusal_at};
use crate::further::Conditioning;
use crate::place::Place;
use frames80::{Code, slot};
use image80::Image;
use indexmap::IndexSet;
use std::alloc::{AllocError, Global};
use verify80::ImageCode;
use verify80_flow::Refusal;
use verify80_walks::{Point, Search, Unexplained, are_reached};

/// Where a walk stands, and whether it may go on.
#[derive(Clone, Copy)]
pub struct ReachedPoint {
    /// The procedure, the address and the depth.
    pub standing: Standing,
    /// Why the instruction may not be executed there, also if a condition passes over it; `None` if it may.
    pub refusal: Option<Refusal>,
}

/// Where walks of a program stand, and the conditions on which they do.
#[derive(Drop)]
pub struct Reach {
    /// Where the program begins: `None` is its start; at the others it begins anew, with an empty stack.
    pub begins: Vec<Option<u16>>,
    /// The instructions that are passed over, and the procedures that return.
    pub conditions: Conditions,
    /// Where walks stand, from any of the beginnings on: each procedure, address, depth and refusal once; the main program's points
    /// first, then those of other procedures by entry, and those of one procedure by address, depth and the refusal's number.
    pub points: Vec<ReachedPoint>,
    /// Whether every walk on these conditions was followed to its end.
    pub is_whole: bool,
}

/// What tells a reached point from others, and by which they are sorted.
#[derive(Clone, Copy, PartialEq, Eq, PartialOrd, Ord, Hash)]
struct Key {
    place: usize,
    at: u16,
    depth: i64,
    refusal: Option<u8>,
}

impl Key {
    /// The key of a point.
    fn of(point: ReachedPoint) -> Key
        ensures { result ≡ record {
          place = slot_of point.standing.procedure;
          at = point.standing.at;
          depth = point.standing.depth;
          refusal = number_of point;
        } }
    {
        let ReachedPoint { standing, refusal } = point;
        Key {
            place: slot(standing.procedure),
            at: standing.at,
            depth: standing.depth,
            refusal: match refusal {
                Some(refusal) => Some(refusal.code()),
                None => None,
            },
        }
    }
}

/// Where walks of the image's program stand if what the verifier refuses doesn't stop them: on all the
/// conditions of [`explain_all`](crate::explain_all) at once. The limit is on what the points of all
/// searches weigh together, as for [`explain`](crate::explain); past it `is_whole` is false.
///
/// # Errors
/// `AllocError` only if memory runs out.
pub fn reach_all(alloc: Global, image: &Image, limit: usize) -> Result<Reach, AllocError>
    ensures { IfOk result (AreReachedOn (code_of image.now)) }
{
    let code = ImageCode::new(alloc, image)?;
    let mut conditioning = Conditioning::new(alloc, &code, limit / 2, &[])?;
    reach_on_found(alloc, &code, &mut conditioning, limit / 2)
}

/// Looks for conditions, and answers where walks stand on all of these; the limit is on what the points of the last searches weigh together.
fn reach_on_found(
    alloc: Global,
    code: &ImageCode,
    conditioning: &mut Conditioning<'_, '_>,
    limit: usize,
) -> Result<Reach, AllocError>
    ensures { IfOk result (AreReachedOn (code_of code.now)) }
{
    let are_all = look_for_conditions(alloc, conditioning)?;
    conditioning.allow(limit);
    let begins = begins_of(alloc, code, conditioning)?;
    let conditions = conditions_of(alloc, code, conditioning)?;
    reach_on(alloc, code, conditioning, begins, conditions, are_all)
}

/// Looks for all conditions. Answers whether every search for them was followed to its end.
fn look_for_conditions(
    alloc: Global,
    conditioning: &mut Conditioning<'_, '_>,
) -> Result<bool, AllocError> {
    let mut candidates = Vec::new(alloc);
    let found = conditioning.look_for_all(alloc, &mut candidates);
    is_reached_within(found.map(|()| true))
}

/// The addresses that were found at which the program may begin.
fn begins_of(
    alloc: Global,
    code: &ImageCode,
    conditioning: &Conditioning<'_, '_>,
) -> Result<Vec<Option<u16>>, AllocError>
    ensures { IfOk result (λ begins. All (MayBegin (code_of code.now)) begins.items) }
{
    let found = conditioning.begins(alloc)?;
    keep_begins(alloc, code, &found)
}

/// The conditions that were found, for a program that begins at its start.
fn conditions_of(
    alloc: Global,
    code: &ImageCode,
    conditioning: &Conditioning<'_, '_>,
) -> Result<Conditions, AllocError>
    ensures { IfOk result (AreConditionsOf (code_of code.now)) }
{
    let found = conditioning.all_from(alloc, 0)?;
    keep_conditions(alloc, code, &conditioning.calls, &found)
}

/// Where walks stand on conditions; `are_all` says whether all conditions were found.
fn reach_on(
    alloc: Global,
    code: &ImageCode,
    conditioning: &mut Conditioning<'_, '_>,
    begins: Vec<Option<u16>>,
    conditions: Conditions,
    are_all: bool,
) -> Result<Reach, AllocError>
    requires begins { All (MayBegin (code_of code.now)) begins.items }
    requires conditions { AreConditionsOf (code_of code.now) conditions }
    ensures { IfOk result (AreReachedOn (code_of code.now)) }
{
    let mut points = Vec::new(alloc);
    let are_reached = reach_in_order(alloc, code, conditioning, &begins, &conditions, &mut points)?;
    Ok(Reach {
        begins,
        conditions,
        points,
        is_whole: are_all && are_reached && conditioning.is_whole(),
    })
}

/// Appends where walks stand that begin at any of these addresses, on the conditions, and sorts all. Answers whether none is left out.
fn reach_in_order(
    alloc: Global,
    code: &ImageCode,
    conditioning: &mut Conditioning<'_, '_>,
    begins: &[Option<u16>],
    conditions: &Conditions,
    points: &mut Vec<ReachedPoint>,
) -> Result<bool, AllocError>
    ensures reached { OnOk result (All (IsReachedOn (code_of code.now) begins.now conditions.now) points.old.items
        → All (IsReachedOn (code_of code.now) begins.now conditions.now) points.new.items) }
    ensures in_order { OnOk result (ArePointsInOrder points.new.items) }
{
    let are_reached = reach_from_each(alloc, code, conditioning, begins, conditions, points)?;
    sort_points(points)?;
    Ok(are_reached)
}

/// Sorts points by procedure, address, depth and refusal, and leaves each once.
fn sort_points(points: &mut Vec<ReachedPoint>) -> Result<(), AllocError>
    ensures kept { (code : CodeSeen) (begins : List (Option ℕ)) (conditions : Conditions) → All (IsReachedOn code begins conditions) points.old.items
        → OnOk result (All (IsReachedOn code begins conditions) points.new.items) }
    ensures in_order { OnOk result (ArePointsInOrder points.new.items) }
{
    points.sort_by_key(|point| Key::of(*point))?;
    points.dedup_by_key(|point| Key::of(*point));
    Ok(())
}

/// The refusals of points, each once, ascending by address, and those of one address by number; those without an address come first.
///
/// # Errors
/// `AllocError` only if memory runs out.
pub fn refusals_of(alloc: Global, points: &[ReachedPoint]) -> Result<Vec<Refusal>, AllocError>
    ensures { IfOk result (λ refusals. AreRefusalsOf points.now refusals.items) }
{
    let mut refusals = refusals_at(alloc, points)?;
    refusals.sort_by_key(|refusal| Place::of(*refusal))?;
    refusals.dedup_by_key(|refusal| Place::of(*refusal));
    Ok(refusals)
}

/// The refusal of each point that has one. `AllocError` if memory runs out.
fn refusals_at(alloc: Global, points: &[ReachedPoint]) -> Result<Vec<Refusal>, AllocError>
    ensures { IfOk result (λ refusals. refusals.items ≡ filter_map (λ point. point.refusal) points.now) }
{
    points
        .iter()
        .filter_map(|point| point.refusal)
        .collect(alloc)
}

/// Appends where walks stand that begin at any of these addresses, on the conditions. Answers whether none is left out.
fn reach_from_each(
    alloc: Global,
    code: &ImageCode,
    conditioning: &mut Conditioning<'_, '_>,
    begins: &[Option<u16>],
    conditions: &Conditions,
    points: &mut Vec<ReachedPoint>,
) -> Result<bool, AllocError>
    ensures { OnOk result (All (IsReachedOn (code_of code.now) begins.now conditions.now) points.old.items
        → All (IsReachedOn (code_of code.now) begins.now conditions.now) points.new.items) }
{
    let mut seen = IndexSet::new(alloc);
    let mut are_all = true;
    for number in 0..begins.len() {
        let program = ConditionalCode {
            code,
            begins: begins[number],
            conditions,
        };
        let Some(found) = reach_of(alloc, code, &program, conditioning, &mut seen)? else {
            are_all = false;
            continue;
        };
        points.extend_from_slice(&found)?;
    }
    Ok(are_all)
}

/// Where walks of a program stand, but for what has been seen; `None` if there are too many. `plain` is the program without conditions.
fn reach_of<C: Code>(
    alloc: Global,
    plain: &ImageCode,
    program: &C,
    conditioning: &mut Conditioning<'_, '_>,
    seen: &mut IndexSet<Key>,
) -> Result<Option<Vec<ReachedPoint>>, AllocError>
    ensures { IfOk result (λ found. IfSome found (λ points. All (IsReachedAt (code_of plain.now) (C.code program.now)) points.items)) }
{
    match search_for(alloc, plain, program, conditioning, seen) {
        Ok(found) => Ok(found),
        Err(Unexplained::Memory) => Err(AllocError),
        Err(Unexplained::Limit | Unexplained::NotShown) => Ok(None),
    }
}

/// Where walks of a program stand, as [`reach_of`]; `None` if the points of the search don't come from one another.
fn search_for<C: Code>(
    alloc: Global,
    plain: &ImageCode,
    program: &C,
    conditioning: &mut Conditioning<'_, '_>,
    seen: &mut IndexSet<Key>,
) -> Result<Option<Vec<ReachedPoint>>, Unexplained>
    ensures { IfOk result (λ found. IfSome found (λ points. All (IsReachedAt (code_of plain.now) (C.code program.now)) points.items)) }
{
    let search = conditioning.search_program(alloc, program)?;
    stand_by(alloc, plain, program, &search, seen)
}

/// Where walks of a program stand by a search, but for what has been seen; `None` if its points don't come from one another.
fn stand_by<C: Code>(
    alloc: Global,
    plain: &ImageCode,
    program: &C,
    search: &Search,
    seen: &mut IndexSet<Key>,
) -> Result<Option<Vec<ReachedPoint>>, Unexplained>
    ensures { IfOk result (λ found. IfSome found (λ points. All (IsReachedAt (code_of plain.now) (C.code program.now)) points.items)) }
{
    let points = search.points.as_slice();
    if !are_reached(alloc, program, points, search.origins.as_slice())? {
        return Ok(None);
    }
    let found = stand_at(alloc, plain, program, points, seen)?;
    Ok(Some(found))
}

/// Where walks stand by these points, all of which walks must reach, but for what has been seen.
fn stand_at<C: Code>(
    alloc: Global,
    plain: &ImageCode,
    program: &C,
    points: &[Point],
    seen: &mut IndexSet<Key>,
) -> Result<Vec<ReachedPoint>, Unexplained>
    requires { AreWalked (C.code program.now) points.now }
    ensures { IfOk result (λ found. All (IsReachedAt (code_of plain.now) (C.code program.now)) found.items) }
{
    let mut found = Vec::new(alloc);
    for number in 0..points.len() {
        let point = reached_point(alloc, plain, program, &points[number])?;
        if !seen.insert(Key::of(point))? {
            continue;
        }
        found.push(point)?;
    }
    Ok(found)
}

/// Where a walk stands that reaches a point, and why the instruction there may not be executed with the walk's frame: as in the program
/// without conditions, so that an instruction that a condition passes over is refused, too.
fn reached_point<C: Code>(
    alloc: Global,
    plain: &ImageCode,
    program: &C,
    point: &Point,
) -> Result<ReachedPoint, Unexplained>
    requires { IsWalked (C.code program.now) point.now }
    ensures { IfOk result (IsReachedAt (code_of plain.now) (C.code program.now)) }
{
    let standing = Standing {
        procedure: point.procedure,
        at: point.at,
        depth: depth_at(program, point)?,
    };
    let refusal = refusal_at(alloc, plain, point)?;
    Ok(ReachedPoint { standing, refusal })
}
