//! The whole analysis of a program.

ghost use Rattle.std.specs.Prelude.{◌≡◌, false, true, is_some, None, IfOk, IfErr, IfSome};
ghost use Rattle.verify80_flow.specs.Accepted.{IsAccepted, IsAnalysis, IsMeasured};
ghost use Rattle.verify80_flow.specs.Faults.{Holds, HoldsAnyway};
ghost use Rattle.verify80_flow.specs.Known.{IsFilled, Refused, is_exact, nothing_known};
ghost use Rattle.verify80_flow.specs.ProgramPoints.{ArePoints};

use crate::fill::fill;
use crate::laws::frame_laws;
use crate::program_points::list_points;
use crate::refusal::Refusal;
use crate::report::{Analysis, Report};
use crate::rows::list_rows;
use crate::stack::bound_stack;
use crate::table::Table;
use crate::walks::go_along;
use crate::wants::find_wants;
use frames80::{Code, Procedure};
use std::alloc::Global;
use verify80_hints::find_steps;

/// How many visits the first attempt at a program gets, beside those for each of its points.
const FIRST_VISITS: u64 = 20_000;

/// Follows every walk of every procedure of a program, and reports on its procedures and its stack,
/// and on the points that walks reach. A program of which a refusal holds isn't accepted, and one
/// of which none holds is refused only if memory runs out.
///
/// # Errors
/// A refusal that holds, or `Memory`.
pub fn analyze<C: Code>(alloc: Global, program: &C) -> Result<Analysis, Refusal>
    ensures accepted { IfOk result (λ found. IsAccepted (C.code program.now) found.report.procedures.items found.report.stack_bytes) }
    ensures points { IfOk result (λ found. ArePoints (C.code program.now) found.points.items) }
    ensures refused { IfErr result (Holds (C.code program.now)) }
{
    let found = measure(alloc, program)?;
    let stack = program.stack();
    let needed = found.report.stack_bytes;
    if needed > u64::from(stack) {
        return Err(Refusal::StackTooSmall(needed, stack));
    }
    Ok(found)
}

/// Analyzes a program as [`analyze`] does, but never refuses it for a stack that is too small.
///
/// # Errors
/// A refusal that holds, but never `StackTooSmall`; or `Memory`.
pub fn measure<C: Code>(alloc: Global, program: &C) -> Result<Analysis, Refusal>
    ensures measured { IfOk result (λ found. IsMeasured (C.code program.now) found.report.procedures.items found.report.stack_bytes) }
    ensures points { IfOk result (λ found. ArePoints (C.code program.now) found.points.items) }
    ensures refused { IfErr result (HoldsAnyway (C.code program.now)) }
{
    if let Some(found) = measure_in_few_visits(alloc, program)? {
        return Ok(found);
    }
    if let Some(found) = measure_asked(alloc, program)? {
        return Ok(found);
    }
    refuse_return(alloc, program)?;
    measure_whole(alloc, program)
}

/// Measures a program with full frames and few visits of each point; `None` if these aren't enough.
/// Any refusal but `Memory` holds.
fn measure_in_few_visits<C: Code>(alloc: Global, program: &C) -> Result<Option<Analysis>, Refusal>
    ensures found { IfOk result (λ found. IfSome found (IsAnalysis (C.code program.now))) }
    ensures refused { IfErr result (HoldsAnyway (C.code program.now)) }
{
    measure_once(alloc, program, false, Some(FIRST_VISITS))
}

/// Measures a program with frames that forget what no return asks for. `None` if a return is
/// reached whose word isn't known to be the return address: it may just have been forgotten. Any
/// refusal but `Memory` holds.
fn measure_asked<C: Code>(alloc: Global, program: &C) -> Result<Option<Analysis>, Refusal>
    ensures found { IfOk result (λ found. IfSome found (IsAnalysis (C.code program.now))) }
    ensures refused { IfErr result (HoldsAnyway (C.code program.now)) }
{
    match measure_once(alloc, program, true, None) {
        Ok(found) => Ok(found),
        Err(refusal) if refusal.rests_on_a_word() => Ok(None),
        Err(refusal) => Err(refusal),
    }
}

/// Refuses a program if the search of the hints finds steps of a walk to a return with another word
/// than the return address, or of two walks with different counts, and they can be taken. Any
/// refusal but `Memory` holds.
fn refuse_return<C: Code>(alloc: Global, program: &C) -> Result<(), Refusal>
    ensures refused { IfErr result (HoldsAnyway (C.code program.now)) }
{
    let steps = find_steps(alloc, program)?;
    go_along(alloc, program, &steps)
}

/// Measures a program with full frames, however many visits it takes. Any refusal but `Memory`
/// holds.
fn measure_whole<C: Code>(alloc: Global, program: &C) -> Result<Analysis, Refusal>
    ensures found { IfOk result (IsAnalysis (C.code program.now)) }
    ensures refused { IfErr result (HoldsAnyway (C.code program.now)) }
{
    match measure_once(alloc, program, false, None)? {
        Some(found) => Ok(found),
        None => unreachable!(),
    }
}

/// Measures a program by a table of its own, whose frames forget what no return asks for if
/// `forgets` is set; `None` if that takes more than `visits` visits and four more for each point,
/// but never if `visits` is `None`. Any refusal but `Memory` holds; only `ReturnNotOwn` may not, if
/// frames forget.
fn measure_once<C: Code>(
    alloc: Global,
    program: &C,
    forgets: bool,
    visits: Option<u64>,
) -> Result<Option<Analysis>, Refusal>
    ensures found { IfOk result (λ found. IfSome found (IsAnalysis (C.code program.now))) }
    ensures whole { visits ≡ None → IfOk result (λ found. is_some found ≡ true) }
    ensures refused { IfErr result (Refused (is_exact forgets) (C.code program.now)) }
{
    let mut table = Table::new(alloc, program, forgets, visits.unwrap_or(u64::MAX))?;
    fill_and_report(alloc, program, visits.is_some(), &mut table)
}

/// Fills an empty table for a program and reports on it; `None` only if `gives_up` is set and the
/// table's visits are spent before. Any refusal but `Memory` holds; only `ReturnNotOwn` may not, if
/// the table's frames forget. `table` must have no points and no returns before.
fn fill_and_report<C: Code>(
    alloc: Global,
    program: &C,
    gives_up: bool,
    table: &mut Table,
) -> Result<Option<Analysis>, Refusal>
    requires { table.old.known ≡ nothing_known table.old.known.forgets }
    ensures found { IfOk result (λ found. IfSome found (IsAnalysis (C.code program.now))) }
    ensures whole { gives_up ≡ false → IfOk result (λ found. is_some found ≡ true) }
    ensures refused { IfErr result (Refused (is_exact table.old.known.forgets) (C.code program.now)) }
{
    if !fill(program, table, gives_up)? {
        return Ok(None);
    }
    Ok(Some(report_on(alloc, program, table)?))
}

/// Reports on a program whose table is filled. Any refusal but `Memory` holds; only `ReturnNotOwn`
/// may not, if the table's frames forget. `table` must be filled for this program, as `fill` leaves
/// it.
fn report_on<C: Code>(alloc: Global, program: &C, table: &Table) -> Result<Analysis, Refusal>
    requires { IsFilled (C.code program.now) table.now.known }
    ensures found { IfOk result (IsAnalysis (C.code program.now)) }
    ensures refused { IfErr result (Refused (is_exact table.now.known.forgets) (C.code program.now)) }
{
    frame_laws();
    let wants = find_wants(alloc, table)?;
    let bounds = bound_stack(alloc, program, table, &wants)?;
    let report = Report {
        procedures: list_rows(alloc, table, &wants, &bounds)?,
        stack_bytes: bounds.get(Procedure::Main),
    };
    Ok(Analysis {
        report,
        points: list_points(alloc, table)?,
    })
}
