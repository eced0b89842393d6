//! The stack that a program uses.

ghost use Rattle.std.specs.Prelude.{◌≡◌, IfOk, IfErr, length};
ghost use Rattle.verify80_flow.specs.Known.{IsFilled, Refused, is_exact};
ghost use Rattle.verify80_flow.specs.Survey.{AreWants, IsBounded};

use crate::laws::frame_laws;
use crate::refusal::Refusal;
use crate::survey::find_calls;
use crate::table::Table;
use frames80::Code;
use std::alloc::Global;
use verify80_bounds::{Bounds, BoundsFault, find_bounds};

/// The most bytes of stack that each procedure needs below its return address, its callees'
/// included. `table` must be filled, and `wants` has by slot how many words each procedure takes at
/// most.
///
/// # Errors
/// `ShortArguments` or `Recursion`, if it holds; out of memory.
pub(crate) fn bound_stack<C: Code>(
    alloc: Global,
    program: &C,
    table: &Table,
    wants: &[u32],
) -> Result<Bounds, Refusal>
    requires filled { IsFilled (C.code program.now) table.now.known }
    requires slots { length wants.now ≡ 65537 }
    requires wants { AreWants table.now.known.points wants.now (length table.now.known.points) }
    ensures bounded { IfOk result (IsBounded (C.code program.now) table.now.known wants.now) }
    ensures refused { IfErr result (Refused (is_exact table.now.known.forgets) (C.code program.now)) }
{
    frame_laws();
    let graph = find_calls(alloc, program, table, wants)?;
    match find_bounds(alloc, &graph.depths, &graph.calls) {
        Ok(bounds) => Ok(bounds),
        Err(BoundsFault::Recursion(at)) => Err(Refusal::Recursion(at)),
        Err(BoundsFault::Memory) => Err(Refusal::Memory),
    }
}
