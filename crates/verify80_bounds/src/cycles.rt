//! Calls that lead back to their own procedure.

ghost use Rattle.std.specs.Prelude.{◌≡◌, ◌<◌, IfOk, length};
ghost use Rattle.verify80_bounds.specs.Chains.{Cycles};
ghost use Rattle.verify80_bounds.specs.Sums.{AreStuck, AreFollowed};

use crate::graph::CallSite;
use frames80::{Procedure, SLOTS, slot, table};
use std::alloc::{AllocError, Global};

/// A table with one call that each procedure makes, by slot; `other` if it makes none.
fn next_calls(
    alloc: Global,
    calls: &[CallSite],
    other: CallSite,
) -> Result<Vec<CallSite>, AllocError>
    ensures followed { IfOk result (λ v. AreFollowed calls.now calls.now v.items) }
    ensures places { IfOk result (λ v. length v.items ≡ 65537) }
{
    let mut next = table(alloc, other, SLOTS)?;
    for call in calls {
        let caller = slot(call.caller);
        next[caller] = *call;
    }
    Ok(next)
}

/// The address of a call that leads back to its own procedure. There must be a call, and each
/// callee must make one of the calls itself: one call of each procedure is followed until a
/// procedure comes a second time.
pub(crate) fn cycle(alloc: Global, calls: &[CallSite]) -> Result<u16, AllocError>
    requires some { 0 < length calls.now }
    requires stuck { AreStuck calls.now }
    ensures { IfOk result (λ at. Cycles calls.now at) }
{
    let next = next_calls(alloc, calls, calls[0])?;
    let mut met = table(alloc, false, SLOTS)?;
    let mut call = next[slot(calls[0].caller)];
    while !met[slot(call.caller)] {
        let caller = slot(call.caller);
        met[caller] = true;
        call = next[slot(Procedure::Entry(call.target))];
    }
    Ok(call.at)
}
