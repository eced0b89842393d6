//! The greatest sums of bytes over chains of calls, while calls are absorbed into them.

ghost use Rattle.std.specs.Prelude.{◌≡◌, All, IfOk, length};
ghost use Rattle.verify80_bounds.specs.Chains.{IsModest};
ghost use Rattle.verify80_bounds.specs.Sums.{IsRaised, IsSumAfter, AreDepths, AreSmall};

use crate::graph::{CallSite, Depth};
use frames80::{Procedure, SLOTS, slot, table};
use std::alloc::{AllocError, Global};

/// The greater of `sum` and `bytes`; `sum` if `bytes` is negative.
fn raise(sum: u64, bytes: i64) -> u64
    ensures { IsRaised sum bytes result }
{
    if bytes > 0 && bytes as u64 > sum {
        bytes as u64
    } else {
        sum
    }
}

/// The greatest depth of each procedure in bytes, by slot; 0 if it has none above 0. Each depth
/// must be from -2,097,152 to 2,097,152 bytes. The result has an entry for each of the 65,537
/// slots.
pub(crate) fn greatest_depths(alloc: Global, depths: &[Depth]) -> Result<Vec<u64>, AllocError>
    requires { All (λ d. IsModest d.depth) depths.now }
    ensures depths { IfOk result (λ v. AreDepths depths.now v.items) }
    ensures slots { IfOk result (λ v. length v.items ≡ 65537) }
{
    let mut sums = table(alloc, 0, SLOTS)?;
    for depth in depths {
        let place = slot(depth.procedure);
        sums[place] = raise(sums[place], depth.depth);
    }
    Ok(sums)
}

/// Absorbs a call: its caller's sum becomes at least the depth at the call, two bytes for the
/// return address, and the callee's sum. `sums` must have an entry for each slot, at most
/// 1,099,515,822,080 each, and the call's depth must be from -2,097,152 to 2,097,152 bytes.
pub(crate) fn absorb(sums: &mut [u64], call: &CallSite)
    requires slots { length sums.old ≡ 65537 }
    requires modest { IsModest call.now.depth }
    requires small { AreSmall sums.old 0 }
    ensures { IsSumAfter sums.old call.now sums.new }
{
    let below = sums[slot(Procedure::Entry(call.target))];
    let caller = slot(call.caller);
    sums[caller] = raise(sums[caller], call.depth + 2 + below as i64);
}
