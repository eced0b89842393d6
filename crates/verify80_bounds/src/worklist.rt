//! The worklist of settled procedures: those whose sums are final. A call to one of them is absorbed into its caller's sum, and a
//! procedure is settled when its last call is absorbed, so each call is absorbed once.

ghost use Rattle.std.specs.Prelude.{◌≡◌, ◌<◌, ◌≤◌, All, IfOk, OnOk, [], length, map, vec_len};
ghost use Rattle.verify80_bounds.specs.Sums.{AreGrouped, AreIdle, AreLeft, IsWorklist, IsAdvance};

use crate::graph::CallSite;
use crate::sums::absorb;
use frames80::{Procedure, SLOTS, slot, table};
use std::alloc::{AllocError, Global};

/// By slot, the calls to each procedure, and how many calls it makes itself.
type Grouped = (Vec<Vec<CallSite>>, Vec<usize>);

/// An empty list of calls for each procedure, by slot.
fn no_calls(alloc: Global) -> Result<Vec<Vec<CallSite>>, AllocError>
    ensures places { IfOk result (λ v. length v.items ≡ 65537) }
    ensures none { IfOk result (λ v. All (λ calls. calls.items ≡ []) v.items) }
{
    let mut lists = Vec::with_capacity(alloc, SLOTS)?;
    for _ in 0..SLOTS {
        lists.push(Vec::new(alloc))?;
    }
    Ok(lists)
}

/// Groups the calls by the slots of their callees, and counts how many each procedure makes. There
/// must be at most 262,144 calls.
pub(crate) fn group(alloc: Global, calls: &[CallSite]) -> Result<Grouped, AllocError>
    requires { length calls.now ≤ 262144 }
    ensures { IfOk result (λ g. AreGrouped calls.now (map (λ v. v.items) g.0.items) g.1.items) }
{
    let mut callers = no_calls(alloc)?;
    let mut counts = table(alloc, 0, SLOTS)?;
    for call in calls {
        callers[slot(Procedure::Entry(call.target))].push(*call)?;
        let caller = slot(call.caller);
        counts[caller] += 1;
    }
    Ok((callers, counts))
}

/// The slots of the procedures that are called and make no calls. `callers` and `counts` must have
/// equally many entries.
pub(crate) fn idle(
    alloc: Global,
    callers: &[Vec<CallSite>],
    counts: &[usize],
) -> Result<Vec<usize>, AllocError>
    requires { length callers.now ≡ length counts.now }
    ensures { IfOk result (λ v. AreIdle (map (λ v. v.items) callers.now) counts.now (length counts.now) v.items) }
{
    let mut slots = Vec::new(alloc);
    for (slot, count) in counts.iter().enumerate() {
        if *count == 0 && !callers[slot].is_empty() {
            slots.push(slot)?;
        }
    }
    Ok(slots)
}

/// Absorbs one call to the procedure at the end of the worklist, and appends its caller if that was
/// the caller's last call; or removes that procedure if no call to it is left. `settled` must have
/// an entry; it must have each procedure that is still called and makes none of the calls in
/// `callers`, and no procedure that makes one; and `counts` must count these calls by caller. All
/// that holds afterwards too. Sums and depths must be as small as `absorb` needs them.
pub(crate) fn advance(
    sums: &mut [u64],
    callers: &mut [Vec<CallSite>],
    counts: &mut [usize],
    settled: &mut Vec<usize>,
) -> Result<(), AllocError>
    requires some { 0 < vec_len settled.old }
    requires worklist { IsWorklist sums.old (map (λ v. v.items) callers.old) counts.old settled.old.items }
    ensures { OnOk
        result
        (IsAdvance sums.old (map (λ v. v.items) callers.old) settled.old.items
        sums.new (map (λ v. v.items) callers.new) counts.new settled.new.items) }
{
    let callee = settled[settled.len() - 1];
    match callers[callee].pop() {
        Some(call) => {
            absorb(sums, &call);
            let caller = slot(call.caller);
            counts[caller] -= 1;
            if counts[caller] == 0 {
                settled.push(caller)?;
            }
        }
        None => {
            settled.pop();
        }
    }
    Ok(())
}

/// The calls that aren't absorbed: those whose callees still have calls to absorb, by `counts`.
/// `counts` must have an entry for each slot.
pub(crate) fn pending_calls(
    alloc: Global,
    calls: &[CallSite],
    counts: &[usize],
) -> Result<Vec<CallSite>, AllocError>
    requires { length counts.now ≡ 65537 }
    ensures { IfOk result (λ v. AreLeft calls.now counts.now v.items) }
{
    let mut pending = Vec::new(alloc);
    for call in calls {
        if counts[slot(Procedure::Entry(call.target))] > 0 {
            pending.push(*call)?;
        }
    }
    Ok(pending)
}
