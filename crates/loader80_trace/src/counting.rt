//! How often a run begins the instruction at each address.

ghost use Rattle.std.specs.Prelude.{◌≡◌, ◌+◌, ◌-◌, ◌<◌, ◌^◌, [], Some, IfOk, length, replicate, slice_index, slice_set};
ghost use Rattle.image80.specs.RegionMap.{Maps};
ghost use Rattle.machine80.specs.Ports.{lists_of};
ghost use Rattle.machine80.specs.Step.{with_ports};
ghost use Rattle.machine80.specs.World.{World, world_at_start};
ghost use Rattle.machine80_quick.specs.Quick.{StaysRight};
ghost use Rattle.loader80_trace.specs.Counts.{CountsSteps};
ghost use Rattle.loader80_trace.specs.Finished.{AreOpen, HasReached};
ghost use Rattle.loader80_trace.specs.Traces.{EndsSo};

use crate::finishing::finish;
use crate::limits::Limits;
use crate::stepping::{Rules, make_step};
use image80::RegionMap;
use loader80::{Ended, Vouched};
use machine80::{Cpu, Inputs, ListPorts, PagedBus};
use machine80_quick::laws::images_that_never_go_wrong_stay_right;
use std::alloc::{AllocError, Global};

/// How a run ended, and how often it began the instruction at each address.
#[derive(Drop)]
pub struct Counts {
    /// How the run ended, or was stopped.
    pub ended: Ended,
    /// For each of the 65536 addresses, how many of the run's steps began there, the ending one counted.
    pub steps: Vec<u64>,
}

/// Runs a vouched image from its start with these inputs and within these limits, and counts the steps that begin at
/// each address.
///
/// # Errors
/// `AllocError` only if memory runs out, also for an output below the limit.
pub fn count_steps(
    alloc: Global,
    vouched: &Vouched,
    inputs: Inputs,
    limits: Limits,
) -> Result<Counts, AllocError>
    ensures run { IfOk result (λ counts. let start = world_at_start vouched.now.image (lists_of inputs.pairs.items) [] in
        EndsSo vouched.now.image.regions (Some limits.outputs) start limits.steps counts.ended) }
    ensures counts { IfOk result (λ counts. let start = world_at_start vouched.now.image (lists_of inputs.pairs.items) [] in
        CountsSteps vouched.now.image.regions (Some limits.outputs) start counts.ended.steps counts.steps.items) }
{
    images_that_never_go_wrong_stay_right();
    let first = Limits {
        steps: 0,
        outputs: limits.outputs,
    };
    let mut at = finish(alloc, vouched, inputs, first)?;
    let mut steps = vec![in alloc; 0u64; 65536]?;
    let image = vouched.image();
    let map = RegionMap::new(alloc, &image.regions)?;
    let rules = Rules {
        regions: &image.regions,
        map: &map,
        outputs: limits.outputs,
    };
    let ended = count_each(
        &rules,
        limits.steps,
        at.ended.cpu,
        &mut at.bus,
        &mut at.ports,
        &mut steps,
    )?;
    Ok(Counts { ended, steps })
}

/// Makes at most `steps` steps of a run from its first state on, and counts in `counts`, by address, those that begin
/// there. `AllocError` if memory runs out for an output below the limit. All 65536 counts must be 0 before. The map
/// must be that of the regions. The ports must have the limit `rules.outputs`, no more outputs than that, and none
/// refused.
fn count_each(
    rules: &Rules<'_>,
    steps: u64,
    first: Cpu,
    bus: &mut PagedBus,
    ports: &mut ListPorts,
    counts: &mut Vec<u64>,
) -> Result<Ended, AllocError>
    requires maps { Maps rules.now.regions.now rules.now.map.now }
    requires open { AreOpen rules.now.outputs ports.old }
    requires zeros { counts.old.items ≡ replicate 65536 0 }
    ensures counted { IfOk result (λ ended. (start : World) → StaysRight rules.now.regions.now start →
        HasReached rules.now.regions.now rules.now.outputs start 0 (with_ports first bus.old ports.old) →
        EndsSo rules.now.regions.now (Some rules.now.outputs) start steps ended
        × CountsSteps rules.now.regions.now (Some rules.now.outputs) start ended.steps counts.new.items) }
{
    let mut cpu = first;
    for made in 0..steps {
        let address = cpu.pc;
        let end = make_step(rules, &mut cpu, bus, ports)?;
        count_at(counts, address);
        if end.is_some() {
            return Ok(Ended {
                end,
                steps: made + 1,
                cpu,
            });
        }
    }
    Ok(Ended {
        end: None,
        steps,
        cpu,
    })
}

/// Adds 1 to the count of an address, in a table that must have 65536 counts. That of the address must be below the
/// greatest `u64`.
pub fn count_at(counts: &mut Vec<u64>, address: u16)
    requires whole { length counts.old.items ≡ 65536 }
    requires countable { slice_index counts.old.items address < 2 ^ 64 - 1 }
    ensures counted { counts.new.items ≡ slice_set counts.old.items address (slice_index counts.old.items address + 1) }
    ensures in_memory { address < 65536 }
{
    counts[usize::from(address)] += 1;
}
