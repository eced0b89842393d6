//! A run to its end.

ghost use Rattle.std.specs.Prelude.{◌≡◌, ◌<◌, ◌↔◌, [], Some, None, IsTrue, IfOk, length};
ghost use Rattle.machine80.specs.Ports.{lists_of};
ghost use Rattle.machine80.specs.Step.{with_ports};
ghost use Rattle.machine80.specs.World.{world_at_start};
ghost use Rattle.machine80.specs.Run.{IsRun};
ghost use Rattle.loader80_trace.specs.Finished.{AreOpen, HasReached};

use crate::limits::Limits;
use loader80::{Ended, Vouched, run};
use machine80::{Inputs, ListPorts, PagedBus, Ports};
use std::alloc::{AllocError, Global};

/// The state that a run leaves which has ended or was stopped.
#[derive(Drop)]
pub struct Finished {
    /// How the run ended, or was stopped.
    pub ended: Ended,
    /// The memory after the run.
    pub bus: PagedBus,
    /// The ports after the run, with its outputs.
    pub ports: ListPorts,
}

/// Runs a vouched image from its start with these inputs and within these limits, and returns processor, memory and
/// ports after the last step, or before the step that ends the run.
///
/// # Errors
/// `AllocError` only if memory runs out, also for an output below the limit.
pub fn finish(
    alloc: Global,
    vouched: &Vouched,
    inputs: Inputs,
    limits: Limits,
) -> Result<Finished, AllocError>
    ensures run { IfOk result (λ finished. let start = world_at_start vouched.now.image (lists_of inputs.pairs.items) [] in
        IsRun vouched.now.image.regions (Some limits.outputs) start limits.steps finished.ended.steps
        (with_ports finished.ended.cpu finished.bus finished.ports) finished.ended.end) }
    ensures goes_on { IfOk result (λ finished. let start = world_at_start vouched.now.image (lists_of inputs.pairs.items) [] in
        finished.ended.end ≡ None → AreOpen limits.outputs finished.ports
        × HasReached vouched.now.image.regions limits.outputs start limits.steps
        (with_ports finished.ended.cpu finished.bus finished.ports)) }
{
    let mut bus = PagedBus::new(alloc, vouched.image())?;
    let mut ports = ListPorts::new(alloc, inputs, limits.outputs);
    let ended = run(vouched, &mut bus, &mut ports, limits.steps);
    if was_out_of_memory(&ports, limits.outputs) {
        return Err(AllocError);
    }
    Ok(Finished { ended, bus, ports })
}

/// Whether an output was refused while fewer than `limit` were kept, because memory ran out.
pub(crate) fn was_out_of_memory(ports: &ListPorts, limit: usize) -> bool
    ensures { IsTrue result ↔ ((0 < ports.now.refused) × (length ports.now.outputs < limit)) }
{
    ports.refusals() > 0 && ports.outputs().len() < limit
}
