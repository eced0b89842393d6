//! One step of a run.

ghost use Rattle.std.specs.Prelude.{◌≡◌, IfOk};
ghost use Rattle.image80.specs.RegionMap.{Maps};
ghost use Rattle.machine80.specs.Step.{PortsAfter, with_ports};
ghost use Rattle.machine80.specs.Run.{world_of};
ghost use Rattle.machine80_quick.specs.Quick.{StaysRight};
ghost use Rattle.loader80_trace.specs.Finished.{AreOpen, MakesStep};

use crate::finishing::was_out_of_memory;
use image80::{RegionMap, Regions};
use machine80::{Cpu, End, ListPorts, PagedBus};
use machine80_quick::quick_advance;
use std::alloc::AllocError;

/// The regions and the limit of outputs by which a run makes its steps.
#[derive(Drop)]
pub(crate) struct Rules<'a> {
    /// The regions of the image.
    pub regions: &'a Regions,
    /// The map of the regions.
    pub map: &'a RegionMap,
    /// The greatest number of outputs.
    pub outputs: usize,
}

/// Makes one step of a run of verified code; returns how the run ends if it ends there, and `None` if it goes on. The
/// map must be that of the regions. The ports must have the limit `rules.outputs`, no more outputs than that, and none
/// refused.
///
/// # Errors
/// `AllocError` if memory runs out for an output below the limit.
pub(crate) fn make_step(
    rules: &Rules<'_>,
    cpu: &mut Cpu,
    bus: &mut PagedBus,
    ports: &mut ListPorts,
) -> Result<Option<End>, AllocError>
    requires maps { Maps rules.now.regions.now rules.now.map.now }
    requires open { AreOpen rules.now.outputs ports.old }
    ensures step { IfOk result (λ ending. let before = with_ports cpu.old bus.old ports.old in
        StaysRight rules.now.regions.now (world_of before) →
        MakesStep rules.now.regions.now rules.now.outputs before (with_ports cpu.new bus.new ports.new) ending) }
    ensures ports { IfOk result (λ ending. PortsAfter ending ports.old ports.new) }
{
    let advanced = quick_advance(cpu, bus, ports, rules.regions, rules.map, 1);
    if was_out_of_memory(ports, rules.outputs) {
        return Err(AllocError);
    }
    Ok(advanced.end)
}
