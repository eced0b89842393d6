//! The lines of a run's instructions.

ghost use Rattle.std.specs.Prelude.{◌≡◌, ◌+◌, ◌<◌, ◌≤◌, ◌++◌, [], Some, IfOk, OnErr, OnOk};
ghost use Rattle.std.specs.Io.KnownBytes.{Appends};
ghost use Rattle.image80.specs.RegionMap.{Maps};
ghost use Rattle.machine80.specs.Ports.{lists_of};
ghost use Rattle.machine80.specs.Step.{PortsAfter, with_ports};
ghost use Rattle.machine80.specs.World.{World, world_at_start};
ghost use Rattle.machine80.specs.Run.{world_of};
ghost use Rattle.machine80_quick.specs.Quick.{StaysRight};
ghost use Rattle.loader80_trace.specs.Lines.{byte_seen, machine_line};
ghost use Rattle.loader80_trace.specs.Finished.{AreOpen, HasReached, MakesStep};
ghost use Rattle.loader80_trace.specs.Traces.{AppendsFront, IsTraced, count_within, run_lines, trace_failures};

use crate::fault::TraceFault;
use crate::finishing::finish;
use crate::limits::{Limits, Span};
use crate::line::{LineForm, append_front, append_line};
use crate::stepping::{Rules, make_step};
use decode80::{Fetched, Instr};
use image80::RegionMap;
use loader80::{Ended, Vouched};
use machine80::{Cpu, End, Inputs, ListPorts, PagedBus, fetch};
use machine80_quick::laws::images_that_never_go_wrong_stay_right;
use std::alloc::{AllocError, Global};
use stream80::{Sink, write_all};

/// Runs a vouched image from its start with these inputs and within these limits, and writes the lines of the
/// instructions in the span, each as it comes. A line has the instruction as a listing has it, the byte that it takes
/// from a port or gives to one, and the registers before it; if lines are numbered, the number of steps that were
/// made before it comes first. Before the line of an instruction whose address has a name there is a line for that.
/// After the last step that the limits allow, the next instruction has a line too.
///
/// Returns how the run ended if its last line is among these or before them, and `None` if the span ended first.
///
/// The count of failures of the writer must be below the greatest `u64`.
///
/// # Errors
/// `Write` if a write fails or takes no byte, and `Memory` if memory runs out, also for an output below the limit. A
/// prefix of the lines has then been written.
pub fn write_lines<K: Sink>(
    alloc: Global,
    vouched: &Vouched,
    inputs: Inputs,
    limits: Limits,
    span: Span,
    form: LineForm<'_>,
    out: &mut K,
) -> Result<Option<Ended>, TraceFault>
    requires { K.failed out.old < u64.MAX }
    ensures lines { OnOk result (let start = world_at_start vouched.now.image (lists_of inputs.pairs.items) [] in
        Appends (K.written out.old) (K.written out.new) (run_lines vouched.now.image.regions (Some limits.outputs) start
        form.entry.publics.now form.entry.numbered span.from (count_within limits.steps span.from span.count))) }
    ensures traced { IfOk result (let start = world_at_start vouched.now.image (lists_of inputs.pairs.items) [] in
        IsTraced vouched.now.image.regions (Some limits.outputs) start limits.steps span.from span.count) }
    ensures front { OnErr result (let start = world_at_start vouched.now.image (lists_of inputs.pairs.items) [] in
        AppendsFront (K.written out.old) (K.written out.new) (run_lines vouched.now.image.regions (Some limits.outputs) start
        form.entry.publics.now form.entry.numbered span.from (count_within limits.steps span.from span.count))) }
    ensures failures { K.failed out.new ≡ K.failed out.old + trace_failures result }
{
    images_that_never_go_wrong_stay_right();
    let before = Limits {
        steps: span.from.min(limits.steps),
        outputs: limits.outputs,
    };
    let mut at = finish(alloc, vouched, inputs, before)?;
    if at.ended.end.is_some() || limits.steps < span.from {
        return Ok(Some(at.ended));
    }
    let image = vouched.image();
    let map = RegionMap::new(alloc, &image.regions)?;
    let rules = Rules {
        regions: &image.regions,
        map: &map,
        outputs: limits.outputs,
    };
    let lines = Lines {
        span,
        steps: limits.steps,
        form,
    };
    write_each(
        alloc,
        &rules,
        lines,
        at.ended.cpu,
        &mut at.bus,
        &mut at.ports,
        out,
    )
}

/// Which lines are written, and how.
#[derive(Clone, Copy)]
struct Lines<'a> {
    /// The instructions that have a line.
    span: Span,
    /// The greatest number of steps of the run.
    steps: u64,
    /// What the lines have besides the instruction.
    form: LineForm<'a>,
}

/// Runs on from the state that the run has reached before the first line, and writes the lines. Returns how the run
/// ended, or `None` if the span ended first. The span must begin within the run's steps, and the count of failures of
/// `out` be below the greatest `u64`. The map must be that of the regions. The ports must have the limit
/// `rules.outputs`, no more outputs than that, and none refused.
fn write_each<K: Sink>(
    alloc: Global,
    rules: &Rules<'_>,
    lines: Lines<'_>,
    first: Cpu,
    bus: &mut PagedBus,
    ports: &mut ListPorts,
    out: &mut K,
) -> Result<Option<Ended>, TraceFault>
    requires countable { K.failed out.old < u64.MAX }
    requires maps { Maps rules.now.regions.now rules.now.map.now }
    requires open { AreOpen rules.now.outputs ports.old }
    requires within { lines.span.from ≤ lines.steps }
    ensures lines { OnOk result ((start : World) → StaysRight rules.now.regions.now start →
        HasReached rules.now.regions.now rules.now.outputs start lines.entry.span.from (with_ports first bus.old ports.old) →
        Appends (K.written out.old) (K.written out.new) (run_lines rules.now.regions.now (Some rules.now.outputs) start
        lines.entry.form.publics.now lines.entry.form.numbered lines.entry.span.from (count_within lines.entry.steps lines.entry.span.from lines.entry.span.count))) }
    ensures traced { IfOk result (λ traced. (start : World) → StaysRight rules.now.regions.now start →
        HasReached rules.now.regions.now rules.now.outputs start lines.entry.span.from (with_ports first bus.old ports.old) →
        IsTraced rules.now.regions.now (Some rules.now.outputs) start lines.entry.steps lines.entry.span.from lines.entry.span.count traced) }
    ensures front { OnErr result ((start : World) → StaysRight rules.now.regions.now start →
        HasReached rules.now.regions.now rules.now.outputs start lines.entry.span.from (with_ports first bus.old ports.old) →
        AppendsFront (K.written out.old) (K.written out.new) (run_lines rules.now.regions.now (Some rules.now.outputs) start
        lines.entry.form.publics.now lines.entry.form.numbered lines.entry.span.from (count_within lines.entry.steps lines.entry.span.from lines.entry.span.count))) }
    ensures failures { K.failed out.new ≡ K.failed out.old + trace_failures result }
{
    let mut cpu = first;
    let mut line = Vec::new(alloc);
    for made in 0..lines.span.count {
        let number = lines.span.from + made;
        let before = cpu;
        line.clear();
        append_front(
            alloc,
            lines.form.publics,
            lines.form.numbered,
            before.pc,
            number,
            &mut line,
        )?;
        let end = show_step(alloc, rules, &mut cpu, bus, ports, &mut line)?;
        write_all(out, &line)?;
        if number == lines.steps {
            return Ok(Some(Ended {
                end: None,
                steps: number,
                cpu: before,
            }));
        }
        if end.is_some() {
            return Ok(Some(Ended {
                end,
                steps: number + 1,
                cpu,
            }));
        }
    }
    Ok(None)
}

/// Makes one step of a run of verified code and appends its line; returns how the run ends if it ends there. If memory
/// runs out, `AllocError`. The map must be that of the regions. The ports must have the limit `rules.outputs`, no more
/// outputs than that, and none refused.
fn show_step(
    alloc: Global,
    rules: &Rules<'_>,
    cpu: &mut Cpu,
    bus: &mut PagedBus,
    ports: &mut ListPorts,
    line: &mut Vec<u8>,
) -> Result<Option<End>, AllocError>
    requires maps { Maps rules.now.regions.now rules.now.map.now }
    requires open { AreOpen rules.now.outputs ports.old }
    ensures step { IfOk result (λ ending. let before = with_ports cpu.old bus.old ports.old in
        StaysRight rules.now.regions.now (world_of before) →
        MakesStep rules.now.regions.now rules.now.outputs before (with_ports cpu.new bus.new ports.new) ending) }
    ensures ports { IfOk result (λ ending. PortsAfter ending ports.old ports.new) }
    ensures line { OnOk result (let before = with_ports cpu.old bus.old ports.old in
        StaysRight rules.now.regions.now (world_of before) →
        line.new.items ≡ line.old.items ++ machine_line rules.now.regions.now before) }
{
    let before = *cpu;
    let found = fetch(before.pc, bus, rules.regions);
    let end = make_step(rules, cpu, bus, ports)?;
    if let Some(found) = found {
        let byte = byte_seen(found.instr, before.registers.a, end, cpu.registers.a);
        append_line(alloc, found.instr, byte, &before, line)?;
    }
    Ok(end)
}

/// The byte that an instruction took from a port or gave to one: of IN, unless it ended the run, the accumulator
/// after it; of OUT, the accumulator before it. `None` for any other.
fn byte_seen(instr: Instr, before: u8, end: Option<End>, after: u8) -> Option<u8>
    ensures { result ≡ byte_seen instr before «end» after }
{
    match instr {
        Instr::In(_) if end.is_none() => Some(after),
        Instr::Out(_) => Some(before),
        _ => None,
    }
}
