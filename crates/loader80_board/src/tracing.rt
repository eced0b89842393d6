//! The lines of a run's instructions on a board.

ghost use Rattle.std.specs.Prelude.{◌≡◌, ◌+◌, ◌<◌, ◌≤◌, IfOk, OnErr};
ghost use Rattle.machine80_board.specs.BoardRun.{BoardState, DevicesAreData, board_start};
ghost use Rattle.machine80_board.specs.Keeping.{AreRight, AreWhole, HasCome, IsNow};
ghost use Rattle.loader80_trace.specs.declared.limits.Limits.{Limits};
ghost use Rattle.loader80_trace.specs.Traces.{trace_failures};
ghost use Rattle.loader80_board.specs.BoardLines.{WritesFront, WritesLines};

use crate::ended::BoardEnded;
use crate::line::show_step;
use crate::skipping::skip_steps;
use board80::Board;
use image80::Image;
use loader80_trace::{Limits, LineForm, Span, TraceFault, append_front};
use machine80_board::{IndexedLines, Rules, Running, start};
use std::alloc::Global;
use stream80::{Sink, write_all};

/// Runs any image from its start on a board and within these limits, and writes the lines of the instructions in the
/// span, each as it comes, in the form of [`loader80_trace::write_lines`]: IN shows the byte that the board answers. After
/// the last step that the limits allow, the next instruction has a line too.
///
/// Returns how the run ended if its last line is among these or before them, and `None` if the span ended first.
///
/// The board's devices must lie in the image's data, and the count of failures of the writer be below the greatest `u64`.
///
/// # Errors
/// `Write` if a write fails or takes no byte, and `Memory` if memory runs out, also for an output below the limit; a prefix
/// of the lines has then been written.
pub fn write_board_lines<K: Sink>(
    alloc: Global,
    image: &Image,
    board: &Board,
    limits: Limits,
    span: Span,
    form: LineForm<'_>,
    out: &mut K,
) -> Result<Option<BoardEnded>, TraceFault>
    requires countable { K.failed out.old < u64.MAX }
    requires devices { DevicesAreData board.now image.now.regions }
    ensures lines { IfOk result (λ ended. WritesLines board.now image.now.regions (board_start image.now) limits span
        form.entry.publics.now form.entry.numbered ended (K.written out.old) (K.written out.new)) }
    ensures front { OnErr result (WritesFront board.now image.now.regions (board_start image.now) limits span
        form.entry.publics.now form.entry.numbered (K.written out.old) (K.written out.new)) }
    ensures failures { K.failed out.new ≡ K.failed out.old + trace_failures result }
{
    image.regions.stack();
    let lines = IndexedLines::of(alloc, board)?;
    let rules = Rules {
        lines: &lines,
        regions: &image.regions,
        outputs: limits.outputs,
    };
    let mut running = start(alloc, image)?;
    let asked = Lines {
        span,
        steps: limits.steps,
        form,
    };
    write_span(alloc, &rules, asked, &mut running, out)
}

/// Which lines are written, and how.
#[derive(Clone, Copy)]
struct Lines<'a> {
    /// The instructions that have a line.
    span: Span,
    /// The greatest number of steps of the run.
    steps: u64,
    /// What the lines have besides the instruction.
    form: LineForm<'a>,
}

/// Makes the steps before the first line, and writes the lines. Returns how the run ended, or `None` if the span ended first.
/// `running` must be before its first step, the board's devices lie in data, and the count of failures of `out` be below the
/// greatest `u64`.
fn write_span<K: Sink>(
    alloc: Global,
    rules: &Rules<'_>,
    lines: Lines<'_>,
    running: &mut Running,
    out: &mut K,
) -> Result<Option<BoardEnded>, TraceFault>
    requires countable { K.failed out.old < u64.MAX }
    requires rules { AreRight rules.now }
    requires whole { AreWhole running.old }
    ensures lines { IfOk result (λ ended. (start : BoardState) → IsNow rules.now.lines.now start running.old →
        WritesLines rules.now.lines.now rules.now.regions.now start (record { steps = lines.entry.steps; outputs = rules.now.outputs })
        lines.entry.span lines.entry.form.publics.now lines.entry.form.numbered ended (K.written out.old) (K.written out.new)) }
    ensures front { OnErr result ((start : BoardState) → IsNow rules.now.lines.now start running.old →
        WritesFront rules.now.lines.now rules.now.regions.now start (record { steps = lines.entry.steps; outputs = rules.now.outputs })
        lines.entry.span lines.entry.form.publics.now lines.entry.form.numbered (K.written out.old) (K.written out.new)) }
    ensures failures { K.failed out.new ≡ K.failed out.old + trace_failures result }
{
    let before = lines.span.from.min(lines.steps);
    let ended = skip_steps(alloc, rules, running, before)?;
    if ended.is_some() {
        return Ok(ended);
    }
    if lines.steps < lines.span.from {
        return Ok(Some(BoardEnded {
            end: None,
            steps: lines.steps,
            at: running.cpu.pc,
        }));
    }
    write_each(alloc, rules, lines, running, out)
}

/// Runs on from the state that the run has reached before the first line, and writes the lines. Returns how the run ended, or
/// `None` if the span ended first. The span must begin within the run's steps, the board's devices lie in data, and the count
/// of failures of `out` be below the greatest `u64`.
fn write_each<K: Sink>(
    alloc: Global,
    rules: &Rules<'_>,
    lines: Lines<'_>,
    running: &mut Running,
    out: &mut K,
) -> Result<Option<BoardEnded>, TraceFault>
    requires countable { K.failed out.old < u64.MAX }
    requires rules { AreRight rules.now }
    requires whole { AreWhole running.old }
    requires within { lines.span.from ≤ lines.steps }
    ensures lines { IfOk result (λ ended. (start : BoardState) →
        HasCome rules.now.lines.now rules.now.regions.now rules.now.outputs start lines.entry.span.from running.old →
        WritesLines rules.now.lines.now rules.now.regions.now start (record { steps = lines.entry.steps; outputs = rules.now.outputs })
        lines.entry.span lines.entry.form.publics.now lines.entry.form.numbered ended (K.written out.old) (K.written out.new)) }
    ensures front { OnErr result ((start : BoardState) →
        HasCome rules.now.lines.now rules.now.regions.now rules.now.outputs start lines.entry.span.from running.old →
        WritesFront rules.now.lines.now rules.now.regions.now start (record { steps = lines.entry.steps; outputs = rules.now.outputs })
        lines.entry.span lines.entry.form.publics.now lines.entry.form.numbered (K.written out.old) (K.written out.new)) }
    ensures failures { K.failed out.new ≡ K.failed out.old + trace_failures result }
{
    let mut line = Vec::new(alloc);
    for made in 0..lines.span.count {
        let number = lines.span.from + made;
        let at = running.cpu.pc;
        line.clear();
        append_front(
            alloc,
            lines.form.publics,
            lines.form.numbered,
            at,
            number,
            &mut line,
        )?;
        let end = show_step(alloc, rules, running, &mut line)?;
        write_all(out, &line)?;
        if number == lines.steps {
            return Ok(Some(BoardEnded {
                end: None,
                steps: number,
                at,
            }));
        }
        if end.is_some() {
            return Ok(Some(BoardEnded {
                end,
                steps: number + 1,
                at: running.cpu.pc,
            }));
        }
    }
    Ok(None)
}
