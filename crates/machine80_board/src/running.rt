//! A run on a board.

ghost use Rattle.std.specs.Prelude.{◌≡◌, IfOk};
ghost use Rattle.machine80_board.specs.BoardRun.{BoardState, DevicesAreData, IsRunOf};
ghost use Rattle.machine80_board.specs.Keeping.{AreRight, AreWhole, EndsFrom, IsNow, StartsAt};

use crate::cursor::Cursor;
use crate::end::BoardEnd;
use crate::indexed_lines::IndexedLines;
use crate::output::Output;
use crate::rules::{Rules, Running};
use crate::slots::SLOTS;
use crate::stepping::step_on_board;
use board80::Board;
use image80::Image;
use machine80::{Cpu, PagedBus};
use std::alloc::{AllocError, Global};

/// A run on a board that has ended or was stopped.
#[derive(Drop)]
pub struct BoardRun {
    /// How the run ended; `None` if the steps were used up.
    pub end: Option<BoardEnd>,
    /// The number of steps that were made, the ending one counted.
    pub steps: u64,
    /// The processor after the last step; at an end, before the ending step.
    pub cpu: Cpu,
    /// What was put out, in order.
    pub outputs: Vec<Output>,
}

/// How a run ended or was stopped, and after how many steps.
#[derive(Clone, Copy, PartialEq, Eq)]
pub(crate) struct Stopped {
    /// How the run ended; `None` if the steps were used up.
    pub end: Option<BoardEnd>,
    /// The number of steps that were made, the ending one counted.
    pub steps: u64,
}

/// Runs an image from its start among the devices of a board, for at most `steps` steps, and takes at most `outputs`
/// outputs. The board's devices must lie in the image's data.
///
/// IN and loads from the cells of devices are answered as the board's lines say; OUT, and stores at cells of devices,
/// are put out. LHLD is answered the low byte first, INR M and DCR M before they store.
///
/// # Errors
/// `AllocError` only if memory runs out, also for an output below the limit.
pub fn run_on_board(
    alloc: Global,
    image: &Image,
    board: &Board,
    steps: u64,
    outputs: usize,
) -> Result<BoardRun, AllocError>
    requires { DevicesAreData board.now image.now.regions }
    ensures { IfOk result (λ run. IsRunOf board.now image.now outputs steps run) }
{
    image.regions.stack();
    let lines = IndexedLines::of(alloc, board)?;
    let rules = Rules {
        lines: &lines,
        regions: &image.regions,
        outputs,
    };
    let mut running = start(alloc, image)?;
    let stopped = advance(alloc, &rules, &mut running, steps)?;
    Ok(BoardRun {
        end: stopped.end,
        steps: stopped.steps,
        cpu: running.cpu,
        outputs: running.outputs,
    })
}

/// A run before its first step.
///
/// # Errors
/// `AllocError` only if memory runs out.
pub fn start(alloc: Global, image: &Image) -> Result<Running, AllocError>
    ensures starts { IfOk result (λ running. StartsAt image.now running) }
    ensures whole { IfOk result AreWhole }
{
    Ok(Running {
        cpu: Cpu::start(image.start, &image.regions),
        bus: PagedBus::new(alloc, image)?,
        cursors: vec![in alloc; Cursor::start(); SLOTS]?,
        last: vec![in alloc; None; SLOTS]?,
        outputs: Vec::new(alloc),
    })
}

/// Makes at most `steps` steps.
///
/// # Errors
/// `AllocError` only if memory runs out, also for an output below the limit.
fn advance(
    alloc: Global,
    rules: &Rules<'_>,
    running: &mut Running,
    steps: u64,
) -> Result<Stopped, AllocError>
    requires rules { AreRight rules.now }
    requires whole { AreWhole running.old }
    ensures { IfOk result (λ stopped. (s : BoardState) → IsNow rules.now.lines.now s running.old →
        EndsFrom rules.now.lines.now rules.now.regions.now rules.now.outputs s steps stopped running.new) }
{
    for made in 0..steps {
        let end = step_on_board(alloc, rules, running)?;
        if end.is_some() {
            return Ok(Stopped {
                end,
                steps: made + 1,
            });
        }
    }
    Ok(Stopped { end: None, steps })
}
