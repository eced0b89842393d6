//! How often a run on a board begins the instruction at each address.

ghost use Rattle.std.specs.Prelude.{◌≡◌, IfOk, replicate};
ghost use Rattle.machine80_board.specs.BoardRun.{BoardState, DevicesAreData};
ghost use Rattle.machine80_board.specs.Keeping.{AreRight, AreWhole, IsNow};
ghost use Rattle.loader80_trace.specs.declared.limits.Limits.{Limits};
ghost use Rattle.loader80_board.specs.BoardCounts.{CountsSteps, IsCounted};
ghost use Rattle.loader80_board.specs.BoardStates.{EndsSo};

use crate::ended::BoardEnded;
use board80::Board;
use image80::Image;
use loader80_trace::{Limits, count_at};
use machine80_board::{IndexedLines, Rules, Running, start, step_on_board};
use std::alloc::{AllocError, Global};

/// How a run on a board ended, and how often it began the instruction at each address.
#[derive(Drop)]
pub struct BoardCounts {
    /// How the run ended, or was stopped.
    pub ended: BoardEnded,
    /// For each of the 65536 addresses, how many of the run's steps began there, the ending one counted.
    pub steps: Vec<u64>,
}

/// Runs any image from its start on a board and within these limits, and counts the steps that begin at each address. The
/// board's devices must lie in the image's data.
///
/// # Errors
/// `AllocError` only if memory runs out, also for an output below the limit.
pub fn count_board_steps(
    alloc: Global,
    image: &Image,
    board: &Board,
    limits: Limits,
) -> Result<BoardCounts, AllocError>
    requires { DevicesAreData board.now image.now.regions }
    ensures { IfOk result (IsCounted board.now image.now limits) }
{
    image.regions.stack();
    let lines = IndexedLines::of(alloc, board)?;
    let rules = Rules {
        lines: &lines,
        regions: &image.regions,
        outputs: limits.outputs,
    };
    let mut running = start(alloc, image)?;
    let mut steps = vec![in alloc; 0u64; 65536]?;
    let ended = count_each(alloc, &rules, limits.steps, &mut running, &mut steps)?;
    Ok(BoardCounts { ended, steps })
}

/// Makes at most `steps` steps of a run from its first state on, and counts in `counts`, by address, those that begin there.
/// All 65536 counts must be 0 before, and the board's devices lie in data.
///
/// # Errors
/// `AllocError` only if memory runs out, also for an output below the limit.
fn count_each(
    alloc: Global,
    rules: &Rules<'_>,
    steps: u64,
    running: &mut Running,
    counts: &mut Vec<u64>,
) -> Result<BoardEnded, AllocError>
    requires rules { AreRight rules.now }
    requires whole { AreWhole running.old }
    requires zeros { counts.old.items ≡ replicate 65536 0 }
    ensures counted { IfOk result (λ ended. (start : BoardState) → IsNow rules.now.lines.now start running.old →
        EndsSo rules.now.lines.now rules.now.regions.now start (record { steps = steps; outputs = rules.now.outputs }) ended
        × CountsSteps rules.now.lines.now rules.now.regions.now rules.now.outputs start ended.steps counts.new.items) }
{
    for made in 0..steps {
        let address = running.cpu.pc;
        let end = step_on_board(alloc, rules, running)?;
        count_at(counts, address);
        if end.is_some() {
            return Ok(BoardEnded {
                end,
                steps: made + 1,
                at: running.cpu.pc,
            });
        }
    }
    Ok(BoardEnded {
        end: None,
        steps,
        at: running.cpu.pc,
    })
}
