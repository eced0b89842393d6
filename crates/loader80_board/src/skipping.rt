//! Steps of a run that have no line.

ghost use Rattle.std.specs.Prelude.{IfOk};
ghost use Rattle.machine80_board.specs.BoardRun.{BoardState};
ghost use Rattle.machine80_board.specs.Keeping.{AreRight, AreWhole, IsNow};
ghost use Rattle.loader80_board.specs.Keeping.{ComesTo};

use crate::ended::BoardEnded;
use machine80_board::{Rules, Running, step_on_board};
use std::alloc::{AllocError, Global};

/// Makes `steps` steps of a run, or fewer if it ends before; returns how it ended if it did. The board's devices must lie
/// in data.
///
/// # Errors
/// `AllocError` only if memory runs out, also for an output below the limit.
pub(crate) fn skip_steps(
    alloc: Global,
    rules: &Rules<'_>,
    running: &mut Running,
    steps: u64,
) -> Result<Option<BoardEnded>, AllocError>
    requires rules { AreRight rules.now }
    requires whole { AreWhole running.old }
    ensures comes { IfOk result (λ ended. (start : BoardState) → IsNow rules.now.lines.now start running.old →
        ComesTo rules.now.lines.now rules.now.regions.now rules.now.outputs start steps running.new ended) }
    ensures whole { AreWhole running.new }
{
    for made in 0..steps {
        let end = step_on_board(alloc, rules, running)?;
        if end.is_some() {
            return Ok(Some(BoardEnded {
                end,
                steps: made + 1,
                at: running.cpu.pc,
            }));
        }
    }
    Ok(None)
}
