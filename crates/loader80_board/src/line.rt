//! The line of one instruction of a run on a board.

ghost use Rattle.std.specs.Prelude.{◌≡◌, ◌++◌, IfOk, OnOk};
ghost use Rattle.machine80_board.specs.BoardRun.{BoardState};
ghost use Rattle.machine80_board.specs.Keeping.{AreRight, AreWhole, IsNow, Turned};
ghost use Rattle.loader80_board.specs.BoardLines.{state_line};
ghost use Rattle.loader80_board.specs.Keeping.{ReadsPort, byte_seen};

use decode80::Instr;
use loader80_trace::append_line;
use machine80::fetch;
use machine80_board::{BoardEnd, Rules, Running, step_on_board};
use std::alloc::{AllocError, Global};

/// Makes one step of a run and appends its line; returns how the run ends if it ends there. The board's devices must lie in
/// data.
///
/// # Errors
/// `AllocError` if memory runs out.
pub(crate) fn show_step(
    alloc: Global,
    rules: &Rules<'_>,
    running: &mut Running,
    line: &mut Vec<u8>,
) -> Result<Option<BoardEnd>, AllocError>
    requires rules { AreRight rules.now }
    requires whole { AreWhole running.old }
    ensures turned { IfOk result (λ ending. (s : BoardState) → IsNow rules.now.lines.now s running.old →
        Turned rules.now.lines.now rules.now.regions.now rules.now.outputs s running.old running.new ending) }
    ensures line { OnOk result ((s : BoardState) → IsNow rules.now.lines.now s running.old →
        line.new.items ≡ line.old.items ++ state_line rules.now.lines.now rules.now.regions.now s) }
    ensures whole { AreWhole running.new }
{
    let before = running.cpu;
    let found = fetch(before.pc, &running.bus, rules.regions);
    let end = step_on_board(alloc, rules, running)?;
    if let Some(found) = found {
        let byte = byte_seen(
            found.instr,
            before.registers.a,
            end.is_none(),
            running.cpu.registers.a,
        );
        append_line(alloc, found.instr, byte, &before, line)?;
    }
    Ok(end)
}

/// The byte that an instruction took from a port or gave to one: of IN, if the run goes on, the accumulator after it; of
/// OUT, the accumulator before it. `None` for any other.
fn byte_seen(instr: Instr, before: u8, goes_on: bool, after: u8) -> Option<u8>
    ensures byte { result ≡ byte_seen instr before goes_on after }
    ensures port { ReadsPort instr }
{
    match instr {
        Instr::In(_) if goes_on => Some(after),
        Instr::Out(_) => Some(before),
        _ => None,
    }
}
