//! The code of a located program, with how often a run among the devices of a board began each instruction.

ghost use Rattle.std.specs.Prelude.{◌≡◌, IfOk, length};
ghost use Rattle.machine80_board.specs.BoardRun.{DevicesAreData};
ghost use Rattle.plm80_runs.specs.OnBoards.{CoversOnBoard, CoversProgram, image_of};

use crate::on_board::Ran;
use crate::runnable::Runnable;
use crate::status::{BoardEndWords, board_status_of};
use board80::Board;
use loader80_board::count_board_steps;
use loader80_trace::{Limits, cover, cover_instructions};
use plm80_console::Answer;
use plm80_names::Names;
use std::alloc::{AllocError, Global};
use verify80_follow::{followed_instructions, places_of};

/// The code of a program, with how often its run on a board begins each instruction, behind the program's first line; and how the run ends.
/// The board's devices must lie in the program's data.
///
/// # Errors
/// `AllocError` only if memory runs out.
pub(crate) fn cover_run(
    alloc: Global,
    program: &Runnable,
    names: &Names,
    board: &Board,
    limits: Limits,
) -> Result<Ran, AllocError>
    requires { DevicesAreData board.now (image_of program.now).regions }
    ensures { IfOk result (λ ran. CoversOnBoard limits board.now names.now program.now ran.answer) }
{
    let counts = count_board_steps(alloc, program.image(), board, limits)?;
    let code = code_with_counts(alloc, program, &counts.steps)?;
    let labelled = names.label(alloc, false, code)?;
    let mut lines = program.first_line(alloc)?;
    lines.extend_from_slice(&labelled)?;
    let ended = counts.ended;
    Ok(Ran {
        answer: Answer::prints(lines, board_status_of(ended.end)),
        end: BoardEndWords::of(ended.end, ended.at),
    })
}

/// The lines of a program's code, with the count of each instruction to which the program may come. `counts` must have 65536 entries, one
/// for each address.
///
/// # Errors
/// `AllocError` only if memory runs out.
fn code_with_counts(
    alloc: Global,
    program: &Runnable,
    counts: &[u64],
) -> Result<Vec<u8>, AllocError>
    requires { length counts.now ≡ 65536 }
    ensures { IfOk result (λ text. CoversProgram program.now counts.now text.items) }
{
    match program {
        Runnable::Accepted(vouched) => cover(alloc, vouched, counts),
        Runnable::Followed(image, table) => {
            let places = places_of(alloc, table, &[])?;
            let reached = followed_instructions(alloc, image, &places)?;
            cover_instructions(alloc, image, &reached, counts)
        }
    }
}
