//! Images run on a board.

ghost use Rattle.std.specs.Prelude.{IfOk, string_bytes};
ghost use Rattle.machine80_board.specs.BoardRun.{DevicesAreData};
ghost use Rattle.loader80_board.specs.BoardTranscript.{IsRunTranscript};

use crate::ended::BoardEnded;
use crate::transcript::board_transcript_text;
use board80::Board;
use image80::Image;
use loader80_trace::Limits;
use machine80_board::run_on_board;
use std::alloc::{AllocError, Global};

/// How a run on a board ended, and its transcript.
#[derive(Drop)]
pub struct BoardTranscript {
    /// How the run ended, or was stopped.
    pub ended: BoardEnded,
    /// What is printed of it.
    pub text: String,
}

/// Runs any image on a board within these limits, and makes the transcript of the run, in which the program needs this many
/// bytes of stack. The board's devices must lie in the image's data.
///
/// # Errors
/// `AllocError` only if memory runs out, also for an output below the limit.
pub fn transcribe_on_board(
    alloc: Global,
    image: &Image,
    stack_bytes: u64,
    board: &Board,
    limits: Limits,
) -> Result<BoardTranscript, AllocError>
    requires { DevicesAreData board.now image.now.regions }
    ensures { IfOk result (λ transcript. IsRunTranscript board.now image.now stack_bytes limits transcript.ended (string_bytes transcript.text)) }
{
    let ran = run_on_board(alloc, image, board, limits.steps, limits.outputs)?;
    let ended = BoardEnded {
        end: ran.end,
        steps: ran.steps,
        at: ran.cpu.pc(),
    };
    let text = board_transcript_text(alloc, stack_bytes, &ran.outputs, ended)?;
    Ok(BoardTranscript { ended, text })
}
