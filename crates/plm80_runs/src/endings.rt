//! How runs end: the last line of a run, with names, and the exit status.

ghost use Rattle.std.specs.Prelude.{◌≡◌, IfOk};
ghost use Rattle.plm80_runs.specs.OnBoards.{board_ending, board_trace_ending};
ghost use Rattle.plm80_runs.specs.Running.{ending, named_ending, trace_ending};

use crate::status::board_status_of;
use image80::{Image, Range};
use loader80::{Ended, Vouched, ending_text};
use loader80_board::{BoardEnded, board_ending_text};
use plm80_bundles::status_of;
use plm80_console::Answer;
use plm80_names::Names;
use std::alloc::{AllocError, Global};

/// What is printed of how a run ended: its last line, with a name for the address in it, and the exit status.
pub fn ending_of(
    alloc: Global,
    vouched: &Vouched,
    ended: &Ended,
    names: &Names,
) -> Result<Answer<'static>, AllocError>
    ensures { IfOk result (λ answer. answer ≡ ending vouched.now names.now ended.now) }
{
    let text = ending_text(alloc, ended.end, ended.cpu.pc(), ended.steps)?.into_bytes();
    let text = name_ending(alloc, vouched.image().regions.code(), text, names)?;
    Ok(Answer::prints(text, status_of(ended.end)))
}

/// A text whose last line may say how a run of a program with this code ended, with a name for the address in that line.
pub fn name_ending(
    alloc: Global,
    code: &[Range],
    text: Vec<u8>,
    names: &Names,
) -> Result<Vec<u8>, AllocError>
    ensures { IfOk result (λ named. named.items ≡ named_ending code.now names.now text.items) }
{
    let text = names.name(alloc, code, b"HALT ", text)?;
    let text = names.name(alloc, code, b"STORE ", text)?;
    names.name(alloc, code, b"JUMP ", text)
}

/// What `trace` prints behind the lines of a run: how the run ended; if the lines didn't reach that, nothing with status 0.
pub fn trace_ending_of(
    alloc: Global,
    vouched: &Vouched,
    ended: &Option<Ended>,
    names: &Names,
) -> Result<Answer<'static>, AllocError>
    ensures { IfOk result (λ answer. answer ≡ trace_ending vouched.now names.now ended.now) }
{
    match ended {
        Some(ended) => ending_of(alloc, vouched, ended, names),
        None => Ok(Answer::prints(Vec::new(alloc), 0)),
    }
}

/// What is printed of how a run on a board ended: its last line, with a name for the address in it, and the exit status.
pub fn board_ending_of(
    alloc: Global,
    image: &Image,
    ended: &BoardEnded,
    names: &Names,
) -> Result<Answer<'static>, AllocError>
    ensures { IfOk result (λ answer. answer ≡ board_ending image.now names.now ended.now) }
{
    let text = board_ending_text(alloc, *ended)?.into_bytes();
    let text = name_ending(alloc, image.regions.code(), text, names)?;
    Ok(Answer::prints(text, board_status_of(ended.end)))
}

/// What `trace --board` prints behind the lines of a run: how the run ended; if the lines didn't reach that, nothing with status 0.
pub fn board_trace_ending_of(
    alloc: Global,
    image: &Image,
    ended: &Option<BoardEnded>,
    names: &Names,
) -> Result<Answer<'static>, AllocError>
    ensures { IfOk result (λ answer. answer ≡ board_trace_ending image.now names.now ended.now) }
{
    match ended {
        Some(ended) => board_ending_of(alloc, image, ended, names),
        None => Ok(Answer::prints(Vec::new(alloc), 0)),
    }
}
