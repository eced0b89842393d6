//! What is printed of a run on a board.

ghost use Rattle.std.specs.Prelude.{◌≡◌, ◌++◌, IfOk, OnOk, string_bytes};
ghost use Rattle.std.specs.List.{flat_map};
ghost use Rattle.loader80.specs.TranscriptText.{stack_line};
ghost use Rattle.loader80_board.specs.BoardTranscript.{board_end_line, board_transcript, output_line};

use crate::ended::BoardEnded;
use board80::Place;
use loader80::digits::{ByteDigits, WordDigits};
use loader80::{ending_text, front_text};
use machine80_board::{BoardEnd, Output};
use std::alloc::{AllocError, Global};
use std::fmt::Write;

/// The transcript of a run: `STACK n` with the bytes of stack, a line for each output, and a last line as of
/// [`board_ending_text`].
///
/// # Errors
/// `AllocError` only if memory runs out.
pub fn board_transcript_text(
    alloc: Global,
    stack_bytes: u64,
    outputs: &[Output],
    ended: BoardEnded,
) -> Result<String, AllocError>
    ensures { IfOk result (λ text. string_bytes text ≡ board_transcript stack_bytes outputs.now ended.end ended.at ended.steps) }
{
    let mut text = board_front_text(alloc, stack_bytes, outputs)?;
    append_end(alloc, &mut text, ended)?;
    Ok(text)
}

/// The transcript of a run but for its last line: `STACK n` with the bytes of stack, and a line `OUT pp bb` for each output
/// at a port and `OUT aaaa bb` for each at a cell of a device.
///
/// # Errors
/// `AllocError` only if memory runs out.
fn board_front_text(
    alloc: Global,
    stack_bytes: u64,
    outputs: &[Output],
) -> Result<String, AllocError>
    ensures { IfOk result (λ text. string_bytes text ≡ stack_line stack_bytes ++ flat_map output_line outputs.now) }
{
    let mut text = front_text(alloc, stack_bytes, &[])?;
    for output in outputs {
        append_output(&mut text, *output)?;
    }
    Ok(text)
}

/// The last line of a transcript, which says how the run ended, as that of [`loader80::ending_text`]; `INPUT aaaa` and
/// `OUTPUT aaaa` name cells.
///
/// # Errors
/// `AllocError` only if memory runs out.
pub fn board_ending_text(alloc: Global, ended: BoardEnded) -> Result<String, AllocError>
    ensures { IfOk result (λ text. string_bytes text ≡ board_end_line ended.end ended.at ended.steps) }
{
    let mut text = String::new(alloc);
    append_end(alloc, &mut text, ended)?;
    Ok(text)
}

/// Appends the line of an output.
fn append_output(text: &mut String, output: Output) -> Result<(), AllocError>
    ensures { OnOk result (string_bytes text.new ≡ string_bytes text.old ++ output_line output) }
{
    let byte = ByteDigits(output.byte);
    match output.place {
        Place::Port(port) => writeln!(text, "OUT {} {byte}", ByteDigits(port)),
        Place::Cell(address) => writeln!(text, "OUT {} {byte}", WordDigits(address)),
    }
}

/// Appends the last line of a transcript.
fn append_end(alloc: Global, text: &mut String, ended: BoardEnded) -> Result<(), AllocError>
    ensures { OnOk result (string_bytes text.new ≡ string_bytes text.old ++ board_end_line ended.end ended.at ended.steps) }
{
    let BoardEnded { end, steps, at } = ended;
    match end {
        None => text.push_str(&ending_text(alloc, None, at, steps)?),
        Some(BoardEnd::OfMachine(end)) => text.push_str(&ending_text(alloc, Some(end), at, steps)?),
        Some(BoardEnd::CellEmpty(address)) => writeln!(
            text,
            "INPUT {} AFTER {steps}",
            WordDigits(address)
        ),
        Some(BoardEnd::CellRefused(address)) => writeln!(
            text,
            "OUTPUT {} AFTER {steps}",
            WordDigits(address)
        ),
    }
}
