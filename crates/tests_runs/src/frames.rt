//! Rows of frames before and after instructions, calls and meetings, and the table of effects by opcode.

ghost use Rattle.std.specs.Prelude.{◌≤◌, length};

use decode80::decode;
use frames80::{Frame, FrameFault, Moves, Role, Word, next};
use std::alloc::{AllocError, Global};
use std::process::Abort;
use std::test::Fail;

mod calls;
mod effects;
mod equality;
mod meeting;
mod moves;

/// The main program, with its stack just below 3200.
const MAIN: Role = Role::Main { top: 0x3200 };

/// A frame: words taken, own words from bottom to top, and BC, DE and HL.
type Parts = (u32, &'static [Word], [Word; 3]);

/// The frame with these parts. `AllocError` if memory runs out.
fn frame_of(alloc: Global, parts: &Parts) -> Result<Frame, AllocError> {
    let (taken, words, [bc, de, hl]) = *parts;
    let words = Vec::from_slice(alloc, words)?;
    Ok(Frame {
        taken,
        words,
        bc,
        de,
        hl,
    })
}

/// Asserts the bounds that calls require of a frame: at most 1,000,000 words, and at most as many
/// taken.
fn assert_small(rt: &impl Abort, frame: &Frame)
    ensures taken { frame.now.taken ≤ 1000000 }
    ensures words { length frame.now.words ≤ 1000000 }
{
    assert!(rt; frame.taken <= 1_000_000);
    assert!(rt; frame.words.len() <= 1_000_000);
}

/// The moves of `next` for a frame at the instruction that these bytes begin with, or its fault.
fn moves_after(
    rt: &impl Abort,
    alloc: Global,
    role: Role,
    parts: &Parts,
    bytes: [u8; 3],
) -> Result<Result<Moves, FrameFault>, Fail> {
    let (instr, _) = decode(bytes).ok_or("an unused byte")?;
    let frame = frame_of(alloc, parts)?;
    assert_small(rt, &frame);
    Ok(next(alloc, &frame, instr, role))
}
