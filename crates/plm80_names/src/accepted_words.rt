//! What the verdict on an accepted image leaves to its board, in words.

use crate::refusal_words::image_again;
use decode80::{Instr, encode};
use image80::Image;
use loader80::{Vouched, vouch};
use plm80_console::{Console, Reported};
use std::alloc::{AllocError, Global};
use std::fmt;
use std::fmt::{Display, Formatter};
use verify80::{Reached, find_reached};

/// How many ranges of code without content are named at most.
const SHOWN_GAPS: usize = 8;

/// Consecutive bytes of code that no content of an image covers, which count as 00.
#[derive(Clone, Copy)]
struct Gap {
    first: usize,
    length: usize,
    /// Whether an instruction that the program may reach has one of them.
    is_fetched: bool,
}

/// Which gaps a command names.
#[derive(Clone, Copy, PartialEq, Eq)]
pub enum GapUse {
    /// Gaps from which the program may fetch.
    Fetched,
    /// All gaps, since the program may read there.
    Read,
    /// All, which the command lists as 00.
    Listed,
}

/// Words on a gap that a command names for this use.
#[derive(Clone, Copy)]
struct GapWords {
    gap: Gap,
    used: GapUse,
}

impl Display for GapWords {
    fn fmt<W: fmt::Write>(&self, formatter: &mut Formatter<W>) -> fmt::Result {
        let (first, length) = (self.gap.first, self.gap.length);
        let rest = match (self.gap.is_fetched, self.used) {
            (_, GapUse::Listed) => "00 is listed there",
            (true, _) =>
                "the program runs there, so it must be 00 on the board (extract --fill 00)",
            (false, _) => "if the program reads it, it must be 00 on the board (extract --fill 00)",
        };
        write!(
            formatter,
            "no content covers {first:04X} {length:04X} of CODE: {rest}"
        )
    }
}

/// Prints words on what a command has `given` of the program in the files of these paths, if faults are explained and the verifier accepts
/// it: which HLT is directly behind an EI, and which bytes of its code no content covers, of those that are named for this use. The files
/// are read again; if they can't be, or memory runs out, less is said.
pub fn explain_accepted<C: Console>(
    console: &C,
    given: &Result<u8, Reported>,
    image: &str,
    regions: &str,
    used: GapUse,
) {
    if given.is_err() {
        return;
    }
    let Some(vouched) = accepted_again(console, image, regions) else {
        return;
    };
    let Ok(reached) = find_reached(console.alloc(), &vouched) else {
        return;
    };
    explain_interrupts(console, &reached);
    if let Ok(mut bytes) = code_bytes(console.alloc(), vouched.image()) {
        note_fetched(&mut bytes, &reached);
        explain_gaps(console, &bytes, used);
    }
}

/// Prints which bytes of the code of the image in the files of these paths no content covers, if faults are explained and a command has
/// `given` its listing. The files are read again; if they can't be, or memory runs out, nothing is said.
pub fn explain_listed<C: Console>(
    console: &C,
    given: &Result<u8, Reported>,
    image: &str,
    regions: &str,
) {
    if let Ok(0) = given
        && let Some(image) = image_again(console, image, regions)
        && let Ok(bytes) = code_bytes(console.alloc(), &image)
    {
        explain_gaps(console, &bytes, GapUse::Listed);
    }
}

/// The program in the files of these paths; `None` if it isn't accepted, or if it can't be read again.
fn accepted_again<C: Console>(console: &C, image: &str, regions: &str) -> Option<Vouched> {
    let image = image_again(console, image, regions)?;
    vouch(console.alloc(), image).ok()
}

/// Says which HLT that the program may reach is directly behind an EI, and which command goes on there.
fn explain_interrupts<C: Console>(console: &C, reached: &Reached) {
    let mut waits = false;
    for at in 0..65536usize {
        if let Some(halt) = halt_behind(reached, at as u16) {
            waits = true;
            console.explain(format_args!(
                "the HLT at {halt:04X} is directly behind an EI: what stands behind it, and any handler, wasn't verified"
            ));
        }
    }
    if waits {
        console.explain(
            "plm80 follow --handler goes on behind a HLT that an interrupt ends, and into its handler",
        );
    }
}

/// The address of the HLT directly behind the EI at an address; `None` if the program reaches no such two there.
fn halt_behind(reached: &Reached, at: u16) -> Option<u16> {
    let enabled = reached.at(at)?;
    let halted = reached.at(enabled.next)?;
    if enabled.instr == Instr::Ei && halted.instr == Instr::Hlt {
        Some(enabled.next)
    } else {
        None
    }
}

/// What is known of a byte of memory that is code and that no content covers.
#[derive(Clone, Copy, PartialEq, Eq)]
enum CodeByte {
    /// The byte isn't code, or a content covers it.
    Covered,
    /// The byte is code that no content covers.
    Bare,
    /// The byte is code that no content covers, and an instruction that the program may reach has it.
    Fetched,
}

/// Of each address whether its byte is code that no content of the image covers.
fn code_bytes(alloc: Global, image: &Image) -> Result<Vec<CodeByte>, AllocError> {
    let mut bytes = vec![in alloc; CodeByte::Covered; 65536]?;
    for range in image.regions.code() {
        let first = usize::from(range.first);
        for offset in 0..usize::from(range.length) {
            set(&mut bytes, first.saturating_add(offset), CodeByte::Bare);
        }
    }
    for chunk in &image.chunks {
        let first = usize::from(chunk.address);
        for offset in 0..chunk.bytes.len() {
            set(&mut bytes, first.saturating_add(offset), CodeByte::Covered);
        }
    }
    Ok(bytes)
}

/// Sets the byte at an address, if there is one.
fn set(bytes: &mut Vec<CodeByte>, at: usize, byte: CodeByte) {
    if let Some(place) = bytes.get_mut(at) {
        *place = byte;
    }
}

/// Notes which bytes instructions that the program may reach have.
fn note_fetched(bytes: &mut Vec<CodeByte>, reached: &Reached) {
    for at in 0..65536usize {
        if let Some(found) = reached.at(at as u16) {
            fetch(bytes, at, encode(found.instr).1);
        }
    }
}

/// Notes that an instruction that the program may reach has the `count` bytes from an address on.
fn fetch(bytes: &mut Vec<CodeByte>, at: usize, count: usize) {
    for offset in 0..count {
        let place = at.saturating_add(offset);
        if bytes.get(place) == Some(&CodeByte::Bare) {
            set(bytes, place, CodeByte::Fetched);
        }
    }
}

/// Says which ranges of code no content covers, of those that are named for this use.
fn explain_gaps<C: Console>(console: &C, bytes: &[CodeByte], used: GapUse) {
    let mut gap: Option<Gap> = None;
    let mut shown = 0usize;
    // The address behind the last one ends a gap, too.
    for at in 0..65537usize {
        let byte = bytes.get(at).copied().unwrap_or(CodeByte::Covered);
        if byte != CodeByte::Covered {
            gap = Some(grown(gap, at, byte));
        } else if let Some(found) = gap {
            shown = explain_gap(console, GapWords { gap: found, used }, shown);
            gap = None;
        }
    }
    if shown > SHOWN_GAPS {
        console.explain(format_args!("{} such ranges more", shown - SHOWN_GAPS));
    }
}

/// Says of a gap that no content covers it, if it is to be named and `shown` gaps aren't too many already. The result is how many there are
/// to be named now.
fn explain_gap<C: Console>(console: &C, words: GapWords, shown: usize) -> usize {
    if !words.gap.is_fetched && words.used == GapUse::Fetched {
        return shown;
    }
    if shown < SHOWN_GAPS {
        console.explain(words);
    }
    shown.saturating_add(1)
}

/// The gap with the byte at an address behind it; one of this byte alone if there is no gap yet.
fn grown(gap: Option<Gap>, at: usize, byte: CodeByte) -> Gap {
    let is_fetched = byte == CodeByte::Fetched;
    match gap {
        Some(gap) => Gap {
            first: gap.first,
            length: gap.length.saturating_add(1),
            is_fetched: gap.is_fetched || is_fetched,
        },
        None => Gap {
            first: at,
            length: 1,
            is_fetched,
        },
    }
}
