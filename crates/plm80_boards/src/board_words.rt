//! What is wrong with the text of a board, in words.

use board80::BoardFault;
use plm80_console::Console;
use plm80_files::{
    FLAWS, FileRole, LineFlaw, VERSION_FLAWS, explain_file, explain_flaws, line_bytes,
};

/// The form of a line of a board, in words.
const LINE: &str =
    "a line is ROM, RAM or DEVICE, a first address and a length, as RAM 2000 0400; INTERRUPT and an address; or PORT or AT with what is answered, as PORT ED 03*";

/// The form of a line of memory, in words.
const RANGE: &str =
    "a range is a first address and a length, of four digits each, as RAM 2000 0400: the length isn't 0, and the range ends at FFFF or below";

/// The form of a line with a table, in words.
const TABLE: &str =
    "a table is BY, a port or a cell, and rows, the last of which is *= for every other byte, as PORT E1 BY E0 FD=FB FE=F7 *=FF: rows ascend";

/// The form of a line with a list, in words.
const LIST: &str =
    "a list is bytes of two digits, with one blank between them; right behind a byte, or a group in brackets, stands how often it comes, from 2, or * if for ever, and that last: PORT EC 1B 42*3 (00 80)*";

/// The form that a line has that begins like this one, in words.
fn form_of(line: &[u8]) -> &'static str {
    if line.starts_with(b"ROM ") || line.starts_with(b"RAM ") || line.starts_with(b"DEVICE ") {
        RANGE
    } else if line.starts_with(b"INTERRUPT ") {
        "INTERRUPT has the address of a handler, of four digits, as INTERRUPT 0038"
    } else if line.starts_with(b"PORT ") || line.starts_with(b"AT ") {
        if line.windows(4).any(|part| part == b" BY ".as_slice()) {
            TABLE
        } else {
            LIST
        }
    } else {
        LINE
    }
}

/// Says what is wrong with a text of a board that has this fault.
pub fn explain_board_text<C: Console>(console: &C, text: &[u8], fault: BoardFault) {
    match fault {
        BoardFault::BadVersion => {
            if !explain_file(console, text, FileRole::Board) && !explain_version(console, text) {
                console.explain("the first line is BOARD 1, in upper case");
            }
        }
        BoardFault::BadLine(number) => {
            let is_flawed = explain_flaws(console, text, number, FLAWS);
            let is_lower = explain_flaws(console, text, number, &[LineFlaw::LowerCase]);
            if !is_flawed && !is_lower {
                console.explain(form_of(line_bytes(text, number)));
            }
        }
        BoardFault::RangesOverlap(_) => console.explain(
            "an earlier line has an address of this range; the second number of a line is a length, not the last address",
        ),
        BoardFault::PortTwice(_) => {
            console.explain("an earlier line has what this port answers: write all of it there");
        }
        BoardFault::AddressTwice(_) => {
            console.explain("an earlier line has this address: write all that it answers there");
        }
        BoardFault::OutsideDevice(_) => {
            console.explain(
                "a cell lies in a DEVICE range of an earlier line: RAM needs no answers",
            );
        }
        BoardFault::Memory => {}
    }
}

/// Says which flaws the first line of a text of a board has; of blanks and tabs only if it begins as such a text does, since another text
/// isn't mended by other blanks. The result is whether it has one.
fn explain_version<C: Console>(console: &C, text: &[u8]) -> bool {
    let is_flawed = explain_flaws(console, text, 1, VERSION_FLAWS);
    let is_apart = text.starts_with(b"BOARD")
        && explain_flaws(console, text, 1, &[LineFlaw::Tab, LineFlaw::Blanks]);
    is_flawed || is_apart
}
