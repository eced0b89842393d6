//! The reader of boards.

ghost use Rattle.std.specs.Prelude.{◌≡◌, ◌∷◌, ℕ, List, [], IfOk, IfErr, OnOk};
ghost use Rattle.image80.specs.Lines.{parts};
ghost use Rattle.board80.specs.Board.{GoodStart, Refuses, Spells};
ghost use Rattle.board80.specs.BoardText.{heading};
ghost use Rattle.board80.specs.declared.fault.BoardFault.TheVariants.{BadVersion};

use crate::board::Board;
use crate::fault::BoardFault;
use crate::line::Line;
use crate::read_line::read_line;
use crate::seen::Seen;
use image80::lines::first_line;
use std::alloc::Global;

/// The first line.
const HEADING: &[u8] = b"BOARD 1";

/// The board that a text spells.
///
/// The first line is `BOARD 1`. Each further one, in any order, is `ROM ffff llll`, `RAM ffff llll` or
/// `DEVICE ffff llll`, the first address and the length of a range, `INTERRUPT aaaa`, or what a port or a cell answers:
/// `PORT pp` or `AT aaaa` with a list, as ` 1B 5B (41 42)*3 03*`, or with a table, as ` BY E0 FE=F7 *=FF`. Addresses and
/// bytes are in upper-case hexadecimal, counts in decimal from 2 on. Each line ends with its line feed. A cell lies in a
/// DEVICE range of an earlier line.
///
/// # Errors
/// `BadVersion` if the first line is another one; else the fault of the first line that has one, as [`BoardFault`] says
/// it; `Memory` only if memory ran out, and never in place of `BadVersion`.
pub fn read_board(alloc: Global, bytes: &[u8]) -> Result<Board, BoardFault>
    ensures spelled { IfOk result (Spells bytes.now) }
    ensures refused { IfErr result (Refuses bytes.now) }
    ensures version { IfErr result (λ fault. Refuses bytes.now BadVersion → fault ≡ BadVersion) }
{
    let lines = after_heading(bytes)?;
    let board = read_lines(alloc, lines)?;
    Ok(Board::from_lines(board))
}

/// Reads the first line, and returns what follows it. The fault is `BadVersion` if the line is no heading, `BadLine(1)`
/// if it is one without a line feed.
fn after_heading(text: &[u8]) -> Result<&[u8], BoardFault>
    ensures after { IfOk result (λ after. parts text.now ≡ heading ∷ parts after.now) }
    ensures refused { IfErr result (Refuses text.now) }
    ensures version { IfErr result (λ fault. Refuses text.now BadVersion → fault ≡ BadVersion) }
{
    match first_line(text) {
        Some((line, after)) => {
            if line == HEADING {
                Ok(after)
            } else {
                Err(BoardFault::BadVersion)
            }
        }
        None => {
            if text == HEADING {
                Err(BoardFault::BadLine(1))
            } else {
                Err(BoardFault::BadVersion)
            }
        }
    }
}

/// Reads all lines after the first. The faults are those of the first line that has one, with the heading counted as
/// line 1.
fn read_lines(alloc: Global, text: &[u8]) -> Result<Vec<Line>, BoardFault>
    ensures good { IfOk result (λ lines. (whole : List ℕ) → parts whole ≡ heading ∷ parts text.now →
        GoodStart whole lines.items ([] ∷ [])) }
    ensures refused { IfErr result (λ fault. (whole : List ℕ) → parts whole ≡ heading ∷ parts text.now →
        Refuses whole fault) }
{
    let mut lines = Vec::new(alloc);
    let mut seen = Seen::new(alloc)?;
    let mut rest = text;
    while let Some((part, after)) = first_line(rest) {
        let number = lines.len() + 2;
        let Some(line) = read_line(alloc, part)? else {
            return Err(BoardFault::BadLine(number));
        };
        if !seen.leaves_free(&line) {
            return Err(line.taken_fault(number));
        }
        if !seen.is_inside(&line) {
            return Err(BoardFault::OutsideDevice(number));
        }
        seen.add(&line);
        lines.push(line)?;
        rest = after;
    }
    if !rest.is_empty() {
        return Err(BoardFault::BadLine(lines.len() + 2));
    }
    Ok(lines)
}
