//! What is wrong with a text of regions, in words.

ghost use Rattle.std.specs.Prelude.{◌≡◌, ◌≢◌, ◌&&◌, nat_le, nat_lt, IfOk, IfSome};
ghost use Rattle.plm80_files.specs.Lines.{needs_version_2};
ghost use Rattle.plm80_files.specs.RangeWords.{IsInWords, IsRangeLine, ShareAddress};

use crate::file_kinds::{FileRole, explain_file};
use crate::line_words::{FLAWS, LineFlaw, VERSION_FLAWS, explain_flaws, line_of};
use image80::{Range, RegionsFault};
use plm80_console::{Console, word_of_digits};
use std::alloc::{AllocError, Global};
use std::str;
use thiserror::Error;

/// How many addresses there are.
const ADDRESSES: usize = 65_536;

/// The form of a line of regions, in words.
const RANGE_LINE: &str =
    "a line is CODE, DATA or (once) STACK, a first address and a length up to FFFF, as CODE 3000 009B; or CASE and addresses";

/// The form of a line of targets, in words.
const CASE_LINE: &str =
    "a CASE line is the address of a PCHL and its targets, four digits each, with one blank before each, as CASE 300E 3015 301F";

/// How many bytes of a CASE line its word and its address are.
const CASE_HEAD: usize = 9;

/// The number that stands for no line: lines are counted from 1.
const NO_LINE: usize = 0;

/// Says what is wrong with a text of regions that has this fault.
pub fn explain_regions<C: Console>(console: &C, text: &[u8], fault: RegionsFault) {
    match fault {
        RegionsFault::BadVersion => {
            if !explain_file(console, text, FileRole::Regions) && !explain_version(console, text) {
                console.explain("the first line is REGIONS 1 or REGIONS 2, in upper case");
            }
        }
        RegionsFault::BadLine(number) => {
            if needs_version_2(text, number) {
                console.explain("a CASE line needs REGIONS 2 as the first line");
            } else {
                let is_flawed = explain_flaws(console, text, number, FLAWS);
                let is_lower = explain_flaws(console, text, number, &[LineFlaw::LowerCase]);
                if !is_flawed && !is_lower {
                    explain_form(console, text, number);
                }
            }
        }
        RegionsFault::RegionsOverlap if console.explains() => {
            if let Some((first, second)) = overlap_in(console.alloc(), text) {
                console.explain(first);
                console.explain(second);
                if seems_last(first.range) || seems_last(second.range) {
                    console.explain(
                        "the second number of a line is a length, not the last address",
                    );
                }
            }
        }
        RegionsFault::NoStack => {
            console.explain(
                "a line such as STACK 3100 0010 is missing; an empty stack is STACK 0000 0000",
            );
        }
        RegionsFault::RegionsOverlap | RegionsFault::Memory => {}
    }
}

/// Says which flaws the first line of a text of regions has; of blanks and tabs only if it begins as such a text does, since another text
/// isn't mended by other blanks. The result is whether it has one.
fn explain_version<C: Console>(console: &C, text: &[u8]) -> bool {
    let is_flawed = explain_flaws(console, text, 1, VERSION_FLAWS);
    let is_apart = text.starts_with(b"REGIONS")
        && explain_flaws(console, text, 1, &[LineFlaw::Tab, LineFlaw::Blanks]);
    is_flawed || is_apart
}

/// Whether the length of a range may have been meant as its last address.
fn seems_last(range: Range) -> bool
    ensures { result ≡ (nat_lt 0 range.first && nat_le range.first range.length) }
{
    range.first > 0 && range.length >= range.first
}

/// Says what form the line of this number should have; of a CASE line, which line has its address already, if one does.
fn explain_form<C: Console>(console: &C, text: &[u8], number: usize) {
    match case_head(text, number) {
        Some(head) => match earlier_case(text, number, head) {
            Some(earlier) => console.explain(format_args!(
                "line {earlier} has targets of this address already: write all of them there"
            )),
            None => console.explain(CASE_LINE),
        },
        None => console.explain(RANGE_LINE),
    }
}

/// The word and the address with which the line of this number begins, if it is a CASE line; else `None`.
fn case_head(text: &[u8], number: usize) -> Option<&[u8]> {
    let line = line_of(text, number)?;
    if line.bytes.starts_with(b"CASE ") {
        line.bytes.get(..CASE_HEAD)
    } else {
        None
    }
}

/// The number of the first line before the one of this number that begins with this word and address; `None` if none does.
fn earlier_case(text: &[u8], number: usize, head: &[u8]) -> Option<usize> {
    let mut earlier = 0usize;
    for line in text.split(|byte| *byte == b'\n') {
        earlier = earlier.saturating_add(1);
        if earlier >= number {
            return None;
        }
        if line.starts_with(head) {
            return Some(earlier);
        }
    }
    None
}

/// A line of a text of regions that has a range: its number, its words and the range.
#[derive(Clone, Copy, Debug, Error)]
#[error("line {number}: {words}")]
struct RangeLine<'a> {
    number: usize,
    words: &'a str,
    range: Range,
}

/// The line of this number in a text of regions; `None` if there is none, or if it has no range.
fn range_line(text: &[u8], number: usize) -> Option<RangeLine<'_>>
    ensures { IfSome result (IsRangeLine text.now number) }
{
    let bytes = line_of(text, number)?.bytes;
    let range = range_of(bytes)?;
    match str::from_utf8(bytes) {
        Ok(words) => Some(RangeLine {
            number,
            words,
            range,
        }),
        Err(_) => None,
    }
}

/// The first line that has an address of an earlier one, and the earlier one before it; `None` if there is no such line, or if memory
/// runs out.
fn overlap_in(alloc: Global, text: &[u8]) -> Option<(RangeLine<'_>, RangeLine<'_>)>
    ensures { IfSome result (λ lines. ShareAddress text.now lines.0 lines.1) }
{
    let Ok(Some((first, second))) = overlapping_lines(alloc, text) else {
        return None;
    };
    let (first, second) = (range_line(text, first)?, range_line(text, second)?);
    let address = first.range.first.max(second.range.first);
    if first.number < second.number
        && first.range.contains(address)
        && second.range.contains(address)
    {
        Some((first, second))
    } else {
        None
    }
}

/// Whether the line of this number is a CASE line in a text of version 1, which only version 2 has.
fn needs_version_2(text: &[u8], number: usize) -> bool
    ensures { result ≡ needs_version_2 text.now number }
{
    match line_of(text, number) {
        Some(line) => text.starts_with(b"REGIONS 1\n") && line.bytes.starts_with(b"CASE "),
        None => false,
    }
}

/// The number of the first line that has an address of an earlier one, and the number of that before it; `None` if there is no such line.
/// `AllocError` only if memory runs out.
fn overlapping_lines(alloc: Global, text: &[u8]) -> Result<Option<(usize, usize)>, AllocError>
    ensures { IfOk result (λ found. IfSome found (λ lines. lines.0 ≢ NO_LINE)) }
{
    let mut owners = vec![in alloc; NO_LINE; ADDRESSES]?;
    let mut number = NO_LINE;
    for line in text.split(|byte| *byte == b'\n') {
        number = number.saturating_add(1);
        if let Some(range) = range_of(line) {
            if let Some(earlier) = take_range(&mut owners, range, number) {
                return Ok(Some((earlier, number)));
            }
        }
    }
    Ok(None)
}

/// Notes in `owners` that the line of this number has the addresses of a range, up to the first one that an earlier line has. The result is
/// that line's number; `None` if no line has one of them.
fn take_range(owners: &mut Vec<usize>, range: Range, number: usize) -> Option<usize>
    ensures { IfSome result (λ earlier. earlier ≢ NO_LINE) }
{
    let first = usize::from(range.first);
    for address in first..first + usize::from(range.length) {
        if let Some(owner) = owners.get_mut(address) {
            if *owner != NO_LINE {
                return Some(*owner);
            }
            *owner = number;
        }
    }
    None
}

/// The range of a CODE, STACK or DATA line; `None` for any other line.
fn range_of(line: &[u8]) -> Option<Range>
    ensures { IfSome result (IsInWords line.now) }
{
    let (keyword, extent) = str::from_utf8(line).ok()?.split_once(' ')?;
    let (first, length) = extent.split_once(' ')?;
    match keyword {
        "CODE" | "STACK" | "DATA" => Some(Range {
            first: word_of_digits(first)?,
            length: word_of_digits(length)?,
        }),
        _ => None,
    }
}
