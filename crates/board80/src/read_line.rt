//! The reader of lines.

ghost use Rattle.std.specs.Prelude.{◌≡◌, ◌≢◌, ◌<◌, ℕ, ◌++◌, IfOk, IfSome, IfNone};
ghost use Rattle.text80.specs.Digits.{byte_text, word_text};
ghost use Rattle.image80.specs.Range.{IsInMemory};
ghost use Rattle.image80.specs.declared.range.Range.{Range};
ghost use Rattle.board80.specs.Board.{AreAnswers, IsProper};
ghost use Rattle.board80.specs.BoardText.{answers_text, line_text, range_text};
ghost use Rattle.board80.specs.Reading.{IsCellLine, IsPlain, IsPortLine};
ghost use Rattle.board80.specs.declared.answers.Answers.{Answers};
ghost use Rattle.board80.specs.declared.line.Line.{Line};

use crate::answers::Answers;
use crate::digits::{read_address, read_byte};
use crate::line::{Kind, Line};
use crate::place::Place;
use crate::read_list::read_list;
use crate::read_table::read_table;
use image80::Range;
use std::alloc::{AllocError, Global};

/// Reads a line, given without its line feed; `None` if no proper line has this text.
pub(crate) fn read_line(alloc: Global, text: &[u8]) -> Result<Option<Line>, AllocError>
    ensures spelled { IfOk result (λ read. IfSome read (λ line. text.now ≡ line_text line)) }
    ensures proper { IfOk result (λ read. IfSome read IsProper) }
    ensures none { IfOk result (λ read. IfNone read ((line : Line) → IsProper line → text.now ≢ line_text line)) }
{
    if let Some(port) = text.strip_prefix(b"PORT ") {
        return read_port(alloc, port);
    }
    if let Some(cell) = text.strip_prefix(b"AT ") {
        return read_cell(alloc, cell);
    }
    Ok(read_plain(text))
}

/// Reads the answers of a port behind its PORT; `None` if they have another form.
fn read_port(alloc: Global, text: &[u8]) -> Result<Option<Line>, AllocError>
    ensures spelled { IfOk result (λ read. IfSome read (IsPortLine text.now)) }
    ensures proper { IfOk result (λ read. IfSome read IsProper) }
    ensures none { IfOk result (λ read. IfNone read ((port : ℕ) (answers : Answers) → port < 256 → AreAnswers answers →
        text.now ≢ byte_text port ++ answers_text answers)) }
{
    let Some((port, after)) = read_byte(text) else {
        return Ok(None);
    };
    let Some(answers) = read_answers(alloc, after)? else {
        return Ok(None);
    };
    Ok(Some(Line::Reads(Place::Port(port), answers)))
}

/// Reads the answers of a cell behind its AT; `None` if they have another form.
fn read_cell(alloc: Global, text: &[u8]) -> Result<Option<Line>, AllocError>
    ensures spelled { IfOk result (λ read. IfSome read (IsCellLine text.now)) }
    ensures proper { IfOk result (λ read. IfSome read IsProper) }
    ensures none { IfOk result (λ read. IfNone read ((address : ℕ) (answers : Answers) → address < 65536 → AreAnswers answers →
        text.now ≢ word_text address ++ answers_text answers)) }
{
    let Some((address, after)) = read_address(text) else {
        return Ok(None);
    };
    let Some(answers) = read_answers(alloc, after)? else {
        return Ok(None);
    };
    Ok(Some(Line::Reads(Place::Cell(address), answers)))
}

/// Reads answers, all of the text: a table behind BY, or a list. `None` if they have another form.
fn read_answers(alloc: Global, text: &[u8]) -> Result<Option<Answers>, AllocError>
    ensures spelled { IfOk result (λ read. IfSome read (λ answers. text.now ≡ answers_text answers)) }
    ensures proper { IfOk result (λ read. IfSome read AreAnswers) }
    ensures none { IfOk result (λ read. IfNone read ((answers : Answers) → AreAnswers answers → text.now ≢ answers_text answers)) }
{
    let Some(table) = text.strip_prefix(b" BY ") else {
        return match read_list(alloc, text)? {
            Some(list) => Ok(Some(Answers::Listed(list))),
            None => Ok(None),
        };
    };
    match read_table(alloc, table)? {
        Some(table) => Ok(Some(Answers::By(table))),
        None => Ok(None),
    }
}

/// Reads a ROM, RAM, DEVICE or INTERRUPT line; `None` if it is none of them.
fn read_plain(text: &[u8]) -> Option<Line>
    ensures spelled { IfSome result (λ line. text.now ≡ line_text line) }
    ensures proper { IfSome result IsProper }
    ensures none { IfNone result ((line : Line) → IsProper line → IsPlain line → text.now ≢ line_text line) }
{
    if let Some(range) = text.strip_prefix(b"ROM ") {
        return Some(Line::Memory(Kind::Rom, read_range(range)?));
    }
    if let Some(range) = text.strip_prefix(b"RAM ") {
        return Some(Line::Memory(Kind::Ram, read_range(range)?));
    }
    if let Some(range) = text.strip_prefix(b"DEVICE ") {
        return Some(Line::Memory(Kind::Device, read_range(range)?));
    }
    let (address, rest) = read_address(text.strip_prefix(b"INTERRUPT ")?)?;
    if rest.is_empty() {
        Some(Line::Interrupt(address))
    } else {
        None
    }
}

/// Reads a range, `ffff llll`: its first address and its length, which isn't 0. `None` if the text has another form or
/// the range passes the end of memory.
fn read_range(text: &[u8]) -> Option<Range>
    ensures spelled { IfSome result (λ range. text.now ≡ range_text range) }
    ensures in_memory { IfSome result (λ range. IsInMemory range) }
    ensures some { IfSome result (λ range. 0 < range.length) }
    ensures none { IfNone result ((range : Range) → IsInMemory range → 0 < range.length → text.now ≢ range_text range) }
{
    let (first, after) = read_address(text)?;
    let behind = after.strip_prefix(b" ")?;
    let (length, rest) = read_address(behind)?;
    if !rest.is_empty() {
        return None;
    }
    if length == 0 {
        return None;
    }
    if u32::from(first) + u32::from(length) > 65536 {
        return None;
    }
    Some(Range { first, length })
}
