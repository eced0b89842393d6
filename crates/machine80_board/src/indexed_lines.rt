//! The lines of a board, with tables of what they say of each place.

ghost use Rattle.std.specs.Prelude.{◌≡◌, ◌||◌, ℕ, All, IfOk, IfNone, IfSome, None, Some, false, length, slice_index_or};
ghost use Rattle.image80.specs.Range.{IsInMemory, in_range};
ghost use Rattle.board80.specs.Board.{IsProper, gives_device, in_device};
ghost use Rattle.machine80_board.specs.Exchanges.{answers_at};
ghost use Rattle.machine80_board.specs.Index.{AreMarked, IsAnswering};

use crate::slots::{SLOTS, slot};
use board80::{Answers, Board, Kind, Line, Place};
use image80::Range;
use std::alloc::{AllocError, Global};
use std::marker::Model;

/// The lines of a board, with tables by which a look-up takes the same time for any number of lines. A contract sees the
/// lines.
#[derive(Drop)]
pub struct IndexedLines<'a> {
    /// The lines.
    lines: &'a [Line],
    /// The index of the first line with answers of a place, by slots.
    answering: Vec<Option<usize>>,
    /// By address, whether it is a device's.
    devices: Vec<bool>,
}

impl<'a> Model for IndexedLines<'a> {
    ghost use Rattle.std.specs.Prelude.{List};
    ghost use Rattle.board80.specs.declared.line.Line.{Line};
    ghost use Rattle.machine80_board.specs.Index.{IsIndex};

    ghost Value = { List Line };

    ghost view = { λ l. l.lines.now };

    ghost invariant = { λ l. IsIndex l.lines.now l.answering.items l.devices.items };
}

impl<'a> IndexedLines<'a> {
    /// Makes the tables of a board's lines, in time linear in their number and in the addresses of devices.
    ///
    /// # Errors
    /// `AllocError` only if memory runs out.
    pub fn of(alloc: Global, board: &'a Board) -> Result<IndexedLines<'a>, AllocError>
        ensures { IfOk result (λ indexed. indexed ≡ board.now) }
    {
        let lines = board.lines();
        let answering = answering_lines(alloc, lines)?;
        let devices = device_marks(alloc, lines)?;
        Ok(IndexedLines {
            lines,
            answering,
            devices,
        })
    }

    /// The answers of a place: those of the first line that says them.
    pub(crate) fn answers(&self, place: Place) -> Option<&Answers>
        ensures found { IfSome result (λ answers. answers_at self.now place ≡ Some answers.now) }
        ensures none { IfNone result (answers_at self.now place ≡ None) }
    {
        let index = self.answering[slot(place)]?;
        match self.lines.get(index)? {
            Line::Reads(_, answers) => Some(answers),
            _ => None,
        }
    }

    /// Whether an address is a device's.
    pub(crate) fn in_device(&self, address: u16) -> bool
        ensures { result ≡ in_device self.now address }
    {
        self.devices[usize::from(address)]
    }
}

/// The index of the first line with answers of a place, by slots.
///
/// # Errors
/// `AllocError` only if memory runs out.
fn answering_lines(alloc: Global, lines: &[Line]) -> Result<Vec<Option<usize>>, AllocError>
    ensures { IfOk result (λ table. IsAnswering lines.now lines.now table.items) }
{
    let mut table = vec![in alloc; None; SLOTS]?;
    // From the last line on, so that the first one with answers of a place stays.
    for index in (0..lines.len()).rev() {
        if let Line::Reads(place, _) = &lines[index] {
            table[slot(*place)] = Some(index);
        }
    }
    Ok(table)
}

/// By address, whether it is a device's. The lines must be proper.
///
/// # Errors
/// `AllocError` only if memory runs out.
fn device_marks(alloc: Global, lines: &[Line]) -> Result<Vec<bool>, AllocError>
    requires { All IsProper lines.now }
    ensures { IfOk result (λ marks. AreMarked lines.now marks.items) }
{
    let mut marks = vec![in alloc; false; 65_536]?;
    for line in lines {
        mark_device(&mut marks, line);
    }
    Ok(marks)
}

/// Marks the addresses of a line's range if it is a device's. The line must be proper.
fn mark_device(marks: &mut Vec<bool>, line: &Line)
    requires whole { length marks.old.items ≡ 65536 }
    requires proper { IsProper line.now }
    ensures whole { length marks.new.items ≡ 65536 }
    ensures marked { (address : ℕ) → slice_index_or marks.new.items address false
        ≡ (slice_index_or marks.old.items address false || gives_device line.now address) }
{
    if let Line::Memory(Kind::Device, range) = line {
        mark(marks, *range);
    }
}

/// Marks the addresses of a range, which must lie in memory.
fn mark(marks: &mut Vec<bool>, range: Range)
    requires whole { length marks.old.items ≡ 65536 }
    requires in_memory { IsInMemory range }
    ensures whole { length marks.new.items ≡ 65536 }
    ensures marked { (address : ℕ) → slice_index_or marks.new.items address false
        ≡ (slice_index_or marks.old.items address false || in_range range address) }
{
    let first = usize::from(range.first);
    for address in first..first + usize::from(range.length) {
        marks[address] = true;
    }
}
