//! What places answer.

ghost use Rattle.std.specs.Prelude.{◌≡◌, ◌∷◌, ◌++◌, [], List, OnSome};
ghost use Rattle.board80.specs.Answers.{answer_to_last};
ghost use Rattle.board80.specs.declared.place.Place.{Place};
ghost use Rattle.machine80_board.specs.Exchanges.{answer_at, is_answered};
ghost use Rattle.machine80_board.specs.Keeping.{HaveGiven, HaveSeen, IsCellAnswer};
ghost use Rattle.machine80_board.specs.Slots.{HaveSlots};
ghost use Rattle.machine80_board.specs.declared.output.Output.{Output};

use crate::cursor::Cursor;
use crate::indexed_lines::IndexedLines;
use crate::output::Output;
use crate::slots::slot;
use board80::{Answers, Place, Table};

/// What a table answers after this last byte at its source, `None` before any.
fn table_answer(table: &Table, last: Option<u8>) -> u8
    ensures { result ≡ answer_to_last table.now last }
{
    match last {
        Some(byte) => table.answer_to(byte),
        None => table.other,
    }
}

/// The next byte that a place answers; `None` if nothing is left, or nothing is said of the place. The cursors and the
/// last bytes must be those of the places' slots.
pub(crate) fn take_answer(
    lines: &IndexedLines<'_>,
    cursors: &mut Vec<Cursor>,
    last: &[Option<u8>],
    place: Place,
) -> Option<u8>
    requires cursors { HaveSlots cursors.old.items }
    requires last { HaveSlots last.now }
    ensures answer { (reads : List Place) (outputs : List Output) → HaveGiven lines.now cursors.old.items reads → HaveSeen last.now outputs →
        result ≡ answer_at lines.now reads outputs place }
    ensures given { (reads : List Place) → HaveGiven lines.now cursors.old.items reads →
        OnSome result (HaveGiven lines.now cursors.new.items (reads ++ place ∷ [])) }
    ensures slots { HaveSlots cursors.new.items }
{
    match lines.answers(place)? {
        Answers::Listed(list) => {
            let at = slot(place);
            let mut cursor = cursors[at];
            let byte = cursor.next(list);
            cursors[at] = cursor;
            byte
        }
        Answers::By(table) => Some(table_answer(table, last[slot(table.source)])),
    }
}

/// Notes the last byte at a place.
pub(crate) fn note_output(last: &mut Vec<Option<u8>>, output: Output)
    requires { HaveSlots last.old.items }
    ensures seen { (outputs : List Output) → HaveSeen last.old.items outputs → HaveSeen last.new.items (outputs ++ output ∷ []) }
    ensures slots { HaveSlots last.new.items }
{
    last[slot(output.place)] = Some(output.byte);
}

/// What a cell answers when it is loaded.
#[derive(Clone, Copy, PartialEq, Eq)]
pub(crate) enum CellAnswer {
    /// The byte in memory: no device answers there.
    Memory,
    /// This byte of a device.
    Answer(u8),
    /// Nothing: the device has no byte left.
    Empty,
}

/// Whether an address is a cell of a device that has answers.
fn is_answered(lines: &IndexedLines<'_>, address: u16) -> bool
    ensures { result ≡ is_answered lines.now address }
{
    lines.in_device(address) && lines.answers(Place::Cell(address)).is_some()
}

/// What the cell at an address answers.
pub(crate) fn answer_cell(
    lines: &IndexedLines<'_>,
    cursors: &mut Vec<Cursor>,
    last: &[Option<u8>],
    address: u16,
) -> CellAnswer
    requires cursors { HaveSlots cursors.old.items }
    requires last { HaveSlots last.now }
    ensures answer { IsCellAnswer lines.now address cursors.old.items last.now cursors.new.items result }
    ensures slots { HaveSlots cursors.new.items }
{
    let place = Place::Cell(address);
    if !is_answered(lines, address) {
        return CellAnswer::Memory;
    }
    match take_answer(lines, cursors, last, place) {
        Some(byte) => CellAnswer::Answer(byte),
        None => CellAnswer::Empty,
    }
}
