//! The reader of tables of answers.

ghost use Rattle.std.specs.Prelude.{◌≡◌, ◌≢◌, ◌<◌, ◌↔◌, ℕ, List, ◌∷◌, ◌++◌, length, All, IsTrue, IfOk, IfSome, IfNone};
ghost use Rattle.text80.specs.Digits.{byte_text, word_text};
ghost use Rattle.board80.specs.Board.{IsAscending, IsPlace, IsRow, IsTable};
ghost use Rattle.board80.specs.BoardText.{other_text, row_text, rows_text, source_text, table_text};
ghost use Rattle.board80.specs.Reading.{IsAtEnd};
ghost use Rattle.board80.specs.Table.{TableRows};
ghost use Rattle.board80.specs.declared.place.Place.{Place};
ghost use Rattle.board80.specs.declared.table.Row.{Row};

use crate::digits::{first_word, read_address, read_byte};
use crate::place::Place;
use crate::table::{Row, Table};
use std::alloc::{AllocError, Global};

/// Reads a table behind its BY, all of the text; `None` if it has another form.
pub(crate) fn read_table(alloc: Global, text: &[u8]) -> Result<Option<Table>, AllocError>
    ensures spelled { IfOk result (λ read. IfSome read (λ table. text.now ≡ table_text table)) }
    ensures proper { IfOk result (λ read. IfSome read IsTable) }
    ensures none { IfOk result (λ read. IfNone read ((table : TableRows) → IsTable table → text.now ≢ table_text table)) }
{
    let (word, after) = first_word(text);
    let Some(source) = read_source(word) else {
        return Ok(None);
    };
    let (rows, rest) = read_rows(alloc, after)?;
    let Some(other) = read_last(rest) else {
        return Ok(None);
    };
    if !ascend(&rows) {
        return Ok(None);
    }
    Ok(Some(Table {
        source,
        rows,
        other,
    }))
}

/// Reads a port in two digits or an address in four, all of the text; `None` if it has another form.
fn read_source(text: &[u8]) -> Option<Place>
    ensures spelled { IfSome result (λ place. text.now ≡ source_text place) }
    ensures proper { IfSome result IsPlace }
    ensures none { IfNone result ((place : Place) → IsPlace place → text.now ≢ source_text place) }
{
    if text.len() == 2 {
        let (port, _) = read_byte(text)?;
        Some(Place::Port(port))
    } else if text.len() == 4 {
        let (address, _) = read_address(text)?;
        Some(Place::Cell(address))
    } else {
        None
    }
}

/// Reads as many rows as the text begins with, and returns them and the text after them.
fn read_rows(alloc: Global, text: &[u8]) -> Result<(Vec<Row>, &[u8]), AllocError>
    ensures found { IfOk result (λ (rows, rest). text.now ≡ rows_text rows.items ++ rest.now) }
    ensures proper { IfOk result (λ (rows, _). All IsRow rows.items) }
    ensures ended { IfOk result (λ (_, rest). (row : Row) (more : List ℕ) → IsRow row → rest.now ≢ 32 ∷ (row_text row ++ more)) }
{
    let mut rows = Vec::new(alloc);
    let mut rest = text;
    while let Some((row, after)) = read_row(rest) {
        rows.push(row)?;
        rest = after;
    }
    Ok((rows, rest))
}

/// Reads a space and a row, two bytes round an equals sign, at the beginning of the text, and returns the row and the
/// text after it; `None` if the text begins with anything else.
fn read_row(text: &[u8]) -> Option<(Row, &[u8])>
    ensures found { IfSome result (λ (row, rest). text.now ≡ 32 ∷ (row_text row ++ rest.now)) }
    ensures proper { IfSome result (λ (row, _). IsRow row) }
    ensures shorter { IfSome result (λ (_, rest). length rest.now < length text.now) }
    ensures none { IfNone result ((row : Row) (more : List ℕ) → IsRow row → text.now ≢ 32 ∷ (row_text row ++ more)) }
{
    let (byte, after) = read_byte(text.strip_prefix(b" ")?)?;
    let (answer, rest) = read_byte(after.strip_prefix(b"=")?)?;
    Some((Row { byte, answer }, rest))
}

/// Reads the last row, the answer to every other byte, all of the text; `None` if it has another form.
fn read_last(text: &[u8]) -> Option<u8>
    ensures spelled { IfSome result (λ answer. text.now ≡ other_text answer) }
    ensures none { IfNone result ((answer : ℕ) → answer < 256 → text.now ≢ other_text answer) }
{
    let (answer, rest) = read_byte(text.strip_prefix(b" *=")?)?;
    if rest.is_empty() { Some(answer) } else { None }
}

/// Whether each row's byte is below the next one's.
fn ascend(rows: &[Row]) -> bool
    ensures { IsTrue result ↔ IsAscending rows.now }
{
    rows.is_sorted_by(|row, next| row.byte < next.byte)
}
