//! The lines of a text with names.

ghost use Rattle.std.specs.Prelude.{◌≡◌, [], ◌∷◌, ◌++◌, IfOk, OnOk};
ghost use Rattle.image80_text.specs.NameText.{labelled_line, labelled_text, name_text, named_line, named_text};

use crate::addresses::{address_behind, instruction_address};
use crate::naming::{append_label, append_name};
use crate::table::PublicTable;
use image80::Range;
use image80::lines::first_line;
use std::alloc::{AllocError, Global};

/// The lines of a text, each line of an instruction preceded by a line with the name of the first public at its
/// address, if there is one. The address is what the line begins with, in four digits, or what follows its first
/// blank if lines are numbered. Every other line stays as it is, and so does what follows the last line feed.
///
/// # Errors
/// `AllocError` only if memory runs out.
pub fn label_lines(
    alloc: Global,
    publics: &PublicTable,
    numbered: bool,
    text: &[u8],
) -> Result<Vec<u8>, AllocError>
    ensures { IfOk result (λ labelled. labelled.items ≡ labelled_text publics.now numbered text.now) }
{
    let mut labelled = Vec::new(alloc);
    let mut rest = text;
    while let Some((line, after)) = first_line(rest) {
        append_labelled(publics, numbered, line, &mut labelled)?;
        labelled.push(b'\n')?;
        rest = after;
    }
    labelled.extend_from_slice(rest)?;
    Ok(labelled)
}

/// Appends a line, given without its line feed; if it is that of an instruction with a public at its address, a line
/// with the first public's name comes before it.
fn append_labelled(
    publics: &PublicTable,
    numbered: bool,
    line: &[u8],
    text: &mut Vec<u8>,
) -> Result<(), AllocError>
    ensures { OnOk result (text.new.items ≡ text.old.items ++ labelled_line publics.now numbered line.now) }
{
    if let Some(address) = instruction_address(line, numbered) {
        append_label(publics, address, text)?;
    }
    text.extend_from_slice(line)
}

/// The lines of a text, with the name of an address behind each line that begins with `word` and that address in four
/// digits. Every other line stays as it is, and so does what follows the last line feed.
///
/// The word ends with its blank, as in `PROC `; it must have no line feed.
///
/// # Errors
/// `AllocError` only if memory runs out.
pub fn name_lines(
    alloc: Global,
    publics: &PublicTable,
    code: &[Range],
    word: &[u8],
    text: &[u8],
) -> Result<Vec<u8>, AllocError>
    ensures { IfOk result (λ named. named.items ≡ named_text code.now publics.now word.now text.now) }
{
    let mut named = Vec::new(alloc);
    let mut rest = text;
    while let Some((line, after)) = first_line(rest) {
        append_named(alloc, publics, code, word, line, &mut named)?;
        named.push(b'\n')?;
        rest = after;
    }
    named.extend_from_slice(rest)?;
    Ok(named)
}

/// Appends a line, given without its line feed; if it begins with `word` and an address in four digits, the name of
/// that address comes behind it.
fn append_named(
    alloc: Global,
    publics: &PublicTable,
    code: &[Range],
    word: &[u8],
    line: &[u8],
    text: &mut Vec<u8>,
) -> Result<(), AllocError>
    ensures { OnOk result (text.new.items ≡ text.old.items ++ named_line code.now publics.now word.now line.now) }
{
    text.extend_from_slice(line)?;
    if let Some(address) = address_behind(line, word) {
        append_name(alloc, publics, code, address, text)?;
    }
    Ok(())
}

/// A line, given without its line feed, followed by a blank and the name of an address, if it has one, and a line feed.
///
/// # Errors
/// `AllocError` only if memory runs out.
pub fn name_line(
    alloc: Global,
    publics: &PublicTable,
    code: &[Range],
    address: u16,
    line: &[u8],
) -> Result<Vec<u8>, AllocError>
    ensures { IfOk result (λ named. named.items ≡ line.now ++ (name_text code.now publics.now address ++ 10 ∷ [])) }
{
    let mut named = Vec::new(alloc);
    named.extend_from_slice(line)?;
    append_name(alloc, publics, code, address, &mut named)?;
    named.push(b'\n')?;
    Ok(named)
}
