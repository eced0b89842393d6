//! The lines about a module at one place in a dump.

ghost use Rattle.std.specs.Prelude.{◌≡◌, ◌++◌, OnOk};
ghost use Rattle.std.specs.List.{flat_map};
ghost use Rattle.rom80_find.specs.Lines.{extent_words, heading, base_words, base_part, top_part, place_line, name_line, needed_line, place_text};

use crate::words::Word;
use omf_core::Name;
use omf_core::segment_id::STACK;
use omf_model::{Common, Module, Target};
use omf_text::append_place;
use rom80_pattern::code_length;
use std::alloc::AllocError;
use text80::word_digits;

/// Appends the lines of a module at an address: that of the place, and those of the names that the module needs.
pub(crate) fn append_place_lines(
    text: &mut Vec<u8>,
    source: &Module,
    address: u16,
    words: &[Word],
) -> Result<(), AllocError>
    ensures { OnOk result (text.new.items ≡ text.old.items ++ place_text source.now address words.now) }
{
    append_line(text, source, address, words)?;
    append_needed_names(text, source.externals(), words)
}

/// Appends the line of a module at an address, as `MODULE 0040 0064 METER DATA 2000 TOP 2100`.
fn append_line(
    text: &mut Vec<u8>,
    source: &Module,
    address: u16,
    words: &[Word],
) -> Result<(), AllocError>
    ensures { OnOk result (text.new.items ≡ text.old.items ++ place_line source.now address words.now) }
{
    append_heading(text, source, address)?;
    append_bases(text, source.commons(), words)?;
    append_top_of_stack(text, words)?;
    text.push(b'\n')?;
    Ok(())
}

/// Appends the beginning of a module's line: the address, the length of CODE and the module's name, as `MODULE 0040 0064 METER`.
fn append_heading(text: &mut Vec<u8>, source: &Module, address: u16) -> Result<(), AllocError>
    ensures { OnOk result (text.new.items ≡ text.old.items ++ heading source.now address) }
{
    append_extent(text, address, code_length(source))?;
    text.push(b' ')?;
    text.extend_from_slice(source.name().bytes())
}

/// Appends the words for an address and a length, as `MODULE 0040 0064`.
fn append_extent(text: &mut Vec<u8>, address: u16, length: u16) -> Result<(), AllocError>
    ensures { OnOk result (text.new.items ≡ text.old.items ++ extent_words address length) }
{
    text.extend_from_slice(b"MODULE ".as_slice())?;
    text.extend_from_slice(&word_digits(address))?;
    text.push(b' ')?;
    text.extend_from_slice(&word_digits(length))
}

/// Appends each word in the list that is the base of a segment other than STACK, with the segment, as ` DATA 2000`.
fn append_bases(text: &mut Vec<u8>, commons: &[Common], words: &[Word]) -> Result<(), AllocError>
    ensures { OnOk result (text.new.items ≡ text.old.items ++ flat_map (base_part commons.now) words.now) }
{
    for word in words {
        append_if_base(text, commons, *word)?;
    }
    Ok(())
}

/// Appends a word with its segment, as ` DATA 2000`, if it is the base of a segment other than STACK.
fn append_if_base(text: &mut Vec<u8>, commons: &[Common], word: Word) -> Result<(), AllocError>
    ensures { OnOk result (text.new.items ≡ text.old.items ++ base_part commons.now word) }
{
    match word.target {
        Target::Segment(STACK) | Target::External(_) => Ok(()),
        Target::Segment(id) => append_base(text, commons, id, word.word),
    }
}

/// Appends a segment with its base, and with its name if it is a named common, as ` COMMON 3100 TABLE`.
fn append_base(text: &mut Vec<u8>, commons: &[Common], id: u8, base: u16) -> Result<(), AllocError>
    ensures { OnOk result (text.new.items ≡ text.old.items ++ base_words commons.now id base) }
{
    text.push(b' ')?;
    append_place(text, commons, id, base)
}

/// Appends the top of STACK, as ` TOP 2100`, if it is in a list of words.
fn append_top_of_stack(text: &mut Vec<u8>, words: &[Word]) -> Result<(), AllocError>
    ensures { OnOk result (text.new.items ≡ text.old.items ++ flat_map top_part words.now) }
{
    for word in words {
        append_if_top(text, *word)?;
    }
    Ok(())
}

/// Appends a word, as ` TOP 2100`, if it is the top of STACK.
fn append_if_top(text: &mut Vec<u8>, word: Word) -> Result<(), AllocError>
    ensures { OnOk result (text.new.items ≡ text.old.items ++ top_part word) }
{
    match word.target {
        Target::Segment(STACK) => {
            text.extend_from_slice(b" TOP ".as_slice())?;
            text.extend_from_slice(&word_digits(word.word))
        }
        _ => Ok(()),
    }
}

/// Appends for each word in the list that an external stands for a line with it and the external's name, as `  00A4 GETKEY`.
fn append_needed_names(
    text: &mut Vec<u8>,
    externals: &[Name],
    words: &[Word],
) -> Result<(), AllocError>
    ensures { OnOk result (text.new.items ≡ text.old.items ++ flat_map (needed_line externals.now) words.now) }
{
    for word in words {
        append_if_needed(text, externals, *word)?;
    }
    Ok(())
}

/// Appends a line with a word and an external's name, as `  00A4 GETKEY`, if the word is what an external stands for.
fn append_if_needed(text: &mut Vec<u8>, externals: &[Name], word: Word) -> Result<(), AllocError>
    ensures { OnOk result (text.new.items ≡ text.old.items ++ needed_line externals.now word) }
{
    let Target::External(index) = word.target else {
        return Ok(());
    };
    match externals.get(usize::from(index)) {
        Some(name) => append_name_line(text, word.word, name),
        None => Ok(()),
    }
}

/// Appends a line with an address and the name that stands for it, as `  00A4 GETKEY`.
fn append_name_line(text: &mut Vec<u8>, address: u16, name: &Name) -> Result<(), AllocError>
    ensures { OnOk result (text.new.items ≡ text.old.items ++ name_line address name.now) }
{
    text.extend_from_slice(b"  ".as_slice())?;
    text.extend_from_slice(&word_digits(address))?;
    text.push(b' ')?;
    text.extend_from_slice(name.bytes())?;
    text.push(b'\n')?;
    Ok(())
}
