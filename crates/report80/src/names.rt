//! The names of an image's addresses.

ghost use Rattle.std.specs.Prelude.{◌≡◌, ◌++◌, IfOk, OnOk, codes};
ghost use Rattle.report80.specs.PageText.{name_line, names_text, part_text};

use crate::part::append_part;
use image80_text::PublicTable;
use page80::Page;
use std::alloc::{AllocError, Global};
use text80::word_digits;

/// Appends the first name at each address that has one.
pub(crate) fn append_names(
    alloc: Global,
    page: &mut Page,
    publics: &PublicTable,
) -> Result<(), AllocError>
    ensures { OnOk result (page.new ≡ page.old ++ part_text (codes "Names") (names_text publics.now)) }
{
    let lines = name_lines(alloc, publics)?;
    append_part(page, b"Names".as_slice(), &lines)
}

/// A line for the first name at each address that has one.
fn name_lines(alloc: Global, publics: &PublicTable) -> Result<Vec<u8>, AllocError>
    ensures { IfOk result (λ lines. lines.items ≡ names_text publics.now) }
{
    let mut lines = Vec::new(alloc);
    for address in 0..65536u32 {
        append_name_line(&mut lines, publics, address as u16)?;
    }
    Ok(lines)
}

/// Appends the line of the first name at an address; nothing if there is none.
fn append_name_line(
    lines: &mut Vec<u8>,
    publics: &PublicTable,
    address: u16,
) -> Result<(), AllocError>
    ensures { OnOk result (lines.new.items ≡ lines.old.items ++ name_line publics.now address) }
{
    if let Some(public) = publics.at(address) {
        lines.extend_from_slice(&word_digits(address))?;
        lines.push(b' ')?;
        lines.extend_from_slice(public.name.bytes())?;
        lines.push(b'\n')?;
    }
    Ok(())
}
