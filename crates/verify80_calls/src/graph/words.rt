//! The words of a list and of a graph: addresses, their names, and bounds.

ghost use Rattle.std.specs.Prelude.{◌≡◌, ◌++◌, OnOk};
ghost use Rattle.verify80_calls.specs.ListText.{bound_text, end_text, node_word, with_address};

use crate::Procedure;
use image80::Image;
use image80_text::{PublicTable, append_name};
use std::alloc::{AllocError, Global};
use text80::word_digits;

/// Appends the text `before` and an address as four digits.
pub(crate) fn append_address(
    text: &mut Vec<u8>,
    before: &[u8],
    address: u16,
) -> Result<(), AllocError>
    ensures { OnOk result (text.new.items ≡ text.old.items ++ with_address before.now address) }
{
    text.extend_from_slice(before)?;
    text.extend_from_slice(&word_digits(address))
}

/// Appends the name of an address, if the publics have one, and ends the line.
pub(crate) fn append_end(
    alloc: Global,
    text: &mut Vec<u8>,
    image: &Image,
    publics: &PublicTable,
    address: u16,
) -> Result<(), AllocError>
    ensures { OnOk result (text.new.items ≡ text.old.items ++ end_text image.now publics.now address) }
{
    append_name(alloc, publics, image.regions.code(), address, text)?;
    text.push(b'\n')?;
    Ok(())
}

/// The word before a procedure's address: `MAIN` for the main program, else `entry_word`.
pub(crate) fn node_word(procedure: Procedure, entry_word: &'static [u8]) -> &'static [u8]
    ensures { result.now ≡ node_word entry_word.now procedure }
{
    match procedure {
        Procedure::Main => b"MAIN ".as_slice(),
        Procedure::Entry(_) => entry_word,
    }
}

/// Appends the text `before` and a bound, as `BOUND 2`.
pub(crate) fn append_bound(
    alloc: Global,
    text: &mut Vec<u8>,
    before: &[u8],
    bound: u64,
) -> Result<(), AllocError>
    ensures { OnOk result (text.new.items ≡ text.old.items ++ bound_text before.now bound) }
{
    text.extend_from_slice(before)?;
    let shown = format!(in alloc; "BOUND {bound}")?;
    text.extend_from_slice(shown.as_bytes())
}
