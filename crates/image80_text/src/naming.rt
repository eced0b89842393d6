//! The name of an address as it is printed.

ghost use Rattle.std.specs.Prelude.{◌≡◌, ◌++◌, OnOk};
ghost use Rattle.image80_text.specs.NameText.{above_text, distance_text, label_text, name_text};

use crate::table::PublicTable;
use image80::Range;
use omf_model::Public;
use std::alloc::{AllocError, Global};

/// Appends a blank and the name of an address of code, as in ` SCALE`, or in ` SCALE+22` with the hexadecimal
/// distance if the address is above its public. The public is the highest at or below the address in the same range
/// of code, and the first of several there. Nothing is appended if there is none.
///
/// # Errors
/// `AllocError` only if memory runs out.
pub fn append_name(
    alloc: Global,
    publics: &PublicTable,
    code: &[Range],
    address: u16,
    text: &mut Vec<u8>,
) -> Result<(), AllocError>
    ensures { OnOk result (text.new.items ≡ text.old.items ++ name_text code.now publics.now address) }
{
    match publics.nearest(code, address) {
        Some((public, distance)) => append_above(alloc, public, distance, text),
        None => Ok(()),
    }
}

/// Appends a blank, the public's name and, unless `distance` is 0, `+` and the distance in hexadecimal.
fn append_above(
    alloc: Global,
    public: &Public,
    distance: u16,
    text: &mut Vec<u8>,
) -> Result<(), AllocError>
    ensures { OnOk result (text.new.items ≡ text.old.items ++ above_text distance public.now) }
{
    text.push(b' ')?;
    text.extend_from_slice(public.name.bytes())?;
    append_distance(alloc, distance, text)
}

/// Appends `+` and the distance in hexadecimal, as in `+22`; nothing if it is 0.
fn append_distance(alloc: Global, distance: u16, text: &mut Vec<u8>) -> Result<(), AllocError>
    ensures { OnOk result (text.new.items ≡ text.old.items ++ distance_text distance) }
{
    if distance > 0 {
        let shown = format!(in alloc; "+{distance:X}")?;
        text.extend_from_slice(shown.as_bytes())?;
    }
    Ok(())
}

/// Appends the name of the first public at an address as a line of its own; nothing if there is none.
///
/// # Errors
/// `AllocError` only if memory runs out.
pub fn append_label(
    publics: &PublicTable,
    address: u16,
    text: &mut Vec<u8>,
) -> Result<(), AllocError>
    ensures { OnOk result (text.new.items ≡ text.old.items ++ label_text publics.now address) }
{
    if let Some(public) = publics.at(address) {
        text.extend_from_slice(public.name.bytes())?;
        text.push(b'\n')?;
    }
    Ok(())
}
