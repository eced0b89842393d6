//! The line of a part.

ghost use Rattle.std.specs.Prelude.{◌≡◌, ◌++◌, OnOk};
ghost use Rattle.link80_text.specs.Parts.{extent_of, owner_of, line_of, part_line};

use omf_core::Name;
use omf_core::segment_id::word_of;
use omf_model::{Common, Segment, is_used};
use omf_text::append_common;
use std::alloc::AllocError;
use text80::word_digits;

/// Appends the line of a part of segment `id`, which starts at offset `start`, of the module with
/// this name; nothing if it has no bytes and isn't paged. `Err` only if memory runs out.
pub(crate) fn append_part(
    text: &mut Vec<u8>,
    commons: &[Common],
    id: u8,
    start: u16,
    part: Segment,
    name: &Name,
) -> Result<(), AllocError>
    ensures { OnOk result (text.new.items ≡ text.old.items ++ part_line commons.now id start part name.now) }
{
    if is_used(part) {
        append_line(text, commons, id, start, part, name)
    } else {
        Ok(())
    }
}

/// Appends the line of a part, as `PART 0000 0064 CODE METER`. `Err` only if memory runs out.
fn append_line(
    text: &mut Vec<u8>,
    commons: &[Common],
    id: u8,
    start: u16,
    part: Segment,
    name: &Name,
) -> Result<(), AllocError>
    ensures { OnOk result (text.new.items ≡ text.old.items ++ line_of commons.now id start part name.now) }
{
    append_extent(text, start, part.length)?;
    append_owner(text, commons, id, name)
}

/// Appends the word `PART`, where a part starts, its length, and a space, as `PART 0000 0064 `.
/// `Err` only if memory runs out.
fn append_extent(text: &mut Vec<u8>, start: u16, length: u16) -> Result<(), AllocError>
    ensures { OnOk result (text.new.items ≡ text.old.items ++ extent_of start length) }
{
    text.extend_from_slice(b"PART ".as_slice())?;
    text.extend_from_slice(&word_digits(start))?;
    text.push(b' ')?;
    text.extend_from_slice(&word_digits(length))?;
    text.push(b' ')?;
    Ok(())
}

/// Appends the segment of a part, a named common's name, the name of the part's module, and a line
/// end, as `CODE METER`. `Err` only if memory runs out.
fn append_owner(
    text: &mut Vec<u8>,
    commons: &[Common],
    id: u8,
    name: &Name,
) -> Result<(), AllocError>
    ensures { OnOk result (text.new.items ≡ text.old.items ++ owner_of commons.now id name.now) }
{
    text.extend_from_slice(word_of(id))?;
    append_common(text, commons, id)?;
    text.push(b' ')?;
    text.extend_from_slice(name.bytes())?;
    text.push(b'\n')?;
    Ok(())
}
