//! Words for segments, commons and places.

ghost use Rattle.std.specs.Prelude.{◌≡◌, ◌++◌, OnOk};
ghost use Rattle.omf_text.specs.Places.{common_part, offset_words, place_words, part_words};

use omf_core::segment_id::word_of;
use omf_model::{Common, Segment};
use std::alloc::AllocError;
use text80::word_digits;

/// Appends the name of the segment with this id and an offset in it, as `CODE 0012`, and for a
/// named common a space and its name.
///
/// # Errors
/// `AllocError` only if memory runs out; the text may then have some of the words.
pub fn append_place(
    text: &mut Vec<u8>,
    commons: &[Common],
    id: u8,
    offset: u16,
) -> Result<(), AllocError>
    ensures { OnOk result (text.new.items ≡ text.old.items ++ place_words commons.now id offset) }
{
    append_offset(text, id, offset)?;
    append_common(text, commons, id)
}

/// Appends the name of the segment with this id and the length of `part`, as `CODE 0064`, and
/// ` PAGED` if it starts at a multiple of 256.
///
/// # Errors
/// `AllocError` only if memory runs out; the text may then have some of the words.
pub fn append_part(text: &mut Vec<u8>, id: u8, part: Segment) -> Result<(), AllocError>
    ensures { OnOk result (text.new.items ≡ text.old.items ++ part_words id part) }
{
    append_offset(text, id, part.length)?;
    if part.paged {
        text.extend_from_slice(b" PAGED".as_slice())?;
    }
    Ok(())
}

/// Appends a space and the name of the named common with this segment id; nothing if no common has
/// it.
///
/// # Errors
/// `AllocError` only if memory runs out; the text may then have the space.
pub fn append_common(text: &mut Vec<u8>, commons: &[Common], id: u8) -> Result<(), AllocError>
    ensures { OnOk result (text.new.items ≡ text.old.items ++ common_part commons.now id) }
{
    for common in commons {
        if common.id == id {
            text.push(b' ')?;
            text.extend_from_slice(common.name.bytes())?;
            return Ok(());
        }
    }
    Ok(())
}

/// Appends the name of the segment with this id and an offset in it, as `CODE 0012`. `Err` only if
/// memory runs out.
pub(crate) fn append_offset(text: &mut Vec<u8>, id: u8, offset: u16) -> Result<(), AllocError>
    ensures { OnOk result (text.new.items ≡ text.old.items ++ offset_words id offset) }
{
    text.extend_from_slice(word_of(id))?;
    text.push(b' ')?;
    text.extend_from_slice(&word_digits(offset))
}
