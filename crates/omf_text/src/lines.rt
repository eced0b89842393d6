//! A line of a module.

ghost use Rattle.std.specs.Prelude.{◌≡◌, ◌++◌, ◌∷◌, OnOk};
ghost use Rattle.omf_text.specs.ModuleText.{segment_line, public_line, external_line, content_line};

use crate::places::{append_common, append_offset, append_part, append_place};
use omf_core::Name;
use omf_model::{Common, Content, Public, Segment};
use std::alloc::AllocError;
use text80::word_digits;

/// Appends the line of a segment, as `CODE 0064 PAGED`, with the name of a named common at its end.
/// `Err` only if memory runs out.
pub(crate) fn append_segment(
    text: &mut Vec<u8>,
    commons: &[Common],
    id: u8,
    segment: Segment,
) -> Result<(), AllocError>
    ensures { OnOk result (text.new.items ≡ text.old.items ++ segment_line commons.now (id, segment)) }
{
    append_part(text, id, segment)?;
    append_common(text, commons, id)?;
    text.push(b'\n')?;
    Ok(())
}

/// Appends the line of a public, as `PUBLIC CODE 0012 SCALE`. `Err` only if memory runs out.
pub(crate) fn append_public(
    text: &mut Vec<u8>,
    commons: &[Common],
    public: &Public,
) -> Result<(), AllocError>
    ensures { OnOk result (text.new.items ≡ text.old.items ++ public_line commons.now public.now) }
{
    text.extend_from_slice(b"PUBLIC ".as_slice())?;
    append_place(text, commons, public.segment, public.offset)?;
    text.push(b' ')?;
    text.extend_from_slice(public.name.bytes())?;
    text.push(b'\n')?;
    Ok(())
}

/// Appends the line of an external, as `NEEDS GETKEY`. `Err` only if memory runs out.
pub(crate) fn append_external(text: &mut Vec<u8>, name: &Name) -> Result<(), AllocError>
    ensures { OnOk result (text.new.items ≡ text.old.items ++ external_line name.now) }
{
    text.extend_from_slice(b"NEEDS ".as_slice())?;
    text.extend_from_slice(name.bytes())?;
    text.push(b'\n')?;
    Ok(())
}

/// Appends the line of a content, as `CONTENT CODE 0000 0064`: its segment, its offset and its
/// number of bytes. `Err` only if memory runs out.
pub(crate) fn append_content(
    text: &mut Vec<u8>,
    commons: &[Common],
    content: &Content,
) -> Result<(), AllocError>
    ensures { OnOk result (text.new.items ≡ text.old.items ++ content_line commons.now content.now) }
{
    text.extend_from_slice(b"CONTENT ".as_slice())?;
    append_offset(text, content.segment, content.offset)?;
    text.push(b' ')?;
    text.extend_from_slice(&word_digits((content.bytes.len() % 65536) as u16))?;
    append_common(text, commons, content.segment)?;
    text.push(b'\n')?;
    Ok(())
}
