//! The lines of the parts of a segment.

ghost use Rattle.std.specs.Prelude.{◌≡◌, ◌++◌, map, OnOk};
ghost use Rattle.link80_text.specs.Causes.{used_line, part_line, parts_text};

use crate::causes::lines::append_module;
use omf_core::Name;
use omf_model::{Module, Segment, is_used, segment_in};
use omf_text::append_part;
use std::alloc::AllocError;

/// Appends a line for each module's part of segment `id` that has bytes or is paged. `Err` only if
/// memory runs out.
pub(crate) fn append_parts(
    text: &mut Vec<u8>,
    files: &[&[u8]],
    modules: &[&Module],
    id: u8,
) -> Result<(), AllocError>
    ensures { OnOk result (text.new.items ≡ text.old.items
        ++ parts_text (map (λ f. f.now) files.now) (map (λ m. m.now) modules.now) id) }
{
    for (number, source) in modules.iter().enumerate() {
        append_line(text, files, number, source, id)?;
    }
    Ok(())
}

/// Appends the line of the part that the module with index `number` has of segment `id`, or nothing
/// if it has no bytes and isn't paged. `Err` only if memory runs out.
fn append_line(
    text: &mut Vec<u8>,
    files: &[&[u8]],
    number: usize,
    source: &Module,
    id: u8,
) -> Result<(), AllocError>
    ensures { OnOk result (text.new.items ≡ text.old.items ++ part_line (map (λ f. f.now) files.now) id (number, source.now)) }
{
    let part = segment_in(source.segments(), id);
    if is_used(part) {
        append_used(text, files, number, source.name(), id, part)
    } else {
        Ok(())
    }
}

/// Appends the line of a part of segment `id`, as `  CODE 4000 METER of meter.obj`: the part's length,
/// ` PAGED` behind it if the part is paged, and its module, with index `number` and this name.
/// `files` has the path of each module's file. `Err` only if memory runs out.
fn append_used(
    text: &mut Vec<u8>,
    files: &[&[u8]],
    number: usize,
    name: &Name,
    id: u8,
    part: Segment,
) -> Result<(), AllocError>
    ensures { OnOk result (text.new.items ≡ text.old.items ++ used_line (map (λ f. f.now) files.now) id part number name.now) }
{
    text.extend_from_slice(b"  ".as_slice())?;
    append_part(text, id, part)?;
    text.push(b' ')?;
    append_module(text, files, number, name)?;
    text.push(b'\n')?;
    Ok(())
}
