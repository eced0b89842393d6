//! The lines of a module.

ghost use Rattle.std.specs.Prelude.{◌≡◌, ◌++◌, OnOk};
ghost use Rattle.std.specs.List.{flat_map};
ghost use Rattle.omf_text.specs.ModuleText.{
  module_text,
  declared_text,
  defined_text,
  name_line,
  segment_line,
  public_line,
  external_line,
  content_line,
  start_line,
};

use crate::lines::{append_content, append_external, append_public, append_segment};
use crate::places::append_place;
use omf_core::Name;
use omf_model::{Common, Content, Module, Public, Segment};
use std::alloc::AllocError;

/// Appends what the module holds, a line each: its name, as `MODULE METER`; its segments as the
/// header lists them, as `CODE 0064 PAGED`, a named common with its name behind; its public names
/// with their places, as `PUBLIC CODE 0012 SCALE`; its external names, as `NEEDS GETKEY`; its
/// contents with their places and numbers of bytes, as `CONTENT CODE 0000 0064`; its start, if it
/// has one, as `START CODE 0000`. Numbers are four hexadecimal digits.
///
/// # Errors
/// `AllocError` only if memory runs out; the text may then have some of the lines.
pub fn append_module_text(text: &mut Vec<u8>, module: &Module) -> Result<(), AllocError>
    ensures { OnOk result (text.new.items ≡ text.old.items ++ module_text «module».now) }
{
    append_declared(text, module)?;
    append_defined(text, module)
}

/// Appends the lines of the module's name, of its segments and of its publics. `Err` only if memory
/// runs out.
fn append_declared(text: &mut Vec<u8>, module: &Module) -> Result<(), AllocError>
    ensures { OnOk result (text.new.items ≡ text.old.items ++ declared_text «module».now) }
{
    append_name(text, module.name())?;
    append_segments(text, module.commons(), module.segments())?;
    append_publics(text, module.commons(), module.publics())
}

/// Appends the lines of the module's externals, of its contents and of its start. `Err` only if
/// memory runs out.
fn append_defined(text: &mut Vec<u8>, module: &Module) -> Result<(), AllocError>
    ensures { OnOk result (text.new.items ≡ text.old.items ++ defined_text «module».now) }
{
    append_externals(text, module.externals())?;
    append_contents(text, module.commons(), module.contents())?;
    append_start(text, module.commons(), module.start())
}

/// Appends the line of a module's name, as `MODULE METER`. `Err` only if memory runs out.
fn append_name(text: &mut Vec<u8>, name: &Name) -> Result<(), AllocError>
    ensures { OnOk result (text.new.items ≡ text.old.items ++ name_line name.now) }
{
    text.extend_from_slice(b"MODULE ".as_slice())?;
    text.extend_from_slice(name.bytes())?;
    text.push(b'\n')?;
    Ok(())
}

/// Appends a line for each segment, in order. `Err` only if memory runs out.
fn append_segments(
    text: &mut Vec<u8>,
    commons: &[Common],
    segments: &[(u8, Segment)],
) -> Result<(), AllocError>
    ensures { OnOk result (text.new.items ≡ text.old.items ++ flat_map (segment_line commons.now) segments.now) }
{
    for entry in segments {
        append_segment(text, commons, entry.0, entry.1)?;
    }
    Ok(())
}

/// Appends a line for each public, in order. `Err` only if memory runs out.
fn append_publics(
    text: &mut Vec<u8>,
    commons: &[Common],
    publics: &[Public],
) -> Result<(), AllocError>
    ensures { OnOk result (text.new.items ≡ text.old.items ++ flat_map (public_line commons.now) publics.now) }
{
    for public in publics {
        append_public(text, commons, public)?;
    }
    Ok(())
}

/// Appends a line for each external, in order. `Err` only if memory runs out.
fn append_externals(text: &mut Vec<u8>, names: &[Name]) -> Result<(), AllocError>
    ensures { OnOk result (text.new.items ≡ text.old.items ++ flat_map external_line names.now) }
{
    for name in names {
        append_external(text, name)?;
    }
    Ok(())
}

/// Appends a line for each content, in order. `Err` only if memory runs out.
fn append_contents(
    text: &mut Vec<u8>,
    commons: &[Common],
    contents: &[Content],
) -> Result<(), AllocError>
    ensures { OnOk result (text.new.items ≡ text.old.items ++ flat_map (content_line commons.now) contents.now) }
{
    for content in contents {
        append_content(text, commons, content)?;
    }
    Ok(())
}

/// Appends the line of a module's start, as `START CODE 0000`, or nothing if `start` is `None`.
/// `Err` only if memory runs out.
fn append_start(
    text: &mut Vec<u8>,
    commons: &[Common],
    start: Option<(u8, u16)>,
) -> Result<(), AllocError>
    ensures { OnOk result (text.new.items ≡ text.old.items ++ start_line commons.now start) }
{
    let Some((segment, offset)) = start else {
        return Ok(());
    };
    text.extend_from_slice(b"START ".as_slice())?;
    append_place(text, commons, segment, offset)?;
    text.push(b'\n')?;
    Ok(())
}
