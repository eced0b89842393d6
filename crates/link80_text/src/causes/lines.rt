//! The lines of modules and of a high byte.

ghost use Rattle.std.specs.Prelude.{◌≡◌, ◌++◌, Some, map, slice_get, OnOk};
ghost use Rattle.link80_text.specs.Causes.{module_words, deed_line, line_of, first_two, use_line, high_line, high_text};

use crate::causes::high_bytes::HighByte;
use crate::shown::append_path;
use crate::words::path_of;
use omf_core::Name;
use omf_model::{Common, Module};
use omf_text::append_place;
use std::alloc::AllocError;

/// Appends a line for each of the first two of these indices of modules: two spaces, the module's
/// name, its file, and the text `does`. `Err` only if memory runs out.
pub(crate) fn append_first_two(
    text: &mut Vec<u8>,
    files: &[&[u8]],
    modules: &[&Module],
    does: &[u8],
    numbers: &[usize],
) -> Result<(), AllocError>
    ensures { OnOk result (text.new.items ≡ text.old.items
        ++ first_two (map (λ f. f.now) files.now) (map (λ m. m.now) modules.now) does.now numbers.now) }
{
    for number in &numbers[..numbers.len().min(2)] {
        append_line(text, files, modules, does, *number)?;
    }
    Ok(())
}

/// Appends the line of the module with index `number`: its name, its file, and the text `does`;
/// nothing if there is no such module. `Err` only if memory runs out.
fn append_line(
    text: &mut Vec<u8>,
    files: &[&[u8]],
    modules: &[&Module],
    does: &[u8],
    number: usize,
) -> Result<(), AllocError>
    ensures { OnOk result (text.new.items ≡ text.old.items
        ++ line_of (map (λ f. f.now) files.now) (map (λ m. m.now) modules.now) does.now number) }
{
    match modules.get(number) {
        Some(source) => append_module_line(text, files, number, source.name(), does),
        None => Ok(()),
    }
}

/// Appends the line of a module with this index and name: two spaces, the name, the file, and the
/// text `does`. `Err` only if memory runs out.
fn append_module_line(
    text: &mut Vec<u8>,
    files: &[&[u8]],
    number: usize,
    name: &Name,
    does: &[u8],
) -> Result<(), AllocError>
    ensures { OnOk result (text.new.items ≡ text.old.items ++ deed_line (map (λ f. f.now) files.now) does.now number name.now) }
{
    text.extend_from_slice(b"  ".as_slice())?;
    append_module(text, files, number, name)?;
    text.extend_from_slice(does)?;
    text.push(b'\n')?;
    Ok(())
}

/// Appends the line of a [`HighByte`], or nothing for `None`. `Err` only if memory runs out.
pub(crate) fn append_high(
    text: &mut Vec<u8>,
    files: &[&[u8]],
    modules: &[&Module],
    found: Option<HighByte>,
) -> Result<(), AllocError>
    ensures { OnOk result (text.new.items ≡ text.old.items
        ++ high_text (map (λ f. f.now) files.now) (map (λ m. m.now) modules.now) found) }
{
    match found {
        Some(high) => append_high_line(text, files, modules, high),
        None => Ok(()),
    }
}

/// Appends the line of a [`HighByte`], or nothing if its module isn't in `modules`. `Err` only if
/// memory runs out.
fn append_high_line(
    text: &mut Vec<u8>,
    files: &[&[u8]],
    modules: &[&Module],
    high: HighByte,
) -> Result<(), AllocError>
    ensures { OnOk result (text.new.items ≡ text.old.items
        ++ high_line (map (λ f. f.now) files.now) (map (λ m. m.now) modules.now) high) }
{
    match modules.get(high.source) {
        Some(source) => append_use(text, files, source.name(), source.commons(), high),
        None => Ok(()),
    }
}

/// Appends the line of a [`HighByte`] whose module has this name and these commons, as
/// `  METER of meter.obj uses the high byte of DATA 0064 at CODE 0012`. `Err` only if memory runs
/// out.
fn append_use(
    text: &mut Vec<u8>,
    files: &[&[u8]],
    name: &Name,
    commons: &[Common],
    high: HighByte,
) -> Result<(), AllocError>
    ensures { OnOk result (text.new.items ≡ text.old.items ++ use_line (map (λ f. f.now) files.now) name.now commons.now high) }
{
    text.extend_from_slice(b"  ".as_slice())?;
    append_module(text, files, high.source, name)?;
    text.extend_from_slice(b" uses the high byte of ".as_slice())?;
    append_place(text, commons, high.target, high.start)?;
    text.extend_from_slice(b" at ".as_slice())?;
    append_place(text, commons, high.segment, high.offset)?;
    text.push(b'\n')?;
    Ok(())
}

/// Appends the name of the module with index `number` and the path of its file, as
/// `METER of meter.obj`. `Err` only if memory runs out.
pub(crate) fn append_module(
    text: &mut Vec<u8>,
    files: &[&[u8]],
    number: usize,
    name: &Name,
) -> Result<(), AllocError>
    ensures { OnOk result (text.new.items ≡ text.old.items ++ module_words (map (λ f. f.now) files.now) number name.now) }
{
    text.extend_from_slice(name.bytes())?;
    text.extend_from_slice(b" of ".as_slice())?;
    append_path(text, path_of(files, number))
}
