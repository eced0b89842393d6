//! The lines that `link` prints.

ghost use Rattle.std.specs.Prelude.{◌≡◌, ◌++◌, map, option_copied, IfOk, OnOk};
ghost use Rattle.link80.specs.Selection.{IsSelection};
ghost use Rattle.link80_select.specs.Selected.{module_at};
ghost use Rattle.link80_text.specs.Parts.{IsMade, modules_of};
ghost use Rattle.plm80_objects.specs.Link.{PrintsTaken, named_line, names_text, rest_text, taken_line, taken_text};

use crate::link::LinkFiles;
use link80::{Chosen, Linked};
use link80_text::{append_parts, append_reasons, append_unresolved};
use omf_core::Name;
use omf_library::Library;
use omf_module::Module;
use std::alloc::{AllocError, Global};

/// Which lines `link` prints beside those of the modules that were taken and of the unresolved names.
#[derive(Clone, Copy)]
pub(crate) struct LinkLines {
    pub map: bool,
    pub reasons: bool,
}

/// A line for each module that was taken from a library, with its reason if reasons are wanted and found.
pub(crate) fn taken_lines(
    alloc: Global,
    reasons: bool,
    linked: &Linked,
    files: &LinkFiles<'_>,
) -> Result<Vec<u8>, AllocError>
    requires { IsSelection files.now.roots.items files.now.libraries.items linked.now.taken.items }
    ensures { IfOk result (λ lines. PrintsTaken reasons files.now.roots.items files.now.libraries.items
        (map (λ p. p.now) files.now.paths.items) linked.now.taken.items lines.items) }
{
    let mut lines = Vec::new(alloc);
    let (roots, libraries) = (&files.roots, &files.libraries);
    let taken = &linked.taken;
    if !reasons || !append_reasons(alloc, &mut lines, roots, libraries, taken, &files.paths)? {
        append_taken(&mut lines, taken, libraries)?;
    }
    Ok(lines)
}

/// Appends a line for each unresolved name; with `map` in its place one for each module that needs it, and one for each part.
pub(crate) fn append_rest(
    alloc: Global,
    lines: &mut Vec<u8>,
    map: bool,
    linked: &Linked,
    files: &LinkFiles<'_>,
) -> Result<(), AllocError>
    requires { IsMade files.now.roots.items files.now.libraries.items linked.now }
    ensures { let modules = modules_of files.now.roots.items files.now.libraries.items linked.now in
        OnOk result (lines.new.items ≡ lines.old.items ++ rest_text map modules linked.now) }
{
    if map {
        append_unresolved(alloc, lines, &files.roots, &files.libraries, linked)?;
        append_parts(alloc, lines, &files.roots, &files.libraries, linked)
    } else {
        append_names(lines, &linked.unresolved)
    }
}

/// Appends a line TAKEN for each of these places in the libraries.
fn append_taken(
    lines: &mut Vec<u8>,
    taken: &[Chosen],
    libraries: &[Library],
) -> Result<(), AllocError>
    ensures { OnOk result (lines.new.items ≡ lines.old.items ++ taken_text libraries.now taken.now) }
{
    for chosen in taken {
        append_chosen(lines, libraries, *chosen)?;
    }
    Ok(())
}

/// Appends the line TAKEN of the module at a place in the libraries, or nothing if no module is there.
fn append_chosen(
    lines: &mut Vec<u8>,
    libraries: &[Library],
    place: Chosen,
) -> Result<(), AllocError>
    ensures { OnOk result (lines.new.items ≡ lines.old.items ++ taken_line libraries.now place) }
{
    match module_at(libraries, place) {
        Some(member) => append_line(lines, b"TAKEN ".as_slice(), member.name()),
        None => Ok(()),
    }
}

/// The module at a place in the libraries; `None` if no module is there.
fn module_at(libraries: &[Library], place: Chosen) -> Option<&Module>
    ensures { option_copied result ≡ module_at libraries.now place }
{
    let library = libraries.get(place.library)?;
    library.modules.get(place.module)
}

/// Appends a line UNRESOLVED for each of these names.
fn append_names(lines: &mut Vec<u8>, names: &[Name]) -> Result<(), AllocError>
    ensures { OnOk result (lines.new.items ≡ lines.old.items ++ names_text names.now) }
{
    for name in names {
        append_line(lines, b"UNRESOLVED ".as_slice(), name)?;
    }
    Ok(())
}

/// Appends `word`, `name` and a line feed.
fn append_line(lines: &mut Vec<u8>, word: &[u8], name: &Name) -> Result<(), AllocError>
    ensures { OnOk result (lines.new.items ≡ lines.old.items ++ named_line word.now name.now) }
{
    lines.extend_from_slice(word)?;
    lines.extend_from_slice(name.bytes())?;
    lines.push(b'\n')?;
    Ok(())
}
