//! The lines of a fault.

ghost use Rattle.std.specs.Prelude.{◌≡◌, ◌++◌, [], codes, map, slice_index_or, IfOk, OnOk};
ghost use Rattle.link80_text.specs.Causes.{PrintsCause, cause_text, files_with, first_two, declarations, mains};

use crate::causes::counting::{declarations, mains};
use crate::causes::high_bytes::first_high;
use crate::causes::lines::{append_first_two, append_high};
use crate::causes::parts::append_parts;
use crate::modules::linked_modules;
use crate::words::path_of;
use link80::{Chosen, LinkFault, select};
use link80_select::laws::selections_are_unique;
use omf_core::Name;
use omf_library::Library;
use omf_model::Module;
use std::alloc::{AllocError, Global};

/// What is linked, and the files that it comes from.
#[derive(Clone, Copy)]
pub struct LinkSources<'a> {
    /// The modules that are linked in any case.
    pub roots: &'a [Module],
    /// The path of the file of each root.
    pub root_files: &'a [&'a [u8]],
    /// The libraries that modules are taken from.
    pub libraries: &'a [Library],
    /// The path of the file of each library.
    pub library_files: &'a [&'a [u8]],
}

/// Appends the lines that say where in the modules the cause of a fault of `link` is, each with two
/// spaces before it:
///
/// - `DuplicatePublic`: the first two modules that declare the name, as `  METER of meter.obj declares it`; it is one module twice
///   if that declares it twice;
/// - `SegmentTooLong`: the parts of the segment that have bytes or are paged, with their lengths, as `  CODE 4000 METER of meter.obj`
///   or `  CODE 4000 PAGED METER of meter.obj`;
/// - `TwoMains`: the first two modules with a start, as `  METER of meter.obj is a main program`;
/// - `HighNotPaged`: the first fixup of a high byte whose module's part of the segment that it refers to doesn't start at a multiple of
///   256, as `  METER of meter.obj uses the high byte of DATA 0064 at CODE 0012`: the part starts at 0064 in the linked segment,
///   the fixup is at 0012 in the module's.
///
/// For other faults there are none. Modules come in the order in which they are linked, and numbers
/// are four hexadecimal digits.
///
/// # Errors
/// `AllocError` only if memory runs out; the text may then have some of the lines.
pub fn append_cause(
    alloc: Global,
    text: &mut Vec<u8>,
    sources: &LinkSources<'_>,
    fault: &LinkFault,
) -> Result<(), AllocError>
    ensures { OnOk result (PrintsCause sources.now.roots.now (map (λ f. f.now) sources.now.root_files.now)
        sources.now.libraries.now (map (λ f. f.now) sources.now.library_files.now) fault.now text.old.items text.new.items) }
{
    selections_are_unique();
    let Ok(taken) = select(alloc, sources.roots, sources.libraries) else {
        return Err(AllocError);
    };
    let modules = linked_modules(alloc, sources.roots, sources.libraries, &taken)?;
    let files = files_with(alloc, sources.root_files, sources.library_files, &taken)?;
    append_lines(alloc, text, &files, &modules, fault)?;
    Ok(())
}

/// The path of the file of each linked module: first of the roots, then of the library of each
/// module taken, empty if `library_files` has none. `Err` only if memory runs out.
fn files_with<'a>(
    alloc: Global,
    root_files: &[&'a [u8]],
    library_files: &[&'a [u8]],
    taken: &[Chosen],
) -> Result<Vec<&'a [u8]>, AllocError>
    ensures { IfOk result (λ files. map (λ f. f.now) files.items
        ≡ files_with (map (λ f. f.now) root_files.now) (map (λ f. f.now) library_files.now) taken.now) }
{
    let mut files = Vec::new(alloc);
    for file in root_files {
        files.push(*file)?;
    }
    for place in taken {
        files.push(path_of(library_files, place.library))?;
    }
    Ok(files)
}

/// Appends the lines for a fault of these modules; `files` has the path of each module. `Err` only
/// if memory runs out.
fn append_lines(
    alloc: Global,
    text: &mut Vec<u8>,
    files: &[&[u8]],
    modules: &[&Module],
    fault: &LinkFault,
) -> Result<(), AllocError>
    ensures { OnOk result (text.new.items ≡ text.old.items
        ++ cause_text (map (λ f. f.now) files.now) (map (λ m. m.now) modules.now) fault.now) }
{
    match fault {
        LinkFault::DuplicatePublic(name) => append_duplicate(alloc, text, files, modules, name),
        LinkFault::SegmentTooLong(id) => append_parts(text, files, modules, *id),
        LinkFault::TwoMains => append_mains(alloc, text, files, modules),
        LinkFault::HighNotPaged => append_high(text, files, modules, first_high(modules)),
        LinkFault::TooManyCommons | LinkFault::Memory | LinkFault::TooManyExternals => Ok(()),
    }
}

/// Appends a line for each of the first two publics with this name, as
/// `  METER of meter.obj declares it`. `Err` only if memory runs out.
fn append_duplicate(
    alloc: Global,
    text: &mut Vec<u8>,
    files: &[&[u8]],
    modules: &[&Module],
    name: &Name,
) -> Result<(), AllocError>
    ensures { OnOk result (text.new.items ≡ text.old.items
        ++ first_two (map (λ f. f.now) files.now) (map (λ m. m.now) modules.now) (codes " declares it")
        (declarations (map (λ m. m.now) modules.now) name.now)) }
{
    let numbers = declarations(alloc, modules, name)?;
    append_first_two(text, files, modules, b" declares it".as_slice(), &numbers)
}

/// Appends a line for each of the first two modules with a start, as
/// `  METER of meter.obj is a main program`. `Err` only if memory runs out.
fn append_mains(
    alloc: Global,
    text: &mut Vec<u8>,
    files: &[&[u8]],
    modules: &[&Module],
) -> Result<(), AllocError>
    ensures { OnOk result (text.new.items ≡ text.old.items
        ++ first_two (map (λ f. f.now) files.now) (map (λ m. m.now) modules.now) (codes " is a main program")
        (mains (map (λ m. m.now) modules.now))) }
{
    let numbers = mains(alloc, modules)?;
    append_first_two(
        text,
        files,
        modules,
        b" is a main program".as_slice(),
        &numbers,
    )
}
