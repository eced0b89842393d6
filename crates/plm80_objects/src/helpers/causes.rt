//! Words below a fault of `link`, `locate` and `map`: where its cause is. If memory runs out for them, the fault stands alone.

ghost use Rattle.std.specs.Prelude.{◌≡◌, ◌≢◌, ◌++◌, ◌∷◌, [], map, IfOk, OnOk};
ghost use Rattle.std.specs.List.{repeat};
ghost use Rattle.link80_text.specs.Causes.{PrintsCause};
ghost use Rattle.plm80_console.specs.Journal.{Blames, and_blamed};
ghost use Rattle.plm80_objects.specs.Link.{root_paths};
ghost use Rattle.place80.specs.{Causes.cause_text, Layout.layout_of};
ghost use Rattle.place80_text.specs.Board.{unmapped_text};

use crate::link::{LinkFiles, RootFile};
use link80::LinkFault;
use link80_text::LinkSources;
use omf_core::segment_id::ABSOLUTE;
use omf_module::Module;
use place80::{Options, PlaceFault, layout};
use place80_text::{Unmapped, append_unmapped};
use plm80_console::{Console, Reported};
use std::alloc::{AllocError, Global};
use std::str;

/// Reports why the modules of these files can't be linked, and shows where the cause is, if words are asked for; or reports that memory ran
/// out.
pub(crate) fn report_link_fault<C: Console>(
    console: &mut C,
    files: &LinkFiles<'_>,
    fault: &LinkFault,
) -> Reported
    ensures { Blames (fault.now ≢ LinkFault.Memory) (C.journal console.old) (C.journal console.new) }
{
    if let LinkFault::Memory = fault {
        return console.report_memory();
    }
    let reported = console.blame(fault);
    if console.explains() {
        explain_lines(console, link_lines(console.alloc(), files, fault));
    }
    if let LinkFault::TooManyCommons | LinkFault::TooManyExternals = fault {
        console.explain(
            "link fewer modules, or name the libraries that are missing (docs/FAULTS.md, 'link')",
        );
    }
    reported
}

/// The lines that show where the cause of a fault of linking these files is.
fn link_lines(
    alloc: Global,
    files: &LinkFiles<'_>,
    fault: &LinkFault,
) -> Result<Vec<u8>, AllocError>
    ensures { IfOk result (λ lines. PrintsCause files.now.roots.items (root_paths files.now.root_files.items)
        files.now.libraries.items (map (λ p. p.now) files.now.paths.items) fault.now [] lines.items) }
{
    let paths = root_paths(alloc, &files.root_files)?;
    let sources = LinkSources {
        roots: &files.roots,
        root_files: &paths,
        libraries: &files.libraries,
        library_files: &files.paths,
    };
    let mut lines = Vec::new(alloc);
    link80_text::append_cause(alloc, &mut lines, &sources, fault)?;
    Ok(lines)
}

/// The path of the file of each module, in order: that of a file as often as it has modules.
fn root_paths<'a>(alloc: Global, files: &[RootFile<'a>]) -> Result<Vec<&'a [u8]>, AllocError>
    ensures { IfOk result (λ paths. map (λ p. p.now) paths.items ≡ root_paths files.now) }
{
    let mut paths = Vec::new(alloc);
    for file in files {
        push_paths(&mut paths, file.modules, file.path)?;
    }
    Ok(paths)
}

/// Appends `path` to `paths`, `count` times.
fn push_paths<'a>(paths: &mut Vec<&'a [u8]>, count: usize, path: &'a [u8]) -> Result<(), AllocError>
    ensures { OnOk result (map (λ p. p.now) paths.new.items ≡ map (λ p. p.now) paths.old.items ++ repeat count (path.now ∷ [])) }
{
    let len = paths.len().checked_add(count).ok_or(AllocError)?;
    paths.resize(len, path)?;
    Ok(())
}

/// Reports why LOCATE can't place `program` by these options, and shows where the cause is, if words are asked for; or reports that memory
/// ran out.
pub(crate) fn report_place_fault<C: Console>(
    console: &mut C,
    program: &Module,
    options: &Options,
    fault: &PlaceFault,
) -> Reported
    ensures { Blames (fault.now ≢ PlaceFault.Memory) (C.journal console.old) (C.journal console.new) }
{
    if let PlaceFault::Memory = fault {
        return console.report_memory();
    }
    let reported = console.blame(fault);
    if console.explains() {
        let lines = place_lines(console.alloc(), program, options, fault);
        explain_lines(console, lines);
    }
    match (fault, program.start()) {
        (PlaceFault::Unresolved(_), _) => {
            console.explain("link it with the object file or library that declares the name");
        }
        (PlaceFault::NoStart, _) => console.explain(
            "it isn't the main program, which ends with END and a label: link it with that one",
        ),
        (PlaceFault::StartNotCode, Some((ABSOLUTE, _))) => explain_start(console, program, options),
        _ => {}
    }
    reported
}

/// Says of a program with an absolute start outside CODE that it is an image already; or, if it has segments, what its start has to be.
fn explain_start<C: Console>(console: &C, program: &Module, options: &Options) {
    if let Ok(layout) = layout(console.alloc(), program, options) {
        if layout.segments.iter().all(|placed| placed.length == 0) {
            console.explain(
                "an image is located already: plm80 suggest prints its regions; check, list and run take both",
            );
        } else {
            console.explain("its start is no address of CODE: END has to name a label of CODE");
        }
    }
}

/// The lines that show where the cause of a fault of placing `program` is.
fn place_lines(
    alloc: Global,
    program: &Module,
    options: &Options,
    fault: &PlaceFault,
) -> Result<Vec<u8>, AllocError>
    ensures { IfOk result (λ lines. lines.items ≡ cause_text options.now program.now fault.now) }
{
    let mut lines = Vec::new(alloc);
    place80::append_cause(alloc, &mut lines, program, options, fault)?;
    Ok(lines)
}

/// Reports the address at which a board has no memory for `program`, and shows the segment there, if words are asked for.
pub(crate) fn report_unmapped<C: Console>(
    console: &mut C,
    program: &Module,
    options: &Options,
    found: Unmapped,
) -> Reported
    ensures { C.journal console.new ≡ and_blamed (C.journal console.old) }
{
    let reported = console.blame(found);
    if console.explains() {
        let lines = unmapped_lines(console.alloc(), program, options, found);
        explain_lines(console, lines);
    }
    reported
}

/// The lines that show the segment of `program` at an address for which a board has no memory.
fn unmapped_lines(
    alloc: Global,
    program: &Module,
    options: &Options,
    found: Unmapped,
) -> Result<Vec<u8>, AllocError>
    ensures { IfOk result (λ lines. lines.items ≡ unmapped_text program.now.commons (layout_of options.now program.now) found) }
{
    let Ok(layout) = layout(alloc, program, options) else {
        return Err(AllocError);
    };
    let mut lines = Vec::new(alloc);
    append_unmapped(&mut lines, program.commons(), &layout.segments, found)?;
    Ok(lines)
}

/// Prints these lines, each of which begins as words below a fault do. Nothing is printed if memory ran out for them.
fn explain_lines<C: Console>(console: &C, lines: Result<Vec<u8>, AllocError>) {
    let Ok(lines) = lines else { return };
    if let Ok(text) = str::from_utf8(&lines) {
        for line in text.lines() {
            console.explain(line.strip_prefix("  ").unwrap_or(line));
        }
    }
}
