//! `plm80 link`: the modules of object files, and what they need of libraries, linked into one.

ghost use Rattle.std.specs.Prelude.{◌≡◌, ◌++◌, map, IfErr, IfOk, OnOk};
ghost use Rattle.link80.specs.Selection.{IsSelection};
ghost use Rattle.link80_text.specs.Parts.{IsMade};
ghost use Rattle.plm80_objects.specs.Link.{AddsFile, AddsLibrary, AddsModules, AreLinkFilesRead, LinksFiles, LinksInto, WritesLinked};
ghost use Rattle.plm80_objects.specs.{Arguments.AreLinkArguments, Wrong.LinksNone, Wrong.OfOne};
ghost use Rattle.plm80_files.specs.Wrong.{SpellsNeither};
ghost use Rattle.plm80_console.specs.{Answer.Gives, Answer.GivesUp, Journal.Blames, Journal.OnlyBlames};

use crate::helpers::causes::report_link_fault;
use crate::helpers::image_words::explain_images;
use crate::helpers::link_lines::{LinkLines, append_rest, taken_lines};
use clap::ArgMatches;
use link80::{Linked, link};
use link80_select::laws::selections_are_unique;
use omf_core::Name;
use omf_library::Library;
use omf_library::laws::one_library;
use omf_module::laws::one_file_reading;
use omf_module::{Module, write_file};
use plm80_console::{
    Answer, Argument, Console, Kind, OptionText, Reported, Syntax, argument_text, argument_values,
};
use plm80_files::{LinkFile, read_link_file};
use std::alloc::{AllocError, Global};
use std::slice;

/// The arguments of the command `link`.
#[derive(Drop)]
pub struct LinkArguments<'a> {
    name: OptionText<'a>,
    out: &'a str,
    lines: LinkLines,
    files: Vec<&'a str>,
}

const ABOUT: &str = "Links modules of object files and libraries into one";

const AFTER_HELP: &str = "\
A file whose first byte is 2C is a library, any other an object file. All
modules of the object files are linked, in order, and then the library modules
that declare a needed name; if several do, the first one.

It prints TAKEN and a name for each module that is taken from a library, and
UNRESOLVED and a name for each name that no module declares. With --reasons,
TAKEN also gives the name it is taken FOR, the nearest module that needs it
(BY), and the library's file (FROM). With --map, UNRESOLVED has a line for each
module that needs the name, and each part of a segment has a line PART: its
offset in the linked segment, length, segment, and module. If there is a fault,
no file is written.

Example: plm80 link --name CONTROL --out linked.obj main.obj routines.lib

Faults and what to do: docs/FAULTS.md (installed: share/doc/plm80), man plm80.";

/// The command `link`: its name, its help and its arguments.
pub const LINK: Syntax<'static> = Syntax {
    name: "link",
    about: ABOUT,
    after_help: AFTER_HELP,
    arguments: &[
        Argument {
            name: "name",
            kind: Kind::Required("NAME"),
            help: "The name of the linked module",
        },
        Argument {
            name: "out",
            kind: Kind::WrittenOption("OUT"),
            help: "The object file to write",
        },
        Argument {
            name: "map",
            kind: Kind::Flag,
            help: "Print where parts lie, and which modules need unresolved names",
        },
        Argument {
            name: "reasons",
            kind: Kind::Flag,
            help: "Print why each module is taken, and from which file",
        },
        Argument {
            name: "FILE",
            kind: Kind::Paths,
            help: "The object files and libraries to read",
        },
    ],
};

impl<'a> LinkArguments<'a> {
    /// Takes the arguments of `link` from what clap has matched. `AllocError` if memory runs out.
    pub fn of(alloc: Global, matches: &ArgMatches<'a>) -> Result<LinkArguments<'a>, AllocError>
        ensures { IfOk result (AreLinkArguments matches.now) }
    {
        Ok(LinkArguments {
            name: OptionText::of(matches, "name"),
            out: argument_text(matches, "out"),
            lines: LinkLines {
                map: matches.get_flag("map"),
                reasons: matches.get_flag("reasons"),
            },
            files: argument_values(alloc, matches, "FILE")?,
        })
    }
}

/// What to do with an image among the files of `link` or `lib`, in words.
pub(crate) const IMAGE_ADVICE: &str =
    "its bytes keep their addresses; link the object files that it was made of";

/// An object file that is linked whole: its path, and how many modules it has.
#[derive(Clone, Copy)]
pub(crate) struct RootFile<'a> {
    pub path: &'a [u8],
    pub modules: usize,
}

/// What the files of `link` have, each kind in their order: the modules of object files, and these files; the libraries, and their paths.
#[derive(Drop)]
pub(crate) struct LinkFiles<'a> {
    pub roots: Vec<Module>,
    pub root_files: Vec<RootFile<'a>>,
    pub libraries: Vec<Library>,
    pub paths: Vec<&'a [u8]>,
}

/// Does `link`: links the modules of the files, writes the linked one, prints which modules were taken and which names are unresolved, and
/// returns the exit status. No file is created or changed before every other fault is excluded. Behind all it says which files are images,
/// if words are asked for.
pub fn link_files<C: Console>(
    console: &mut C,
    arguments: &LinkArguments<'_>,
) -> Result<u8, Reported>
    ensures done { IfOk result (Gives (LinksFiles arguments.now) (map (λ path. path.now) arguments.now.files.items)
        (C.journal console.old) (C.journal console.new)) }
    ensures fault { IfErr result (λ _. GivesUp (LinksFiles arguments.now) (map (λ path. path.now) arguments.now.files.items)
        (C.journal console.old) (C.journal console.new)) }
{
    one_file_reading();
    one_library();
    let name = arguments.name.module_name(console)?;
    let files = read_files(console, &arguments.files)?;
    match link_read(console, arguments, &name, &files) {
        Ok(answer) => {
            let given = console.give(answer);
            explain_images(console, &arguments.files, IMAGE_ADVICE);
            given
        }
        Err(reported) => {
            explain_images(console, &arguments.files, IMAGE_ADVICE);
            Err(reported)
        }
    }
}

/// What `link` answers to `files`, of which it links the modules into one called `name`. Reports why they can't be linked, or that memory
/// ran out.
fn link_read<'a, C: Console>(
    console: &mut C,
    arguments: &LinkArguments<'a>,
    name: &Name,
    files: &LinkFiles<'_>,
) -> Result<Answer<'a>, Reported>
    ensures links { IfOk result (LinksInto arguments.now.out.now arguments.now.lines name.now files.now) }
    ensures unchanged { IfOk result (λ _. C.journal console.new ≡ C.journal console.old) }
    ensures fault { IfErr result (λ _. Blames (LinksNone files.now.roots.items files.now.libraries.items)
        (C.journal console.old) (C.journal console.new)) }
{
    selections_are_unique();
    let alloc = console.alloc();
    let made = match link(alloc, name, &files.roots, &files.libraries) {
        Ok(linked) => answer(alloc, arguments.out, arguments.lines, &linked, files),
        Err(fault) => return Err(report_link_fault(console, files, &fault)),
    };
    match made {
        Ok(answer) => Ok(answer),
        Err(AllocError) => Err(console.report_memory()),
    }
}

/// Reads the object files and libraries of these paths, in order. Each file is checked before the next one is opened, and the first fault
/// is reported.
fn read_files<'a, C: Console>(console: &mut C, paths: &[&'a str]) -> Result<LinkFiles<'a>, Reported>
    ensures read { IfOk result (AreLinkFilesRead (map (λ path. path.now) paths.now) (C.journal console.old) (C.journal console.new)) }
    ensures fault { IfErr result (λ _. OnlyBlames (OfOne SpellsNeither) (map (λ path. path.now) paths.now)
        (C.journal console.old) (C.journal console.new)) }
{
    let mut files = LinkFiles {
        roots: Vec::new(console.alloc()),
        root_files: Vec::new(console.alloc()),
        libraries: Vec::new(console.alloc()),
        paths: Vec::new(console.alloc()),
    };
    for path in paths {
        let file = read_link_file(console, path)?;
        match files.add(file, path) {
            Ok(()) => {}
            Err(AllocError) => return Err(console.report_memory()),
        }
    }
    if files.roots.is_empty() {
        console.explain("there is no object file, so nothing is taken from libraries");
    }
    Ok(files)
}

impl<'a> LinkFiles<'a> {
    /// Appends the modules or the library that the file of this path has.
    fn add(&mut self, file: LinkFile, path: &'a str) -> Result<(), AllocError>
        ensures { OnOk result (AddsFile file path.now self.old self.new) }
    {
        match file {
            LinkFile::Modules(modules) => self.add_modules(modules, path),
            LinkFile::Library(library) => self.add_library(library, path),
        }
    }

    /// Appends the modules of an object file, and its path with their number.
    fn add_modules(&mut self, modules: Vec<Module>, path: &'a str) -> Result<(), AllocError>
        ensures { OnOk result (AddsModules modules.items path.now self.old self.new) }
    {
        self.root_files.push(RootFile {
            path: path.as_bytes(),
            modules: modules.len(),
        })?;
        push_modules(&mut self.roots, modules)?;
        Ok(())
    }

    /// Appends a library and its path.
    fn add_library(&mut self, library: Library, path: &'a str) -> Result<(), AllocError>
        ensures { OnOk result (AddsLibrary library path.now self.old self.new) }
    {
        self.libraries.push(library)?;
        self.paths.push(path.as_bytes())?;
        Ok(())
    }
}

/// Appends `modules` to `roots`. If `roots` has none, it becomes `modules`, since to move them takes as much memory again.
fn push_modules(roots: &mut Vec<Module>, mut modules: Vec<Module>) -> Result<(), AllocError>
    ensures { OnOk result (roots.new.items ≡ roots.old.items ++ modules.items) }
{
    if roots.is_empty() {
        *roots = modules;
        return Ok(());
    }
    match roots.append(&mut modules) {
        Ok(()) => Ok(()),
        Err(_) => Err(AllocError),
    }
}

/// What `link` answers: the object file of the linked module goes to the file `path`, and the wanted lines are printed.
fn answer<'a>(
    alloc: Global,
    path: &'a str,
    wanted: LinkLines,
    linked: &Linked,
    files: &LinkFiles<'_>,
) -> Result<Answer<'a>, AllocError>
    requires selection { IsSelection files.now.roots.items files.now.libraries.items linked.now.taken.items }
    requires made { IsMade files.now.roots.items files.now.libraries.items linked.now }
    ensures { IfOk result (WritesLinked path.now wanted files.now.roots.items files.now.libraries.items
        (map (λ p. p.now) files.now.paths.items) linked.now) }
{
    let mut lines = taken_lines(alloc, wanted.reasons, linked, files)?;
    append_rest(alloc, &mut lines, wanted.map, linked, files)?;
    let mut object = Vec::new(alloc);
    write_file(alloc, slice::from_ref(&linked.module), &mut object)?;
    Ok(Answer::writes(path, object, lines))
}
