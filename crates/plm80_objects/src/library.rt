//! `plm80 lib`: a library of the modules of object files.

ghost use Rattle.std.specs.Prelude.{◌≡◌, false, map, IfErr, IfOk, IsErrOf, IsTrue, OnOk};
ghost use Rattle.omf_library.specs.Writing.{library_bytes, is_too_large};
ghost use Rattle.plm80_console.specs.Journal.{OnlyBlames};
ghost use Rattle.plm80_files.specs.Wrong.{SpellsNoModules};
ghost use Rattle.plm80_objects.specs.{Arguments.AreLibraryArguments, Modules.AreAllRead, Modules.GivesUpLibrary, Modules.WritesLibrary, Wrong.OfOne};

use crate::helpers::image_words::explain_images;
use crate::link::IMAGE_ADVICE;
use clap::ArgMatches;
use omf_library::{LibraryPutFault, write_library};
use omf_module::Module;
use omf_module::laws::one_file_reading;
use plm80_console::{Argument, Console, Kind, Reported, Syntax, argument_text, argument_values};
use plm80_files::{append_modules, explain_unread, read_modules};
use std::alloc::{AllocError, Global};
use stream80::TEXT_LIMIT;

/// The arguments of the command `lib`.
#[derive(Drop)]
pub struct LibraryArguments<'a> {
    library: &'a str,
    files: Vec<&'a str>,
}

const ABOUT: &str = "Writes a library of all modules of object files, in order";

const AFTER_HELP: &str = "\
OUT comes first, and is replaced. If you forget it, the first object file is: of
a file that is no library a copy is kept beside it as OUT~ (OUT~1, OUT~2 .. if
that exists).

The library has the modules of the first file, then those of the second, and so
on, with an index of their names, places and public names. If a file can't be
read, nothing is written.

Example: plm80 lib routines.lib routines.obj

Faults and what to do: docs/FAULTS.md (installed: share/doc/plm80), man plm80.";

/// The command `lib`: its name, its help and its arguments.
pub const LIB: Syntax<'static> = Syntax {
    name: "lib",
    about: ABOUT,
    after_help: AFTER_HELP,
    arguments: &[
        Argument {
            name: "OUT",
            kind: Kind::Written,
            help: "The file to write the library to; it is replaced",
        },
        Argument {
            name: "FILE",
            kind: Kind::Paths,
            help: "The object files to read, each of one or more modules",
        },
    ],
};

impl<'a> LibraryArguments<'a> {
    /// Takes the arguments of `lib` from what clap has matched. `AllocError` if memory runs out.
    pub fn of(alloc: Global, matches: &ArgMatches<'a>) -> Result<LibraryArguments<'a>, AllocError>
        ensures { IfOk result (AreLibraryArguments matches.now) }
    {
        Ok(LibraryArguments {
            library: argument_text(matches, "OUT"),
            files: argument_values(alloc, matches, "FILE")?,
        })
    }
}

/// Does `lib`: writes the library of all modules of the object files, and returns the exit status. No file is created or changed before
/// every other fault is excluded. Of a file in its place that is no library a copy is kept, which tests show.
pub fn write_library_file<C: Console>(
    console: &mut C,
    arguments: &LibraryArguments<'_>,
) -> Result<u8, Reported>
    ensures done { IfOk result (WritesLibrary arguments.now (C.journal console.old) (C.journal console.new)) }
    ensures fault { IfErr result (λ _. GivesUpLibrary arguments.now (C.journal console.old) (C.journal console.new)) }
{
    one_file_reading();
    let modules = modules_of(console, &arguments.files)?;
    match library_of(console.alloc(), &modules) {
        Ok(library) => {
            console.replace_keeping_objects(arguments.library, &library)?;
            for path in &arguments.files {
                explain_unread(console, path);
            }
            explain_images(console, &arguments.files, IMAGE_ADVICE);
            if library.len() > TEXT_LIMIT {
                console.explain("it has more than 1048576 bytes, which no command reads: make two");
            }
            Ok(0)
        }
        Err(LibraryPutFault::Memory) => Err(console.report_memory()),
        Err(LibraryPutFault::TooLarge) => {
            let reported = console.blame(LibraryPutFault::TooLarge);
            console.explain("it has too many modules, names or bytes for one library: make two");
            Err(reported)
        }
    }
}

/// The bytes of the library of these modules. `TooLarge` if there are too many modules, names or bytes for one.
fn library_of(alloc: Global, modules: &[Module]) -> Result<Vec<u8>, LibraryPutFault>
    ensures library { IfOk result (λ library. library.items ≡ library_bytes modules.now) }
    ensures fits { OnOk result (is_too_large modules.now ≡ false) }
    ensures too_large { IsErrOf result LibraryPutFault.TooLarge → IsTrue (is_too_large modules.now) }
{
    let mut library = Vec::new(alloc);
    write_library(alloc, modules, &mut library)?;
    Ok(library)
}

/// Reads the object files of these paths, in order, and returns their modules, those of one file behind those of another. Each file is
/// checked before the next one is opened, and the first fault is reported.
fn modules_of<C: Console>(console: &mut C, paths: &[&str]) -> Result<Vec<Module>, Reported>
    ensures read { IfOk result (λ modules. AreAllRead (map (λ path. path.now) paths.now)
        (C.journal console.old) (C.journal console.new) modules.items) }
    ensures fault { IfErr result (λ _. OnlyBlames (OfOne SpellsNoModules) (map (λ path. path.now) paths.now)
        (C.journal console.old) (C.journal console.new)) }
{
    let mut modules = Vec::new(console.alloc());
    for path in paths {
        let mut read = read_modules(console, path)?;
        append_modules(console, &mut modules, &mut read)?;
    }
    Ok(modules)
}
