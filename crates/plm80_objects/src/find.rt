//! `plm80 find`: where modules of object files and libraries lie in a dump.

ghost use Rattle.std.specs.Prelude.{◌≡◌, ◌∷◌, [], map, IfOk, IfErr, OnOk};
ghost use Rattle.rom80_find.specs.Dump.{dump_of};
ghost use Rattle.plm80_console.specs.{Answer.Gives, Answer.GivesUp, Journal.OnlyBlames};
ghost use Rattle.plm80_files.specs.Wrong.{SpellsNeither};
ghost use Rattle.plm80_objects.specs.Find.{AreFilesRead, FindsModules, PrintsFile, PrintsFound};
ghost use Rattle.plm80_objects.specs.{Arguments.AreFindArguments, Compare.IsDump, RomFaults.IsRefused, Wrong.OfOne};

use crate::extract::FIRST;
use crate::helpers::dump_words::DumpWords;
use crate::helpers::image_words::explain_images;
use crate::helpers::other_words::explain_other;
use crate::helpers::rom_faults::blame_rom_fault;
use clap::ArgMatches;
use omf_core::RecordKind;
use plm80_console::{
    Answer, Argument, Console, FaultOf, Kind, OptionText, ReadFile, Reported, Syntax,
    argument_text, argument_values,
};
use plm80_files::{LinkFile, read_link_file};
use rom80::RomFault;
use rom80_find::{Dump, append_members, append_modules};
use std::alloc::{AllocError, Global};

/// The arguments of the command `find`.
#[derive(Drop)]
pub struct FindArguments<'a> {
    dump: &'a str,
    first: OptionText<'a>,
    files: Vec<&'a str>,
}

const ABOUT: &str = "Prints where modules lie in a dump of a PROM";

const AFTER_HELP: &str = "\
DUMP has the bytes from address FIRST on. For each place at which it has all
bytes of a module's code there is a line: address, length of CODE, name, and the
base of each segment if only one is possible (for STACK the address after it,
TOP); below it are the addresses of the names that it needs. MORE counts the
places after the first 16, MISSING names a module that has none, SHORT one with
fewer than four bytes outside fixups. Of a library only the modules that are
found are printed, and the number of the others.

The exit status is 0 if no module of an object file is missing, else 1.

Example: plm80 find meter.rom meter.obj routines.lib --first 0000

Faults and what to do: docs/FAULTS.md (installed: share/doc/plm80), man plm80.";

/// The command `find`: its name, its help and its arguments.
pub const FIND: Syntax<'static> = Syntax {
    name: "find",
    about: ABOUT,
    after_help: AFTER_HELP,
    arguments: &[
        Argument {
            name: "DUMP",
            kind: Kind::Path,
            help: "The bytes that were read from a PROM",
        },
        Argument {
            name: "FILE",
            kind: Kind::Paths,
            help: "The object files and libraries to look for",
        },
        FIRST,
    ],
};

impl<'a> FindArguments<'a> {
    /// Takes the arguments of `find` from what clap has matched. `AllocError` if memory runs out.
    pub fn of(alloc: Global, matches: &ArgMatches<'a>) -> Result<FindArguments<'a>, AllocError>
        ensures { IfOk result (AreFindArguments matches.now) }
    {
        Ok(FindArguments {
            dump: argument_text(matches, "DUMP"),
            first: OptionText::of(matches, "first"),
            files: argument_values(alloc, matches, "FILE")?,
        })
    }
}

/// Does `find`: prints where the modules of the files lie in the dump, and returns the exit status, 1 if a module of an object file is
/// missing. The dump is checked before another file is opened, and each of these before the next one. Behind all it says what the dump
/// seems to be and which files are images, if words are asked for.
pub fn find_modules<C: Console>(
    console: &mut C,
    arguments: &FindArguments<'_>,
) -> Result<u8, Reported>
    ensures done { IfOk result (Gives (FindsModules arguments.now) (arguments.now.dump.now ∷ map (λ path. path.now) arguments.now.files.items)
        (C.journal console.old) (C.journal console.new)) }
    ensures fault { IfErr result (λ _. GivesUp (FindsModules arguments.now) (arguments.now.dump.now ∷ map
        (λ path. path.now) arguments.now.files.items)
        (C.journal console.old) (C.journal console.new)) }
{
    let done = find_in_dump(console, arguments);
    let words = DumpWords::of(console, arguments.dump);
    console.explain_any(words);
    if words.is_none() {
        explain_other(console, arguments.dump);
    }
    if let (Err(_), Some(words)) = (&done, words)
        && words.is_of_object_file()
    {
        console.explain("DUMP is the first path");
    }
    if let Ok(1) = done {
        console.explain(
            "a missing module has other bytes in the dump, or this doesn't begin at --first",
        );
    }
    explain_libraries(console, &arguments.files);
    explain_images(console, &arguments.files, IMAGE_ADVICE);
    done
}

/// What to do with an image among the files of `find`, in words.
const IMAGE_ADVICE: &str = "plm80 compare shows where a dump differs from it";

/// The type byte of the record with which a library begins.
const LIBRARY_HEADER: u8 = RecordKind::LibraryHeader as u8;

/// Says of each of these files that is a library that its short modules count as missing, if words are asked for.
fn explain_libraries<C: Console>(console: &C, paths: &[&str]) {
    for path in paths {
        if let Some(bytes) = console.text_to_explain(path) {
            if bytes.first() == Some(&LIBRARY_HEADER) {
                console.explain(format_args!(
                    "MISSING of {path} counts modules with fewer than four bytes outside fixups, too"
                ));
            }
        }
    }
}

/// Reads the dump and the other files of `find`, prints where their modules lie, and returns the exit status, 1 if a module of an object
/// file is missing. Nothing is said of what the files seem to be.
fn find_in_dump<C: Console>(console: &mut C, arguments: &FindArguments<'_>) -> Result<u8, Reported>
    ensures done { IfOk result (Gives (FindsModules arguments.now) (arguments.now.dump.now ∷ map (λ path. path.now) arguments.now.files.items)
        (C.journal console.old) (C.journal console.new)) }
    ensures fault { IfErr result (λ _. GivesUp (FindsModules arguments.now) (arguments.now.dump.now ∷ map
        (λ path. path.now) arguments.now.files.items)
        (C.journal console.old) (C.journal console.new)) }
{
    let first = arguments.first.word(console)?;
    let file = console.read_file(arguments.dump)?;
    let dump = match dump_of(first, &file) {
        Ok(dump) => dump,
        Err(fault) => return Err(blame_rom_fault(console, fault)),
    };
    let files = read_all(console, &arguments.files)?;
    let answer = find_all(console.alloc(), dump, &files);
    console.give_if_made(answer)
}

/// Reads the object files and libraries of these paths, in order. Each file is checked before the next one is opened, and the first fault
/// is reported.
fn read_all<C: Console>(console: &mut C, paths: &[&str]) -> Result<Vec<LinkFile>, Reported>
    ensures read { IfOk result (λ files. AreFilesRead (map (λ path. path.now) paths.now)
        (C.journal console.old) (C.journal console.new) files.items) }
    ensures fault { IfErr result (λ _. OnlyBlames (OfOne SpellsNeither) (map (λ path. path.now) paths.now)
        (C.journal console.old) (C.journal console.new)) }
{
    let mut files = Vec::new(console.alloc());
    for path in paths {
        let file = read_link_file(console, path)?;
        if files.push(file).is_err() {
            return Err(console.report_memory());
        }
    }
    Ok(files)
}

/// The bytes of a file as a dump from the address `first` on. The fault has the file's path: no bytes, or bytes past FFFF.
fn dump_of<'a, 'b>(first: u16, file: &'b ReadFile<'a>) -> Result<Dump<'b>, FaultOf<'a, RomFault>>
    ensures dump { IfOk result (λ dump. (dump.first ≡ first) × (dump.bytes.now ≡ file.now.bytes.items)) }
    ensures whole { OnOk result (IsDump first file.now.bytes.items) }
    ensures fault { IfErr result (λ f. (f.path.now ≡ file.now.path.now) × IsRefused first file.now.bytes.items f.fault) }
{
    if file.bytes.is_empty() {
        return Err(file.fault(RomFault::EmptyFile));
    }
    if file.bytes.len() > 65536 - usize::from(first) {
        return Err(file.fault(RomFault::PastMemory));
    }
    Ok(Dump {
        first,
        bytes: &file.bytes,
    })
}

/// What `find` answers: the lines of what is found of each file, in order, and the status, 1 if a module of an object file is missing.
fn find_all(
    alloc: Global,
    dump: Dump<'_>,
    files: &[LinkFile],
) -> Result<Answer<'static>, AllocError>
    ensures { IfOk result (PrintsFound (dump_of dump.entry) files.now) }
{
    let mut text = Vec::new(alloc);
    let mut are_there = true;
    for file in files {
        let is_there = look_for(alloc, dump, file, &mut text)?;
        are_there &= is_there;
    }
    let status = if are_there { 0 } else { 1 };
    Ok(Answer::prints(text, status))
}

/// Appends the lines of what is found of a file in `dump`. Returns whether no module of an object file is missing, which is true of every
/// library.
fn look_for(
    alloc: Global,
    dump: Dump<'_>,
    file: &LinkFile,
    text: &mut Vec<u8>,
) -> Result<bool, AllocError>
    ensures { IfOk result (λ are_there. PrintsFile (dump_of dump.entry) file.now are_there text.old.items text.new.items) }
{
    match file {
        LinkFile::Modules(modules) => append_modules(alloc, dump, modules, text),
        LinkFile::Library(library) => {
            append_members(alloc, dump, &library.modules, text)?;
            Ok(true)
        }
    }
}
