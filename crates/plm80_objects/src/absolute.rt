//! `plm80 absolute`: the image of bytes as they are.

ghost use Rattle.std.specs.Prelude.{◌≡◌, ◌||◌, ◌++◌, ◌∷◌, ℕ, [], length, IfOk, IfErr, OnErr, OnOk};
ghost use Rattle.rom80.specs.Rom.{ShareAnAddress, chunks_of, is_among, is_covered};
ghost use Rattle.plm80_console.specs.Journal.{Blames, OnlyBlames, and_blamed, and_reported};
ghost use Rattle.plm80_objects.specs.Absolute.{AreRomFiles, GivesDumps, GivesUpDumps, IsRomFile, WritesImage};
ghost use Rattle.plm80_objects.specs.{Arguments.AreAbsoluteArguments, Compare.IsDump, Wrong.HaveNoDumps, Wrong.WriteNoDumps};
ghost use Rattle.plm80_objects.specs.RomFaults.{AreDumpsRead, IsRefusedWith, rom_paths};

use crate::extract::FIRST;
use crate::helpers::other_words::explain_dump;
use crate::helpers::rom_faults::blame_rom_fault;
use clap::ArgMatches;
use image80_file::write_image;
use omf_core::Name;
use plm80_console::{
    Answer, Argument, Console, FaultOf, Kind, OptionText, ReadFile, Reported, Syntax,
    argument_text, argument_values, word_of_digits,
};
use rom80::{Dumps, RomFault};
use std::alloc::{AllocError, Global};

/// The arguments of the command `absolute`.
#[derive(Drop)]
pub struct AbsoluteArguments<'a> {
    bytes: &'a str,
    image: &'a str,
    first: OptionText<'a>,
    start: OptionText<'a>,
    name: OptionText<'a>,
    /// Further dumps, each as `hhhh=FILE`: the address of the first byte in hexadecimal, and the path.
    further: Vec<&'a str>,
}

const ABOUT: &str = "Writes an image of raw bytes, such as a PROM's";

const AFTER_HELP: &str = "\
BIN has the bytes from address FIRST on, up to FFFF at most, and nothing else.
Each --rom names another PROM by its address, an equals sign and its file, as
--rom 1000=high.bin; no two may share an address. Addresses are one to four
hexadecimal digits in either case, without h or 0x. suggest prints regions of
the image to begin with, as docs/FIRMWARE.md shows in 'Absolute firmware'.

Example: plm80 absolute meter.rom old.img --first 0 --start 40 --name OLD

Faults and what to do: docs/FAULTS.md (installed: share/doc/plm80), man plm80.";

/// The name of the option `--rom`, for further dumps.
const FURTHER: &str = "rom";

/// The command `absolute`: its name, its help and its arguments.
pub const ABSOLUTE: Syntax<'static> = Syntax {
    name: "absolute",
    about: ABOUT,
    after_help: AFTER_HELP,
    arguments: &[
        Argument {
            name: "BIN",
            kind: Kind::Path,
            help: "The bytes to read",
        },
        Argument {
            name: "IMAGE",
            kind: Kind::Written,
            help: "The file to write the image to, an absolute object file",
        },
        FIRST,
        Argument {
            name: "start",
            kind: Kind::Required("START"),
            help: "The address where the program starts",
        },
        Argument {
            name: "name",
            kind: Kind::Required("NAME"),
            help: "The name of the image's module",
        },
        Argument {
            name: FURTHER,
            kind: Kind::PathsAt("ADDRESS=FILE"),
            help: "Another file of bytes, and the address of the first",
        },
    ],
};

impl<'a> AbsoluteArguments<'a> {
    /// Takes the arguments of `absolute` from what clap has matched. `AllocError` if memory runs out.
    pub fn of(alloc: Global, matches: &ArgMatches<'a>) -> Result<AbsoluteArguments<'a>, AllocError>
        ensures { IfOk result (AreAbsoluteArguments matches.now) }
    {
        Ok(AbsoluteArguments {
            bytes: argument_text(matches, "BIN"),
            image: argument_text(matches, "IMAGE"),
            first: OptionText::of(matches, "first"),
            start: OptionText::of(matches, "start"),
            name: OptionText::of(matches, "name"),
            further: argument_values(alloc, matches, FURTHER)?,
        })
    }
}

/// A dump on the command line: the path of its file, and the address of its first byte.
#[derive(Clone, Copy)]
struct RomFile<'a> {
    first: u16,
    path: &'a str,
}

/// Does `absolute`: writes the image of the dumps' bytes to its file, and returns the exit status. No file is created or changed before
/// every other fault is excluded. Behind all it says what the dumps seem to be, if words are asked for.
pub fn write_absolute<C: Console>(
    console: &mut C,
    arguments: &AbsoluteArguments<'_>,
) -> Result<u8, Reported>
    ensures done { IfOk result (GivesDumps arguments.now (C.journal console.old) (C.journal console.new)) }
    ensures fault { IfErr result (λ _. GivesUpDumps arguments.now (C.journal console.old) (C.journal console.new)) }
{
    let done = write_dumps(console, arguments);
    explain_dump(console, arguments.bytes);
    for further in &arguments.further {
        if let Some((_, path)) = further.split_once('=') {
            explain_dump(console, path);
        }
    }
    done
}

/// Reads the dumps of `absolute`, writes their image, and returns the exit status. Nothing is said of what the dumps seem to be.
fn write_dumps<C: Console>(
    console: &mut C,
    arguments: &AbsoluteArguments<'_>,
) -> Result<u8, Reported>
    ensures done { IfOk result (GivesDumps arguments.now (C.journal console.old) (C.journal console.new)) }
    ensures fault { IfErr result (λ _. GivesUpDumps arguments.now (C.journal console.old) (C.journal console.new)) }
{
    let start = arguments.start.word(console)?;
    let files = files_of(console, arguments)?;
    let name = arguments.name.module_name(console)?;
    let (dumps, has_start) = read_dumps(console, &files, start)?;
    let answer = answer(console.alloc(), arguments.image, dumps, name, start);
    let given = console.give_if_made(answer);
    if given.is_ok() && !has_start {
        console.explain(format_args!("no byte is at the start, {start:04X}"));
    }
    given
}

/// The dumps on the command line of `absolute`, in order: the first one, then that of each `--rom`. Reports the first text that is none,
/// and opens no file.
fn files_of<'a, C: Console>(
    console: &mut C,
    arguments: &AbsoluteArguments<'a>,
) -> Result<Vec<RomFile<'a>>, Reported>
    ensures files { let asked = arguments.now in
        IfOk result (λ files. AreRomFiles asked.bytes.now asked.first.text.now asked.further.items files.items) }
    ensures unchanged { IfOk result (λ _. C.journal console.new ≡ C.journal console.old) }
    ensures fault { IfErr result (λ _. Blames (WriteNoDumps arguments.now) (C.journal console.old) (C.journal console.new)) }
{
    let first = RomFile {
        first: arguments.first.word(console)?,
        path: arguments.bytes,
    };
    let mut files = Vec::new(console.alloc());
    add_file(console, &mut files, first)?;
    for further in &arguments.further {
        let file = file_of(console, further)?;
        add_file(console, &mut files, file)?;
    }
    Ok(files)
}

/// Appends a dump to `files`, or reports that memory ran out.
fn add_file<'a, C: Console>(
    console: &mut C,
    files: &mut Vec<RomFile<'a>>,
    file: RomFile<'a>,
) -> Result<(), Reported>
    ensures added { OnOk result (files.new.items ≡ files.old.items ++ file.entry ∷ []) }
    ensures unchanged { IfOk result (λ _. C.journal console.new ≡ C.journal console.old) }
    ensures fault { IfErr result (λ _. C.journal console.new ≡ and_reported (C.journal console.old)) }
{
    match files.push(file) {
        Ok(()) => Ok(()),
        Err(_) => Err(console.report_memory()),
    }
}

/// The address and the path of a `--rom` such as `1000=high.bin`. Reports a text without an equals sign, or without an address of one to
/// four hexadecimal digits before it.
fn file_of<'a, C: Console>(console: &mut C, text: &'a str) -> Result<RomFile<'a>, Reported>
    ensures file { IfOk result (IsRomFile text.now) }
    ensures wrong { OnErr result ((file : RomFile) → IsRomFile text.now file → ⊥) }
    ensures unchanged { IfOk result (λ _. C.journal console.new ≡ C.journal console.old) }
    ensures failed { IfErr result (λ _. C.journal console.new ≡ and_blamed (C.journal console.old)) }
{
    let option = OptionText::new(FURTHER, text);
    let Some((first, path)) = text.split_once('=') else {
        return Err(option.blame_number(console, "an address, an equals sign and a file"));
    };
    match word_of_digits(first) {
        Some(first) => Ok(RomFile { first, path }),
        None => Err(option.blame_number(console, "an address of one to four hexadecimal digits")),
    }
}

/// Reads the files of dumps, in order, and returns their bytes at their addresses, and whether there is one at `start`. Each file is
/// checked before the next one is opened, and the first fault is reported.
fn read_dumps<C: Console>(
    console: &mut C,
    files: &[RomFile<'_>],
    start: u16,
) -> Result<(Dumps, bool), Reported>
    ensures dumps { IfOk result (λ read. AreDumpsRead files.now (C.journal console.old) (C.journal console.new) read.0) }
    ensures start { IfOk result (λ read. read.1 ≡ is_covered read.0 start) }
    ensures fault { IfErr result (λ _. OnlyBlames (HaveNoDumps files.now) (rom_paths files.now) (C.journal console.old) (C.journal console.new)) }
{
    let mut dumps = Dumps::new(console.alloc());
    let mut has_start = false;
    for rom in files {
        let file = console.read_file(rom.path)?;
        has_start |= has_byte(rom.first, file.bytes.len(), start);
        match add_dump(console.alloc(), &mut dumps, rom.first, &file) {
            Ok(()) => {}
            Err(fault) => return Err(blame_rom_fault(console, fault)),
        }
    }
    Ok((dumps, has_start))
}

/// Whether `count` bytes from the address `first` on include the one at `address`.
fn has_byte(first: u16, count: usize, address: u16) -> bool
    ensures { result ≡ is_among first count address }
{
    match address.checked_sub(first) {
        Some(offset) => usize::from(offset) < count,
        None => false,
    }
}

/// Adds the bytes of a file, from the address `first` on, to `dumps`. The fault, with the file's path, is that there are no bytes, that
/// they go past FFFF, that another dump has one of their addresses, or that memory ran out.
fn add_dump<'a>(
    alloc: Global,
    dumps: &mut Dumps,
    first: u16,
    file: &ReadFile<'a>,
) -> Result<(), FaultOf<'a, RomFault>>
    ensures added { OnOk result (dumps.new ≡ dumps.old ++ chunks_of first file.now.bytes.items) }
    ensures covered { OnOk result ((address : ℕ) → is_covered dumps.new address
        ≡ (is_covered dumps.old address || is_among first (length file.now.bytes.items) address)) }
    ensures whole { OnOk result (IsDump first file.now.bytes.items) }
    ensures apart { OnOk result (ShareAnAddress dumps.old first (length file.now.bytes.items) → ⊥) }
    ensures fault { IfErr result (λ f. (f.path.now ≡ file.now.path.now) × IsRefusedWith dumps.old first file.now.bytes.items f.fault) }
{
    match dumps.add(alloc, first, &file.bytes) {
        Ok(()) => Ok(()),
        Err(fault) => Err(file.fault(fault)),
    }
}

/// What `absolute` answers: the image of `dumps`, with this name and this start, goes to the file `path`, and nothing is printed.
fn answer<'a>(
    alloc: Global,
    path: &'a str,
    dumps: Dumps,
    name: Name,
    start: u16,
) -> Result<Answer<'a>, AllocError>
    ensures { IfOk result (WritesImage path.now name dumps start) }
{
    let image = dumps.into_image(alloc, name, start);
    let mut file = Vec::new(alloc);
    write_image(alloc, &image, &mut file)?;
    Ok(Answer::writes(path, file, Vec::new(alloc)))
}
