//! `plm80 compare`: where an image and a dump differ.

ghost use Rattle.std.specs.Prelude.{◌≡◌, ◌∷◌, [], codes, length, IfOk, IfErr, OnOk};
ghost use Rattle.image80_text.specs.NameText.{named_text};
ghost use Rattle.rom80.specs.{Ranges.byte_ranges, Rom.bytes_over};
ghost use Rattle.plm80_console.specs.{Answer.Gives, Answer.GivesUp, Journal.Blames};
ghost use Rattle.plm80_objects.specs.Compare.{ComparesBytes, ComparesFiles, ComparesNone, IsDump, PrintsDifferences};
ghost use Rattle.plm80_objects.specs.{Arguments.AreCompareArguments, RomFaults.IsRefused};

use crate::extract::{FILL, FIRST, fill_of};
use crate::helpers::byte_words::explain_bytes;
use crate::helpers::other_words::explain_dump;
use crate::helpers::rom_faults::blame_rom_fault;
use clap::ArgMatches;
use image80::Image;
use plm80_console::{
    Answer, Argument, Console, FaultOf, Kind, OptionText, ReadFile, Reported, Syntax, argument_text,
};
use plm80_files::{IMAGE, image_of};
use plm80_names::{NAMES, Names, explain_given};
use rom80::{RomFault, byte_ranges, compare, no_regions};
use std::alloc::{AllocError, Global};

/// The arguments of the command `compare`.
#[derive(Clone, Copy)]
pub struct CompareArguments<'a> {
    image: &'a str,
    dump: &'a str,
    first: OptionText<'a>,
    fill: OptionText<'a>,
    names: bool,
}

const ABOUT: &str = "Prints where an image and a dump of a PROM differ";

const AFTER_HELP: &str = "\
DUMP has the bytes from address FIRST on. Each range of addresses at which the
image has other bytes is a line: its first address, its length, and up to eight
bytes of the image and of the dump, as in DIFFERS 0123 0002 3E05 3E07, all in
hexadecimal. The last line counts the bytes that are the same, as in SAME 2046
OF 2048. Where the image has no byte, FILL is compared: two hexadecimal digits.

--names prints a name behind a range: the nearest public at or below its first
address, as check does, if the image has all bytes between them.

The exit status is 0 if all bytes are the same, 1 if some differ.

Example: plm80 compare readings.img readings.bin --first 3000 --fill FF

Faults and what to do: docs/FAULTS.md (installed: share/doc/plm80), man plm80.";

/// The command `compare`: its name, its help and its arguments.
pub const COMPARE: Syntax<'static> = Syntax {
    name: "compare",
    about: ABOUT,
    after_help: AFTER_HELP,
    arguments: &[
        IMAGE,
        Argument {
            name: "DUMP",
            kind: Kind::Path,
            help: "The bytes that were read from a PROM",
        },
        FIRST,
        FILL,
        NAMES,
    ],
};

impl<'a> CompareArguments<'a> {
    /// Takes the arguments of `compare` from what clap has matched.
    pub fn of(matches: &ArgMatches<'a>) -> CompareArguments<'a>
        ensures { AreCompareArguments matches.now result }
    {
        CompareArguments {
            image: argument_text(matches, "IMAGE"),
            dump: argument_text(matches, "DUMP"),
            first: OptionText::of(matches, "first"),
            fill: fill_of(matches),
            names: matches.get_flag(NAMES.name),
        }
    }
}

/// Does `compare`: prints where the image and the dump differ, and returns the exit status, 1 if they do. Both files are read before either
/// is checked. Behind all it says what the dump seems to be, if words are asked for.
pub fn compare_files<C: Console>(
    console: &mut C,
    arguments: CompareArguments<'_>,
) -> Result<u8, Reported>
    ensures done { IfOk result (Gives (ComparesFiles arguments.entry) (arguments.entry.image.now ∷ arguments.entry.dump.now ∷ [])
        (C.journal console.old) (C.journal console.new)) }
    ensures fault { IfErr result (λ _. GivesUp (ComparesFiles arguments.entry) (arguments.entry.image.now ∷ arguments.entry.dump.now ∷ [])
        (C.journal console.old) (C.journal console.new)) }
{
    let done = print_differences(console, arguments);
    if let Ok(1) = done {
        let (first, fill) = (arguments.first.text(), arguments.fill.text());
        explain_bytes(console, arguments.image, arguments.dump, first, fill);
    }
    explain_given(console, &done, arguments.names, arguments.image, None);
    explain_dump(console, arguments.dump);
    done
}

/// Reads an image and a dump, prints where they differ, and returns the exit status, 1 if they do. Nothing is said of what the dump seems
/// to be.
fn print_differences<C: Console>(
    console: &mut C,
    arguments: CompareArguments<'_>,
) -> Result<u8, Reported>
    ensures done { IfOk result (Gives (ComparesFiles arguments.entry) (arguments.entry.image.now ∷ arguments.entry.dump.now ∷ [])
        (C.journal console.old) (C.journal console.new)) }
    ensures fault { IfErr result (λ _. GivesUp (ComparesFiles arguments.entry) (arguments.entry.image.now ∷ arguments.entry.dump.now ∷ [])
        (C.journal console.old) (C.journal console.new)) }
{
    let first = arguments.first.word(console)?;
    let fill = arguments.fill.byte(console)?;
    let file = console.read_file(arguments.image)?;
    let dump = console.read_file(arguments.dump)?;
    let answer = compare_read(console, arguments.names, &file, first, &dump, fill)?;
    console.give(answer)
}

/// What `compare` answers to the files of an image and of a dump, as [`compare_dump`] does; with names if they are asked for. Reports the
/// fault of either file.
fn compare_read<C: Console>(
    console: &mut C,
    asks_names: bool,
    file: &ReadFile<'_>,
    first: u16,
    dump: &ReadFile<'_>,
    fill: u8,
) -> Result<Answer<'static>, Reported>
    ensures compared { IfOk result (ComparesBytes asks_names file.now.bytes.items first dump.now.bytes.items fill) }
    ensures unchanged { IfOk result (λ _. C.journal console.new ≡ C.journal console.old) }
    ensures fault { IfErr result (λ _. Blames (ComparesNone asks_names file.now.bytes.items first dump.now.bytes.items fill)
        (C.journal console.old) (C.journal console.new)) }
{
    let none = no_regions(console.alloc());
    let image = image_of(console, file.path, &file.bytes, none)?;
    let names = Names::of(console, asks_names, file.path, &file.bytes)?;
    match compare_dump(console.alloc(), &image, &names, first, dump, fill) {
        Ok(answer) => Ok(answer),
        Err(fault) => Err(blame_rom_fault(console, fault)),
    }
}

/// What `compare` answers: the lines of where `image` and the dump from the address `first` on differ, and the status. Where the image has
/// no byte, `fill` is compared. The fault has the dump's path: no bytes, bytes past FFFF, or out of memory.
fn compare_dump<'a>(
    alloc: Global,
    image: &Image,
    names: &Names,
    first: u16,
    dump: &ReadFile<'a>,
    fill: u8,
) -> Result<Answer<'static>, FaultOf<'a, RomFault>>
    ensures answer { let bytes = dump.now.bytes.items in IfOk result
        (PrintsDifferences image.now.chunks (bytes_over fill image.now.chunks first (length bytes)) bytes first names.now) }
    ensures whole { OnOk result (IsDump first dump.now.bytes.items) }
    ensures fault { IfErr result (λ f. (f.path.now ≡ dump.now.path.now) × IsRefused first dump.now.bytes.items f.fault) }
{
    let comparison = match compare(alloc, image, first, &dump.bytes, fill) {
        Ok(comparison) => comparison,
        Err(fault) => return Err(dump.fault(fault)),
    };
    let status = if comparison.ranges.is_empty() { 0 } else { 1 };
    match with_names(alloc, image, names, comparison.text) {
        Ok(text) => Ok(Answer::prints(text, status)),
        Err(_) => Err(dump.fault(RomFault::Memory)),
    }
}

/// The lines of a comparison with `image`, each with the name of its first address behind it, if `names` has one for it.
fn with_names(
    alloc: Global,
    image: &Image,
    names: &Names,
    text: Vec<u8>,
) -> Result<Vec<u8>, AllocError>
    ensures { IfOk result (λ named. named.items ≡ named_text (byte_ranges image.now.chunks) names.now (codes "DIFFERS ") text.items) }
{
    let ranges = byte_ranges(alloc, image)?;
    names.name(alloc, &ranges, b"DIFFERS ", text)
}
