//! `plm80 extract`: the bytes of an image's memory over a range, as they are.

ghost use Rattle.std.specs.Prelude.{◌≡◌, ◌+◌, ◌<◌, ◌↔◌, ◌∷◌, [], if◌then◌else◌, IfErr, IfOk, IsErrOf, OnErr, codes};
ghost use Rattle.rom80.specs.Rom.{bytes_over, sum_line};
ghost use Rattle.plm80_console.specs.{Answer.Gives, Answer.GivesUp, Answer.writes, Journal.Blames, Journal.and_blamed};
ghost use Rattle.plm80_objects.specs.{Arguments.AreExtractArguments, Arguments.HasNoExtent, Arguments.IsExtentOf, Arguments.fill_text, Absolute.ExtractsFile};

use crate::helpers::byte_words::explain_bytes;
use crate::helpers::decimal_words::DecimalWords;
use crate::helpers::extent_words::explain_extent;
use clap::ArgMatches;
use image80::Image;
use plm80_console::{Answer, Argument, Console, Kind, OptionText, Reported, Syntax, argument_text};
use plm80_files::{IMAGE, image_of};
use rom80::{RomFault, bytes_over, no_regions, sum_text};
use std::alloc::{AllocError, Global};

/// The arguments of the command `extract`.
#[derive(Clone, Copy)]
pub struct ExtractArguments<'a> {
    image: &'a str,
    out: &'a str,
    first: OptionText<'a>,
    length: OptionText<'a>,
    fill: OptionText<'a>,
    sum: bool,
}

const ABOUT: &str = "Writes the raw bytes of an image over a range";

const AFTER_HELP: &str = "\
OUT gets LENGTH bytes from address FIRST on, and nothing else, as a PROM
programmer takes them. Where the image has none it gets FILL, such as FF for an
erased PROM. FIRST is one to four hexadecimal digits, LENGTH one to five, so
that 10000 is all of memory, and FILL two, in either case, without h or 0x. The
range ends at FFFF at the latest. --sum prints SUM and the sum of the bytes
modulo 65536, as SUM 1A2B.

Example: plm80 extract readings.img readings.bin --first 3000 --length 0800 \\
             --fill FF

Faults and what to do: docs/FAULTS.md (installed: share/doc/plm80), man plm80.";

/// The command `extract`: its name, its help and its arguments.
pub const EXTRACT: Syntax<'static> = Syntax {
    name: "extract",
    about: ABOUT,
    after_help: AFTER_HELP,
    arguments: &[
        IMAGE,
        Argument {
            name: "OUT",
            kind: Kind::Written,
            help: "The file to write the bytes to",
        },
        FIRST,
        Argument {
            name: "length",
            kind: Kind::Required("LENGTH"),
            help: "The number of bytes",
        },
        FILL,
        Argument {
            name: "sum",
            kind: Kind::Flag,
            help: "Print the sum of the bytes",
        },
    ],
};

/// The option `--first`: the address of the first byte of a file.
pub const FIRST: Argument<'static> = Argument {
    name: "first",
    kind: Kind::Required("FIRST"),
    help: "The address of the first byte",
};

/// The option `--fill`: the byte that stands where an image has none.
pub const FILL: Argument<'static> = Argument {
    name: "fill",
    kind: Kind::Number("FILL"),
    help: "The byte to take where the image has none [default: 00]",
};

impl<'a> ExtractArguments<'a> {
    /// Takes the arguments of `extract` from what clap has matched.
    pub fn of(matches: &ArgMatches<'a>) -> ExtractArguments<'a>
        ensures { AreExtractArguments matches.now result }
    {
        ExtractArguments {
            image: argument_text(matches, "IMAGE"),
            out: argument_text(matches, "OUT"),
            first: OptionText::of(matches, "first"),
            length: OptionText::of(matches, "length"),
            fill: fill_of(matches),
            sum: matches.get_flag("sum"),
        }
    }
}

/// The text of the option `--fill`, the byte that stands where an image has none.
pub fn fill_of<'a>(matches: &ArgMatches<'a>) -> OptionText<'a>
    ensures name { result.name.now ≡ codes "fill" }
    ensures text { result.text.now ≡ fill_text matches.now }
{
    OptionText::or(matches, FILL.name, "00")
}

/// The numbers of the options of `extract`: the first address, how many bytes, and the byte that stands where the image has none.
#[derive(Clone, Copy)]
pub(crate) struct Extent {
    pub(crate) first: u16,
    pub(crate) length: u32,
    pub(crate) fill: u8,
}

/// Does `extract`: writes the bytes of the image over the range to their file, prints the line of their sum if it is asked for, and returns
/// the exit status. No file is created or changed before every other fault is excluded.
pub fn extract_file<C: Console>(
    console: &mut C,
    arguments: ExtractArguments<'_>,
) -> Result<u8, Reported>
    ensures done { IfOk result (Gives (ExtractsFile arguments.entry) (arguments.entry.image.now ∷ [])
        (C.journal console.old) (C.journal console.new)) }
    ensures fault { IfErr result (λ _. GivesUp (ExtractsFile arguments.entry) (arguments.entry.image.now ∷ [])
        (C.journal console.old) (C.journal console.new)) }
{
    let extent = extent_of(console, arguments)?;
    let file = console.read_file(arguments.image)?;
    let none = no_regions(console.alloc());
    let image = image_of(console, file.path, &file.bytes, none)?;
    match extract_bytes(console.alloc(), arguments, extent, &image) {
        Ok(answer) => {
            let given = console.give(answer);
            if given.is_ok() {
                let first = arguments.first.text();
                explain_bytes(console, arguments.image, arguments.out, first, "");
                explain_extent(console, &image, extent);
                console.explain_any(DecimalWords::of(arguments.length));
            }
            given
        }
        Err(fault) => Err(report_range(console, fault)),
    }
}

/// Reports why there are no bytes of the range that the options give: that it goes past FFFF, or that memory ran out.
fn report_range<C: Console>(console: &mut C, fault: RomFault) -> Reported
    ensures { Blames (fault ≡ RomFault.PastMemory) (C.journal console.old) (C.journal console.new) }
{
    if let RomFault::PastMemory = fault {
        let reported = console.blame(fault);
        console.explain("--first and --length go past FFFF: 10000 is all of memory from 0 on");
        return reported;
    }
    console.report_memory()
}

/// The numbers that the options of `extract` write. Reports the first text that is no number.
fn extent_of<C: Console>(
    console: &mut C,
    arguments: ExtractArguments<'_>,
) -> Result<Extent, Reported>
    ensures extent { IfOk result (IsExtentOf arguments.entry) }
    ensures unchanged { IfOk result (λ _. C.journal console.new ≡ C.journal console.old) }
    ensures wrong { OnErr result (HasNoExtent arguments.entry) }
    ensures failed { IfErr result (λ _. C.journal console.new ≡ and_blamed (C.journal console.old)) }
{
    Ok(Extent {
        first: arguments.first.word(console)?,
        length: arguments.length.length(console)?,
        fill: arguments.fill.byte(console)?,
    })
}

/// What `extract` answers: the bytes of `image` over the range go to their file, and the line of their sum is printed if it is asked for.
/// `PastMemory` exactly if the range goes past FFFF.
fn extract_bytes<'a>(
    alloc: Global,
    arguments: ExtractArguments<'a>,
    extent: Extent,
    image: &Image,
) -> Result<Answer<'a>, RomFault>
    ensures answer { let bytes = bytes_over extent.fill image.now.chunks extent.first extent.length in
        IfOk result (λ answer. answer ≡ writes arguments.entry.out.now bytes (if arguments.entry.sum then sum_line bytes else [])) }
    ensures past { IsErrOf result RomFault.PastMemory ↔ (65536 < extent.first + extent.length) }
{
    let bytes = bytes_over(alloc, image, extent.first, extent.length, extent.fill)?;
    let lines = sum_of(alloc, arguments.sum, &bytes)?;
    Ok(Answer::writes(arguments.out, bytes, lines))
}

/// The line of the sum of `bytes`, or no line if it isn't asked for.
fn sum_of(alloc: Global, asked: bool, bytes: &[u8]) -> Result<Vec<u8>, AllocError>
    ensures { IfOk result (λ lines. lines.items ≡ (if asked then sum_line bytes.now else [])) }
{
    if asked {
        sum_text(alloc, bytes)
    } else {
        Ok(Vec::new(alloc))
    }
}
