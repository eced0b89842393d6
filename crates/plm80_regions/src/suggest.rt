//! `plm80 suggest`: the regions that an image's bytes suggest.

ghost use Rattle.std.specs.Prelude.{◌≡◌, ◌≤◌, ◌∷◌, ◌++◌, [], All, length, map, IfErr, IfOk, List, OnOk, ℕ};
ghost use Rattle.image80.specs.Case.{AreByAddress, IsCase};
ghost use Rattle.stream80.specs.WholeText.{text_limit};
ghost use Rattle.verify80_suggest.specs.Known.{Fits};
ghost use Rattle.image80.specs.RegionsText.{regions_text};
ghost use Rattle.image80_file.specs.ImageFile.{SpellsImage, without_regions};
ghost use Rattle.plm80_console.specs.{Answer.GaveUp, Answer.Gives, Answer.GivesUp, Answer.IsGiven, Answer.prints, Journal.Blames, Journal.OnlyBlames, Journal.and_read};
ghost use Rattle.plm80_files.specs.Wrong.{HaveNoImage};
ghost use Rattle.plm80_boards.specs.Boards.{WithBoard, board_paths};
ghost use Rattle.plm80_regions.specs.Suggest.{AdvisesRegions, AnswersAdvice, AreOptions, AreSuggestArguments, HaveNoOptions, IsUnfit, advice_fault, stack_words};
ghost use Rattle.plm80_regions.specs.Cases.{notes_status};

use crate::case_texts::cases_of;
use crate::cases::{kept_cases, notes_status, remark_notes};
use clap::ArgMatches;
use image80::{Case, Image, Range, Regions, write_regions};
use image80_file::laws::one_image_reading;
use loader80::TEXT_LIMIT;
use loader80_text::LengthFault;
use plm80_boards::{BOARD, GivenBoard, board_path};
use plm80_console::{
    Answer, Argument, Console, Kind, Lack, RangeTexts, Reported, Syntax, argument_text,
    argument_values, explain_board, words_of,
};
use plm80_files::{IMAGE, image_of};
use std::alloc::{AllocError, Global};
use thiserror::Error;
use verify80_cases::Note;
use verify80_suggest::{
    Advice, Known, KnownFault, Setter, base_regions, find_fault, suggest_regions,
};

/// The arguments of the command `suggest`.
#[derive(Drop)]
pub struct SuggestArguments<'a> {
    image: &'a str,
    /// Ranges of the ROM, each as `ffff:llll`: the first address and the length in hexadecimal.
    rom: Vec<&'a str>,
    /// Ranges of the RAM, each as `ffff:llll`: the first address and the length in hexadecimal.
    ram: Vec<&'a str>,
    /// The path of the board's text.
    board: Option<&'a str>,
    /// Addresses at which code begins, too, in hexadecimal.
    entries: Vec<&'a str>,
    /// Targets of PCHLs, each as `aaaa=tttt,tttt`: the address of a PCHL and its targets in hexadecimal.
    cases: Vec<&'a str>,
}

const AFTER_HELP: &str = "\
It prints a regions text to begin with. CODE has the instructions that the
program may reach from its start, also after each call and through the jump
tables that cases sees, and the entries of these tables outside --ram-range; all
within the --rom-range options, if any. STACK has 16 bytes below the address of
LXI SP, or what the program needs, as far as they are free. DATA has what STA,
LDA, SHLD and LHLD name outside CODE, STACK and the image's bytes; or the
--ram-range options but for CODE and STACK, since no instruction says how long
an array is. FIRST:LENGTH is a first address and a number of bytes, as extract
takes them by --first and --length: one to four hexadecimal digits each, in
either case, without h or 0x. A range ends at or below FFFF.

--entry names code to which nothing leads: an interrupt's handler, or a routine
to which a pushed address or a monitor goes. --case names the targets of a PCHL
that has no table, the PCHL's address before them; that is an entry, too. What
is reached from there is CODE, and what it names DATA. All these options may be
given more than once.

--board takes a board's text (docs/FORMATS.md, 'Boards') in place of the ranges:
its ROM lines, and as RAM its RAM and DEVICE lines. Its interrupts are entries.

Then check the image. The status is 1 if a PCHL has no table.

Example: plm80 suggest clock.img --ram-range 2000:0100 --entry 0038

Faults and what to do: docs/FAULTS.md (installed: share/doc/plm80), man plm80.";

/// The name of the option `--rom-range`, for ranges of ROM.
const ROM: &str = "rom-range";

/// The name of the option `--ram-range`, for ranges of RAM.
const RAM: &str = "ram-range";

/// The name of the option `--entry`, for addresses at which code begins.
const ENTRY: &str = "entry";

/// The name of the option `--case`, for targets of PCHLs.
const CASE: &str = "case";

/// The command `suggest`: its name, its help and its arguments.
pub const SUGGEST: Syntax<'static> = Syntax {
    name: "suggest",
    about: "Prints the regions that an image's bytes suggest",
    after_help: AFTER_HELP,
    arguments: &[
        IMAGE,
        Argument {
            name: ROM,
            kind: Kind::PathsAt("FIRST:LENGTH"),
            help: "Addresses in which all code lies",
        },
        Argument {
            name: RAM,
            kind: Kind::PathsAt("FIRST:LENGTH"),
            help: "Addresses that are data, but for code and stack",
        },
        Argument {
            name: BOARD,
            kind: Kind::PathInPlaceOf(&[ROM, RAM]),
            help: "The board's text, in place of both",
        },
        Argument {
            name: ENTRY,
            kind: Kind::PathsAt("ADDRESS"),
            help: "Code begins here, too, as that of a handler",
        },
        Argument {
            name: CASE,
            kind: Kind::PathsAt("ADDRESS=TARGETS"),
            help: "The PCHL at this address goes to these targets",
        },
    ],
};

impl<'a> SuggestArguments<'a> {
    /// Takes the arguments of `suggest` from what clap has matched. `AllocError` if memory runs out.
    pub fn of(alloc: Global, matches: &ArgMatches<'a>) -> Result<SuggestArguments<'a>, AllocError>
        ensures { IfOk result (AreSuggestArguments matches.now) }
    {
        Ok(SuggestArguments {
            image: argument_text(matches, "IMAGE"),
            rom: argument_values(alloc, matches, "rom-range")?,
            ram: argument_values(alloc, matches, "ram-range")?,
            board: board_path(matches),
            entries: argument_values(alloc, matches, "entry")?,
            cases: argument_values(alloc, matches, "case")?,
        })
    }
}

/// Does `suggest`: prints the regions that the image suggests, says what is uncertain of them, and returns the exit status, 1 if no table
/// is seen for a PCHL.
pub fn advise_file<C: Console>(
    console: &mut C,
    arguments: &SuggestArguments<'_>,
) -> Result<u8, Reported>
    ensures done { let asked = arguments.now in IfOk result (Gives (WithBoard asked.board (AnswersAdvice asked))
        (board_paths asked.board ++ asked.image.now ∷ []) (C.journal console.old) (C.journal console.new)) }
    ensures fault { let asked = arguments.now in IfErr result (λ _. GivesUp (WithBoard asked.board (AnswersAdvice asked))
        (board_paths asked.board ++ asked.image.now ∷ []) (C.journal console.old) (C.journal console.new)) }
{
    let given = GivenBoard::read(console, arguments.board)?;
    advise_on_board(console, arguments, &given)
}

/// Does `suggest` for the board, if one is given.
fn advise_on_board<C: Console>(
    console: &mut C,
    arguments: &SuggestArguments<'_>,
    given: &GivenBoard,
) -> Result<u8, Reported>
    ensures done { let asked = arguments.now in IfOk result (Gives (AnswersAdvice asked given.now.board) (asked.image.now ∷ [])
        (C.journal console.old) (C.journal console.new)) }
    ensures fault { let asked = arguments.now in IfErr result (λ _. GivesUp (AnswersAdvice asked given.now.board) (asked.image.now ∷ [])
        (C.journal console.old) (C.journal console.new)) }
{
    one_image_reading();
    let options = options_of(console, arguments, given)?;
    let known = options.known();
    let mut image = bare_image(console, arguments.image)?;
    explain_ranges(console, arguments, image.start, known.rom);
    match advise(console.alloc(), &mut image, known) {
        Ok(printed) => {
            explain_stack(console, arguments, image.regions.stack(), known.ram);
            print_advice(console, printed)
        }
        Err(fault) => Err(report_advice_fault(console, fault)),
    }
}

/// What the options, or the board, say of an image.
#[derive(Drop)]
struct Options {
    rom: Vec<Range>,
    ram: Vec<Range>,
    entries: Vec<u16>,
    cases: Vec<Case>,
}

impl Options {
    /// The options as what is known of an image.
    fn known(&self) -> Known<'_>
        ensures rom { result.rom.now ≡ self.now.rom.items }
        ensures ram { result.ram.now ≡ self.now.ram.items }
        ensures entries { result.entries.now ≡ self.now.entries.items }
        ensures cases { result.cases.now ≡ self.now.cases.items }
    {
        Known {
            rom: &self.rom,
            ram: &self.ram,
            entries: &self.entries,
            cases: &self.cases,
        }
    }
}

/// What the options in `arguments` and the board say. `BadNumber` is reported of an option that has another form, `CaseTwice` if two cases
/// have one address.
fn options_of<C: Console>(
    console: &mut C,
    arguments: &SuggestArguments<'_>,
    given: &GivenBoard,
) -> Result<Options, Reported>
    ensures options { IfOk result (λ options. AreOptions arguments.now given.now.board options.rom.items options.ram.items options.entries.items options.cases.items) }
    ensures unchanged { IfOk result (λ _. C.journal console.new ≡ C.journal console.old) }
    ensures fault { IfErr result (λ _. Blames (HaveNoOptions arguments.now given.now.board) (C.journal console.old) (C.journal console.new)) }
{
    let rom = given.rom(console, ROM, &arguments.rom)?;
    let ram = given.data(console, RAM, &arguments.ram)?;
    let cases = cases_of(console, CASE, &arguments.cases)?;
    let interrupts = given.interrupts(console, ENTRY, &[])?;
    let mut entries = words_of(console, ENTRY, &arguments.entries)?;
    if add_entries(&mut entries, &interrupts, &cases).is_err() {
        return Err(console.report_memory());
    }
    Ok(Options {
        rom,
        ram,
        entries,
        cases,
    })
}

/// Appends the addresses of interrupts, and then that of each case.
fn add_entries(entries: &mut Vec<u16>, interrupts: &[u16], cases: &[Case]) -> Result<(), AllocError>
    ensures { OnOk result (entries.new.items ≡ entries.old.items ++ (interrupts.now ++ map (λ case. case.at) cases.now)) }
{
    entries.extend_from_slice(interrupts)?;
    add_addresses(entries, cases)
}

/// Appends the address of each case.
fn add_addresses(entries: &mut Vec<u16>, cases: &[Case]) -> Result<(), AllocError>
    ensures { OnOk result (entries.new.items ≡ entries.old.items ++ map (λ case. case.at) cases.now) }
{
    for case in cases {
        entries.push(case.at)?;
    }
    Ok(())
}

/// Why no regions are suggested.
#[derive(Clone, Copy)]
enum AdviceFault {
    /// The text of the regions has more bytes than a text of regions may have.
    TooLong,
    /// What the options say of the image can't be.
    Unfit(KnownFault),
    /// Out of memory.
    Memory,
}

impl From<LengthFault> for AdviceFault {
    ghost from_gives = { λ given fault. fault ≡ advice_fault given };

    fn from(fault: LengthFault) -> AdviceFault
        ensures { result ≡ advice_fault fault }
    {
        match fault {
            LengthFault::TooLong => AdviceFault::TooLong,
            LengthFault::Memory => AdviceFault::Memory,
        }
    }
}

impl From<AllocError> for AdviceFault {
    ghost use Rattle.plm80_regions.specs.declared.suggest.AdviceFault.TheVariants.{Memory};

    ghost from_gives = { λ given fault. fault ≡ Memory };

    fn from(_error: AllocError) -> AdviceFault
        ensures { result ≡ Memory }
    {
        AdviceFault::Memory
    }
}

/// Reports why no regions are suggested.
fn report_advice_fault<C: Console>(console: &mut C, fault: AdviceFault) -> Reported
    ensures { Blames (IsUnfit fault) (C.journal console.old) (C.journal console.new) }
{
    match fault {
        AdviceFault::TooLong => console.report(Lack::TooLong),
        AdviceFault::Unfit(fault) => {
            let reported = console.blame(fault);
            explain_unfit(console, fault);
            reported
        }
        AdviceFault::Memory => console.report_memory(),
    }
}

/// Says what the options that name an entry or a case must name.
fn explain_unfit<C: Console>(console: &C, fault: KnownFault) {
    match fault {
        KnownFault::NoInstruction(_) => console.explain(format_args!(
            "--{ENTRY} and the targets of --{CASE} name instructions, all of whose bytes are the image's, and in a --{ROM} if there is one"
        )),
        KnownFault::NotPchl(_) => console.explain(format_args!(
            "--{CASE} names the address of a PCHL, E9, before its targets"
        )),
    }
}

/// Says which ranges of a board may have been meant otherwise, and that those of ROM lack the start, if they do.
fn explain_ranges<C: Console>(
    console: &C,
    arguments: &SuggestArguments<'_>,
    start: u16,
    rom: &[Range],
) {
    let rom_texts = RangeTexts {
        name: ROM,
        values: &arguments.rom,
    };
    let ram_texts = RangeTexts {
        name: RAM,
        values: &arguments.ram,
    };
    explain_board(console, rom_texts, ram_texts);
    if !rom.is_empty() && !rom.iter().any(|range| range.contains(start)) {
        let place = place_in(arguments, "--rom-range", "ROM of the board");
        console.explain(format_args!("the start, {start:04X}, is in no {place}"));
    }
}

/// Says that the stack is in no range of data, if there are any and it isn't.
fn explain_stack<C: Console>(
    console: &C,
    arguments: &SuggestArguments<'_>,
    stack: Range,
    ram: &[Range],
) {
    let first = stack.first;
    if stack.length > 0 && !ram.is_empty() && !ram.iter().any(|range| range.contains(first)) {
        let place = place_in(arguments, "--ram-range", "RAM of the board");
        console.explain(format_args!("the stack, from {first:04X} on, is in no {place}"));
    }
}

/// The words on a range: those on a board's if one is given, else those on an option.
fn place_in(
    arguments: &SuggestArguments<'_>,
    option: &'static str,
    board: &'static str,
) -> &'static str {
    if arguments.board.is_some() {
        board
    } else {
        option
    }
}

/// What `suggest` answers, and what there is to say of the regions in it.
#[derive(Drop)]
struct PrintedAdvice {
    advice: Advice,
    answer: Answer<'static>,
}

/// Reads the image in the file of this path, without regions. A fault is reported.
fn bare_image<C: Console>(console: &mut C, path: &str) -> Result<Image, Reported>
    ensures image { IfOk result (λ image. (bytes : List ℕ) × SpellsImage bytes (without_regions image)
        × (C.journal console.new ≡ and_read (C.journal console.old) path.now bytes)) }
    ensures fault { IfErr result (λ _. OnlyBlames HaveNoImage (path.now ∷ []) (C.journal console.old) (C.journal console.new)) }
{
    let file = console.read_file(path)?;
    let none = no_regions(console.alloc());
    let image = image_of(console, path, &file.bytes, none)?;
    Ok(image)
}

/// Regions without any address.
fn no_regions(alloc: Global) -> Regions {
    let stack = Range {
        first: 0,
        length: 0,
    };
    Regions::from_disjoint(alloc, Vec::new(alloc), stack, Vec::new(alloc))
}

/// Prints the suggested regions, says what is uncertain of them, and returns the exit status.
fn print_advice<C: Console>(console: &mut C, printed: PrintedAdvice) -> Result<u8, Reported>
    ensures given { IfOk result (IsGiven printed.answer (C.journal console.old) (C.journal console.new)) }
    ensures fault { IfErr result (λ _. GaveUp printed.answer (C.journal console.old) (C.journal console.new)) }
{
    let PrintedAdvice { advice, answer } = printed;
    let status = console.give(answer)?;
    if let Some(words) = StackWords::of(advice.first, advice.second) {
        console.remark(words);
    }
    remark_notes(console, &advice.notes);
    Ok(status)
}

/// What `suggest` answers to an image, which gets the regions, and to what is known of it. The cases that are known must be by address.
/// `TooLong` if the text of the regions has more bytes than a text of regions may have.
fn advise(alloc: Global, image: &mut Image, known: Known<'_>) -> Result<PrintedAdvice, AdviceFault>
    requires by_address { AreByAddress known.cases.now }
    requires each { All IsCase known.cases.now }
    ensures advised { IfOk result (λ advised. AdvisesRegions image.old known.entry advised.advice advised.answer) }
    ensures unfit { let known = known.entry in IfErr result (λ fault. IsUnfit fault →
        Fits image.old known.rom.now known.entries.now known.cases.now → ⊥) }
{
    image.regions = base_regions(alloc, image, known)?;
    if let Some(fault) = find_fault(alloc, image, known)? {
        return Err(AdviceFault::Unfit(fault));
    }
    // Together its cases may have thousands of times as many targets as it has bytes.
    kept_cases(alloc, image, known.entries)?;
    let advice = suggest_regions(alloc, image, known)?;
    let answer = print_regions(alloc, &image.regions, &advice.notes)?;
    Ok(PrintedAdvice { advice, answer })
}

/// Prints the text of regions, with the status of `notes`. `TooLong` if it has more bytes than a text of regions may have.
fn print_regions(
    alloc: Global,
    regions: &Regions,
    notes: &[Note],
) -> Result<Answer<'static>, LengthFault>
    ensures answer { IfOk result (λ answer. answer ≡ prints (regions_text regions.now) (notes_status notes.now)) }
    ensures within { OnOk result (length (regions_text regions.now) ≤ text_limit) }
{
    let mut text = Vec::new(alloc);
    write_regions(alloc, regions, &mut text)?;
    if text.len() > TEXT_LIMIT {
        return Err(LengthFault::TooLong);
    }
    Ok(Answer::prints(text, notes_status(notes)))
}

/// Words on the suggested stack of an image that doesn't reach exactly one LXI SP.
#[derive(Clone, Copy, Debug, Error)]
enum StackWords {
    #[error("there is no LXI SP: the stack is empty")]
    Missing,
    #[error("the stack is that of the LXI SP at {first:04X}, there is another one at {second:04X}")]
    Several { first: u16, second: u16 },
}

impl StackWords {
    /// Words on a suggested stack, by the first LXI SP that is reached and the second one; `None` if the first is the only one.
    fn of(first: Option<Setter>, second: Option<Setter>) -> Option<StackWords>
        ensures { result ≡ stack_words first second }
    {
        match (first, second) {
            (None, _) => Some(StackWords::Missing),
            (Some(first), Some(second)) => Some(StackWords::Several {
                first: first.at,
                second: second.at,
            }),
            (Some(_), None) => None,
        }
    }
}
