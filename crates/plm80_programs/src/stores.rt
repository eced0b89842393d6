//! `plm80 stores`: the stores of a program that may leave its data, and its jumps by PCHL.

ghost use Rattle.std.specs.Prelude.{◌≡◌, ◌++◌, false, All, IfErr, IfNone, IfOk, IfSome, OnOk};
ghost use Rattle.image80.specs.Regions.{in_data};
ghost use Rattle.plm80_console.specs.{Answer.Gives, Answer.GivesUp, Answer.IsAnswered, Answer.prints, Journal.Blames};
ghost use Rattle.plm80_names.specs.{Arguments.program_paths, Blaming.GivesUpOrBlames, Verdict.AnswersVerdict};
ghost use Rattle.plm80_boards.specs.Boards.{WithBoard, board_paths};
ghost use Rattle.plm80_programs.specs.Printed.{AnswersStores, AreNamedData, IsAllData, ListsStores, PrintsStores, PrintsStoresOn, stores_lines};
ghost use Rattle.plm80_programs.specs.Arguments.{AreStoresArguments};
ghost use Rattle.plm80_programs.specs.Printed.{stores_status};

use clap::ArgMatches;
use image80::laws::text_of_regions_is_read_as_itself;
use image80::{Image, Range, Regions};
use loader80::Vouched;
use plm80_boards::{BOARD, GivenBoard, board_path};
use plm80_console::laws::faults_follow_reading;
use plm80_console::{
    Answer, Argument, Console, Kind, Reported, Syntax, argument_values, ranges_of,
};
use plm80_files::{IMAGE, REGIONS};
use plm80_names::{GapUse, NAMES, NamedFiles, Names, Verdict, explain_accepted, judge};
use std::alloc::{AllocError, Global};
use verify80_stores::{Cause, Stores, find_causes, find_stores, first_outside_data, stores_text};

const AFTER_HELP: &str = "\
On a board nothing stops a store through BC, DE or HL that leaves data. The
first line counts the stores (MOV M,r, MVI M, INR M, DCR M, STAX) that are shown
to stay in data, whatever the program reads and finds in memory, until a store
leaves it. Each other store has a line: its address, the instruction, and the
first and the last address that it may have. It may be harmless. If there is a
PCHL, a second line counts those that are shown to go to a declared target; each
other one has a line JUMP. What no procedure reaches is left out. A line SP NOT
SET says that SP must be at the stack's top before the program begins, since it
may use SP before an LXI SP of its own sets it, and a line START where it begins,
if that isn't 0000, where a board does.

Devices may write to data at any time, so what a program keeps there isn't
believed. --quiet-ram names RAM that only the program writes, at these addresses
alone: a byte that it stores there is remembered. All of them have to be DATA;
each range has a line QUIET. FIRST:LENGTH is as suggest takes it, and the option
may be given more than once. --board takes the RAM of a board's text that is DATA
(docs/FORMATS.md, 'Boards'); none if the board has interrupts.

The exit status is 0 if there is no line STORE, JUMP or SP NOT SET, 1 if there is
one, or if the image is refused: then the refusal is printed alone, as by check.
--why names on standard error the instruction that sets the pair of each.
--names prints behind a line the name of its first address, as check does.

Example: plm80 stores readings.img readings.regions --quiet-ram 3030:0040

Faults and what to do: docs/FAULTS.md (installed: share/doc/plm80), man plm80.";

/// The command `stores`: its name, its help and its arguments.
pub const STORES: Syntax<'static> = Syntax {
    name: "stores",
    about: "Verifies an image, and prints its stores that may leave data",
    after_help: AFTER_HELP,
    arguments: &[
        IMAGE,
        REGIONS,
        NAMES,
        Argument {
            name: QUIET,
            kind: Kind::PathsAt("FIRST:LENGTH"),
            help: "RAM in data that only the program writes, at these addresses alone",
        },
        Argument {
            name: BOARD,
            kind: Kind::PathInPlaceOf(&[QUIET]),
            help: "The board's text, for its RAM in data",
        },
    ],
};

/// The name of the option `--quiet-ram`, for RAM that only the program writes.
const QUIET: &str = "quiet-ram";

/// The arguments of the command `stores`.
#[derive(Drop)]
pub struct StoresArguments<'a> {
    files: NamedFiles<'a>,
    /// Ranges that only the program writes, each as `ffff:llll`: the first address and the length in hexadecimal.
    quiet: Vec<&'a str>,
    /// The path of the board's text.
    board: Option<&'a str>,
}

impl<'a> StoresArguments<'a> {
    /// Takes the arguments of `stores` from what clap has matched. `AllocError` if memory runs out.
    pub fn of(alloc: Global, matches: &ArgMatches<'a>) -> Result<StoresArguments<'a>, AllocError>
        ensures { IfOk result (AreStoresArguments matches.now) }
    {
        Ok(StoresArguments {
            files: NamedFiles::of(matches),
            quiet: argument_values(alloc, matches, "quiet-ram")?,
            board: board_path(matches),
        })
    }
}

/// Does `stores`: prints what is known of the image's stores and jumps, or its refusal, and returns the exit status.
pub fn list_stores<C: Console>(
    console: &mut C,
    arguments: &StoresArguments<'_>,
) -> Result<u8, Reported>
    ensures done { let asked = arguments.now in IfOk result (Gives (WithBoard asked.board (AnswersStores asked))
        (board_paths asked.board ++ program_paths asked.files) (C.journal console.old) (C.journal console.new)) }
    ensures fault { let asked = arguments.now in IfErr result (λ _. GivesUp (WithBoard asked.board (AnswersStores asked))
        (board_paths asked.board ++ program_paths asked.files) (C.journal console.old) (C.journal console.new)) }
{
    let board = GivenBoard::read(console, arguments.board)?;
    list_on_board(console, arguments, &board)
}

/// Does `stores` on the board, if one is given.
fn list_on_board<C: Console>(
    console: &mut C,
    arguments: &StoresArguments<'_>,
    board: &GivenBoard,
) -> Result<u8, Reported>
    ensures done { let asked = arguments.now in IfOk result (Gives (AnswersStores asked board.now.board) (program_paths asked.files)
        (C.journal console.old) (C.journal console.new)) }
    ensures fault { let asked = arguments.now in IfErr result (λ _. GivesUp (AnswersStores asked board.now.board) (program_paths asked.files)
        (C.journal console.old) (C.journal console.new)) }
{
    faults_follow_reading();
    text_of_regions_is_read_as_itself();
    let named = ranges_of(console, QUIET, &arguments.quiet)?;
    let files = arguments.files;
    let (image, names) = files.read(console)?;
    let given = print_on_board(console, image, &names, &arguments.quiet, board, named);
    files.explain(console, &given);
    explain_accepted(console, &given, files.image, files.regions, GapUse::Read);
    given
}

/// Prints what is known of the stores and jumps of `image`, or its refusal, and returns the exit status. Quiet are the ranges `named`, which
/// `texts` write, or RAM of the board.
fn print_on_board<C: Console>(
    console: &mut C,
    image: Image,
    names: &Names,
    texts: &[&str],
    board: &GivenBoard,
    named: Vec<Range>,
) -> Result<u8, Reported>
    ensures done { IfOk result (IsAnswered (PrintsStoresOn board.now.board named.items image names.now) (C.journal console.old) (C.journal console.new)) }
    ensures fault { IfErr result (λ _. GivesUpOrBlames (AreNamedData board.now.board image.regions named.items → ⊥)
        (PrintsStoresOn board.now.board named.items image names.now) (C.journal console.old) (C.journal console.new)) }
{
    match board.quiet(console.alloc(), &image.regions, named) {
        Ok(quiet) => print_stores(console, image, names, texts, &quiet),
        Err(AllocError) => Err(console.report_memory()),
    }
}

/// Prints what is known of the stores and jumps of `image`, or its refusal, and returns the exit status. `quiet` are the ranges that
/// `texts` write; one that isn't all data is reported.
fn print_stores<C: Console>(
    console: &mut C,
    image: Image,
    names: &Names,
    texts: &[&str],
    quiet: &[Range],
) -> Result<u8, Reported>
    ensures done { IfOk result (IsAnswered (PrintsStores quiet.now image names.now) (C.journal console.old) (C.journal console.new)) }
    ensures fault { IfErr result (λ _. GivesUpOrBlames (All (IsAllData image.regions) quiet.now → ⊥) (PrintsStores quiet.now image names.now)
        (C.journal console.old) (C.journal console.new)) }
{
    require_data(console, &image.regions, texts, quiet)?;
    match judged(console.alloc(), image, names, quiet, console.explains()) {
        Ok(ListedStores { answer, causes }) => {
            let status = console.give(answer)?;
            explain_causes(console, &causes);
            Ok(status)
        }
        Err(_) => Err(console.report_memory()),
    }
}

/// Reports the first of the quiet ranges that isn't all data of `regions`; nothing if all of them are.
pub(crate) fn require_data<C: Console>(
    console: &mut C,
    regions: &Regions,
    texts: &[&str],
    quiet: &[Range],
) -> Result<(), Reported>
    ensures are_data { OnOk result (All (IsAllData regions.now) quiet.now) }
    ensures unchanged { IfOk result (λ _. C.journal console.new ≡ C.journal console.old) }
    ensures fault { IfErr result (λ _. Blames (All (IsAllData regions.now) quiet.now → ⊥) (C.journal console.old) (C.journal console.new)) }
{
    match first_no_data(regions, quiet) {
        Some((index, at)) => {
            let reported = console.blame("NotData");
            if let Some(text) = texts.get(index) {
                console.explain(format_args!("--{QUIET} {text}: {at:04X} is no address of DATA"));
            }
            Err(reported)
        }
        None => Ok(()),
    }
}

/// The index of the first of the quiet ranges that isn't all data of `regions`, and its first address that isn't. `None` if all are.
fn first_no_data(regions: &Regions, quiet: &[Range]) -> Option<(usize, u16)>
    ensures some { IfSome result (λ found. in_data regions.now found.1 ≡ false) }
    ensures lacks { IfSome result (λ _. All (IsAllData regions.now) quiet.now → ⊥) }
    ensures none { IfNone result (All (IsAllData regions.now) quiet.now) }
{
    let mut index = 0usize;
    for range in quiet {
        if let Some(at) = first_outside_data(regions, *range) {
            return Some((index, at));
        }
        index = index.saturating_add(1);
    }
    None
}

/// What `stores` answers, and what leaves each listed store and jump open.
#[derive(Drop)]
struct ListedStores {
    answer: Answer<'static>,
    /// What leaves each listed store and jump open; empty unless words are asked for.
    causes: Vec<Cause>,
}

/// What `stores` answers, and the causes if `explains`: the lines of the stores and jumps of `image`; the line of its refusal if the
/// verifier refuses it.
fn judged(
    alloc: Global,
    image: Image,
    names: &Names,
    quiet: &[Range],
    explains: bool,
) -> Result<ListedStores, AllocError>
    ensures { IfOk result (λ listed. AnswersVerdict (ListsStores quiet.now names.now) image names.now listed.answer) }
{
    match judge(alloc, image, names)? {
        Verdict::Accepted(vouched) => stores_of(alloc, &vouched, names, quiet, explains),
        Verdict::Refused(line) => Ok(ListedStores {
            answer: Answer::prints(line, 1),
            causes: Vec::new(alloc),
        }),
    }
}

/// The lines of a program's stores and jumps, with names, their exit status, and the causes if `explains`.
fn stores_of(
    alloc: Global,
    vouched: &Vouched,
    names: &Names,
    quiet: &[Range],
    explains: bool,
) -> Result<ListedStores, AllocError>
    ensures { IfOk result (λ listed. ListsStores quiet.now names.now vouched.now listed.answer) }
{
    let stores = find_stores(alloc, vouched, quiet)?;
    listed(alloc, vouched, names, quiet, explains, &stores)
}

/// The lines of these stores and jumps of a program, with names, their exit status, and the causes if `explains`.
fn listed(
    alloc: Global,
    vouched: &Vouched,
    names: &Names,
    quiet: &[Range],
    explains: bool,
    stores: &Stores,
) -> Result<ListedStores, AllocError>
    ensures { IfOk result (λ listed.
        listed.answer ≡ prints (stores_lines quiet.now vouched.now.image names.now stores.now) (stores_status stores.now)) }
{
    let text = stores_lines(alloc, vouched.image(), names, quiet, stores)?;
    let causes = if explains {
        find_causes(alloc, vouched, quiet, stores)?
    } else {
        Vec::new(alloc)
    };
    Ok(ListedStores {
        answer: Answer::prints(text, stores_status(stores)),
        causes,
    })
}

/// The lines of these stores and jumps of an image, with names.
pub(crate) fn stores_lines(
    alloc: Global,
    image: &Image,
    names: &Names,
    quiet: &[Range],
    stores: &Stores,
) -> Result<Vec<u8>, AllocError>
    ensures { IfOk result (λ text. text.items ≡ stores_lines quiet.now image.now names.now stores.now) }
{
    let code = image.regions.code();
    let text = stores_text(alloc, stores, quiet, image.start)?;
    let text = names.name(alloc, code, b"STORE ", text)?;
    names.name(alloc, code, b"JUMP ", text)
}

/// Says of each listed store and jump what sets its pair, if words are asked for.
fn explain_causes<C: Console>(console: &C, causes: &[Cause]) {
    for cause in causes {
        console.explain(format_args!("{cause}"));
    }
}

/// The exit status of `stores` for a program: 0 if no store and no jump is listed and the stack pointer is set first, else 1.
fn stores_status(stores: &Stores) -> u8
    ensures { result ≡ stores_status stores.now }
{
    if stores.open.is_empty() && stores.open_jumps.is_empty() && stores.sets_stack {
        0
    } else {
        1
    }
}
