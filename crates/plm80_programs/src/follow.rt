//! `plm80 follow`: a program followed by what is known of each byte of its stack.

ghost use Rattle.std.specs.Prelude.{◌≡◌, ◌++◌, All, IfErr, IfOk, [], codes};
ghost use Rattle.plm80_boards.specs.Boards.{WithBoard, board_paths};
ghost use Rattle.plm80_console.specs.{Answer.Gives, Answer.GivesUp, Answer.IsAnswered, Answer.IsGivenUp};
ghost use Rattle.image80_text.specs.NameText.{named_text};
ghost use Rattle.plm80_names.specs.{Arguments.program_paths, Blaming.GivesUpOrBlames};
ghost use Rattle.verify80_follow.specs.FollowText.{ways_lines};
ghost use Rattle.plm80_programs.specs.Arguments.{AreFollowArguments};
ghost use Rattle.plm80_programs.specs.Printed.{AreNamedData, IsAllData, stores_lines};
ghost use Rattle.plm80_programs.specs.Following.{AnswersFollowing, PrintsFollowed, PrintsFollowedOn, PrintsTable, PrintsWithRam, SaysFollowed};
ghost use Rattle.plm80_programs.specs.Following.{first_lines, first_live_lines, followed_lines, listing_lines};

use crate::finding::{FollowedAll, LiveTables, find_all};
use crate::stops::{explain_stop, stopped_text};
use crate::stores::{require_data, stores_lines};
use board80::Board;
use clap::ArgMatches;
use decode80::Fetched;
use image80::laws::text_of_regions_is_read_as_itself;
use image80::{Image, Range};
use loader80_trace::list_instructions;
use plm80_boards::{BOARD, GivenBoard, board_path, quiet_outside};
use plm80_console::laws::faults_follow_reading;
use plm80_console::{
    Answer, Argument, Console, Kind, Reported, Syntax, argument_values, ranges_of,
};
use plm80_files::{IMAGE, REGIONS};
use plm80_names::{NAMES, NamedFiles, Names, explain_given};
use std::alloc::{AllocError, Global};
use verify80_follow::{
    Handler, Table, bounds_text, followed_instructions, followed_stores, live_text, places_of,
    ways_text,
};
use verify80_follow_search::Stop;
use verify80_stores::Stores;

const AFTER_HELP: &str = "\
check accepts programs whose calls and returns pair. follow takes others, too:
those that push return addresses, keep texts behind calls, skip bytes at a
return, set SP again or drop returns. It knows each byte of the stack, from SP
to the stack's top, and follows the program state by state. If it comes to an
end, each run keeps this promise, on every board whose devices write to DATA
alone, until the program stores outside DATA at a STORE that is listed, or leaves
the targets of a CASE line at a JUMP that is: it fetches only inside CODE, stores
only to DATA, uses only the printed bytes of STACK, and returns only behind a
CALL or RST, or by a printed way. If nothing is listed, that is the whole run. It
isn't said that it returns to the newest call: that is the promise of check alone.

The first line has the number of states. STACK 4 OF 256 AT MOST is a bound that
holds, and not always the least. Lines of stores and jumps follow, as stores
prints them. Each return, or PCHL without a CASE line, that goes elsewhere than
behind a call has a line WAY: its address, and where it goes. SP NOT SET says
that SP must be at the stack's top before the program begins, and START where it
begins, if that isn't 0000.

Devices may write to DATA at any time, so what a program keeps there isn't
believed. --quiet-ram names RAM that only the program writes, as for stores: a
byte that it stores there is remembered. Each range has a line QUIET.

--interrupted follows a program to which interrupts come: EI may stand anywhere
once SP is set, and a run goes on behind a HLT, unless DI came last. The promise
is that of the program between its interrupts, on every board whose handlers give
back SP, registers, flags and what is pushed, and store only where devices may.
HANDLERS NOT VERIFIED says that no handler was looked at. STACK doesn't count
them: below its bytes there must be room for 2 and what a handler uses.

--handler, repeatable, follows a handler, too, from the address where it is
entered: a vector such as 0038, or where the JMP there leads. On each way it must
give back SP, the registers and flags by PUSH and POP, let interrupts in only by
an EI directly before its own RET, and not store to --quiet-ram; or it begins the
program anew, by LXI SP with the stack's top and on from there with interrupts
off. Then the promise is that of the program with its handlers, whenever
interrupts come that these alone answer, by RST or CALL. HANDLER 0038 STACK 4
says how many bytes an interrupt takes at most, with the 2 of its return address;
STACK counts the most of them. WRITES 2000 0002 is data that handlers write, its
first address and length: no other, so that the rest may be --quiet-ram.

--board takes both from a board's text (docs/FORMATS.md, 'Boards'): its interrupts
are the handlers, and quiet is its RAM in DATA that they don't write, unless the
program can't be followed so.

The exit status is 0 if the program is followed. Else it is 1, and one line says
where the search stopped and why, as in STOPPED 3009 RETURN UNKNOWN: that is
advice. It doesn't say that the program goes wrong there. --why says more of it,
and names a way to it. --list prints the code to which the program may come, as
list --reached does, below the other lines. --names prints behind a line the
name of its first address, as check does, and labels in the list.

Example: plm80 follow readings.img readings.regions

Faults and what to do: docs/FAULTS.md (installed: share/doc/plm80), man plm80.";

/// The command `follow`: its name, its help and its arguments.
pub const FOLLOW: Syntax<'static> = Syntax {
    name: "follow",
    about: "Follows a program with its whole stack, where check refuses it",
    after_help: AFTER_HELP,
    arguments: &[
        IMAGE,
        REGIONS,
        NAMES,
        Argument {
            name: "quiet-ram",
            kind: Kind::PathsAt("FIRST:LENGTH"),
            help: "RAM in data that only the program writes, at these addresses alone",
        },
        Argument {
            name: "list",
            kind: Kind::Flag,
            help: "List the code to which the program may come",
        },
        Argument {
            name: "interrupted",
            kind: Kind::Flag,
            help: "Interrupts come: allow EI, and go on behind HLT; handlers aren't verified",
        },
        Argument {
            name: "handler",
            kind: Kind::PathsAt("ADDRESS"),
            help: "Interrupts come to this handler: follow it, too, and count its stack",
        },
        Argument {
            name: BOARD,
            kind: Kind::PathInPlaceOf(&["quiet-ram", "handler"]),
            help: "The board's text, for its RAM in data and its interrupts",
        },
    ],
};

/// The arguments of the command `follow`.
#[derive(Drop)]
pub struct FollowArguments<'a> {
    files: NamedFiles<'a>,
    /// Ranges that only the program writes, each as `ffff:llll`: the first address and the length in hexadecimal.
    quiet: Vec<&'a str>,
    /// Whether the code is listed to which the program may come.
    lists: bool,
    /// Whether the program is interrupted.
    interrupted: bool,
    /// The addresses of handlers, in hexadecimal.
    handlers: Vec<&'a str>,
    /// The path of the board's text.
    board: Option<&'a str>,
}

impl<'a> FollowArguments<'a> {
    /// Takes the arguments of `follow` from what clap has matched. `AllocError` if memory runs out.
    pub fn of(alloc: Global, matches: &ArgMatches<'a>) -> Result<FollowArguments<'a>, AllocError>
        ensures { IfOk result (AreFollowArguments matches.now) }
    {
        Ok(FollowArguments {
            files: NamedFiles::of(matches),
            quiet: argument_values(alloc, matches, "quiet-ram")?,
            lists: matches.get_flag("list"),
            interrupted: matches.get_flag("interrupted"),
            handlers: argument_values(alloc, matches, "handler")?,
            board: board_path(matches),
        })
    }
}

/// Does `follow`: prints how an image's program is followed, or where that stops, and returns the exit status.
pub fn follow_files<C: Console>(
    console: &mut C,
    arguments: &FollowArguments<'_>,
) -> Result<u8, Reported>
    ensures done { let asked = arguments.now in IfOk result (Gives (WithBoard asked.board (AnswersFollowing asked))
        (board_paths asked.board ++ program_paths asked.files) (C.journal console.old) (C.journal console.new)) }
    ensures fault { let asked = arguments.now in IfErr result (λ _. GivesUp (WithBoard asked.board (AnswersFollowing asked))
        (board_paths asked.board ++ program_paths asked.files) (C.journal console.old) (C.journal console.new)) }
{
    let board = GivenBoard::read(console, arguments.board)?;
    follow_on_board(console, arguments, &board)
}

/// Does `follow` on the board, if one is given.
fn follow_on_board<C: Console>(
    console: &mut C,
    arguments: &FollowArguments<'_>,
    board: &GivenBoard,
) -> Result<u8, Reported>
    ensures done { let asked = arguments.now in IfOk result (Gives (AnswersFollowing asked board.now.board) (program_paths asked.files)
        (C.journal console.old) (C.journal console.new)) }
    ensures fault { let asked = arguments.now in IfErr result (λ _. GivesUp (AnswersFollowing asked board.now.board) (program_paths asked.files)
        (C.journal console.old) (C.journal console.new)) }
{
    faults_follow_reading();
    text_of_regions_is_read_as_itself();
    let named = ranges_of(console, "quiet-ram", &arguments.quiet)?;
    let handlers = board.interrupts(console, "handler", &arguments.handlers)?;
    let files = arguments.files;
    let (image, names) = files.read(console)?;
    let asked = Asked {
        quiet: &named,
        lists: arguments.lists,
        interrupted: arguments.interrupted,
        handlers: &handlers,
    };
    let given = print_on_board(console, &image, &names, &arguments.quiet, board, asked);
    explain_given(console, &given, files.names, files.image, None);
    given
}

/// What is asked of a program that is followed.
#[derive(Clone, Copy)]
pub(crate) struct Asked<'a> {
    /// Ranges that only the program writes.
    pub quiet: &'a [Range],
    /// Whether the code is listed to which the program may come.
    pub lists: bool,
    /// Whether the program is interrupted.
    pub interrupted: bool,
    /// The addresses of handlers that are followed, too.
    pub handlers: &'a [u16],
}

impl<'a> Asked<'a> {
    /// What is asked, with other quiet ranges.
    fn with_quiet(self, quiet: &'a [Range]) -> Asked<'a>
        ensures quiet { result.quiet ≡ quiet.entry }
        ensures lists { result.lists ≡ self.entry.lists }
        ensures interrupted { result.interrupted ≡ self.entry.interrupted }
        ensures handlers { result.handlers ≡ self.entry.handlers }
    {
        Asked { quiet, ..self }
    }
}

/// Prints how the program of `image` is followed, or where that stops, and returns the exit status. Quiet are the ranges that are asked for,
/// which `texts` write, or RAM of the board.
fn print_on_board<C: Console>(
    console: &mut C,
    image: &Image,
    names: &Names,
    texts: &[&str],
    board: &GivenBoard,
    asked: Asked<'_>,
) -> Result<u8, Reported>
    ensures done { let way = asked.entry in IfOk result (IsAnswered (PrintsFollowedOn board.now.board way.quiet.now way.interrupted way.handlers.now way.lists
        image.now names.now) (C.journal console.old) (C.journal console.new)) }
    ensures fault { let way = asked.entry in IfErr result (λ _. GivesUpOrBlames (AreNamedData board.now.board image.now.regions way.quiet.now → ⊥)
        (PrintsFollowedOn board.now.board way.quiet.now way.interrupted way.handlers.now way.lists image.now names.now)
        (C.journal console.old) (C.journal console.new)) }
{
    match &board.board {
        None => print_followed(console, image, names, texts, asked),
        Some(given) => print_with_ram(console, image, names, given, asked),
    }
}

/// Prints how the program of `image` is followed with quiet RAM of the board, or where that stops, and returns the exit status.
fn print_with_ram<C: Console>(
    console: &mut C,
    image: &Image,
    names: &Names,
    board: &Board,
    asked: Asked<'_>,
) -> Result<u8, Reported>
    ensures done { let way = asked.entry in IfOk result (IsAnswered (PrintsWithRam board.now way.interrupted way.handlers.now way.lists image.now names.now)
        (C.journal console.old) (C.journal console.new)) }
    ensures fault { let way = asked.entry in IfErr result (λ _. IsGivenUp
        (PrintsWithRam board.now way.interrupted way.handlers.now way.lists image.now
        names.now) (C.journal console.old) (C.journal console.new)) }
{
    match answer_with_ram(console.alloc(), image, names, board, asked) {
        Ok(FollowedAnswer { answer, stop }) => {
            let status = console.give(answer)?;
            explain_stop(console, &stop);
            Ok(status)
        }
        Err(AllocError) => Err(console.report_memory()),
    }
}

/// What `follow` answers with the board's RAM in data that no handler writes, or without quiet RAM if the program can't be followed so.
fn answer_with_ram(
    alloc: Global,
    image: &Image,
    names: &Names,
    board: &Board,
    asked: Asked<'_>,
) -> Result<FollowedAnswer, AllocError>
    ensures { let way = asked.entry in IfOk result (λ followed. PrintsWithRam board.now way.interrupted way.handlers.now way.lists image.now names.now
        followed.answer) }
{
    let writes = handler_writes(alloc, image, asked)?;
    let quiet = quiet_outside(alloc, board, &image.regions, &writes)?;
    let followed = answer_of_following(alloc, image, names, asked.with_quiet(&quiet))?;
    if followed.stop.is_none() {
        return Ok(followed);
    }
    answer_of_following(alloc, image, names, asked.with_quiet(&[]))
}

/// The data that handlers write, if the program can be followed with them without quiet RAM.
fn handler_writes(
    alloc: Global,
    image: &Image,
    asked: Asked<'_>,
) -> Result<Vec<Range>, AllocError> {
    if asked.handlers.is_empty() {
        return Ok(Vec::new(alloc));
    }
    match find_all(alloc, image, asked.with_quiet(&[]))? {
        FollowedAll::Live(LiveTables { writes, .. }) => Ok(writes),
        FollowedAll::Alone(_, _) | FollowedAll::Stopped(_) => Ok(Vec::new(alloc)),
    }
}

/// Prints how the program of `image` is followed, or where that stops, and returns the exit status. The quiet ranges are those that `texts`
/// write; one that isn't all data is reported.
fn print_followed<C: Console>(
    console: &mut C,
    image: &Image,
    names: &Names,
    texts: &[&str],
    asked: Asked<'_>,
) -> Result<u8, Reported>
    ensures done { IfOk result (IsAnswered (PrintsFollowed asked.entry.quiet.now asked.entry.interrupted asked.entry.handlers.now asked.entry.lists image.now names.now) (C.journal console.old) (C.journal console.new)) }
    ensures fault { let way = asked.entry in IfErr result (λ _. GivesUpOrBlames (All (IsAllData image.now.regions) way.quiet.now → ⊥)
        (PrintsFollowed way.quiet.now way.interrupted way.handlers.now way.lists image.now names.now) (C.journal console.old) (C.journal console.new)) }
{
    require_data(console, &image.regions, texts, asked.quiet)?;
    match answer_of_following(console.alloc(), image, names, asked) {
        Ok(FollowedAnswer { answer, stop }) => {
            let status = console.give(answer)?;
            explain_stop(console, &stop);
            Ok(status)
        }
        Err(_) => Err(console.report_memory()),
    }
}

/// What `follow` answers, and where the search stopped, if it did.
#[derive(Drop)]
struct FollowedAnswer {
    answer: Answer<'static>,
    stop: Option<Stop>,
}

/// What `follow` answers: the lines of a table that follows the program, with names; or the line of where the search stopped.
fn answer_of_following(
    alloc: Global,
    image: &Image,
    names: &Names,
    asked: Asked<'_>,
) -> Result<FollowedAnswer, AllocError>
    ensures { IfOk result (λ followed. SaysFollowed asked.entry.quiet.now asked.entry.interrupted asked.entry.handlers.now asked.entry.lists image.now names.now followed.answer) }
{
    let found = find_all(alloc, image, asked)?;
    match found {
        FollowedAll::Alone(table, is_set) => {
            let answer = answer_of_alone(alloc, image, names, asked, &table, is_set)?;
            Ok(FollowedAnswer { answer, stop: None })
        }
        FollowedAll::Live(found) => {
            let answer = answer_of_live(alloc, image, names, asked, &found)?;
            Ok(FollowedAnswer { answer, stop: None })
        }
        FollowedAll::Stopped(stop) => {
            let text = stopped_text(alloc, &stop)?;
            let text = names.name(alloc, image.regions.code(), b"STOPPED ", text)?;
            Ok(FollowedAnswer {
                answer: Answer::prints(text, 1),
                stop: Some(stop),
            })
        }
    }
}

/// What `follow` answers of a program that is followed without handlers.
fn answer_of_alone(
    alloc: Global,
    image: &Image,
    names: &Names,
    asked: Asked<'_>,
    table: &Table,
    is_set: bool,
) -> Result<Answer<'static>, AllocError>
    ensures { IfOk result (PrintsTable (first_lines asked.entry.interrupted image.now table.now)
        asked.entry.quiet.now asked.entry.lists image.now names.now table.now [] is_set) }
{
    let room = image.regions.stack().length;
    let first = bounds_text(alloc, table, room, asked.interrupted)?;
    let tables = Tables {
        table,
        handlers: &[],
        is_set,
    };
    answer_of_tables(alloc, image, names, asked, tables, first)
}

/// What `follow` answers of a program that is followed with its handlers.
fn answer_of_live(
    alloc: Global,
    image: &Image,
    names: &Names,
    asked: Asked<'_>,
    found: &LiveTables,
) -> Result<Answer<'static>, AllocError>
    ensures { IfOk result (PrintsTable (first_live_lines image.now names.now found.now)
        asked.entry.quiet.now asked.entry.lists image.now names.now found.now.table found.now.handlers.items found.now.is_set) }
{
    let LiveTables {
        table,
        handlers,
        writes,
        is_set,
        most,
    } = found;
    let room = image.regions.stack().length;
    let first = live_text(alloc, table, handlers, writes, room, *most)?;
    let first = names.name(alloc, image.regions.code(), b"HANDLER ", first)?;
    let tables = Tables {
        table,
        handlers,
        is_set: *is_set,
    };
    answer_of_tables(alloc, image, names, asked, tables, first)
}

/// The table of a program with those of its handlers, and whether SP must be at the stack's top when the program begins.
#[derive(Clone, Copy)]
struct Tables<'a> {
    table: &'a Table,
    handlers: &'a [Handler],
    is_set: bool,
}

/// What `follow` answers of a program that is followed: the first lines, and those of its stores, jumps and ways, with names.
fn answer_of_tables(
    alloc: Global,
    image: &Image,
    names: &Names,
    asked: Asked<'_>,
    tables: Tables<'_>,
    first: Vec<u8>,
) -> Result<Answer<'static>, AllocError>
    ensures { IfOk result (PrintsTable first.items asked.entry.quiet.now asked.entry.lists image.now names.now tables.entry.table.now tables.entry.handlers.now tables.entry.is_set) }
{
    let Tables {
        table,
        handlers,
        is_set,
    } = tables;
    let places = places_of(alloc, table, handlers)?;
    let reached = followed_instructions(alloc, image, &places)?;
    let stores = followed_stores(alloc, &table.listed, &reached, !is_set)?;
    let mut text = followed_text(alloc, image, names, tables, asked, &stores, first)?;
    let listing = listing_of(alloc, image, names, &reached, asked.lists)?;
    text.extend_from_slice(&listing)?;
    Ok(Answer::prints(text, 0))
}

/// The code to which a program may come, with names; nothing unless it `lists` that.
fn listing_of(
    alloc: Global,
    image: &Image,
    names: &Names,
    reached: &[Option<Fetched>],
    lists: bool,
) -> Result<Vec<u8>, AllocError>
    ensures { IfOk result (λ text. text.items ≡ listing_lines lists image.now names.now reached.now) }
{
    if !lists {
        return Ok(Vec::new(alloc));
    }
    let text = list_instructions(alloc, image, reached)?;
    names.label(alloc, false, text)
}

/// The first lines of a table that follows the program of `image`, and behind them those of its stores and jumps, and its ways, with names.
fn followed_text(
    alloc: Global,
    image: &Image,
    names: &Names,
    tables: Tables<'_>,
    asked: Asked<'_>,
    stores: &Stores,
    first: Vec<u8>,
) -> Result<Vec<u8>, AllocError>
    ensures { IfOk result (λ text. text.items ≡ followed_lines first.items asked.entry.quiet.now image.now names.now tables.entry.table.now tables.entry.handlers.now stores.now) }
{
    let mut text = first;
    let mut lines = stores_lines(alloc, image, names, asked.quiet, stores)?;
    let ways = named_ways(alloc, image, names, tables)?;
    lines.extend_from_slice(&ways)?;
    text.extend_from_slice(&lines)?;
    Ok(text)
}

/// The lines of ways, with names.
fn named_ways(
    alloc: Global,
    image: &Image,
    names: &Names,
    tables: Tables<'_>,
) -> Result<Vec<u8>, AllocError>
    ensures { IfOk result (λ text. text.items ≡ named_text image.now.regions.code names.now (codes "WAY ")
        (ways_lines tables.entry.table.now.ways.items tables.entry.handlers.now)) }
{
    let text = ways_text(alloc, &tables.table.ways, tables.handlers)?;
    names.name(alloc, image.regions.code(), b"WAY ", text)
}
