//! `plm80 check`: the verifier's report on a located program, or its refusal.

ghost use Rattle.std.specs.Prelude.{◌++◌, IfErr, IfOk};
ghost use Rattle.plm80_boards.specs.Boards.{WithBoard, board_paths};
ghost use Rattle.plm80_console.specs.Answer.{Gives, GivesUp};
ghost use Rattle.plm80_names.specs.{Arguments.asks_names, Arguments.program_paths, Verdict.AnswersProgram};
ghost use Rattle.plm80_programs.specs.Arguments.{AreCheckArguments};
ghost use Rattle.plm80_programs.specs.Printed.{PrintsReport, Reports};

use crate::printing::{Printing, answer_of};
use clap::ArgMatches;
use loader80::Vouched;
use plm80_boards::{BOARD, GivenBoard, board_path};
use plm80_console::laws::faults_follow_reading;
use plm80_console::{Argument, Console, Kind, Reported, Syntax};
use plm80_files::{IMAGE, REGIONS};
use plm80_names::{GapUse, NAMES, NamedFiles, Names, explain_accepted, named_report};
use std::alloc::{AllocError, Global};

const AFTER_HELP: &str = "\
The report is a line for the bytes of stack that the program needs and has, and
a line for each procedure: its address; how many words of arguments it has taken
from beneath its return address when it returns (TAKES), and at most on any path
(WANTS); the bytes of stack that it needs below its return address (BOUND); and
whether it returns (RETURNS or NEVER).

--names prints a name behind a procedure or a refusal: the nearest public at or
below the address, in the same range of code, and the distance in hexadecimal,
as in SCALE+22. An image has names if it was located with --publics.

--board says on standard error which CODE isn't in ROM or RAM of a board's text
(docs/FORMATS.md, 'Boards'), which STACK isn't in RAM, and which DATA isn't in RAM
or a DEVICE: the first range of each, and its first such address.

Example: plm80 check readings.img readings.regions

Faults and what to do: docs/FAULTS.md (installed: share/doc/plm80), man plm80.";

/// The command `check`: its name, its help and its arguments.
pub const CHECK: Syntax<'static> = Syntax {
    name: "check",
    about: "Verifies an image: prints a report, or the refusal",
    after_help: AFTER_HELP,
    arguments: &[
        IMAGE,
        REGIONS,
        NAMES,
        Argument {
            name: BOARD,
            kind: Kind::PathInPlaceOf(&[]),
            help: "The board's text: say if regions lie outside its memory",
        },
    ],
};

/// The arguments of the command `check`.
#[derive(Clone, Copy)]
pub struct CheckArguments<'a> {
    files: NamedFiles<'a>,
    /// The path of the board's text.
    board: Option<&'a str>,
}

impl<'a> CheckArguments<'a> {
    /// Takes the arguments of `check` from what clap has matched.
    pub fn of(matches: &ArgMatches<'a>) -> CheckArguments<'a>
        ensures { AreCheckArguments matches.now result }
    {
        CheckArguments {
            files: NamedFiles::of(matches),
            board: board_path(matches),
        }
    }
}

/// Does `check`: prints the report on the image, or its refusal, and returns the exit status, 1 for a refusal.
pub fn check_files<C: Console>(
    console: &mut C,
    arguments: CheckArguments<'_>,
) -> Result<u8, Reported>
    ensures done { let asked = arguments.entry in IfOk result (Gives (WithBoard asked.board (λ _. AnswersProgram PrintsReport
        (asks_names asked.files)))
        (board_paths asked.board ++ program_paths asked.files) (C.journal console.old) (C.journal console.new)) }
    ensures fault { let asked = arguments.entry in IfErr result (λ _. GivesUp (WithBoard asked.board (λ _. AnswersProgram PrintsReport
        (asks_names asked.files))) (board_paths asked.board ++ program_paths asked.files) (C.journal console.old) (C.journal console.new)) }
{
    let board = GivenBoard::read(console, arguments.board)?;
    check_on_board(console, arguments.files, &board)
}

/// Does `check`, and says where the regions don't lie as the board has memory, if one is given.
fn check_on_board<C: Console>(
    console: &mut C,
    files: NamedFiles<'_>,
    board: &GivenBoard,
) -> Result<u8, Reported>
    ensures done { IfOk result (Gives (AnswersProgram PrintsReport (asks_names files.entry)) (program_paths files.entry)
        (C.journal console.old) (C.journal console.new)) }
    ensures fault { IfErr result (λ _. GivesUp (AnswersProgram PrintsReport (asks_names files.entry)) (program_paths files.entry)
        (C.journal console.old) (C.journal console.new)) }
{
    faults_follow_reading();
    let (image, names) = files.read(console)?;
    let misplaced = board.misplaced(console.alloc(), &image.regions);
    let answer = answer_of(console.alloc(), image, &names, Report);
    let given = console.give_if_made(answer);
    files.explain(console, &given);
    explain_accepted(console, &given, files.image, files.regions, GapUse::Fetched);
    misplaced.remark(console, &given);
    given
}

/// The report on a program.
#[derive(Clone, Copy)]
struct Report;

impl Printing for Report {
    ghost says = { λ _. Reports };

    fn text(self, alloc: Global, vouched: &Vouched, names: &Names) -> Result<Vec<u8>, AllocError> {
        named_report(alloc, vouched, names)
    }
}
