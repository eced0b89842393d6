//! `plm80 calls`: the calls of a located program.

ghost use Rattle.std.specs.Prelude.{◌++◌, IfErr, IfOk};
ghost use Rattle.plm80_boards.specs.Boards.{WithBoard, board_paths};
ghost use Rattle.plm80_console.specs.Answer.{Gives, GivesUp};
ghost use Rattle.plm80_names.specs.{Arguments.asks_names, Arguments.program_paths, Verdict.AnswersProgram};
ghost use Rattle.plm80_programs.specs.Arguments.{AreCallsArguments};
ghost use Rattle.plm80_programs.specs.Printed.{IsCallsText, PrintsCalls};
ghost use Rattle.plm80_programs.specs.Reached.{ShowsCalls};

use crate::printing::Printing;
use crate::reached::{Reaching, Unproved, answer_or_reach};
use clap::ArgMatches;
use image80::Image;
use loader80::Vouched;
use plm80_boards::{BOARD, GivenBoard, board_path};
use plm80_console::laws::faults_follow_reading;
use plm80_console::{Argument, Console, Kind, Reported, Syntax};
use plm80_files::{IMAGE, REGIONS};
use plm80_names::{NAMES, NamedFiles, Names};
use std::alloc::{AllocError, Global};
use verify80_calls::{CallGraph, graph_text, list_text};
use verify80_explain_text::{reach_graph, reach_text};

/// The arguments of the command `calls`.
#[derive(Clone, Copy)]
pub struct CallsArguments<'a> {
    files: NamedFiles<'a>,
    dot: bool,
    /// The path of the board's text.
    board: Option<&'a str>,
}

const AFTER_HELP: &str = "\
Main and each procedure have a line with the bytes of stack that they need below
the return address (BOUND). Below it is a line for each of its calls: where it
stands (AT), the bytes that the procedure has on the stack there (DEPTH), what
it calls, and the bytes that the call needs, its return address included
(NEEDS). The bound is the greatest depth plus needs. --dot prints a graph for
Graphviz; the chain that gives the main program's bound is bold. --names prints
behind a procedure its name, as check does, and behind a call that of its
target; in a graph names are in the labels.

An image that is refused has the status 1. Its calls are those that are reached
if what is refused were passed over: below NOT PROVED REFUSALS n stand the
refusals, and what is taken for granted. Bounds aren't known. Refused places
have lines of their own; in a graph they are what red edges lead to.

--board says which regions lie outside a board's memory, as check does.

Example: plm80 calls readings.img readings.regions

Faults and what to do: docs/FAULTS.md (installed: share/doc/plm80), man plm80.";

/// The command `calls`: its name, its help and its arguments.
pub const CALLS: Syntax<'static> = Syntax {
    name: "calls",
    about: "Verifies an image, and prints which procedure calls which, at what depth",
    after_help: AFTER_HELP,
    arguments: &[
        IMAGE,
        REGIONS,
        Argument {
            name: "dot",
            kind: Kind::Flag,
            help: "Print a graph for Graphviz",
        },
        NAMES,
        Argument {
            name: BOARD,
            kind: Kind::PathInPlaceOf(&[]),
            help: "The board's text: say if regions lie outside its memory",
        },
    ],
};

impl<'a> CallsArguments<'a> {
    /// Takes the arguments of `calls` from what clap has matched.
    pub fn of(matches: &ArgMatches<'a>) -> CallsArguments<'a>
        ensures { AreCallsArguments matches.now result }
    {
        CallsArguments {
            files: NamedFiles::of(matches),
            dot: matches.get_flag("dot"),
            board: board_path(matches),
        }
    }
}

/// Does `calls`: prints the calls of the image, or if it is refused those that walks reach, and returns the exit status, 1 for a refusal.
pub fn show_calls<C: Console>(
    console: &mut C,
    arguments: CallsArguments<'_>,
) -> Result<u8, Reported>
    ensures done { let asked = arguments.entry in IfOk result (Gives (WithBoard asked.board (λ _. AnswersProgram (PrintsCalls asked.dot)
        (asks_names asked.files))) (board_paths asked.board ++ program_paths asked.files) (C.journal console.old) (C.journal console.new)) }
    ensures fault { let asked = arguments.entry in IfErr result (λ _. GivesUp (WithBoard asked.board (λ _. AnswersProgram (PrintsCalls asked.dot)
        (asks_names asked.files))) (board_paths asked.board ++ program_paths asked.files) (C.journal console.old) (C.journal console.new)) }
{
    let board = GivenBoard::read(console, arguments.board)?;
    show_on_board(console, arguments.files, arguments.dot, &board)
}

/// Does `calls`, and says where the regions don't lie as the board has memory, if one is given.
fn show_on_board<C: Console>(
    console: &mut C,
    files: NamedFiles<'_>,
    dot: bool,
    board: &GivenBoard,
) -> Result<u8, Reported>
    ensures done { IfOk result (Gives (AnswersProgram (PrintsCalls dot) (asks_names files.entry)) (program_paths files.entry)
        (C.journal console.old) (C.journal console.new)) }
    ensures fault { IfErr result (λ _. GivesUp (AnswersProgram (PrintsCalls dot) (asks_names files.entry)) (program_paths files.entry)
        (C.journal console.old) (C.journal console.new)) }
{
    faults_follow_reading();
    let (image, names) = files.read(console)?;
    let misplaced = board.misplaced(console.alloc(), &image.regions);
    let answer = answer_or_reach(console.alloc(), image, &names, Calls { dot });
    let given = console.give_if_made(answer);
    files.explain(console, &given);
    misplaced.remark(console, &given);
    given
}

/// The calls of a program, as lines or as a graph.
#[derive(Clone, Copy)]
struct Calls {
    dot: bool,
}

impl Printing for Calls {
    ghost says = { λ calls. IsCallsText calls.dot };

    fn text(self, alloc: Global, vouched: &Vouched, names: &Names) -> Result<Vec<u8>, AllocError> {
        let graph = CallGraph::of(alloc, vouched)?;
        let (image, publics) = (vouched.image(), names.publics());
        if self.dot {
            graph_text(alloc, image, publics, &graph)
        } else {
            list_text(alloc, image, publics, &graph)
        }
    }
}

impl Reaching for Calls {
    ghost shows = { λ calls. ShowsCalls calls.dot };

    fn reached_text(
        &self,
        alloc: Global,
        image: &Image,
        names: &Names,
        unproved: &Unproved,
    ) -> Result<Vec<u8>, AllocError> {
        let points = unproved.reach.points.as_slice();
        if self.dot {
            return reach_graph(alloc, image, names.publics(), unproved.count(), points);
        }
        let mut text = unproved.head(alloc, image, names)?;
        let lines = reach_text(alloc, image, names.publics(), points)?;
        text.extend_from_slice(&lines)?;
        Ok(text)
    }
}
