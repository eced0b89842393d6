//! `plm80 explain`: why the verifier refuses a located program, shown by ways through its procedures.

ghost use Rattle.std.specs.Prelude.{◌≡◌, ◌≢◌, ◌++◌, [], IfErr, IfOk, OnOk};
ghost use Rattle.verify80_flow.specs.declared.refusal.Refusal.TheVariants.{Memory};
ghost use Rattle.verify80_explain_text.specs.Printed.{GoesOnWithChain};
ghost use Rattle.plm80_boards.specs.Boards.{WithBoard, board_paths};
ghost use Rattle.plm80_console.specs.Answer.{Gives, GivesUp};
ghost use Rattle.plm80_names.specs.Arguments.{asks_names, program_paths};
ghost use Rattle.plm80_names.specs.{Printed.named_report, Verdict.AnswersProgram};
ghost use Rattle.plm80_programs.specs.Explanations.{PrintsExplanation, ShowsOverrun, ShowsRefusal, ShowsRefused, needed_stack};
ghost use Rattle.plm80_programs.specs.Arguments.{AreExplainArguments};

use crate::all_refusals::all_refused;
use clap::ArgMatches;
use image80::Image;
use loader80::{Refusal, Vouched, vouch};
use plm80_boards::{BOARD, GivenBoard, board_path};
use plm80_console::laws::faults_follow_reading;
use plm80_console::{Answer, Argument, Console, Kind, Reported, Syntax};
use plm80_files::{IMAGE, REGIONS};
use plm80_names::{
    GapUse, NAMES, NamedFiles, Names, explain_accepted, explain_given, named_refusal,
    named_refusal_report, named_report,
};
use std::alloc::{AllocError, Global};
use verify80_explain::measure;
use verify80_explain_text::{append_chain, append_explanation};

/// The most that the points that are found weigh together: eight for a point, one for each word of its frame and each word taken, and as
/// much again for each declared target. So as many points as `check` follows, 262,144, each with its return address.
pub(crate) const LIMIT: usize = 2_359_296;

/// The arguments of the command `explain`.
#[derive(Clone, Copy)]
pub struct ExplainArguments<'a> {
    files: NamedFiles<'a>,
    all: bool,
    /// The path of the board's text.
    board: Option<&'a str>,
}

const AFTER_HELP: &str = "\
The first line and the exit status are those of check. Then come the calls that
lead to the procedure of the fault, and the way through it: a line for each
instruction, as list prints it, with the words that the procedure has on the
stack before it, bottom to top. RET is its own return address, .. any word;
BC=RET, DE=RET or HL=RET is a pair that holds its return address; TAKEN n counts
words that it has taken from beneath its return address. If two ways disagree,
both are shown, under ONE WAY and ANOTHER; if a procedure takes more words than
its caller pushed, under CALLER and CALLEE. If the program is accepted, or its
stack is too small, check's lines for the procedures come first, and then the
chain of calls that needs most: the bytes that each procedure HAS on the stack,
and two more for each call.

With --all every refusal of an instruction that the program's ways meet is
shown, by address, each with its way; then the refusal of check, if it is none
of these; and REFUSALS n. A way ends at its refusal. The refusals behind these
follow, each with what is taken for granted on the way there: IF 0057 IS PASSED
OVER, an EI or a store outside data; IF 0084 RETURNS, a procedure that a refusal
keeps from it; IF 007B BEGINS ANEW, at LXI SP with the stack's top. ON
CONDITIONS n counts them. Nothing is shown behind a PCHL without targets, nor
behind bytes that are no instruction.

--names prints names as check and list do: behind a call its target's, behind
the last line of a chain the address's. --board says which regions lie outside a
board's memory, as check does.

Example: plm80 explain readings.img readings.regions

Faults and what to do: docs/FAULTS.md (installed: share/doc/plm80), man plm80.";

/// The command `explain`: its name, its help and its arguments.
pub const EXPLAIN: Syntax<'static> = Syntax {
    name: "explain",
    about: "Verifies an image as check does, and shows why it is refused",
    after_help: AFTER_HELP,
    arguments: &[
        IMAGE,
        REGIONS,
        Argument {
            name: "all",
            kind: Kind::Flag,
            help: "Show every refusal of an instruction",
        },
        NAMES,
        Argument {
            name: BOARD,
            kind: Kind::PathInPlaceOf(&[]),
            help: "The board's text: say if regions lie outside its memory",
        },
    ],
};

impl<'a> ExplainArguments<'a> {
    /// Takes the arguments of `explain` from what clap has matched.
    pub fn of(matches: &ArgMatches<'a>) -> ExplainArguments<'a>
        ensures { AreExplainArguments matches.now result }
    {
        ExplainArguments {
            files: NamedFiles::of(matches),
            all: matches.get_flag("all"),
            board: board_path(matches),
        }
    }
}

/// Does `explain`: prints the report on the image and its chain of calls, or its refusal and what shows it, and returns the exit status, 1
/// for a refusal.
pub fn explain_files<C: Console>(
    console: &mut C,
    arguments: ExplainArguments<'_>,
) -> Result<u8, Reported>
    ensures done { let asked = arguments.entry in IfOk result (Gives (WithBoard asked.board (λ _. AnswersProgram (PrintsExplanation asked.all)
        (asks_names asked.files))) (board_paths asked.board ++ program_paths asked.files) (C.journal console.old) (C.journal console.new)) }
    ensures fault { let asked = arguments.entry in IfErr result (λ _. GivesUp (WithBoard asked.board (λ _. AnswersProgram
        (PrintsExplanation asked.all)
        (asks_names asked.files))) (board_paths asked.board ++ program_paths asked.files) (C.journal console.old) (C.journal console.new)) }
{
    let board = GivenBoard::read(console, arguments.board)?;
    explain_on_board(console, arguments.files, arguments.all, &board)
}

/// Does `explain`, and says where the regions don't lie as the board has memory, if one is given.
fn explain_on_board<C: Console>(
    console: &mut C,
    files: NamedFiles<'_>,
    all: bool,
    board: &GivenBoard,
) -> Result<u8, Reported>
    ensures done { IfOk result (Gives (AnswersProgram (PrintsExplanation all) (asks_names files.entry)) (program_paths files.entry)
        (C.journal console.old) (C.journal console.new)) }
    ensures fault { IfErr result (λ _. GivesUp (AnswersProgram (PrintsExplanation all) (asks_names files.entry)) (program_paths files.entry)
        (C.journal console.old) (C.journal console.new)) }
{
    faults_follow_reading();
    let (image, names) = files.read(console)?;
    let misplaced = board.misplaced(console.alloc(), &image.regions);
    let answer = explained(console.alloc(), image, all, &names);
    let given = console.give_if_made(answer);
    explain_given(console, &given, files.names, files.image, None);
    if let (true, Ok(1)) = (all, &given) {
        console.explain(
            "a way ends at its refusal, and more may lie behind it: docs/FIRMWARE.md shows how to see that ('An EPROM that is refused')",
        );
    }
    explain_accepted(console, &given, files.image, files.regions, GapUse::Fetched);
    misplaced.remark(console, &given);
    given
}

/// What `explain` answers: the report on `image` and the chain of calls that needs most stack; or, if the verifier refuses it, its refusal,
/// with `all` all that are found, and what shows them.
fn explained(
    alloc: Global,
    image: Image,
    all: bool,
    names: &Names,
) -> Result<Answer<'static>, AllocError>
    ensures { IfOk result (PrintsExplanation all image names.now) }
{
    match vouch(alloc, image) {
        Ok(vouched) => {
            let text = with_chain(alloc, &vouched, names)?;
            Ok(Answer::prints(text, 0))
        }
        Err((image, refusal)) => {
            let text = one_or_all(alloc, &image, refusal, all, names)?;
            Ok(Answer::prints(text, 1))
        }
    }
}

/// The verifier's `refusal` of `image`, with `all` all refusals that are found, and what shows them. `AllocError` if memory runs out, and
/// if `refusal` is that it did.
fn one_or_all(
    alloc: Global,
    image: &Image,
    refusal: Refusal,
    all: bool,
    names: &Names,
) -> Result<Vec<u8>, AllocError>
    ensures shows { IfOk result (λ text. ShowsRefused all image.now names.now refusal text.items) }
    ensures no_memory { OnOk result (refusal ≢ Memory) }
{
    if all {
        all_refused(alloc, image, refusal, names)
    } else {
        refused(alloc, image, refusal, names)
    }
}

/// The report on a program, and the chain of calls that needs most stack.
fn with_chain(alloc: Global, vouched: &Vouched, names: &Names) -> Result<Vec<u8>, AllocError>
    ensures { let program = vouched.now in IfOk result (λ text.
        GoesOnWithChain program.image names.now program.stack_bytes (named_report program names.now) text.items) }
{
    let mut text = named_report(alloc, vouched, names)?;
    let (image, bytes) = (vouched.image(), vouched.stack_bytes());
    append_chain(alloc, &mut text, image, names.publics(), bytes, LIMIT)?;
    Ok(text)
}

/// The line of a refusal of `image`, and what shows it. `AllocError` if memory runs out, and if `refusal` is that it did.
pub(crate) fn refused(
    alloc: Global,
    image: &Image,
    refusal: Refusal,
    names: &Names,
) -> Result<Vec<u8>, AllocError>
    ensures shows { IfOk result (λ text. ShowsRefusal image.now names.now refusal text.items) }
    ensures no_memory { OnOk result (refusal ≢ Memory) }
{
    match needed_stack(refusal) {
        Some(need) => overrun(alloc, image, refusal, need, names),
        None => {
            let mut text = named_refusal(alloc, image, refusal, names)?;
            append_explanation(alloc, &mut text, image, names.publics(), refusal, LIMIT)?;
            Ok(text)
        }
    }
}

/// The bytes of stack that an image needs, if `refusal` is that its stack is too small; `None` for every other refusal.
fn needed_stack(refusal: Refusal) -> Option<u64>
    ensures { result ≡ needed_stack refusal }
{
    match refusal {
        Refusal::StackTooSmall(need, _) => Some(need),
        _ => None,
    }
}

/// The line of the refusal of an image whose stack is smaller than `need` bytes, its procedures, and the chain of calls that needs most
/// stack.
fn overrun(
    alloc: Global,
    image: &Image,
    refusal: Refusal,
    need: u64,
    names: &Names,
) -> Result<Vec<u8>, AllocError>
    ensures { IfOk result (λ text. ShowsOverrun image.now names.now refusal need text.items) }
{
    // Nothing but its stack is wrong: if it can't be measured now, memory has run out.
    let Ok(report) = measure(alloc, image) else {
        return Err(AllocError);
    };
    let mut text = named_refusal_report(alloc, image, refusal, &report.procedures, names)?;
    append_chain(alloc, &mut text, image, names.publics(), need, LIMIT)?;
    Ok(text)
}
