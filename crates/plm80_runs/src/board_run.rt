//! `plm80 run --board` and `plm80 cover --board`: what is printed of a located program's run among the devices of a board.

ghost use Rattle.std.specs.Prelude.{◌≡◌, None, IfErr, IfNone, IfOk, IfSome, codes};
ghost use Rattle.clap.specs.Matches.{first_value, found_of};
ghost use Rattle.machine80_board.specs.BoardRun.{DevicesAreData};
ghost use Rattle.plm80_console.specs.Answer.{Gives, GivesUp};
ghost use Rattle.plm80_runs.specs.Arguments.{AreBoardRunArguments};
ghost use Rattle.plm80_runs.specs.OnBoards.{PrintsRun, RunsOnBoard, TranscribesRun, board_program_paths, image_of};

use crate::board_cover::cover_run;
use crate::board_files::BoardFiles;
use crate::endings::name_ending;
use crate::on_board::{BoardCommand, Ran, print_on_board, print_ran};
use crate::run_arguments::LimitTexts;
use crate::runnable::Runnable;
use crate::status::{BoardEndWords, board_status_of};
use board80::Board;
use clap::ArgMatches;
use loader80_board::{BoardTranscript, transcribe_on_board};
use loader80_trace::Limits;
use plm80_console::{Answer, Console, Reported};
use plm80_names::Names;
use std::alloc::{AllocError, Global};

/// The arguments of the commands `run` and `cover` with a board in place of inputs.
#[derive(Clone, Copy)]
pub struct BoardRunArguments<'a> {
    files: BoardFiles<'a>,
    limits: LimitTexts<'a>,
}

impl<'a> BoardRunArguments<'a> {
    /// Takes the arguments of `run` or `cover` from what clap has matched; `None` if no board is given.
    pub fn of(matches: &ArgMatches<'a>) -> Option<BoardRunArguments<'a>>
        ensures given { IfSome result (AreBoardRunArguments matches.now) }
        ensures none { IfNone result (first_value (found_of matches.now) (codes "board") ≡ None) }
    {
        let files = BoardFiles::of(matches)?;
        Some(BoardRunArguments {
            files,
            limits: LimitTexts::of(matches),
        })
    }
}

/// What is printed of a run.
#[derive(Clone, Copy)]
pub enum RunOutput {
    /// The transcript of the run, as by `run`.
    Transcript,
    /// The program's code with how often the run began each instruction, as by `cover`.
    Counts,
}

/// Does `run --board` or `cover --board`: runs the image among the devices of the board if the verifier accepts it or a table follows it,
/// prints what is asked for of the run, or the refusal of the image, and returns the exit status: that of the run, 1 for a refusal.
pub fn run_among_devices<C: Console>(
    console: &mut C,
    arguments: BoardRunArguments<'_>,
    output: RunOutput,
) -> Result<u8, Reported>
    ensures done { let asked = arguments.entry in IfOk result (Gives (RunsOnBoard output asked) (board_program_paths asked.files)
        (C.journal console.old) (C.journal console.new)) }
    ensures fault { let asked = arguments.entry in IfErr result (λ _. GivesUp (RunsOnBoard output asked) (board_program_paths asked.files)
        (C.journal console.old) (C.journal console.new)) }
{
    let limits = arguments.limits.numbers(console)?;
    let given = print_on_board(console, arguments.files, BoardRun { limits, output });
    arguments.files.program.explain(console, &given);
    given
}

/// A run within these limits.
#[derive(Clone, Copy)]
struct BoardRun {
    limits: Limits,
    output: RunOutput,
}

impl BoardCommand for BoardRun {
    ghost answers = { λ self. PrintsRun self.output self.limits };

    ghost begins = { λ self. PrintsRun self.output self.limits };

    fn print<C: Console>(
        self,
        console: &mut C,
        program: &Runnable,
        names: &Names,
        board: &Board,
    ) -> Result<u8, Reported> {
        let ran = self.run(console.alloc(), program, names, board);
        print_ran(console, ran)
    }
}

impl BoardRun {
    /// What is printed of a program's run on a board, and how the run ends. The board's devices must lie in the program's data.
    ///
    /// # Errors
    /// `AllocError` only if memory runs out.
    fn run(
        self,
        alloc: Global,
        program: &Runnable,
        names: &Names,
        board: &Board,
    ) -> Result<Ran, AllocError>
        requires { DevicesAreData board.now (image_of program.now).regions }
        ensures { IfOk result (λ ran. PrintsRun self.output self.limits board.now names.now program.now ran.answer) }
    {
        match self.output {
            RunOutput::Transcript => transcribe(alloc, program, names, board, self.limits),
            RunOutput::Counts => cover_run(alloc, program, names, board, self.limits),
        }
    }
}

/// The transcript of a program's run on a board, behind the program's first line, and how the run ends. The board's devices must lie in the
/// program's data.
///
/// # Errors
/// `AllocError` only if memory runs out.
fn transcribe(
    alloc: Global,
    program: &Runnable,
    names: &Names,
    board: &Board,
    limits: Limits,
) -> Result<Ran, AllocError>
    requires { DevicesAreData board.now (image_of program.now).regions }
    ensures { IfOk result (λ ran. TranscribesRun limits board.now names.now program.now ran.answer) }
{
    let image = program.image();
    let BoardTranscript { ended, text } = transcribe_on_board(
        alloc,
        image,
        program.stack_bytes(),
        board,
        limits,
    )?;
    let named = name_ending(alloc, image.regions.code(), text.into_bytes(), names)?;
    let mut lines = program.first_line(alloc)?;
    lines.extend_from_slice(&named)?;
    Ok(Ran {
        answer: Answer::prints(lines, board_status_of(ended.end)),
        end: BoardEndWords::of(ended.end, ended.at),
    })
}
