//! Commands that run a located program among the devices of a board.

ghost use Rattle.std.specs.Prelude.{◌≡◌, IfErr, IfOk, IsOkAnd, List};
ghost use Rattle.board80.specs.declared.line.Line.{Line};
ghost use Rattle.machine80_board.specs.BoardRun.{DevicesAreData};
ghost use Rattle.omf_model.specs.declared.symbols.Public.{Public};
ghost use Rattle.plm80_console.specs.{Answer.AnswerValue, Answer.Gives, Answer.GivesUp, Answer.IsAnswered, Answer.IsGiven, Answer.IsGivenUp, Journal.and_blamed};
ghost use Rattle.plm80_runs.specs.OnBoards.{AnswersRunOnBoard, board_program_paths, image_of};
ghost use Rattle.plm80_runs.specs.declared.runnable.Runnable.{Runnable};

use crate::board_files::{BoardFiles, BoardProgram};
use crate::runnable::{Judged, Runnable, judge_run};
use crate::status::BoardEndWords;
use board80::Board;
use image80::laws::text_of_regions_is_read_as_itself;
use machine80_board::misplaced_device;
use plm80_console::{Answer, Console, Reported};
use plm80_names::Names;
use std::alloc::AllocError;
use thiserror::Error;

/// A command that runs a program among the devices of a board.
pub trait BoardCommand {
    // What is answered to a board, the names of a program and the program.
    ghost answers: { Self → List Line → List Public → Runnable → AnswerValue → Type 0 };

    // What is answered in part, if a fault stops the command.
    ghost begins: { Self → List Line → List Public → Runnable → AnswerValue → Type 0 };

    /// Prints the answer to a program that runs and a board, whose devices must lie in the program's data, and returns the exit status.
    fn print<C: Console>(
        self,
        console: &mut C,
        program: &Runnable,
        names: &Names,
        board: &Board,
    ) -> Result<u8, Reported>
        requires { DevicesAreData board.now (image_of program.now).regions }
        ensures done { IfOk result (IsAnswered (answers self board.now names.now program.now)
            (C.journal console.old) (C.journal console.new)) }
        ensures fault { IfErr result (λ _. IsGivenUp (begins self board.now names.now program.now)
            (C.journal console.old) (C.journal console.new)) };
}

/// Reads a board and an image, prints the answer of a command to them if the verifier accepts the image or a table follows its program,
/// or the image's refusal, and returns the exit status. A device of the board that doesn't lie in the image's data is reported before the
/// image is judged.
pub fn print_on_board<C: Console, B: BoardCommand + Drop>(
    console: &mut C,
    files: BoardFiles<'_>,
    command: B,
) -> Result<u8, Reported>
    ensures done { IfOk result (Gives (AnswersRunOnBoard (B.answers command) files.entry) (board_program_paths files.entry)
        (C.journal console.old) (C.journal console.new)) }
    ensures fault { IfErr result (λ _. GivesUp (AnswersRunOnBoard (B.begins command) files.entry) (board_program_paths files.entry)
        (C.journal console.old) (C.journal console.new)) }
{
    text_of_regions_is_read_as_itself();
    let BoardProgram {
        board,
        image,
        names,
    } = files.read(console)?;
    if let Some(number) = misplaced_device(&board, &image.regions) {
        return Err(blame_device(console, files.board, number));
    }
    match judge_run(console.alloc(), image, &names) {
        Ok(Judged::Runs(program)) => command.print(console, &program, &names, &board),
        Ok(Judged::Refused(line)) => console.give(Answer::prints(line, 1)),
        Err(AllocError) => Err(console.report_memory()),
    }
}

/// The number of the first line of a board, counted from 1, whose DEVICE range has an address that is no data.
#[derive(Clone, Copy, Debug, Error)]
#[error("DeviceOutsideData {0}")]
struct DeviceOutsideData(usize);

/// Reports that the device in this line of the board whose text has this path doesn't lie in an image's data.
fn blame_device<C: Console>(console: &mut C, path: &str, number: usize) -> Reported
    ensures { C.journal console.new ≡ and_blamed (C.journal console.old) }
{
    let reported = console.blame_file(path, DeviceOutsideData(number));
    console.explain(
        "an address of this DEVICE is no DATA of the regions: suggest lists devices as DATA, or write a DATA line by hand",
    );
    reported
}

/// What a command answers of a run, and words on how the run ended.
#[derive(Drop)]
pub struct Ran {
    pub answer: Answer<'static>,
    /// Words on how the run ended; `None` if it halted.
    pub end: Option<BoardEndWords>,
}

/// Prints the answer of a run, says how the run ended, and returns the exit status; or reports that memory ran out.
pub fn print_ran<C: Console>(console: &mut C, ran: Result<Ran, AllocError>) -> Result<u8, Reported>
    ensures done { IfOk result (λ status. IsOkAnd ran (λ it. IsGiven it.answer (C.journal console.old) (C.journal console.new) status)) }
    ensures fault { IfErr result (λ _. IsGivenUp (λ answer. IsOkAnd ran (λ it. answer ≡ it.answer)) (C.journal console.old) (C.journal console.new)) }
{
    match ran {
        Ok(Ran { answer, end }) => {
            let status = console.give(answer)?;
            console.explain_any(end);
            Ok(status)
        }
        Err(AllocError) => Err(console.report_memory()),
    }
}
