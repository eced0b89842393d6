//! `plm80 trace --board`: the instructions of a located program's run among the devices of a board.

ghost use Rattle.std.specs.Prelude.{◌≡◌, ◌<◌, ◌++◌, ℕ, List, None, IfErr, IfNone, IfOk, IfSome, OnErr, OnOk, codes};
ghost use Rattle.std.specs.Io.KnownBytes.{Appends};
ghost use Rattle.clap.specs.Matches.{first_value, found_of};
ghost use Rattle.loader80_trace.specs.Traces.{AppendsFront};
ghost use Rattle.machine80_board.specs.BoardRun.{DevicesAreData};
ghost use Rattle.plm80_console.specs.Answer.{Gives, GivesUp, IsGiven, IsGivenUp};
ghost use Rattle.plm80_names.specs.Fronts.{LeavesFront};
ghost use Rattle.plm80_runs.specs.Arguments.{AreBoardTraceArguments};
ghost use Rattle.plm80_runs.specs.OnBoards.{BeginsTrace, TracesBoardFiles, TracesBoardFilesInPart, TracesLines};
ghost use Rattle.plm80_runs.specs.OnBoards.{TracesOnBoard, TracesOnBoardInPart, board_program_paths, board_trace_ending, first_line, image_of};

use crate::board_files::BoardFiles;
use crate::endings::board_trace_ending_of;
use crate::on_board::{BoardCommand, print_on_board};
use crate::run_arguments::{LimitTexts, SpanTexts};
use crate::runnable::Runnable;
use crate::status::BoardEndWords;
use board80::Board;
use clap::ArgMatches;
use loader80_board::{BoardEnded, write_board_lines};
use loader80_trace::{Limits, LineForm, Span, TraceFault};
use plm80_console::{Console, Reported};
use plm80_names::{Names, report_lines};
use std::alloc::Global;
use stream80::{Sink, write_all};

/// The arguments of the command `trace` with a board in place of inputs.
#[derive(Clone, Copy)]
pub struct BoardTraceArguments<'a> {
    files: BoardFiles<'a>,
    limits: LimitTexts<'a>,
    span: SpanTexts<'a>,
}

impl<'a> BoardTraceArguments<'a> {
    /// Takes the arguments of `trace` from what clap has matched; `None` if no board is given.
    pub fn of(matches: &ArgMatches<'a>) -> Option<BoardTraceArguments<'a>>
        ensures given { IfSome result (AreBoardTraceArguments matches.now) }
        ensures none { IfNone result (first_value (found_of matches.now) (codes "board") ≡ None) }
    {
        let files = BoardFiles::of(matches)?;
        Some(BoardTraceArguments {
            files,
            limits: LimitTexts::of(matches),
            span: SpanTexts::of(matches),
        })
    }
}

/// Does `trace --board`: runs the image among the devices of the board if the verifier accepts it or a table follows it, prints the
/// instructions that are asked for, or the refusal of the image, and returns the exit status.
pub fn trace_among_devices<C: Console>(
    console: &mut C,
    arguments: BoardTraceArguments<'_>,
) -> Result<u8, Reported>
    ensures done { let asked = arguments.entry in IfOk result (Gives (TracesBoardFiles asked) (board_program_paths asked.files)
        (C.journal console.old) (C.journal console.new)) }
    ensures fault { let asked = arguments.entry in IfErr result (λ _. GivesUp (TracesBoardFilesInPart asked) (board_program_paths asked.files)
        (C.journal console.old) (C.journal console.new)) }
{
    let limits = arguments.limits.numbers(console)?;
    let span = arguments.span.numbers(console)?;
    let given = print_on_board(console, arguments.files, Trace { limits, span });
    arguments.files.program.explain(console, &given);
    given
}

/// The instructions of this span of a run within these limits.
#[derive(Clone, Copy)]
struct Trace {
    limits: Limits,
    span: Span,
}

impl BoardCommand for Trace {
    ghost answers = { λ self. TracesOnBoard self.limits self.span };

    ghost begins = { λ self. TracesOnBoardInPart self.limits self.span };

    fn print<C: Console>(
        self,
        console: &mut C,
        program: &Runnable,
        names: &Names,
        board: &Board,
    ) -> Result<u8, Reported> {
        let mut output = console.output();
        let written = write_trace(console.alloc(), program, names, board, self, &mut output);
        let failure = console.take_back(output);
        match written {
            Ok(ended) => end_trace(console, program, &ended, names),
            Err(fault) => Err(report_lines(console, fault, failure)),
        }
    }
}

/// Writes the first line of a program, if it has one, and behind it the instructions of its run on a board. Returns how the run ended if
/// they reach that. The board's devices must lie in the program's data.
fn write_trace<K: Sink>(
    alloc: Global,
    program: &Runnable,
    names: &Names,
    board: &Board,
    trace: Trace,
    out: &mut K,
) -> Result<Option<BoardEnded>, TraceFault>
    requires countable { K.failed out.old < u64.MAX }
    requires devices { DevicesAreData board.now (image_of program.now).regions }
    ensures written { IfOk result (λ ended. (text : List ℕ) × Appends (K.written out.old) (K.written out.new) (first_line program.now ++ text)
        × TracesLines trace.limits trace.span board.now names.now (image_of program.now) text ended) }
    ensures front { OnErr result (LeavesFront (BeginsTrace trace.limits trace.span board.now names.now program.now)
        (K.written out.old) (K.written out.new)) }
{
    write_first(alloc, program, out)?;
    let form = LineForm {
        numbered: true,
        publics: names.publics(),
    };
    write_board_lines(
        alloc,
        program.image(),
        board,
        trace.limits,
        trace.span,
        form,
        out,
    )
}

/// Writes the first line of a program, if it has one.
fn write_first<K: Sink>(alloc: Global, program: &Runnable, out: &mut K) -> Result<(), TraceFault>
    requires { K.failed out.old < u64.MAX }
    ensures written { OnOk result (Appends (K.written out.old) (K.written out.new) (first_line program.now)) }
    ensures front { OnErr result (AppendsFront (K.written out.old) (K.written out.new) (first_line program.now)) }
    ensures failures { OnOk result (K.failed out.new ≡ K.failed out.old) }
{
    let first = program.first_line(alloc)?;
    write_all(out, &first)?;
    Ok(())
}

/// Prints how a run ended, if its lines reached that, and returns the exit status: 0 if they didn't.
fn end_trace<C: Console>(
    console: &mut C,
    program: &Runnable,
    ended: &Option<BoardEnded>,
    names: &Names,
) -> Result<u8, Reported>
    ensures given { IfOk result (IsGiven (board_trace_ending (image_of program.now) names.now ended.now) (C.journal console.old) (C.journal console.new)) }
    ensures fault { IfErr result (λ _. IsGivenUp (λ answer. answer ≡ board_trace_ending (image_of program.now) names.now ended.now)
        (C.journal console.old) (C.journal console.new)) }
{
    let Ok(ending) = board_trace_ending_of(console.alloc(), program.image(), ended, names) else {
        return Err(console.report_memory());
    };
    let status = console.give(ending)?;
    match ended {
        Some(ended) => console.explain_any(BoardEndWords::of(ended.end, ended.at)),
        None => console.explain("more instructions follow: --from and --count choose others"),
    }
    Ok(status)
}
