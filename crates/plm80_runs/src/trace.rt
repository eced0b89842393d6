//! `plm80 trace`: the instructions of a located program's run, a line each.

ghost use Rattle.std.specs.Prelude.{◌≡◌, IfErr, IfOk};
ghost use Rattle.plm80_console.specs.Answer.{Gives, GivesUp, IsAnswered, IsGiven, IsGivenUp};
ghost use Rattle.plm80_runs.specs.Running.{AnswersRun, TracesFiles, TracesFilesInPart, TracesPart, TracesRun, trace_ending};
ghost use Rattle.plm80_runs.specs.Arguments.{AreTraceArguments, run_paths};

use crate::board_files::BOARD_FOR_INPUTS;
use crate::endings::trace_ending_of;
use crate::run_arguments::{COUNT, FROM, INPUTS, LimitTexts, OUTPUTS, RunFiles, STEPS, SpanTexts};
use clap::ArgMatches;
use loader80::{Ended, Vouched};
use loader80_trace::{Limits, LineForm, Span, write_lines};
use machine80::Inputs;
use plm80_bundles::EndWords;
use plm80_console::laws::faults_follow_reading;
use plm80_console::{Answer, Console, Reported, Syntax};
use plm80_files::{IMAGE, REGIONS};
use plm80_names::{NAMES, Names, Verdict, judge, report_lines};
use std::alloc::AllocError;

/// The arguments of the command `trace`.
#[derive(Clone, Copy)]
pub struct TraceArguments<'a> {
    files: RunFiles<'a>,
    limits: LimitTexts<'a>,
    span: SpanTexts<'a>,
}

const AFTER_HELP: &str = "\
Each instruction has a line: the number of the steps before it, the instruction
as list prints it, and the registers before it, F being the flags byte. IN and
OUT show the byte, as in IN 02=41; an IN shows no byte if none waits. Lines
begin after --from steps and are printed as they come. If the run ends within
--count lines, run's last line follows, and the exit status is run's; otherwise
it is 0.

--names prints names as run does. With --board the program runs among the
devices of a board's text, as with run, and INPUTS is left out.

Example: plm80 trace readings.img readings.regions readings.inputs --count 20

Faults and what to do: docs/FAULTS.md (installed: share/doc/plm80), man plm80.";

/// The command `trace`: its name, its help and its arguments.
pub const TRACE: Syntax<'static> = Syntax {
    name: "trace",
    about: "Verifies an image and runs it: prints its instructions, with the registers",
    after_help: AFTER_HELP,
    arguments: &[
        IMAGE,
        REGIONS,
        INPUTS,
        FROM,
        COUNT,
        STEPS,
        OUTPUTS,
        NAMES,
        BOARD_FOR_INPUTS,
    ],
};

impl<'a> TraceArguments<'a> {
    /// Takes the arguments of `trace` from what clap has matched.
    pub fn of(matches: &ArgMatches<'a>) -> TraceArguments<'a>
        ensures { AreTraceArguments matches.now result }
    {
        TraceArguments {
            files: RunFiles::of(matches),
            limits: LimitTexts::of(matches),
            span: SpanTexts::of(matches),
        }
    }
}

/// Does `trace`: runs the image and prints the instructions that are asked for, or its refusal, and returns the exit status.
pub fn trace_files<C: Console>(
    console: &mut C,
    arguments: TraceArguments<'_>,
) -> Result<u8, Reported>
    ensures done { let asked = arguments.entry in IfOk result (Gives (TracesFiles asked) (run_paths asked.files)
        (C.journal console.old) (C.journal console.new)) }
    ensures fault { IfErr result (λ _. GivesUp (TracesFilesInPart arguments.entry) (run_paths arguments.entry.files)
        (C.journal console.old) (C.journal console.new)) }
{
    let limits = arguments.limits.numbers(console)?;
    let span = arguments.span.numbers(console)?;
    let given = trace_within(console, arguments.files, limits, span);
    arguments.files.program.explain(console, &given);
    given
}

/// Reads the files of a run, runs the image within `limits`, prints the instructions of `span`, or the image's refusal, and returns the
/// exit status.
fn trace_within<C: Console>(
    console: &mut C,
    files: RunFiles<'_>,
    limits: Limits,
    span: Span,
) -> Result<u8, Reported>
    ensures done { IfOk result (Gives (AnswersRun (λ inputs. TracesRun inputs limits span) files.entry.program.names) (run_paths files.entry)
        (C.journal console.old) (C.journal console.new)) }
    ensures fault { IfErr result (λ _. GivesUp (AnswersRun (λ inputs. TracesPart inputs limits span) files.entry.program.names)
        (run_paths files.entry)
        (C.journal console.old) (C.journal console.new)) }
{
    faults_follow_reading();
    let program = files.read(console)?;
    let inputs = program.inputs;
    match judge(console.alloc(), program.image, &program.names) {
        Ok(Verdict::Accepted(vouched)) => {
            print_trace(console, &vouched, inputs, limits, span, &program.names)
        }
        Ok(Verdict::Refused(line)) => console.give(Answer::prints(line, 1)),
        Err(AllocError) => Err(console.report_memory()),
    }
}

/// Prints the instructions of `span` of a program's run, and how the run ended if they reach that, and returns the exit status.
fn print_trace<C: Console>(
    console: &mut C,
    vouched: &Vouched,
    inputs: Inputs,
    limits: Limits,
    span: Span,
    names: &Names,
) -> Result<u8, Reported>
    ensures done { IfOk result (IsAnswered (TracesRun inputs.pairs.items limits span names.now vouched.now)
        (C.journal console.old) (C.journal console.new)) }
    ensures fault { IfErr result (λ _. IsGivenUp (TracesPart inputs.pairs.items limits span names.now vouched.now)
        (C.journal console.old) (C.journal console.new)) }
{
    let form = LineForm {
        numbered: true,
        publics: names.publics(),
    };
    let mut output = console.output();
    let written = write_lines(
        console.alloc(),
        vouched,
        inputs,
        limits,
        span,
        form,
        &mut output,
    );
    let failure = console.take_back(output);
    match written {
        Ok(ended) => end_trace(console, vouched, &ended, names),
        Err(fault) => Err(report_lines(console, fault, failure)),
    }
}

/// Prints how a run ended, if its lines reached that, and returns the exit status: 0 if they didn't.
fn end_trace<C: Console>(
    console: &mut C,
    vouched: &Vouched,
    ended: &Option<Ended>,
    names: &Names,
) -> Result<u8, Reported>
    ensures given { IfOk result (IsGiven (trace_ending vouched.now names.now ended.now) (C.journal console.old) (C.journal console.new)) }
    ensures fault { IfErr result (λ _. IsGivenUp (λ answer. answer ≡ trace_ending vouched.now names.now ended.now) (C.journal console.old)
        (C.journal console.new)) }
{
    let Ok(ending) = trace_ending_of(console.alloc(), vouched, ended, names) else {
        return Err(console.report_memory());
    };
    let status = console.give(ending)?;
    match ended {
        Some(ended) => console.explain_any(EndWords::of(ended.end, ended.cpu.pc())),
        None => console.explain("more instructions follow: --from and --count choose others"),
    }
    Ok(status)
}
