//! `plm80 cover`: the code of a located program, with how often a run began each instruction.

ghost use Rattle.std.specs.Prelude.{IfErr, IfOk};
ghost use Rattle.plm80_console.specs.Answer.{Gives, GivesUp, IsAnswered, IsGivenUp};
ghost use Rattle.plm80_names.specs.Verdict.{AnswersVerdict};
ghost use Rattle.plm80_runs.specs.Arguments.{AreCoverArguments, run_paths};
ghost use Rattle.plm80_runs.specs.Running.{CountsRun, CoversFiles};

use crate::board_files::BOARD_FOR_INPUTS;
use crate::run_arguments::{INPUTS, LimitTexts, OUTPUTS, RunFiles, STEPS};
use clap::ArgMatches;
use image80::Image;
use loader80::Vouched;
use loader80_trace::{Limits, count_steps, cover};
use machine80::Inputs;
use plm80_bundles::{EndWords, status_of};
use plm80_console::laws::faults_follow_reading;
use plm80_console::{Answer, Console, Reported, Syntax};
use plm80_files::{IMAGE, REGIONS};
use plm80_names::{NAMES, Names, Verdict, judge};
use std::alloc::{AllocError, Global};

/// The arguments of the command `cover`.
#[derive(Clone, Copy)]
pub struct CoverArguments<'a> {
    files: RunFiles<'a>,
    limits: LimitTexts<'a>,
}

const AFTER_HELP: &str = "\
Each instruction that the program may reach has a line, as list prints it, with
the number of times that the run began it, or - if it never did. Its other code
is data, eight bytes a line. The last line counts the instructions that the run
began, of all. The exit status is that of run: 0 if the run halted, 1 if the
image is refused, 3 or 4 if the run ended otherwise. --names prints names as
list does. With --board the program runs among the devices of a board's text, as
with run, and INPUTS is left out.

Example: plm80 cover readings.img readings.regions readings.inputs

Faults and what to do: docs/FAULTS.md (installed: share/doc/plm80), man plm80.";

/// The command `cover`: its name, its help and its arguments.
pub const COVER: Syntax<'static> = Syntax {
    name: "cover",
    about: "Verifies an image and runs it: prints how often it began each instruction",
    after_help: AFTER_HELP,
    arguments: &[
        IMAGE,
        REGIONS,
        INPUTS,
        STEPS,
        OUTPUTS,
        NAMES,
        BOARD_FOR_INPUTS,
    ],
};

impl<'a> CoverArguments<'a> {
    /// Takes the arguments of `cover` from what clap has matched.
    pub fn of(matches: &ArgMatches<'a>) -> CoverArguments<'a>
        ensures { AreCoverArguments matches.now result }
    {
        CoverArguments {
            files: RunFiles::of(matches),
            limits: LimitTexts::of(matches),
        }
    }
}

/// Does `cover`: runs the image and prints its code with the counts of the run, or its refusal, and returns the exit status: that of the
/// run, 1 for a refusal.
pub fn cover_files<C: Console>(
    console: &mut C,
    arguments: CoverArguments<'_>,
) -> Result<u8, Reported>
    ensures done { let asked = arguments.entry in IfOk result (Gives (CoversFiles asked) (run_paths asked.files)
        (C.journal console.old) (C.journal console.new)) }
    ensures fault { IfErr result (λ _. GivesUp (CoversFiles arguments.entry) (run_paths arguments.entry.files)
        (C.journal console.old) (C.journal console.new)) }
{
    faults_follow_reading();
    let limits = arguments.limits.numbers(console)?;
    let program = arguments.files.read(console)?;
    let inputs = program.inputs;
    let given = print_counts(console, program.image, &program.names, inputs, limits);
    arguments.files.program.explain(console, &given);
    given
}

/// What `cover` answers, and words on how the run ended.
#[derive(Drop)]
struct Covered {
    answer: Answer<'static>,
    /// Words on how the run ended; `None` if it halted, and of a refusal.
    end: Option<EndWords>,
}

/// Prints the code of `image` with the counts of its run, or its refusal, says how the run ended, and returns the exit status.
fn print_counts<C: Console>(
    console: &mut C,
    image: Image,
    names: &Names,
    inputs: Inputs,
    limits: Limits,
) -> Result<u8, Reported>
    ensures done { IfOk result (IsAnswered (AnswersVerdict (CountsRun inputs.pairs.items limits names.now) image names.now)
        (C.journal console.old) (C.journal console.new)) }
    ensures fault { IfErr result (λ _. IsGivenUp (AnswersVerdict (CountsRun inputs.pairs.items limits names.now) image names.now)
        (C.journal console.old) (C.journal console.new)) }
{
    match judged(console.alloc(), image, names, inputs, limits) {
        Ok(Covered { answer, end }) => {
            let status = console.give(answer)?;
            console.explain_any(end);
            Ok(status)
        }
        Err(_) => Err(console.report_memory()),
    }
}

/// What `cover` answers: the code of `image` with the counts of its run; the line of its refusal if the verifier refuses it.
fn judged(
    alloc: Global,
    image: Image,
    names: &Names,
    inputs: Inputs,
    limits: Limits,
) -> Result<Covered, AllocError>
    ensures { IfOk result (λ covered. AnswersVerdict (CountsRun inputs.pairs.items limits names.now) image names.now covered.answer) }
{
    match judge(alloc, image, names)? {
        Verdict::Accepted(vouched) => counted(alloc, &vouched, names, inputs, limits),
        Verdict::Refused(line) => Ok(Covered {
            answer: Answer::prints(line, 1),
            end: None,
        }),
    }
}

/// The code of a program, with how often its run on these inputs begins each instruction, and how the run ends.
fn counted(
    alloc: Global,
    vouched: &Vouched,
    names: &Names,
    inputs: Inputs,
    limits: Limits,
) -> Result<Covered, AllocError>
    ensures { IfOk result (λ covered. CountsRun inputs.pairs.items limits names.now vouched.now covered.answer) }
{
    let counts = count_steps(alloc, vouched, inputs, limits)?;
    let text = cover(alloc, vouched, &counts.steps)?;
    let text = names.label(alloc, false, text)?;
    let (end, at) = (counts.ended.end, counts.ended.cpu.pc());
    Ok(Covered {
        answer: Answer::prints(text, status_of(end)),
        end: EndWords::of(end, at),
    })
}
