//! `plm80 run` with `--last` or `--dump`: a run, its last instructions, and the memory that it leaves.

ghost use Rattle.std.specs.Prelude.{◌≡◌, ◌<◌, ◌≤◌, ◌++◌, ℕ, List, Some, IfErr, IfOk, OnErr, OnOk};
ghost use Rattle.std.specs.{Io.KnownBytes.Appends, List.flat_map};
ghost use Rattle.machine80.specs.{Run.IsRun, Step.with_ports};
ghost use Rattle.loader80.specs.TranscriptText.{output_line, stack_line};
ghost use Rattle.plm80_console.specs.Answer.{Gives, GivesUp, IsAnswered, IsGiven, IsGivenUp};
ghost use Rattle.plm80_runs.specs.Running.{AnswersRun, EndsRun, WatchesRun, last_lines, start_of, with_memory};
ghost use Rattle.loader80_trace.specs.Traces.{AppendsFront};
ghost use Rattle.plm80_runs.specs.Arguments.{dump_path, run_paths};
ghost use Rattle.plm80_names.specs.Fronts.{IsFirstOf, LeavesFront};

use crate::endings::ending_of;
use crate::run_arguments::RunFiles;
use loader80::{Ended, Vouched, front_text};
use loader80_trace::{
    Finished, Limits, LineForm, Span, TraceFault, finish, memory_bytes, write_lines,
};
use machine80::{Inputs, PagedBus};
use plm80_bundles::EndWords;
use plm80_console::laws::faults_follow_reading;
use plm80_console::{Answer, Console, Reported};
use plm80_names::{Names, Verdict, judge, report_lines};
use std::alloc::{AllocError, Global};
use stream80::{Sink, write_all};

/// What is asked for of a run beside its transcript, and how long it may last.
#[derive(Clone, Copy)]
pub struct Watch<'a> {
    pub limits: Limits,
    /// How many of the run's last instructions are shown at most.
    pub last: u64,
    /// The path of the file that gets the memory at the end of the run, if one is given.
    pub dump: Option<&'a str>,
}

/// What is left to do of a run whose transcript was written but for its last line.
#[derive(Drop)]
struct Watched<'a> {
    ended: Ended,
    /// The file of the memory at the end, if one is given, the last line of the transcript, and the exit status.
    answer: Answer<'a>,
}

/// Reads the files of a run and runs the image: prints its transcript with its last instructions, writes its memory if a file is named, and
/// returns the exit status. Prints the refusal of an image that the verifier refuses.
pub fn watch_run<C: Console>(
    console: &mut C,
    files: RunFiles<'_>,
    watch: Watch<'_>,
) -> Result<u8, Reported>
    ensures done { let w = watch.entry in IfOk result (Gives (AnswersRun (λ inputs. EndsRun inputs w.limits w.last (dump_path w.dump))
        files.entry.program.names)
        (run_paths files.entry) (C.journal console.old) (C.journal console.new)) }
    ensures fault { let w = watch.entry in IfErr result (λ _. GivesUp (AnswersRun (λ inputs. EndsRun inputs w.limits w.last (dump_path w.dump))
        files.entry.program.names)
        (run_paths files.entry) (C.journal console.old) (C.journal console.new)) }
{
    faults_follow_reading();
    let program = files.read(console)?;
    match judge(console.alloc(), program.image, &program.names) {
        Ok(Verdict::Accepted(vouched)) => {
            print_run(console, &vouched, &program.inputs, watch, &program.names)
        }
        Ok(Verdict::Refused(line)) => console.give(Answer::prints(line, 1)),
        Err(AllocError) => Err(console.report_memory()),
    }
}

/// Runs a program and prints its transcript with its last instructions; before its last line its memory is written, if a file is named.
/// Returns the exit status.
fn print_run<C: Console>(
    console: &mut C,
    vouched: &Vouched,
    inputs: &Inputs,
    watch: Watch<'_>,
    names: &Names,
) -> Result<u8, Reported>
    ensures done { let w = watch.entry in IfOk result (IsAnswered (EndsRun inputs.now.pairs.items w.limits w.last (dump_path w.dump)
        names.now vouched.now) (C.journal console.old) (C.journal console.new)) }
    ensures fault { let w = watch.entry in IfErr result (λ _. IsGivenUp (EndsRun inputs.now.pairs.items w.limits w.last (dump_path w.dump)
        names.now vouched.now) (C.journal console.old) (C.journal console.new)) }
{
    let mut output = console.output();
    let made = write_run(console.alloc(), vouched, inputs, watch, names, &mut output);
    let failure = console.take_back(output);
    match made {
        Ok(watched) => end_run(console, watched),
        Err(fault) => Err(report_lines(console, fault, failure)),
    }
}

/// Writes the memory of a run that was watched, if a file is named, prints the last line of its transcript, and returns the exit status.
fn end_run<C: Console>(console: &mut C, watched: Watched<'_>) -> Result<u8, Reported>
    ensures given { IfOk result (IsGiven watched.entry.answer (C.journal console.old) (C.journal console.new)) }
    ensures fault { IfErr result (λ _. IsGivenUp (λ answer. answer ≡ watched.entry.answer) (C.journal console.old) (C.journal console.new)) }
{
    let Watched { ended, answer } = watched;
    let status = console.give(answer)?;
    console.explain_any(EndWords::of(ended.end, ended.cpu.pc()));
    Ok(status)
}

/// Runs a program and writes its transcript but for the last line, and its last instructions behind that. Returns what is left to do.
fn write_run<'a, K: Sink>(
    alloc: Global,
    vouched: &Vouched,
    inputs: &Inputs,
    watch: Watch<'a>,
    names: &Names,
    out: &mut K,
) -> Result<Watched<'a>, TraceFault>
    requires { K.failed out.old < u64.MAX }
    ensures watched { let w = watch.entry in IfOk result (λ watched. (text : List ℕ) × Appends (K.written out.old) (K.written out.new) text
        × WatchesRun inputs.now.pairs.items w.limits w.last (dump_path w.dump) names.now vouched.now text
        watched.ended watched.answer) }
    ensures front { let w = watch.entry in OnErr result (LeavesFront
        (IsFirstOf (EndsRun inputs.now.pairs.items w.limits w.last (dump_path w.dump) names.now vouched.now))
        (K.written out.old) (K.written out.new)) }
{
    let first = copy_of(alloc, inputs)?;
    let finished = finish(alloc, vouched, first, watch.limits)?;
    write_finished(alloc, vouched, &finished, inputs, watch, names, out)
}

/// Writes the transcript of a finished run but for the last line, and its last instructions behind that. Returns what is left to do.
fn write_finished<'a, K: Sink>(
    alloc: Global,
    vouched: &Vouched,
    finished: &Finished,
    inputs: &Inputs,
    watch: Watch<'a>,
    names: &Names,
    out: &mut K,
) -> Result<Watched<'a>, TraceFault>
    requires countable { K.failed out.old < u64.MAX }
    requires finished { let program = vouched.now in let at = finished.now in
        IsRun program.image.regions (Some watch.limits.outputs) (start_of program inputs.now.pairs.items) watch.limits.steps at.ended.steps
        (with_ports at.ended.cpu at.bus at.ports) at.ended.end }
    ensures watched { let w = watch.entry in IfOk result (λ watched. (text : List ℕ) × Appends (K.written out.old) (K.written out.new) text
        × WatchesRun inputs.now.pairs.items w.limits w.last (dump_path w.dump) names.now vouched.now text
        watched.ended watched.answer) }
    ensures front { let w = watch.entry in OnErr result (LeavesFront
        (IsFirstOf (EndsRun inputs.now.pairs.items w.limits w.last (dump_path w.dump) names.now vouched.now))
        (K.written out.old) (K.written out.new)) }
{
    write_front(alloc, vouched, finished, out)?;
    write_last(alloc, vouched, &finished.ended, inputs, watch, names, out)?;
    let ending = ending_of(alloc, vouched, &finished.ended, names)?;
    let answer = with_memory(alloc, &finished.bus, watch.dump, ending)?;
    Ok(Watched {
        ended: finished.ended,
        answer,
    })
}

/// A copy of the inputs, since an image runs twice if its last instructions are shown.
fn copy_of(alloc: Global, inputs: &Inputs) -> Result<Inputs, AllocError>
    ensures { IfOk result (λ copy. copy.pairs.items ≡ inputs.now.pairs.items) }
{
    let pairs = inputs.pairs.to_vec(alloc)?;
    Ok(Inputs { pairs })
}

/// Writes the transcript of a finished run, but for its last line.
fn write_front<K: Sink>(
    alloc: Global,
    vouched: &Vouched,
    finished: &Finished,
    out: &mut K,
) -> Result<(), TraceFault>
    requires { K.failed out.old < u64.MAX }
    ensures written { OnOk result (Appends (K.written out.old) (K.written out.new)
        (stack_line vouched.now.stack_bytes ++ flat_map output_line finished.now.ports.outputs)) }
    ensures front { OnErr result (AppendsFront (K.written out.old) (K.written out.new)
        (stack_line vouched.now.stack_bytes ++ flat_map output_line finished.now.ports.outputs)) }
    ensures failures { OnOk result (K.failed out.new ≡ K.failed out.old) }
{
    let text = front_text(alloc, vouched.stack_bytes(), finished.ports.outputs())?;
    write_all(out, text.as_bytes())?;
    Ok(())
}

/// Writes the last instructions of a run that ended as `ended`, by running the program once more.
fn write_last<K: Sink>(
    alloc: Global,
    vouched: &Vouched,
    ended: &Ended,
    inputs: &Inputs,
    watch: Watch<'_>,
    names: &Names,
    out: &mut K,
) -> Result<(), TraceFault>
    requires countable { K.failed out.old < u64.MAX }
    requires within { ended.now.steps ≤ watch.limits.steps }
    ensures written { OnOk result (Appends (K.written out.old) (K.written out.new)
        (last_lines inputs.now.pairs.items watch.entry.limits watch.entry.last names.now vouched.now ended.now)) }
    ensures front { OnErr result (AppendsFront (K.written out.old) (K.written out.new)
        (last_lines inputs.now.pairs.items watch.entry.limits watch.entry.last names.now vouched.now ended.now)) }
{
    if watch.last == 0 {
        return Ok(());
    }
    let span = Span::last_of(ended, watch.last);
    let form = LineForm {
        numbered: false,
        publics: names.publics(),
    };
    let again = copy_of(alloc, inputs)?;
    write_lines(alloc, vouched, again, watch.limits, span, form, out)?;
    Ok(())
}

/// The answer behind the file `path` with the memory that a run leaves; the answer as it is if no path is given.
fn with_memory<'a>(
    alloc: Global,
    bus: &PagedBus,
    path: Option<&'a str>,
    answer: Answer<'a>,
) -> Result<Answer<'a>, AllocError>
    ensures { IfOk result (λ made. made ≡ with_memory (dump_path path.entry) bus.now answer.entry) }
{
    match path {
        Some(path) => {
            let bytes = memory_bytes(alloc, bus)?;
            Ok(answer.behind_file(path, bytes))
        }
        None => Ok(answer),
    }
}
