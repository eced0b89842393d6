//! A session on files, with its transcript on standard output.

ghost use Rattle.std.specs.Prelude.{◌≡◌, ◌≢◌, ◌<◌, None, IfErr, IfOk, option_copied};
ghost use Rattle.loader80.specs.Sends.{Sends};
ghost use Rattle.plm80_console.specs.{Answer.AnswerValue, Answer.Gives, Answer.GivesUp, Answer.IsAnswered, Journal.Blames, Journal.and_blamed};
ghost use Rattle.plm80_names.specs.Blaming.{GivesUpOrBlames};
ghost use Rattle.plm80_runs.specs.Running.{AnswersSession, AnswersTexts, fault_file, session_status, texts_of};
ghost use Rattle.plm80_runs.specs.Arguments.{run_paths};

use crate::run_arguments::{RunFiles, RunTexts};
use image80::laws::text_of_regions_is_read_as_itself;
use image80_file::laws::one_image_reading;
use loader80::{Outcome, SessionFault, session};
use loader80_trace::Limits;
use plm80_bundles::{EndWords, status_of};
use plm80_console::{Console, Lack, ReadFile, Reported};
use plm80_files::{UnreadBytes, explain_image, explain_inputs, explain_regions, place_of_regions};
use std::alloc::Global;
use std::io::ErrorKind;
use stream80::{Reading, Sink};

/// Reads the files of a run, does a session on them, prints its transcript, and returns the exit status.
pub fn run_session<C: Console>(
    console: &mut C,
    files: RunFiles<'_>,
    limits: Limits,
) -> Result<u8, Reported>
    ensures done { IfOk result (Gives (AnswersSession limits) (run_paths files.entry) (C.journal console.old) (C.journal console.new)) }
    ensures fault { IfErr result (λ _. GivesUp (AnswersSession limits) (run_paths files.entry) (C.journal console.old) (C.journal console.new)) }
{
    let texts = files.texts(console)?;
    let given = print_session(console, &texts, limits);
    files.program.explain(console, &given);
    given
}

/// Does a session on `texts`, prints its transcript, and returns the exit status. Reports every fault but a refusal, which is printed.
fn print_session<C: Console>(
    console: &mut C,
    texts: &RunTexts<'_>,
    limits: Limits,
) -> Result<u8, Reported>
    ensures done { IfOk result (IsAnswered (AnswersTexts limits (texts_of texts.now)) (C.journal console.old) (C.journal console.new)) }
    ensures fault { IfErr result (λ _. GivesUpOrBlames ((answer : AnswerValue) → AnswersTexts limits (texts_of texts.now) answer → ⊥)
        (AnswersTexts limits (texts_of texts.now)) (C.journal console.old) (C.journal console.new)) }
{
    text_of_regions_is_read_as_itself();
    one_image_reading();
    let mut output = console.output();
    let answer = session_of(console.alloc(), texts, limits, &mut output);
    let failure = console.take_back(output);
    if let Ok(outcome) = &answer {
        let image = &texts.program.image;
        console.explain_any(UnreadBytes::of(image.path, &image.bytes));
        console.explain_any(EndWords::of(outcome.end, outcome.at));
    }
    match session_status(answer) {
        Ok(status) => Ok(status),
        Err(fault) => Err(report_session(console, texts, fault, failure)),
    }
}

/// The exit status of a session by what it answers: that of its run, or 1 of a refusal. Every other fault is returned as it is.
fn session_status(answer: Result<Outcome, SessionFault>) -> Result<u8, SessionFault>
    ensures { result ≡ session_status answer }
{
    match answer {
        Ok(outcome) => Ok(status_of(outcome.end)),
        Err(SessionFault::Refused(_)) => Ok(1),
        Err(fault) => Err(fault),
    }
}

/// Does a session on `texts`, writes its transcript to `out`, and returns its answer.
fn session_of<K: Sink>(
    alloc: Global,
    texts: &RunTexts<'_>,
    limits: Limits,
    out: &mut K,
) -> Result<Outcome, SessionFault>
    requires { K.failed out.old < u64.MAX }
    ensures { Sends limits.outputs limits.steps (texts_of texts.now) result (K.written out.old) (K.written out.new) }
{
    let mut image = Reading::new(texts.program.image.bytes.as_slice());
    let mut regions = Reading::new(texts.program.regions.bytes.as_slice());
    let mut inputs = Reading::new(texts.inputs.bytes.as_slice());
    session(
        alloc,
        &mut image,
        &mut regions,
        &mut inputs,
        out,
        limits.steps,
        limits.outputs,
    )
}

/// Reports the fault of a session, with the path of the file of whose bytes it is, and says why standard output takes no more if it is of
/// that.
fn report_session<C: Console>(
    console: &mut C,
    texts: &RunTexts<'_>,
    fault: SessionFault,
    failure: Option<ErrorKind>,
) -> Reported
    ensures { Blames (fault_file texts.now fault ≢ None) (C.journal console.old) (C.journal console.new) }
{
    match (file_of_fault(texts, fault), fault) {
        (Some(file), _) => report_text(console, file, fault),
        (None, SessionFault::Write) => console.report_output(failure),
        (None, SessionFault::Read(_)) => console.report(Lack::Read),
        (None, SessionFault::TooLong(_)) => console.report(Lack::TooLong),
        (None, _) => console.report_memory(),
    }
}

/// The file of whose bytes a fault of a session is; `None` if it is of no file's bytes.
fn file_of_fault<'t, 'a>(texts: &'t RunTexts<'a>, fault: SessionFault) -> Option<&'t ReadFile<'a>>
    ensures { option_copied result ≡ fault_file texts.now fault }
{
    match fault {
        SessionFault::Image(_) => Some(&texts.program.image),
        SessionFault::Regions(_) => Some(&texts.program.regions),
        SessionFault::Inputs(_) => Some(&texts.inputs),
        SessionFault::Read(_)
        | SessionFault::TooLong(_)
        | SessionFault::Write
        | SessionFault::Refused(_)
        | SessionFault::Memory => None,
    }
}

/// Reports a fault of the bytes of `file`, and says what is wrong with them, if words are asked for.
fn report_text<C: Console>(console: &mut C, file: &ReadFile<'_>, fault: SessionFault) -> Reported
    ensures { C.journal console.new ≡ and_blamed (C.journal console.old) }
{
    let reported = console.blame_file(file.path, fault);
    match fault {
        SessionFault::Image(fault) => explain_image(console, &file.bytes, fault),
        SessionFault::Regions(fault) => {
            explain_regions(console, &file.bytes, fault);
            console.explain_any(place_of_regions(&file.bytes));
        }
        SessionFault::Inputs(number) => explain_inputs(console, &file.bytes, number),
        _ => {}
    }
    reported
}
