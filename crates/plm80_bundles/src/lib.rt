//! A bundle, one input with an image, regions and inputs, run on a console: its transcript is printed.
//!
//! Proved: what was printed is what the session of the bundle sends, and the exit status is that of its run, 1 of a refusal, or 2 at a fault,
//! which was reported once.
//!
//! | Item | What it is |
//! |---|---|
//! | [`run_bundle`] | runs the bundle on standard input |
//! | [`status_of`], [`EndWords`] | the exit status of a run; words on how it ended |
#![tactic(auto)]

ghost use Rattle.std.specs.Prelude.{◌≡◌, ◌<◌, ◌≤◌, length, IfErr, IfOk};
ghost use Rattle.std.specs.Process.{exit_status};
ghost use Rattle.loader80_text.specs.{Bundle.BundleSends, Bundle.bundle_limit, BundleText.bundle_texts};
ghost use Rattle.plm80_bundles.specs.Bundles.{GivesBundle, GivesUpBundle, IsBundleDone, and_fault, bundle_status};

mod bundle_words;
mod status;

use bundle_words::explain_bundle;
use loader80::{Outcome, SessionFault};
use loader80_text::{BUNDLE_LIMIT, BundleFault, bundle};
use plm80_console::{Console, Lack, Reported, exit_code};
pub use status::{EndWords, status_of};
use std::alloc::{AllocError, Global};
use std::process::ExitCode;
use stream80::{Reading, Sink};

/// The steps that a bundle's run makes at most.
const STEPS: u64 = 1_000_000;

/// The outputs that a bundle's run keeps at most.
const OUTPUTS: usize = 65_536;

/// Runs the bundle on standard input, prints its transcript, and gives the exit status: 0 if the run halted, 1 if the image is refused, 2 at
/// a fault, 3 if the run ended at a port, a store outside data or a jump outside its declared targets, and 4 if its steps were used up.
pub fn run_bundle<C: Console>(console: &mut C) -> ExitCode
    ensures { IsBundleDone (C.journal console.old) (C.journal console.new) (exit_status result) }
{
    exit_code(transcribe(console))
}

/// Runs the bundle on standard input, prints its transcript, and gives the exit status.
fn transcribe<C: Console>(console: &mut C) -> Result<u8, Reported>
    ensures done { IfOk result (GivesBundle (C.journal console.old) (C.journal console.new)) }
    ensures fault { IfErr result (λ _. GivesUpBundle (C.journal console.old) (C.journal console.new)) }
{
    let text = console.read_input(BUNDLE_LIMIT)?;
    let mut output = console.output();
    let answer = answer_of(console.alloc(), &text, &mut output);
    let failure = console.take_back(output);
    match bundle_status(answer) {
        Ok(status) => {
            if let Ok(outcome) = answer {
                console.explain_any(EndWords::of(outcome.end, outcome.at));
            }
            Ok(status)
        }
        Err(fault) => {
            let reported = report_bundle(console, fault);
            explain_bundle(console, fault, &text, failure);
            Err(reported)
        }
    }
}

/// Reports the fault of a bundle.
fn report_bundle<C: Console>(console: &mut C, fault: BundleFault) -> Reported
    ensures { C.journal console.new ≡ and_fault (C.journal console.old) fault }
{
    match fault {
        BundleFault::Session(SessionFault::Memory) => console.report_memory(),
        BundleFault::Session(SessionFault::Write) => console.report(Lack::Write),
        BundleFault::Session(SessionFault::Read(_)) => console.report(Lack::ReadInput),
        _ => console.blame(fault),
    }
}

/// Runs the bundle of this text, and writes its transcript to `out`: how the run ended, or the bundle's fault.
fn answer_of<K: Sink>(alloc: Global, text: &[u8], out: &mut K) -> Result<Outcome, BundleFault>
    requires countable { K.failed out.old < u64.MAX }
    requires within { length text.now ≤ bundle_limit }
    ensures { BundleSends 65536 1000000 (bundle_texts text.now) result (K.written out.old) (K.written out.new) }
{
    let mut input = Reading::new(text);
    bundle(alloc, &mut input, out, STEPS, OUTPUTS)
}

/// The exit status of a bundle's answer: that of the run, or 1 of a refusal; any other fault is left a fault.
fn bundle_status(answer: Result<Outcome, BundleFault>) -> Result<u8, BundleFault>
    ensures { result ≡ bundle_status answer }
{
    match answer {
        Ok(outcome) => Ok(status_of(outcome.end)),
        Err(BundleFault::Session(SessionFault::Refused(_))) => Ok(1),
        Err(fault) => Err(fault),
    }
}
