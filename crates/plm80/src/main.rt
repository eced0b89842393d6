//! `plm80`: the program, from its arguments, files and standard input to the calls of the layers below.
//!
//! Proved: a request is the one that the words spell; the exit status is that of its command, of a bundle's run, or 2.
//!
//! | Item | What it is |
//! |---|---|
//! | [`bundle`] | one input with an image, regions and inputs, to the transcript of a run |
//! | `commands` | the commands of the command line, with their arguments |
#![tactic(auto)]

ghost use Rattle.std.specs.Prelude.{◌≡◌, true, false, map, string_bytes};
ghost use Rattle.std.specs.Process.{exit_status};
ghost use Rattle.plm80_bundles.specs.Bundles.{IsBundleDone};
ghost use Rattle.plm80.specs.Requests.{IsCommandDone, asks_bundle};

mod commands;

use commands::{explain_if, refuse_arguments, run_command};
pub use loader80_text::{BUNDLE_LIMIT, BundleFault, bundle};
use plm80_console::Console;
use plm80_host::HostConsole;
use std::alloc::AllocError;
use std::env;
use std::io::{ErrorKind, IsTerminal};
use std::process::ExitCode;

/// Without arguments, or with `--why` alone, runs the bundle on standard input and writes its transcript to standard output; with
/// arguments, does the command that they name.
///
/// The exit status is 0 if the run halted or a command is done, 1 if the image is refused, 2 at a fault, 3 if the run ended at a
/// port, a store outside data or a jump outside its declared targets, and 4 if its steps were used up. A fault is one line on
/// standard error; with `--why`, at a terminal, or if the environment has `PLM80_WHY`, words about it follow.
fn main(rt: HostRuntime) -> ExitCode {
    let mut console = HostConsole::new(&rt, is_explained(&rt));
    let arguments = match env::args(&rt) {
        Ok(arguments) => arguments.collect::<Vec<String>>(rt.alloc()),
        Err(error) if error.kind() == ErrorKind::OutOfMemory => Err(AllocError),
        Err(_) => return refuse_arguments(&mut console),
    };
    match arguments {
        Ok(arguments) => run(&mut console, &arguments),
        Err(AllocError) => console.report_memory().status(),
    }
}

/// Whether words about every fault are printed: if the variable is set and not empty, unless it is 0; else if standard error is a terminal.
fn is_explained(rt: &HostRuntime) -> bool {
    match env::var(rt, "PLM80_WHY") {
        Ok(value) if !value.is_empty() => value.as_str() != "0",
        _ => rt.stderr().is_terminal(),
    }
}

/// Does what the arguments ask for, the first of which is the program's own name: the program, over whatever console.
pub fn run<C: Console>(console: &mut C, arguments: &[String]) -> ExitCode
    ensures bundle { asks_bundle arguments.now ≡ true → IsBundleDone (C.journal console.old) (C.journal console.new) (exit_status result) }
    ensures command { asks_bundle arguments.now ≡ false
        → IsCommandDone (map string_bytes arguments.now) (C.journal console.old) (C.journal console.new) (exit_status result) }
{
    if asks_bundle(arguments) {
        return run_bundle(console, arguments.len() > 1);
    }
    run_command(console, arguments)
}

/// Whether a bundle is asked for: there are no arguments but the program's name, or `--why` alone behind it.
fn asks_bundle(arguments: &[String]) -> bool
    ensures { result ≡ asks_bundle arguments.now }
{
    match arguments {
        [] | [_] => true,
        [_, why] => why.as_str() == "--why",
        _ => false,
    }
}

/// Runs the bundle on standard input, and gives the exit status; with `why`, faults are explained.
fn run_bundle<C: Console>(console: &mut C, why: bool) -> ExitCode
    ensures { IsBundleDone (C.journal console.old) (C.journal console.new) (exit_status result) }
{
    explain_if(console, why);
    plm80_bundles::run_bundle(console)
}
