//! The program of the core: one input with an image, regions and inputs, to the transcript of a run. `plm80` without arguments does the same.
#![tactic(auto)]

use plm80_bundles::run_bundle;
use plm80_host::HostConsole;
use std::process::ExitCode;

/// Runs the bundle on standard input, prints its transcript, and gives the exit status, as [`run_bundle`]. Faults aren't explained.
fn main(rt: HostRuntime) -> ExitCode {
    let mut console = HostConsole::new(&rt, false);
    run_bundle(&mut console)
}
