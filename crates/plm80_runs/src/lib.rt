//! The commands of a located program's runs.
//!
//! Proved: what each prints and writes of an image, its regions, the inputs of its run and its options, and the status.
//!
//! | Item | What it is |
//! |---|---|
//! | [`run_files`] | `run`: the transcript of a run, its last instructions, the memory that it leaves |
//! | [`run_among_devices`], [`RunOutput`] | `run --board` and `cover --board`: the transcript of a run among the devices of a board, or the code with how often it began each instruction |
//! | [`trace_files`] | `trace`: the instructions of a run, a line each |
//! | [`trace_among_devices`] | `trace --board`: the instructions of a run among the devices of a board |
//! | [`cover_files`] | `cover`: the code, with how often a run began each instruction |
//! | [`write_inputs_file`] | `inputs`: the text of a run's inputs, from words |
#![tactic(auto)]

mod board_cover;
mod board_files;
mod board_run;
mod board_trace;
mod cover;
mod endings;
mod inputs;
mod on_board;
mod run;
mod run_arguments;
mod runnable;
mod session_files;
mod status;
mod trace;
mod watching;

pub use board_run::{BoardRunArguments, RunOutput, run_among_devices};
pub use board_trace::{BoardTraceArguments, trace_among_devices};
pub use cover::{COVER, CoverArguments, cover_files};
pub use inputs::{INPUTS, InputsArguments, write_inputs_file};
pub use run::{RUN, RunArguments, run_files};
pub use trace::{TRACE, TraceArguments, trace_files};
