//! The program's console, over files and standard streams.
//!
//! Proved: where each thing is noted; names of drafts and of copies, none of a path that names no file; numbers in the system's texts.
//!
//! That it does what it notes must be believed, and so must what replaces files here, and std below: no proof reads what a system does.
//! Nothing else of the program reaches the system but [`Reported::print`](plm80_console::Reported::print) and the arguments.
//!
//! | Item | What it is |
//! |---|---|
//! | [`HostConsole`], [`HostOutput`] | the console of the program, and its standard output |
//! | [`Notes`], [`Note`] | the journal of a run, which only proofs read; a thing that was done |
#![tactic(auto)]

mod files;
mod fitness;
mod host;
mod keeping;
mod notes;
mod path_parts;
mod replacing;
mod same_file;
mod size_limit;
mod system_text;
mod usage;

pub use host::{HostConsole, HostOutput};
pub use notes::{Note, Notes};
