//! The commands that suggest and write the regions of a program.
//!
//! Proved: what each prints and writes of an image, its regions and its options, and the status.
//!
//! | Item | What it is |
//! |---|---|
//! | [`advise_file`] | `suggest`: the regions that an image's bytes suggest |
//! | [`suggest_for_files`] | `cases`: the CASE lines that its tables suggest |
//! | [`migrate_file`] | `regions`: its regions as a text of version 2 |
#![tactic(auto)]

mod case_texts;
mod cases;
mod regions;
mod suggest;

pub use cases::{CASES, CasesArguments, suggest_for_files};
pub use regions::{REGIONS, RegionsArguments, migrate_file};
pub use suggest::{SUGGEST, SuggestArguments, advise_file};
