//! What the commands that print names of addresses share.
//!
//! Proved: names are those of the image's file, if asked for; without them a text is as it was; a report and its names.
//!
//! | Item | What it is |
//! |---|---|
//! | [`NAMES`] | the option by which names are printed |
//! | [`NamedFiles`], [`NAMED_FILES`] | the image, its regions and its names, which several commands read |
//! | [`ProgramTexts`] | the same, from what the files have |
//! | [`Names`] | the names of an image's addresses, put into texts |
//! | [`judge`], [`Verdict`], [`named_refusal`] | what the verifier says of an image: it is accepted, or its refusal with a name |
//! | [`explain_accepted`], [`explain_listed`], [`GapUse`] | what the verdict on an accepted image leaves to its board, and code without content, in words |
//! | [`explain_given`] | what is at the address of a refusal, and that an image has no names, in words |
//! | [`report_lines`] | why lines that come one by one weren't all printed |
//! | [`named_report`], [`named_refusal_report`] | the report on an image, or its refusal and its procedures, with their names |
#![tactic(auto)]

mod accepted_words;
mod line_faults;
mod named_files;
mod names;
mod refusal_words;
mod refusing;
mod reports;

pub use accepted_words::{GapUse, explain_accepted, explain_listed};
pub use line_faults::report_lines;
pub use named_files::{NAMED_FILES, NAMES, NamedFiles, ProgramTexts};
pub use names::Names;
pub use refusal_words::explain_given;
pub use refusing::{Verdict, judge, named_refusal};
pub use reports::{named_refusal_report, named_report};
