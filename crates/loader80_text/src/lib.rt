//! Texts about runs: the verifier's report, bundles that are run whole, and inputs from words.
//!
//! Proved: each procedure's row; what a session on a bundle's three parts writes; the text spells exactly these inputs.
//!
//! | Item | What it is |
//! |---|---|
//! | [`report_text`] | the report: the bytes of stack, and a line for each procedure |
//! | [`append_rows`] | the lines of procedures alone |
//! | [`bundle`] | one input to the transcript of a run |
//! | [`BUNDLE_LIMIT`] | the greatest number of bytes of a bundle |
//! | [`BundleFault`] | why a bundle has no outcome |
//! | [`inputs_begin_at_the_first_inputs_line`] | where a bundle's inputs begin, as a contract |
//! | [`WordInputs`] | the bytes that words name, and the text that spells them |
//! | [`Repeated`] | a byte that waits at a port, a given number of times |
//! | [`WordFault`] | a word is of another form |
//! | [`LengthFault`] | the text has more bytes than a loader reads |
#![tactic(auto)]

mod bundles;
mod inputs;
mod reporting;

pub use bundles::laws::inputs_begin_at_the_first_inputs_line;
pub use bundles::{BUNDLE_LIMIT, BundleFault, bundle};
pub use inputs::{LengthFault, Repeated, WordFault, WordInputs};
pub use reporting::{append_rows, report_text};
