//! The verifying loader: an image is verified and run, and its run is written as a transcript.
//!
//! Proved: the promise; the transcript of the run, or the one true refusal.
//!
//! | Item | What it is |
//! |---|---|
//! | [`vouch`], [`Vouched`], [`run`] | an image is checked, and runs; the first two stand in `verify80` |
//! | [`Refusal`], [`ProcRow`] | why the verifier refuses an image; what it says of a procedure |
//! | [`refusal_text`] | the line that is printed of a refusal |
//! | [`front_text`], [`ending_text`] | a run's transcript but for its last line; that line |
//! | [`session`] | three inputs to the transcript of a run |
//! | [`answer_texts`] | the same of three texts that were read |
//! | [`Source`], [`Sink`], [`Failed`] | what gives and takes bytes, and counts the calls that failed; these stand in `stream80` |
//! | [`Reading`], [`Writing`] | those made of std's readers and writers, which stand there too |
//! | [`read_all`], [`write_all`], [`ReadAllFault`] | a source read whole within a limit, bytes written whole, which stand there too |
//! | [`read_inputs`] | the inputs of a run, from their text |
//! | [`digits`] | hexadecimal digits, read and written |
//! | [`laws`] | what holds of what is answered, as a contract |
#![tactic(auto)]

pub mod digits;
mod fault;
mod inputs;
pub mod laws;
mod replies;
mod running;
mod sessions;
mod transcript;

pub use fault::SessionFault;
pub use inputs::{InputsFault, read_inputs};
pub use replies::{Outcome, Reply, SessionTexts, answer_texts};
pub use running::{Ended, run};
pub use sessions::session;
pub use stream80::{
    Failed, ReadAllFault, Reading, Sink, Source, TEXT_LIMIT, Writing, read_all, write_all,
};
pub use transcript::{ending_text, front_text, refusal_text};
pub use verify80::{ProcRow, Refusal, Vouched, vouch};
