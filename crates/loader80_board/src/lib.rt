//! Runs of images among the devices of a board.
//!
//! Proved: the transcript of the run; each state of a vouched image's run is one on a board, of which the promise holds; the
//! lines of a run's instructions are those of its states; its counts.
//!
//! | Item | What it is |
//! |---|---|
//! | [`transcribe_on_board`], [`BoardTranscript`] | an image runs on a board; the transcript |
//! | [`write_board_lines`] | the lines of some of a run's instructions, written as they come |
//! | [`count_board_steps`], [`BoardCounts`] | how often a run begins the instruction at each address |
//! | [`BoardEnded`] | how a run ended, or was stopped |
//! | [`board_transcript_text`], [`board_ending_text`] | what is printed of a run on a board; its last line |
//! | [`laws`] | a run among devices is one on a board; nothing else decides it: as contracts |
#![tactic(auto)]

mod counting;
mod ended;
pub mod laws;
mod line;
mod running;
mod skipping;
mod tracing;
mod transcript;

pub use counting::{BoardCounts, count_board_steps};
pub use ended::BoardEnded;
pub use running::{BoardTranscript, transcribe_on_board};
pub use tracing::write_board_lines;
pub use transcript::{board_ending_text, board_transcript_text};
