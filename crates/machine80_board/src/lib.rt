//! Runs among the devices of a board.
//!
//! Proved: the run is the one that the board's lines give, step by step: its outputs, its end and its steps.
//!
//! | Item | What it is |
//! |---|---|
//! | [`run_on_board`], [`BoardRun`] | an image runs, its ports and the cells of its devices answered by a board's lines |
//! | [`start`], [`step_on_board`], [`Rules`], [`Running`], [`Cursor`] | the same run, step by step |
//! | [`BoardEnd`], [`Output`] | how such a run ends; a byte that was put out at a port, or stored at a cell |
//! | [`IndexedLines`] | the lines of a board, with tables by which a look-up takes the same time for any number of lines |
//! | [`misplaced_device`] | the first line of a board whose device doesn't lie in the program's data |
#![tactic(auto)]

mod answering;
mod cells;
mod closed_ports;
mod cursor;
mod end;
mod indexed_lines;
mod output;
mod placing;
mod rules;
mod running;
mod slots;
mod stepping;

pub use cursor::Cursor;
pub use end::BoardEnd;
pub use indexed_lines::IndexedLines;
pub use output::Output;
pub use placing::misplaced_device;
pub use rules::{Rules, Running};
pub use running::{BoardRun, run_on_board, start};
pub use stepping::step_on_board;
