//! The option `--board`: the file of a board, and what commands take of it.
//!
//! Proved: the board that the file's bytes spell, or a fault of them; each range is the board's or, without one, an option's;
//! quiet RAM is the board's, and data.
//!
//! | Item | What it is |
//! |---|---|
//! | [`BOARD`], [`board_path`], [`GivenBoard`] | the option's name, its path, and the board of its file, if it is given |
//! | [`quiet_outside`] | the board's RAM that only a program writes |
//! | [`MisplacedRegions`] | where regions don't lie as the board has memory, in words |
//! | [`board_of`] | the board that a text spells |
//! | [`explain_board_text`] | what is wrong with the text of a board, in words |
#![tactic(auto)]

mod board_words;
mod given_board;
mod misplaced;
mod quiet;

pub use board_words::explain_board_text;
pub use given_board::{BOARD, GivenBoard, board_of, board_path};
pub use misplaced::MisplacedRegions;
pub use quiet::quiet_outside;
