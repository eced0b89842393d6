//! What commands of `plm80` run on: a console with its journal, arguments and answers.
//!
//! Proved: what an answer writes, prints and gives; numbers of options; no written path is given twice.
//!
//! | Item | What it is |
//! |---|---|
//! | [`Console`], [`Reported`] | what a command runs on: reports faults, reads and writes files, prints; a fault that was reported |
//! | [`exit_code`] | the exit status of an answer, or of a fault that was reported |
//! | [`Syntax`], [`Argument`], [`Kind`] | a command and its arguments, as tables for clap |
//! | [`OptionText`], [`words_of`], [`ranges_of`] | an option with its value; a [`Console`] reads it as a number, a name, addresses, or ranges of them |
//! | [`explain_board`], [`RangeTexts`] | ranges that may have been meant otherwise, in words |
//! | [`Answer`], [`WrittenFile`] | what a command answers: files, lines and a status; a [`Console`] does it |
//! | [`ReadFile`], [`FaultOf`] | a file with its path; a fault with the path of its file |
//! | [`Lack`], [`FailureWords`] | what the machine or its system doesn't give; why the system failed, in words |
//! | [`TakePieces`] | what takes the pieces of a file |
//! | [`OneLine`] | a text that stays in its line |
//! | [`laws`] | a fault behind files that were read, as a contract |
#![tactic(auto)]

mod answer;
mod argument_texts;
mod comparison;
mod console;
mod failure_words;
mod joined_values;
mod lack;
pub mod laws;
mod new_file;
mod number_text;
mod one_line;
mod options;
mod pieces;
mod ranges;
mod read_file;
mod reported;
mod shared_paths;
mod syntax;

pub use answer::{Answer, WrittenFile, WrittenFiles};
pub use argument_texts::{argument_text, argument_values};
pub use console::Console;
pub use failure_words::FailureWords;
pub use joined_values::push_copies;
pub use lack::Lack;
pub use new_file::NewFile;
pub use number_text::{
    are_digits, byte_of_digits, count_of_digits, length_of_digits, word_of_digits,
};
pub use one_line::OneLine;
pub use options::{OptionText, words_of};
pub use pieces::TakePieces;
pub use ranges::{RangeTexts, explain_board, ranges_of};
pub use read_file::{FaultOf, ReadFile};
pub use reported::{Reported, exit_code};
pub use syntax::{Argument, Kind, Syntax, WHY};
