//! A board: its memory, devices, interrupts and answers, and its text.
//!
//! Proved: a board exactly if the bytes spell it, and its text is those bytes; the byte of a list at each index.
//!
//! | Item | What it is |
//! |---|---|
//! | [`Board`], [`Line`] | a board, and a line of it |
//! | [`Kind`], [`Place`] | ROM, RAM or a device; a port, or a cell of a device |
//! | [`Answers`], [`ByteList`], [`Table`] | what a port or a cell answers: the bytes of a list, or by the last byte put out |
//! | [`Item`], [`Bytes`], [`Group`], [`Row`] | the parts of lists and tables |
//! | [`read_board`], [`BoardFault`] | a board from its text, and why bytes are no text of a board |
//! | [`laws`] | what holds of the definitions alone |
#![tactic(auto)]

mod answers;
mod board;
mod byte_list;
mod digits;
mod fault;
pub mod laws;
mod line;
mod place;
mod read;
mod read_line;
mod read_list;
mod read_table;
mod seen;
mod slots;
mod table;

pub use answers::Answers;
pub use board::Board;
pub use byte_list::{ByteList, Bytes, Group, Item};
pub use fault::BoardFault;
pub use line::{Kind, Line};
pub use place::Place;
pub use read::read_board;
pub use table::{Row, Table};
