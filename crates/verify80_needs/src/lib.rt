//! What of a state the later stores of a program may depend on, and how states grow.
//!
//! Proved: nothing rests on it.
//!
//! | Item | What it is |
//! |---|---|
//! | [`ReachedProgram`] | a program, and where each instruction leads from a state |
//! | [`Needs`], [`Named`] | what is needed of a state at each address: a later store, jump by HL or condition may depend on it |
//! | [`Units`], [`numbers_of`], [`sum_of`] | the parts of a state, a number for each, and their sum |
//! | [`Landmarks`] | the numbers to which spans grow: ends of data, of pages, and what the program names |
//! | [`Variables`], [`widened_cells`] | bytes of memory that are to stay inside a span |
//! | [`mark`] | marks an address |
#![tactic(auto)]

mod landmarks;
mod moving;
mod needs;
mod program;
mod slots;
mod units;
mod variables;

pub use landmarks::Landmarks;
pub use needs::{Named, Needs};
pub use program::{ReachedProgram, mark};
pub use slots::widened_cells;
pub use units::{PARTS, Units, numbers_of, sum_of};
pub use variables::Variables;
