//! An image's bytes as the source of an assembler program.
//!
//! Proved: the lines stand for each byte of the contents once, in order; instructions only where they are said to begin.
//!
//! | Item | What it is |
//! |---|---|
//! | [`source_of`] | the source of an image, with labels and names |
//! | [`code_in_sequence`] | the instructions of an image's code, each behind the one before |
#![tactic(auto)]

mod contents;
mod covered;
mod labels;
mod line;
mod lines;
mod names;
mod operands;
mod sequence;
mod source;
mod targets;
mod text;

pub use sequence::code_in_sequence;
pub use source::source_of;
