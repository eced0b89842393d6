//! What a module of an object file holds, line by line.
//!
//! Proved: each field of the module once, in order.
//!
//! | Item | What it is |
//! |---|---|
//! | [`append_module_text`] | a line for the module, each segment, name and content, and its start |
//! | [`append_place`], [`append_part`], [`append_common`] | the words for a place, for a part of a segment, for a named common |
#![tactic(auto)]

mod lines;
mod module_text;
mod places;

pub use module_text::append_module_text;
pub use places::{append_common, append_part, append_place};
