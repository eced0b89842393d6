//! What LOCATE prints: maps of programs, and public names in an image's file.
//!
//! Proved: the places that LOCATE gives, each public name once, at its address; the file is the same image; the first unmapped address.
//!
//! | Item | What it is |
//! |---|---|
//! | [`map_text`] | a line for each segment, and one for each public name |
//! | [`write_image_with_publics`] | an image as an object file, with the publics of its module as publics of segment 0 |
//! | [`read_publics`] | the publics that an image's file has |
//! | [`first_unmapped`], [`Board`], [`Unmapped`] | whether a board has memory for a program's bytes, and the first address at which it has none |
//! | [`append_unmapped`] | the words for such an address |
#![tactic(auto)]

mod board;
mod mapping;
mod public_lines;
mod reading;
mod segment_lines;
mod writing;

pub use board::{Board, Unmapped, append_unmapped, first_unmapped};
pub use mapping::map_text;
pub use reading::read_publics;
pub use writing::write_image_with_publics;
