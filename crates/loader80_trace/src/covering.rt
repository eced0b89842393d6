//! The code of an image, line by line: its instructions at the addresses that walks reach, and its other bytes as data.
//!
//! | Item | What it is |
//! |---|---|
//! | [`list_reached`] | the lines alone |
//! | [`cover`] | the lines with how often each instruction was begun, and the sums |
//! | [`cover_instructions`] | the same of any table of instructions |

mod covering;
mod line;
mod places;

pub use covering::{cover, cover_instructions, list_instructions, list_marked, list_reached};
