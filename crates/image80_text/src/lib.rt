//! Listings of images, and names of their addresses.
//!
//! Proved: the listing of the image; the first name at an address, the nearest below it in its code.
//!
//! | Item | What it is |
//! |---|---|
//! | [`PublicTable`] | publics, looked up by address: the first one there, the nearest at or below it in the same range of code |
//! | [`append_name`], [`append_label`] | the name of an address behind a line; the line of the public at an address |
//! | [`name_line`], [`name_lines`] | a line, and the lines of a text, with the names of the addresses that stand in them behind |
//! | [`label_lines`] | lines of instructions, with lines for their names before them |
//! | [`laws`] | texts without names are as before, the nearest public is the greatest, as contracts |
//! | [`listing`] | the instructions of an image's code, a line each |
//! | [`append_columns`] | the columns before the text of a line |
//! | [`laws`] | the lines of a range take all of its bytes, as a contract |
#![tactic(auto)]

mod addresses;
pub mod laws;
mod lines;
mod list_text;
pub mod listing_laws;
mod naming;
mod table;

pub use lines::{label_lines, name_line, name_lines};
pub use list_text::{append_columns, listing};
pub use naming::{append_label, append_name};
pub use table::PublicTable;
