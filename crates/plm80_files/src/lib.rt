//! Files that commands read, and words on what is wrong with them.
//!
//! Proved: what was read is what the file's bytes spell, or its fault theirs; of which kinds of files and flaws of lines there are words.
//!
//! | Item | What it is |
//! |---|---|
//! | [`image_of`], [`regions_of`] | the image and the regions that several commands read |
//! | [`read_link_file`], [`read_modules`], [`LinkFile`] | object files and libraries, read in pieces |
//! | [`FileFault`] | why an object file or a library isn't read |
//! | [`explain_file`], [`explain_image`], [`explain_image_as`], [`explain_regions`], [`explain_inputs`], [`explain_flaws`] | what is wrong with a file or a line, in words |
//! | [`is_text`] | whether bytes are a text |
//! | [`UnreadBytes`], [`explain_unread`] | bytes of an object file that aren't read, in words |
#![tactic(auto)]

mod damage_words;
mod file_fault;
mod file_kinds;
mod line_words;
mod link_feed;
mod object_files;
mod program_files;
mod regions_words;
mod unread_bytes;

pub use file_fault::FileFault;
pub use file_kinds::{
    FileRole, INPUTS_LINE, explain_file, explain_inputs, is_text, place_of_regions,
};
pub use line_words::{FLAWS, LineFlaw, VERSION_FLAWS, explain_flaws, line_bytes};
pub use link_feed::{LinkFeed, LinkFile, read_link_file};
pub use object_files::{append_modules, explain_unread, read_modules};
pub use program_files::{
    IMAGE, REGIONS, explain_image, explain_image_as, image_of, regions_of, report_regions,
};
pub use regions_words::explain_regions;
pub use unread_bytes::UnreadBytes;
