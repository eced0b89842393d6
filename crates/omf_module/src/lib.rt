//! Relocatable modules of Intel's 8080 object files (OMF-80): how they are read and written. What a module holds, and the rules
//! that it keeps, stand in `omf_model`, whose names this crate passes on.
//!
//! Proved: exactly the modules that the bytes spell, or the first fault; written, they are read back as themselves.
//!
//! | Item | What it is |
//! |---|---|
//! | [`read_module`], [`read_file`] | the module that begins at a place; the modules of an object file |
//! | [`FileFeed`] | the modules of an object file that comes in pieces |
//! | [`next_module`], [`UnfinishedModule`] | the module that begins at a place of a file whose last bytes are still to come |
//! | [`write_module`], [`write_file`] | a module as records; modules as an object file |
//! | [`laws`] | bytes spell one module or have one first fault; what is written spells its module |
//! | [`ModuleFault`], [`Cause`] | why bytes make no module |
//! | [`Module`], [`Parts`], [`PartsFault`] | a module that keeps the rules; the parts that it is made of; why they make none |
//! | [`Segment`], [`Common`], [`Public`] | a segment's size and alignment; a named common; a declared name |
//! | [`Content`], [`Fixup`], [`Field`], [`Target`] | bytes of a segment, and the references that stand in them |
#![tactic(auto)]

mod commons;
mod fault;
mod file_feed;
mod gathering;
pub mod laws;
mod module_file;
mod open_content;
mod pieces;
mod reading;
mod record_reading;
mod uses;
mod writing;

pub use fault::{Cause, ModuleFault};
pub use file_feed::FileFeed;
pub use omf_model::{
    Common, Content, Field, Fixup, Module, Parts, PartsFault, Public, Segment, Target,
};
pub use pieces::{UnfinishedModule, next_module};
pub use reading::{read_file, read_module};
pub use writing::{write_file, write_module};
