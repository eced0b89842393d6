//! Libraries of Intel's 8080 object files (OMF-80): modules that a linker takes as they are needed, and how they are read
//! and written.
//!
//! Proved: the same of libraries; the first provider of each name.
//!
//! | Item | What it is |
//! |---|---|
//! | [`Library`] | the modules of a library, in order; the first that declares a name |
//! | [`Providers`] | the first module of a list that declares each name |
//! | [`NameHashes`] | the hashes of a table's names |
//! | [`read_library`] | the library that a file holds |
//! | [`LibraryFeed`] | the library that a file holds which comes in pieces |
//! | [`write_library`] | modules as a library |
//! | [`laws`] | what holds of all libraries |
//! | [`LibraryFault`], [`LibraryPutFault`] | why bytes are no library, and why modules are written as none |
#![tactic(auto)]

mod fault;
mod feed;
pub mod laws;
mod library;
mod name_hashes;
mod providers;
mod reading;
mod unfinished;
mod writing;

pub use fault::{LibraryFault, LibraryPutFault};
pub use feed::LibraryFeed;
pub use library::Library;
pub use name_hashes::NameHashes;
pub use providers::Providers;
pub use reading::read_library;
pub use writing::write_library;
