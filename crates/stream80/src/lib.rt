//! Readers and writers of bytes, whose failures are counted.
//!
//! Proved: a source read whole, or the one reason; bytes written whole, or a prefix.
//!
//! | Item | What it is |
//! |---|---|
//! | [`Source`], [`Sink`] | what gives and takes bytes, and counts the calls that failed |
//! | [`Failed`] | a read or a write that failed |
//! | [`Reading`], [`Writing`] | those made of std's readers and writers |
//! | [`read_all`], [`write_all`] | a source read whole within a limit, bytes written whole |
//! | [`ReadAllFault`] | why a source wasn't read whole |
//! | [`TEXT_LIMIT`] | the greatest number of bytes of a text |
#![tactic(auto)]

mod reading;
mod stream;
mod whole;
mod writing;

pub use reading::Reading;
pub use stream::{Failed, Sink, Source};
pub use whole::{ReadAllFault, TEXT_LIMIT, read_all, write_all};
pub use writing::Writing;
