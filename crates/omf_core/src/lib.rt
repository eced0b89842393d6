//! Records and names of Intel's 8080 object files (OMF-80): the lowest layer of the object-file side.
//!
//! Proved: a record is read exactly if the bytes spell it, also from pieces.
//!
//! - [`next_record`] reads the record that begins at a place, [`is_cut_off`] says whether the bytes end before one does,
//!   [`put_record`] appends one, and [`sum_of`] is the sum that both use; [`push_word`] and [`push_name`] append what bodies
//!   are made of, and [`never_too_long`] is for bodies that fit a record;
//! - [`RecordKind`] names the kinds of the standard;
//! - [`segment_id`] has the ids of segments;
//! - [`split_name`] reads a name out of a record's body, and a [`Name`] is a name that is kept;
//! - a [`Feed`] counts the records of a file that comes in pieces;
//! - [`RecordFault`], [`PutFault`], [`NameFault`] and [`FeedFault`] are the refusals, each with its `code`;
//! - [`laws`] says what holds of all spellings, as that none begins another.

#![tactic(auto)]

mod fault;
mod feed;
mod kind;
pub mod laws;
mod name;
mod put;
mod record;
pub mod segment_id;
mod split;
mod sum;

pub use fault::{FeedFault, NameFault, PutFault, RecordFault};
pub use feed::Feed;
pub use kind::RecordKind;
pub use name::Name;
pub use put::{never_too_long, push_name, push_word, put_record};
pub use record::{Record, is_cut_off, next_record};
pub use split::split_name;
pub use sum::sum_of;
