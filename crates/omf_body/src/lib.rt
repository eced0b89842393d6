//! The bodies of the records of Intel's 8080 object files (OMF-80), typed: what each field of a record says, read in place
//! and written back.
//!
//! Proved: read exactly if its bytes spell it; written and read back the same.
//!
//! | Item | What it is |
//! |---|---|
//! | [`parse`], [`Body`] | a record's body, or its first fault; it borrows from the file and takes no memory |
//! | [`Row`], [`Entry`], [`ReadEntry`] | the entries that a body repeats, one after another; the one way in which each is written, and read |
//! | [`Cursor`] | what is left of a body, field by field |
//! | [`Field`], [`segment_id`] | which bytes of a word a reference is to; the ids of segments |
//! | [`put_header`], [`put_commons`], [`put_publics`], [`put_externals`], [`put_content`], [`put_external_references`], [`put_relocation`], [`put_intersegment`], [`put_end`] | a whole record appended to a file |
//! | [`FieldFault`], [`BodyFault`] | why bytes are no field, or no body of their record |
//! | [`laws`] | bytes spell one body at most, or have one first fault, never both; what is written spells its body |

#![tactic(auto)]

mod body;
mod bytes;
mod cursor;
mod distinct;
mod entries;
mod entry;
mod fault;
mod field;
pub mod laws;
mod name;
mod parsing;
mod row;
mod writing;

pub use body::{
    Body, ContentBody, EndBody, ExternalReferencesBody, HeaderBody, IntersegmentBody, Place,
    PublicsBody, RelocationBody,
};
pub use bytes::Bytes;
pub use cursor::Cursor;
pub use entries::{
    ANY_BYTE, CommonEntry, ExternalEntry, IndexEntry, OffsetEntry, PublicEntry, SegmentEntry,
};
pub use entry::{Entry, ReadEntry};
pub use fault::{BodyFault, FieldFault};
pub use field::Field;
pub use name::NameBytes;
pub use omf_core::segment_id;
pub use parsing::parse;
pub use row::Row;
pub use writing::{
    put_commons, put_content, put_end, put_external_references, put_externals, put_header,
    put_intersegment, put_publics, put_relocation,
};
