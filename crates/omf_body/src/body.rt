//! What the bodies of records hold, kind by kind. Bytes that aren't read are kept as `unread`.
//! (8080 Object Module Formats, record formats.)

use crate::bytes::Bytes;
use crate::entries::{
    CommonEntry, ExternalEntry, IndexEntry, OffsetEntry, PublicEntry, SegmentEntry,
};
use crate::field::Field;
use crate::name::NameBytes;
use crate::row::Row;

/// The body of a module header (02).
#[derive(Drop)]
pub struct HeaderBody<'a> {
    /// The module's name.
    pub name: NameBytes<'a>,
    /// The id of the translator that made the module; it has no effect.
    pub translator: u8,
    /// The version of the translator; it has no effect.
    pub version: u8,
    /// The module's segments, no id twice.
    pub segments: Row<'a, SegmentEntry>,
}

/// A place in a module: a segment, and an offset there.
#[derive(Clone, Copy, PartialEq, Eq)]
pub struct Place {
    /// The segment's id.
    pub segment: u8,
    /// The offset in the segment, in bytes.
    pub offset: u16,
}

/// The body of a module end (04).
#[derive(Drop)]
pub struct EndBody<'a> {
    /// Where the program starts; `None` if the module isn't a main program.
    pub start: Option<Place>,
    /// The bytes after that, which have no effect.
    pub unread: Bytes<'a>,
}

/// The body of a content record (06): bytes of a segment.
#[derive(Drop)]
pub struct ContentBody<'a> {
    /// The id of the segment.
    pub segment: u8,
    /// The offset of the first byte in the segment.
    pub offset: u16,
    /// The segment's bytes from that offset on.
    pub bytes: Bytes<'a>,
}

/// The body of a public declarations record (16): publics of one segment.
#[derive(Drop)]
pub struct PublicsBody<'a> {
    /// The id of the segment that has the publics.
    pub segment: u8,
    /// The publics, in order.
    pub publics: Row<'a, PublicEntry<'a>>,
}

/// The body of an external references record (20): references to externals in the content before.
#[derive(Drop)]
pub struct ExternalReferencesBody<'a> {
    /// Which bytes of the external's address each reference has.
    pub field: Field,
    /// The references, in order.
    pub references: Row<'a, IndexEntry>,
}

/// The body of a relocation record (22): references in the content before to its own segment.
#[derive(Drop)]
pub struct RelocationBody<'a> {
    /// Which bytes of the target's address each reference has.
    pub field: Field,
    /// The references' offsets in that segment, in order.
    pub references: Row<'a, OffsetEntry>,
}

/// The body of an intersegment references record (24): references in the content before to another
/// segment.
#[derive(Drop)]
pub struct IntersegmentBody<'a> {
    /// The id of the segment that the references are to.
    pub segment: u8,
    /// Which bytes of the target's address each reference has.
    pub field: Field,
    /// The references' offsets in the segment of the content, in order.
    pub references: Row<'a, OffsetEntry>,
}

/// The body of a record of an object file. It borrows from the file.
#[derive(Drop)]
pub enum Body<'a> {
    /// A module header (02).
    ModuleHeader(HeaderBody<'a>),
    /// A module end (04).
    ModuleEnd(EndBody<'a>),
    /// A content record (06).
    Content(ContentBody<'a>),
    /// Line numbers (08), which aren't read further.
    LineNumbers(Bytes<'a>),
    /// An end of file (0E); its bytes have no effect.
    EndOfFile(Bytes<'a>),
    /// An ancestor record (10), which isn't read further.
    Ancestor(Bytes<'a>),
    /// Local symbols (12), which aren't read further.
    LocalSymbols(Bytes<'a>),
    /// Public declarations (16).
    PublicDeclarations(PublicsBody<'a>),
    /// External names (18).
    ExternalNames(Row<'a, ExternalEntry<'a>>),
    /// External references (20).
    ExternalReferences(ExternalReferencesBody<'a>),
    /// Relocations (22).
    Relocation(RelocationBody<'a>),
    /// Intersegment references (24).
    IntersegmentReferences(IntersegmentBody<'a>),
    /// Named commons (2E).
    NamedCommons(Row<'a, CommonEntry<'a>>),
}
