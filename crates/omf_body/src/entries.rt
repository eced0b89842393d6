//! The entries that bodies repeat. A byte that isn't read is kept as `unread`; it is written as 00.
//! (8080 Object Module Formats, record formats.)

ghost use Rattle.std.specs.Prelude.{◌≡◌};
ghost use Rattle.omf_body.specs.Entries.{is_paged, segment_layout, common_layout, public_layout, external_layout, offset_layout, index_layout};
ghost use Rattle.omf_body.specs.EntryLaws.{segment_laws, common_laws, public_laws, external_laws, offset_laws, index_laws};

use crate::cursor::Cursor;
use crate::entry::{Entry, ReadEntry};
use crate::fault::FieldFault;
use crate::name::NameBytes;
use omf_core::segment_id::{FIRST_COMMON, LAST_COMMON};
use omf_core::{push_name, push_word};
use std::alloc::AllocError;

/// The alignment byte of a segment that may start at any byte.
pub const ANY_BYTE: u8 = 3;

/// A segment in a module header record (02).
#[derive(Clone, Copy, PartialEq, Eq)]
pub struct SegmentEntry {
    /// The segment's id.
    pub id: u8,
    /// The number of the module's bytes in the segment.
    pub length: u16,
    /// The alignment byte: with 3 the segment may start at any byte, with others at a multiple of
    /// 256.
    pub alignment: u8,
}

/// A common in a named commons record (2E).
#[derive(Drop)]
pub struct CommonEntry<'a> {
    /// The segment id, from 6 to 254.
    pub id: u8,
    /// The common's name.
    pub name: NameBytes<'a>,
}

/// A public in a public declarations record (16).
#[derive(Drop)]
pub struct PublicEntry<'a> {
    /// The offset in the record's segment.
    pub offset: u16,
    /// The public's name.
    pub name: NameBytes<'a>,
    /// A byte that has no effect.
    pub unread: u8,
}

/// A name in an external names record (18), which another module declares.
#[derive(Drop)]
pub struct ExternalEntry<'a> {
    /// The external's name.
    pub name: NameBytes<'a>,
    /// A byte that has no effect.
    pub unread: u8,
}

/// A reference in a relocation (22) or intersegment references record (24).
#[derive(Clone, Copy, PartialEq, Eq)]
pub struct OffsetEntry {
    /// The reference's offset in the segment of the content.
    pub offset: u16,
}

/// A reference in an external references record (20).
#[derive(Clone, Copy, PartialEq, Eq)]
pub struct IndexEntry {
    /// The index of the external among the module's externals, from 0.
    pub index: u16,
    /// The reference's offset in the segment of the content.
    pub offset: u16,
}

impl SegmentEntry {
    /// Whether the segment starts at a multiple of 256: its alignment byte isn't 3.
    pub fn is_paged(self) -> bool
        ensures { result ≡ is_paged self }
    {
        self.alignment != ANY_BYTE
    }
}

impl Entry for SegmentEntry {
    ghost layout = { segment_layout };

    /// Appends the id, the length as a word, and the alignment byte.
    fn write(&self, out: &mut Vec<u8>) -> Result<(), AllocError> {
        out.push(self.id)?;
        push_word(self.length, out)?;
        out.push(self.alignment)?;
        Ok(())
    }

    ghost laws = { segment_laws };
}

impl<'a> ReadEntry<'a> for SegmentEntry {
    /// Reads the id, the length as a word, and the alignment byte.
    fn read(cursor: &mut Cursor<'a>) -> Result<SegmentEntry, FieldFault> {
        let id = cursor.byte()?;
        let length = cursor.word()?;
        let alignment = cursor.byte()?;
        Ok(SegmentEntry {
            id,
            length,
            alignment,
        })
    }
}

impl<'a> Entry for CommonEntry<'a> {
    ghost layout = { common_layout };

    /// Appends the id and the name.
    fn write(&self, out: &mut Vec<u8>) -> Result<(), AllocError> {
        out.push(self.id)?;
        push_name(self.name.bytes(), out)
    }

    ghost laws = { common_laws };
}

impl<'a> ReadEntry<'a> for CommonEntry<'a> {
    /// Reads the id, `BadBody` if it is outside 6 to 254, and the name.
    fn read(cursor: &mut Cursor<'a>) -> Result<CommonEntry<'a>, FieldFault> {
        let id = cursor.byte()?;
        if !(FIRST_COMMON <= id && id <= LAST_COMMON) {
            return Err(FieldFault::BadBody);
        }
        let name = cursor.name()?;
        Ok(CommonEntry { id, name })
    }
}

impl<'a> Entry for PublicEntry<'a> {
    ghost layout = { public_layout };

    /// Appends the offset as a word, the name, and the byte without effect.
    fn write(&self, out: &mut Vec<u8>) -> Result<(), AllocError> {
        push_word(self.offset, out)?;
        push_name(self.name.bytes(), out)?;
        out.push(self.unread)?;
        Ok(())
    }

    ghost laws = { public_laws };
}

impl<'a> ReadEntry<'a> for PublicEntry<'a> {
    /// Reads the offset as a word, the name, and the byte without effect.
    fn read(cursor: &mut Cursor<'a>) -> Result<PublicEntry<'a>, FieldFault> {
        let offset = cursor.word()?;
        let name = cursor.name()?;
        let unread = cursor.byte()?;
        Ok(PublicEntry {
            offset,
            name,
            unread,
        })
    }
}

impl<'a> Entry for ExternalEntry<'a> {
    ghost layout = { external_layout };

    /// Appends the name and the byte without effect.
    fn write(&self, out: &mut Vec<u8>) -> Result<(), AllocError> {
        push_name(self.name.bytes(), out)?;
        out.push(self.unread)?;
        Ok(())
    }

    ghost laws = { external_laws };
}

impl<'a> ReadEntry<'a> for ExternalEntry<'a> {
    /// Reads the name and the byte without effect.
    fn read(cursor: &mut Cursor<'a>) -> Result<ExternalEntry<'a>, FieldFault> {
        let name = cursor.name()?;
        let unread = cursor.byte()?;
        Ok(ExternalEntry { name, unread })
    }
}

impl Entry for OffsetEntry {
    ghost layout = { offset_layout };

    /// Appends the offset as a word.
    fn write(&self, out: &mut Vec<u8>) -> Result<(), AllocError> {
        push_word(self.offset, out)
    }

    ghost laws = { offset_laws };
}

impl<'a> ReadEntry<'a> for OffsetEntry {
    /// Reads the offset as a word.
    fn read(cursor: &mut Cursor<'a>) -> Result<OffsetEntry, FieldFault> {
        let offset = cursor.word()?;
        Ok(OffsetEntry { offset })
    }
}

impl Entry for IndexEntry {
    ghost layout = { index_layout };

    /// Appends the external's index and the offset as words.
    fn write(&self, out: &mut Vec<u8>) -> Result<(), AllocError> {
        push_word(self.index, out)?;
        push_word(self.offset, out)
    }

    ghost laws = { index_laws };
}

impl<'a> ReadEntry<'a> for IndexEntry {
    /// Reads the external's index and the offset as words.
    fn read(cursor: &mut Cursor<'a>) -> Result<IndexEntry, FieldFault> {
        let index = cursor.word()?;
        let offset = cursor.word()?;
        Ok(IndexEntry { index, offset })
    }
}
