//! Bytes of a segment, with the fixups in them.

use crate::fixup::Fixup;
use std::marker::Model;

/// Bytes of a segment from an offset on, and the fixups in them, by offsets in the segment.
/// (8080 Object Module Formats, content record, and the fixup records that follow it.)
#[derive(Debug, Drop)]
pub struct Content {
    /// The segment's id.
    pub segment: u8,
    /// The offset of the first byte in the segment.
    pub offset: u16,
    /// The bytes, before their references are resolved.
    pub bytes: Vec<u8>,
    /// The references in the bytes, in order; no two share a byte if the content is in a module.
    pub fixups: Vec<Fixup>,
}

impl Model for Content {
    ghost use Rattle.omf_model.specs.Contents.{ContentValue};

    ghost Value = { ContentValue };

    ghost view = { λ c. record { segment = c.segment; offset = c.offset; bytes = c.bytes.items; fixups = c.fixups.items } };
}
