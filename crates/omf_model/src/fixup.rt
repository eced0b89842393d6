//! Fixups, and what they refer to.

use omf_body::Field;

/// What a fixup refers to.
#[derive(Clone, Copy, PartialEq, Eq, Debug)]
pub enum Target {
    /// The segment of the module with this id.
    Segment(u8),
    /// The external of the module with this index, from 0.
    External(u16),
}

/// A reference in a content to a segment of the module or to an external. (8080 Object Module
/// Formats: relocation, intersegment reference and external reference records.)
#[derive(Clone, Copy, PartialEq, Eq, Debug)]
pub struct Fixup {
    /// The offset of the reference's first byte in the segment of the content.
    pub offset: u16,
    /// Which bytes of the target's address the reference has: one, or two from the offset on.
    pub field: Field,
    /// What the reference is to.
    pub target: Target,
}
