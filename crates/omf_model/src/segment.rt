//! The size of a segment, and its alignment.

/// The size of a segment of one module in bytes, and whether its part of a linked segment starts at a multiple of 256.
/// (8080 Object Module Formats, module header record: segment length and alignment.)
///
/// Segments go by their ids: 0 absolute, 1 CODE, 2 DATA, 3 STACK, 4 MEMORY, 6 to 254 named commons,
/// 255 the unnamed common.
#[derive(Clone, Copy, PartialEq, Eq, Debug)]
pub struct Segment {
    /// The number of bytes.
    pub length: u16,
    /// Whether the segment starts at a multiple of 256; otherwise it may start at any byte.
    pub paged: bool,
}
