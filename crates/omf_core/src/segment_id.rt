//! The ids of segments. (8080 Object Module Formats, segment ids; those of commons are this project's choice among them.)

ghost use Rattle.std.specs.Prelude.{◌≡◌};
ghost use Rattle.omf_core.specs.SegmentId.{segment_word};

/// The id of absolute bytes, whose offsets are addresses.
pub const ABSOLUTE: u8 = 0;

/// The id of the segment of instructions.
pub const CODE: u8 = 1;

/// The id of the segment of variables.
pub const DATA: u8 = 2;

/// The id of the stack segment, which has a length and no bytes.
pub const STACK: u8 = 3;

/// The id of the segment of the memory that is left over.
pub const MEMORY: u8 = 4;

/// The least id of a named common.
pub const FIRST_COMMON: u8 = 6;

/// The greatest id of a named common.
pub const LAST_COMMON: u8 = 254;

/// The id of the common without a name.
pub const UNNAMED_COMMON: u8 = 255;

/// The name of the segment with this id in printed lines, as `CODE`; `COMMON` for each id above 4.
pub fn word_of(id: u8) -> &'static [u8]
    ensures { result.now ≡ segment_word id }
{
    match id {
        ABSOLUTE => b"ABSOLUTE".as_slice(),
        CODE => b"CODE".as_slice(),
        DATA => b"DATA".as_slice(),
        STACK => b"STACK".as_slice(),
        MEMORY => b"MEMORY".as_slice(),
        _ => b"COMMON".as_slice(),
    }
}
