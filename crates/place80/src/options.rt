//! What a caller of LOCATE chooses: bases and sizes.

use omf_core::segment_id::{CODE, DATA, MEMORY, STACK, UNNAMED_COMMON};

/// The options of LOCATE: bases of segments, and sizes in place of the lengths of STACK and MEMORY. `None` leaves the
/// default. (ISIS-II User's Guide, LOCATE: the controls CODE, STACK, DATA, MEMORY and STACKSIZE; the others are this
/// project's.)
#[derive(Clone, Copy, Debug, Default, PartialEq, Eq)]
pub struct Options {
    /// The base of CODE; by default 3000h.
    pub code: Option<u16>,
    /// The base of STACK, its lowest address; by default STACK follows the segment before it.
    pub stack: Option<u16>,
    /// The base of the unnamed common; by default it follows the segment before it.
    pub common: Option<u16>,
    /// The base of DATA; by default DATA follows the segment before it.
    pub data_base: Option<u16>,
    /// The base of MEMORY; by default MEMORY follows the segment before it.
    pub memory: Option<u16>,
    /// The length of STACK in bytes; by default the module's.
    pub stack_size: Option<u16>,
    /// The length of MEMORY in bytes; by default the module's.
    pub memory_size: Option<u16>,
}

impl Options {
    ghost use Rattle.std.specs.Prelude.{◌≡◌};
    ghost use Rattle.place80.specs.Layout.{given_base, given_length};

    /// The base that the options give for the segment with this id, `None` if they give none.
    pub(crate) fn base(&self, id: u8) -> Option<u16>
        ensures { result ≡ given_base self.now id }
    {
        match id {
            CODE => self.code,
            DATA => self.data_base,
            STACK => self.stack,
            MEMORY => self.memory,
            UNNAMED_COMMON => self.common,
            _ => None,
        }
    }

    /// The length that the options give for the segment with this id, `None` if they give none.
    pub(crate) fn length(&self, id: u8) -> Option<u16>
        ensures { result ≡ given_length self.now id }
    {
        match id {
            STACK => self.stack_size,
            MEMORY => self.memory_size,
            _ => None,
        }
    }
}
