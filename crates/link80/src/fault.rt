//! Why modules can't be linked.

use omf_core::Name;
use std::alloc::{AllocError, AllocFailed};
use thiserror::Error;

/// Why modules can't be linked: the first of these faults, in the order of their numbers, that they
/// have, or that memory ran out.
#[derive(Debug, PartialEq, Eq, Drop, Error)]
pub enum LinkFault {
    /// A public has the name of an earlier one; the first such, by module and then by record.
    #[error("DuplicatePublic {0}")]
    DuplicatePublic(Name),
    /// The module parts of this segment, CODE, DATA or STACK, need more than 65535 bytes one after
    /// another; the first such segment by its id.
    #[error("SegmentTooLong {0:02X}")]
    SegmentTooLong(u8),
    /// Two modules or more have a start.
    #[error("TwoMains")]
    TwoMains,
    /// A fixup refers to the high byte of an address in a segment in which its module's part
    /// doesn't start at a multiple of 256.
    #[error("HighNotPaged")]
    HighNotPaged,
    /// There are more than 249 named commons with different names.
    #[error("TooManyCommons")]
    TooManyCommons,
    /// Out of memory.
    #[error("Memory")]
    Memory,
    /// More than 65536 names are used that no module declares.
    #[error("TooManyExternals")]
    TooManyExternals,
}

impl From<AllocError> for LinkFault {
    ghost use Rattle.std.specs.Prelude.{◌≡◌};
    ghost use Rattle.link80.specs.declared.fault.LinkFault.TheVariants.{Memory};

    ghost from_gives = { λ _ fault. fault ≡ Memory };

    fn from(_: AllocError) -> LinkFault {
        LinkFault::Memory
    }
}

impl<T: Drop> From<AllocFailed<T>> for LinkFault {
    ghost use Rattle.std.specs.Prelude.{◌≡◌};
    ghost use Rattle.link80.specs.declared.fault.LinkFault.TheVariants.{Memory};

    ghost from_gives = { λ _ fault. fault ≡ Memory };

    fn from(_: AllocFailed<T>) -> LinkFault {
        LinkFault::Memory
    }
}

impl LinkFault {
    ghost use Rattle.std.specs.Prelude.{◌≡◌};
    ghost use Rattle.link80.specs.LinkFault.{link_fault_code};

    /// The fault's number: 1 `DuplicatePublic`, 2 `SegmentTooLong`, 3 `TwoMains`, 4 `HighNotPaged`,
    /// 5 `TooManyCommons`, 6 `Memory`, 7 `TooManyExternals`.
    pub fn code(&self) -> u8
        ensures { result ≡ link_fault_code self.now }
    {
        match self {
            LinkFault::DuplicatePublic(_) => 1,
            LinkFault::SegmentTooLong(_) => 2,
            LinkFault::TwoMains => 3,
            LinkFault::HighNotPaged => 4,
            LinkFault::TooManyCommons => 5,
            LinkFault::Memory => 6,
            LinkFault::TooManyExternals => 7,
        }
    }
}
