//! Why bytes are no regions text.

use std::alloc::{AllocError, AllocFailed};
use thiserror::Error;

/// Why bytes are no regions text, the first that holds in the order `BadVersion`, `BadLine`,
/// `NoStack`, `RegionsOverlap`; or that memory ran out.
#[derive(Clone, Copy, Debug, PartialEq, Eq, Error)]
pub enum RegionsFault {
    /// The number, counted from 1, of the first line that is no line of a regions text of its version, is a second
    /// STACK line or a second CASE line for an address, or lacks its line feed.
    #[error("BadLine {0}")]
    BadLine(usize),
    /// The first line is neither `REGIONS 1` nor `REGIONS 2`.
    #[error("BadVersion")]
    BadVersion,
    /// An address lies in two ranges.
    #[error("RegionsOverlap")]
    RegionsOverlap,
    /// There is no STACK line.
    #[error("NoStack")]
    NoStack,
    /// Out of memory.
    #[error("Memory")]
    Memory,
}

impl RegionsFault {
    ghost use Rattle.std.specs.Prelude.{◌≡◌};
    ghost use Rattle.image80.specs.RegionsFault.{code_of};

    /// The fault's number: 1 `BadLine`, 2 `BadVersion`, 3 `RegionsOverlap`, 4 `NoStack`, 5 `Memory`.
    pub fn code(&self) -> u8
        ensures { result ≡ code_of self.now }
    {
        match self {
            RegionsFault::BadLine(_) => 1,
            RegionsFault::BadVersion => 2,
            RegionsFault::RegionsOverlap => 3,
            RegionsFault::NoStack => 4,
            RegionsFault::Memory => 5,
        }
    }
}

impl From<AllocError> for RegionsFault {
    ghost use Rattle.std.specs.Prelude.{◌≡◌};
    ghost use Rattle.image80.specs.declared.fault.RegionsFault.TheVariants.{Memory};

    ghost from_gives = { λ _ fault. fault ≡ Memory };

    /// The fault `Memory`.
    fn from(_error: AllocError) -> RegionsFault {
        RegionsFault::Memory
    }
}

impl<T: Drop> From<AllocFailed<T>> for RegionsFault {
    ghost use Rattle.std.specs.Prelude.{◌≡◌};
    ghost use Rattle.image80.specs.declared.fault.RegionsFault.TheVariants.{Memory};

    ghost from_gives = { λ _ fault. fault ≡ Memory };

    /// The fault `Memory`.
    fn from(_error: AllocFailed<T>) -> RegionsFault {
        RegionsFault::Memory
    }
}
