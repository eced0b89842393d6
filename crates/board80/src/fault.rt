//! Why bytes are no text of a board.

use std::alloc::{AllocError, AllocFailed};
use thiserror::Error;

/// Why bytes are no text of a board: `BadVersion`, or the fault of the first line, counted from 1, that isn't as it must be after
/// the lines before it, the first that holds of it in the order of the other variants; or that memory ran out.
#[derive(Clone, Copy, Debug, PartialEq, Eq, Error)]
pub enum BoardFault {
    /// The first line is not `BOARD 1`.
    #[error("BadVersion")]
    BadVersion,
    /// The line has no form that a line may have, or lacks its line feed: a range without an address or past FFFF, a list
    /// without a byte, empty brackets, something behind what comes for ever, a count of 0 or 1, with leading zeros, or past
    /// 64 bits, and rows out of order or twice for a byte are also none.
    #[error("BadLine {0}")]
    BadLine(usize),
    /// The line's range has an address that an earlier range has.
    #[error("RangesOverlap {0}")]
    RangesOverlap(usize),
    /// An earlier line has the answers of the line's port.
    #[error("PortTwice {0}")]
    PortTwice(usize),
    /// An earlier line has the answers of the line's cell, or is an interrupt at its address.
    #[error("AddressTwice {0}")]
    AddressTwice(usize),
    /// The line's cell, or the one that its table goes by, lies in no DEVICE range before the line.
    #[error("OutsideDevice {0}")]
    OutsideDevice(usize),
    /// Out of memory.
    #[error("Memory")]
    Memory,
}

impl From<AllocError> for BoardFault {
    ghost use Rattle.std.specs.Prelude.{◌≡◌};
    ghost use Rattle.board80.specs.declared.fault.BoardFault.TheVariants.{Memory};

    ghost from_gives = { λ _ fault. fault ≡ Memory };

    /// The fault `Memory`.
    fn from(_error: AllocError) -> BoardFault {
        BoardFault::Memory
    }
}

impl<T: Drop> From<AllocFailed<T>> for BoardFault {
    ghost use Rattle.std.specs.Prelude.{◌≡◌};
    ghost use Rattle.board80.specs.declared.fault.BoardFault.TheVariants.{Memory};

    ghost from_gives = { λ _ fault. fault ≡ Memory };

    /// The fault `Memory`.
    fn from(_error: AllocFailed<T>) -> BoardFault {
        BoardFault::Memory
    }
}
