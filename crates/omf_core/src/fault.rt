//! The refusals of this crate. Each prints as its name, then its values with one space before each.

ghost use Rattle.std.specs.Prelude.{◌≡◌};
ghost use Rattle.omf_core.specs.Fault.{record_fault_code, is_truncation, put_fault_code, name_fault_code, feed_fault_code};
ghost use Rattle.omf_core.specs.declared.fault.PutFault.TheVariants.{Memory as OutOfMemory};

use std::alloc::AllocError;
use thiserror::Error;

/// Why no record can be read at a place. The value is that place, in bytes from the start of the
/// file.
#[derive(Clone, Copy, PartialEq, Eq, Debug, Error)]
pub enum RecordFault {
    /// The bytes end before the record at this place does.
    #[error("Truncated {0}")]
    Truncated(usize),
    /// The bytes of the record at this place don't sum to 0 modulo 256.
    #[error("BadSum {0}")]
    BadSum(usize),
    /// The length word of the record at this place is 0, which leaves no room for the checksum.
    #[error("ZeroLength {0}")]
    ZeroLength(usize),
}

impl RecordFault {
    /// The fault's number: 1 `Truncated`, 2 `BadSum`, 3 `ZeroLength`.
    pub fn code(&self) -> u8
        ensures { result ≡ record_fault_code self.now }
    {
        match self {
            RecordFault::Truncated(_) => 1,
            RecordFault::BadSum(_) => 2,
            RecordFault::ZeroLength(_) => 3,
        }
    }

    /// Whether the fault is `Truncated`: the bytes end before the record does, and more may
    /// complete it.
    pub fn is_truncated(&self) -> bool
        ensures { result ≡ is_truncation self.now }
    {
        match self {
            RecordFault::Truncated(_) => true,
            RecordFault::BadSum(_) | RecordFault::ZeroLength(_) => false,
        }
    }
}

/// Why a record can't be appended to bytes.
#[derive(Clone, Copy, PartialEq, Eq, Debug, Error)]
pub enum PutFault {
    /// The body has more than 65534 bytes, the most that one record carries.
    #[error("TooLong")]
    TooLong,
    /// Out of memory for the record.
    #[error("Memory")]
    Memory,
}

impl PutFault {
    /// The fault's number: 1 `TooLong`, 2 `Memory`.
    pub fn code(&self) -> u8
        ensures { result ≡ put_fault_code self.now }
    {
        match self {
            PutFault::TooLong => 1,
            PutFault::Memory => 2,
        }
    }
}

impl From<AllocError> for PutFault {
    ghost from_gives = { λ _ fault. fault ≡ OutOfMemory };

    fn from(_e: AllocError) -> PutFault {
        PutFault::Memory
    }
}

/// Why bytes can't be made a [`Name`](crate::Name).
#[derive(Clone, Copy, PartialEq, Eq, Debug, Error)]
pub enum NameFault {
    /// The bytes are none or more than 255, or one of them is outside 21h to 7Eh.
    #[error("BadName")]
    BadName,
    /// Out of memory for the name.
    #[error("Memory")]
    Memory,
}

impl NameFault {
    /// The fault's number: 1 `BadName`, 2 `Memory`.
    pub fn code(&self) -> u8
        ensures { result ≡ name_fault_code self.now }
    {
        match self {
            NameFault::BadName => 1,
            NameFault::Memory => 2,
        }
    }
}

/// Why a [`Feed`](crate::Feed) refuses a piece of a file.
#[derive(Clone, Copy, PartialEq, Eq, Debug, Error)]
pub enum FeedFault {
    /// A record of the file has this fault, whatever bytes follow.
    #[error("{0}")]
    Record(RecordFault),
    /// Out of memory for the piece.
    #[error("Memory")]
    Memory,
}

impl FeedFault {
    /// The fault's number: 1 `Record`, 2 `Memory`.
    pub fn code(&self) -> u8
        ensures { result ≡ feed_fault_code self.now }
    {
        match self {
            FeedFault::Record(_) => 1,
            FeedFault::Memory => 2,
        }
    }
}
